// The deciding line, from all pattern lines in one pass.
ghost use Rattle.std.specs.Prelude.{◌≡◌, ◌/◌, length};
ghost use Rattle.table_columns.specs.Parts.{rows_at};
ghost use Rattle.player_patterns.specs.Internal.Answers.{decided, decided_in};

use crate::line::{line_fine, replaces};
use table_counts::PATTERN_WIDTH;

// A line's row and flag.
#[derive(Clone, Copy, PartialEq, Eq)]
pub struct Line {
    pub row: usize,
    pub shown: bool,
}

// Of all whole rows of three numbers, with so many groups: what decides of a group at a frame, if any line does; none is refusal 21.
pub fn deciding_line(
    rows: &[i64],
    total: i64,
    groups: usize,
    group: usize,
    at: usize,
) -> Option<Option<Line>>
    ensures { decided result ≡ decided_in total groups group at (rows_at 3 rows.now 0 (length rows.now / 3)) }
{
    let count = rows.len() / PATTERN_WIDTH;
    let mut started = count == 0;
    // The best line so far, and its frame; 0 where there is none, so that one test serves both.
    let mut best = None;
    let mut frame = 0;
    for row in 0..count {
        let base = row * PATTERN_WIDTH;
        let f = rows[base];
        let g = rows[base + 1];
        let flag = rows[base + 2];
        if !line_fine(total, groups, f, g, flag) {
            return None;
        }
        started |= f == 0;
        if replaces(f, g, group, at, frame) {
            best = Some(Line {
                row,
                shown: flag != 0,
            });
            frame = f as usize;
        }
    }
    started.then_some(best)
}
