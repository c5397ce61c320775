// Why a face is shown or hidden at a frame.
ghost use Rattle.std.specs.Prelude.{◌≡◌, ◌/◌, length};
ghost use Rattle.table_columns.specs.Parts.{rows_at};
ghost use Rattle.player_spec.specs.Lookups.{why_in};
ghost use Rattle.player_spec.specs.Answers.{numbered};
ghost use Rattle.player_why.specs.Internal.Rows.{reason_told, row_why};
ghost use Rattle.player_why.specs.Answers.{explained};

use crate::owning::row_owned;
use crate::reason::{Reason, by_line, first_reason};
use player_face_tests::Figure;
use player_patterns::deciding_line;
use player_tests::is_asked;
use table_columns::FACE_GROUP;
use table_counts::{FigureCounts, MovementCounts, PATTERN_WIDTH};
use table_movement::movement_in;
use table_references::{is_index, is_none};

// By a face's row and the pattern lines, in rows of three numbers; none is refusal 21, here and below.
fn row_why(f: &Figure, row: &[i64], patterns: &[i64], total: i64, at: usize) -> Option<Reason>
    requires { length row.now ≡ 11 }
    ensures { reason_told result ≡ row_why f.now.n f.now.table.now row.now (rows_at 3 patterns.now 0 (length patterns.now / 3)) total at }
{
    let group = row[FACE_GROUP];
    if !is_index(f.n.groups, group) {
        return None;
    }
    let corner = row_owned(f, row)?;
    if is_none(group) {
        return Some(first_reason(corner, Reason::Shown));
    }
    let line = deciding_line(patterns, total, f.n.groups, group as usize, at)?;
    Some(first_reason(corner, by_line(line)))
}

// Why a face is shown or hidden at a frame, in any tables with any counts. None is refusal 21.
pub fn why(
    table: &[i64],
    n: FigureCounts,
    moves: &[i64],
    m: MovementCounts,
    face: usize,
    at: usize,
) -> Option<Reason>
    ensures { explained result ≡ numbered (why_in n table.now m moves.now face at) }
{
    let f = Figure::of(table, n)?;
    let t = movement_in(moves, m);
    if t.end == 0 {
        return None;
    }
    let row = f.face(face)?;
    let total = moves[0];
    if !is_asked(total, at) {
        return None;
    }
    let from = t.patterns;
    let count = m.patterns;
    row_why(
        &f,
        row,
        &moves[from..from + count * PATTERN_WIDTH],
        total,
        at,
    )
}
