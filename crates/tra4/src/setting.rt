// A parsed movement's lists set down in the lent table.
ghost use Rattle.std.specs.Prelude.{◌≡◌, ◌+◌, ◌≤◌, min, length, take};
ghost use Rattle.table_rows.specs.Internal.Overlay.{overlay_at};
ghost use Rattle.tra4.specs.Answers.{refused_with};
ghost use Rattle.tra4.specs.Internal.Answers.{Fits, down_answer, down_table, parts_of};

use refusal::Refusal;
use table_counts::{KEY_WIDTH, MOVEMENT_BONE_WIDTH, MovementCounts, PATTERN_WIDTH, no_movement};
use table_rows::put;
use tra4_parse::Shape;

// A refusal's number, place and file; or the total and how many rows each list has. All else is 0.
#[derive(Clone, Copy)]
pub struct MovementAnswer {
    pub refusal: usize,
    pub place: usize,
    pub file: usize,
    pub total: usize,
    pub counts: MovementCounts,
}

pub(crate) fn refused(e: Refusal) -> MovementAnswer
    ensures { result ≡ refused_with e.number e.place }
{
    MovementAnswer {
        refusal: e.number as usize,
        place: e.place,
        file: 1,
        total: 0,
        counts: no_movement(),
    }
}

// The first `size` numbers of `rows` put in the table at `at`; the index after them.
fn put_part(table: &mut [i64], at: usize, rows: &[i64], size: usize) -> usize
    requires { size ≤ length rows.now }
    ensures content { table.new ≡ overlay_at at (take size rows.now) table.old }
    ensures next { result ≡ min (at + length (take size rows.now)) (length table.old) }
{
    put(table, at, &rows[..size])
}

// Lays the lists without gaps, each list's part of its table; or refuses a table that is too short (17).
pub(crate) fn set_down(
    table: &mut [i64],
    p: Shape,
    bone_rows: &[i64],
    key_rows: &[i64],
    pattern_rows: &[i64],
) -> MovementAnswer
    requires { Fits p bone_rows.now key_rows.now pattern_rows.now }
    ensures answer { result ≡ down_answer p (length table.old) }
    ensures content { table.new ≡ down_table p (parts_of p bone_rows.now key_rows.now pattern_rows.now) table.old }
{
    let b = p.bones * MOVEMENT_BONE_WIDTH;
    let keys = p.keys.unwrap_or(0);
    let k = keys * KEY_WIDTH;
    let g = p.patterns * PATTERN_WIDTH;
    let total = 3 + b + k + g;
    if table.len() < total {
        return refused(Refusal {
            number: 17,
            place: total,
        });
    }
    let frames = p.total;
    let place = p.place;
    let size = p.length;
    let named = put(table, 0, &[frames, place as i64, size as i64]);
    let boned = put_part(table, named, bone_rows, b);
    let keyed = put_part(table, boned, key_rows, k);
    put_part(table, keyed, pattern_rows, g);
    let counts = MovementCounts {
        bones: p.bones,
        keys,
        patterns: p.patterns,
    };
    MovementAnswer {
        refusal: 0,
        place: 0,
        file: 0,
        total,
        counts,
    }
}
