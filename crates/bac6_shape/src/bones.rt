// The bones of a figure, their rows after those before them in the table.
ghost use Rattle.std.specs.Prelude.{◌≡◌, ◌≤◌, length};
ghost use Rattle.parse_cursor.specs.Internal.Cursors.{from, parsed};
ghost use Rattle.bac6_bones.specs.Internal.Into.{fault_of};
ghost use Rattle.bac6_shape.specs.Internal.Steps.{bone_step};

use parse_cursor::{Cursor, Parsed, opened};
use table_counts::BONE_WIDTH;

// How many bones there are, the row of the first whose claims are at fault, if there is one, and the index after their rows, or the table's end.
#[derive(Clone, Copy, PartialEq, Eq)]
pub(crate) struct Skeleton {
    pub count: usize,
    pub fault: Option<usize>,
    pub end: usize,
}

pub(crate) fn read_bones(
    text: &[u8],
    c: Cursor,
    points: usize,
    rows: &mut [i64],
    at: usize,
    owners: &mut [i64],
) -> Parsed<Skeleton>
    requires { at ≤ length rows.old }
    ensures { parsed text.now result (λ b. (b.count, (b.end, rows.new), (fault_of b.fault, owners.new))) ≡ from text.now c (bone_step points (at, rows.old) owners.old) }
{
    let begun = opened(text, c, b"Bones");
    let (bones, past) = bac6_bones::bones(text, begun, points, &mut rows[at..], owners)?;
    let skeleton = Skeleton {
        count: bones.count,
        fault: bones.fault,
        end: table_index::rows_end(at, bones.count, BONE_WIDTH, rows.len()),
    };
    Ok((skeleton, past))
}
