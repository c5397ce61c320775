// The bones of a figure: one or more, their rows and their claims.
ghost use Rattle.std.specs.Prelude.{◌≡◌, ◌+◌, ◌*◌, ◌^◌, ◌<◌, min, length, IfOk, Ok};
ghost use Rattle.parse_cursor.specs.Internal.Cursors.{from, parsed};
ghost use Rattle.parse_rows.specs.Internal.Folds.{folded, stepped};
ghost use Rattle.bac6_text.specs.Grammar.{bone as bone_read};
ghost use Rattle.bac6_bones.specs.Internal.Into.{fault_of, bone_step, bones_into};
ghost use Rattle.bac6_bone.specs.Internal.Into.{bone_tail};

use bac6_bone::bone_tail;
use parse_cursor::{Cursor, Parsed};
use table_counts::BONE_WIDTH;

// How many bones were read, and the row of the first whose claims are at fault, if there is one (rule 11).
#[derive(Clone, Copy, PartialEq, Eq)]
pub struct Boned {
    pub count: usize,
    pub fault: Option<usize>,
}

// One bone after its opening bracket, after those before it: to the table from index `to` on, which is as good as that of its row.
fn next_bone(
    text: &[u8],
    c: Cursor,
    points: usize,
    before: Boned,
    table: &mut [i64],
    to: usize,
    owners: &mut [i64],
) -> Parsed<Boned>
    requires { (min to (length table.old) ≡ min (before.count * 14) (length table.old)) × (before.count < 2 ^ 63) }
    ensures owners_after { parsed text.now result (λ b. (b.count, table.new, (fault_of b.fault, owners.new))) ≡ from text.now c (stepped (bone_step points) bone_tail (before.count, table.old, (fault_of before.fault, owners.old))) }
    ensures count_value { IfOk result (λ p. p.0.count ≡ before.count + 1) }
{
    let count = before.count;
    let fault = before.fault;
    let (fine, past) = bone_tail(
        text,
        c,
        points,
        count as i64,
        table,
        to,
        owners,
        fault.is_none(),
    )?;
    let bones = Boned {
        count: count + 1,
        fault: fault.or((!fine).then_some(count)),
    };
    Ok((bones, past))
}

// The bones after the first.
fn more_bones(
    text: &[u8],
    start: usize,
    first: Boned,
    points: usize,
    table: &mut [i64],
    owners: &mut [i64],
) -> Parsed<Boned>
    requires { first.count ≡ 1 }
    ensures { parsed text.now result (λ b. (b.count, table.new, (fault_of b.fault, owners.new))) ≡ from text.now (Ok start) (folded (bone_step points) bone_read (first.count, table.old, (fault_of first.fault, owners.old))) }
{
    let mut at = start;
    let mut so_far = first;
    let mut i = BONE_WIDTH;
    loop {
        let (ended, next) = parse_numbers::next_item(text, Ok(at))?;
        if ended {
            return Ok((so_far, next));
        }
        let (bones, past) = next_bone(text, Ok(next), points, so_far, table, i, owners)?;
        so_far = bones;
        at = past;
        i = table_index::advance(i, BONE_WIDTH, table.len());
    }
}

// One bone or more, up to the closing bracket after them: their rows to the table, each with parent 0, and their claims on the
// first `points` vertices to the owners; numbers past the table's end are dropped. Where it is refused, what both hold is free.
pub fn bones(
    text: &[u8],
    c: Cursor,
    points: usize,
    table: &mut [i64],
    owners: &mut [i64],
) -> Parsed<Boned>
    ensures { parsed text.now result (λ b. (b.count, table.new, (fault_of b.fault, owners.new))) ≡ from text.now c (bones_into points table.old owners.old) }
{
    let start = parse_cursor::opening(text, c);
    let none = Boned {
        count: 0,
        fault: None,
    };
    let (first, at) = next_bone(text, start, points, none, table, 0, owners)?;
    more_bones(text, at, first, points, table, owners)
}
