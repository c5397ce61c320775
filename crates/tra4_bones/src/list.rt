// The bones of a movement: one or more, their rows and their keys.
ghost use Rattle.std.specs.Prelude.{◌≡◌, ◌+◌, ◌*◌, ◌^◌, ◌<◌, min, length, IfOk, Ok};
ghost use Rattle.parse_cursor.specs.Internal.Cursors.{parsed, from};
ghost use Rattle.parse_rows.specs.Internal.Folds.{stepped};
ghost use Rattle.tra4_text.specs.Grammar.{bone as bone_read};
ghost use Rattle.tra4_bones.specs.Internal.Into.{bone_step, more_into, bones_into};
ghost use Rattle.tra4_bone.specs.Internal.Into.{kept};

use parse_cursor::{Cursor, Parsed};
use table_counts::MOVEMENT_BONE_WIDTH;
use tra4_bone::bone_tail;

// How many bones were read, and how many keys they have: none where those are more than 4,096.
#[derive(Clone, Copy)]
pub struct Boned {
    pub count: usize,
    pub keys: Option<usize>,
}

// One bone after its keyword, in the row after those so far: to the table from index `to` on, which is as good as that row's.
fn next_bone(
    text: &[u8],
    c: Cursor,
    so_far: Boned,
    bone_rows: &mut [i64],
    to: usize,
    key_rows: &mut [i64],
    scratch: &mut [i64; 8192],
) -> Parsed<Boned>
    requires { (min to (length bone_rows.old) ≡ min (so_far.count * 22) (length bone_rows.old)) × (so_far.count < 2 ^ 63) }
    ensures key_rows_after { parsed text.now result (λ b. (b.count, kept b.keys bone_rows.new key_rows.new)) ≡ from text.now c (stepped bone_step bone_read (so_far.count, kept so_far.keys bone_rows.old key_rows.old)) }
    ensures count_value { IfOk result (λ p. p.0.count ≡ so_far.count + 1) }
{
    let (keys, d) = bone_tail(text, c, bone_rows, to, key_rows, so_far.keys, scratch)?;
    let b = Boned {
        count: so_far.count + 1,
        keys,
    };
    Ok((b, d))
}

// The bones after the first.
fn more_bones(
    text: &[u8],
    at: usize,
    first: Boned,
    bone_rows: &mut [i64],
    key_rows: &mut [i64],
    scratch: &mut [i64; 8192],
) -> Parsed<Boned>
    requires { first.count ≡ 1 }
    ensures { parsed text.now result (λ b. (b.count, kept b.keys bone_rows.new key_rows.new)) ≡ from text.now (Ok at) (more_into (first.count, kept first.keys bone_rows.old key_rows.old)) }
{
    let mut d = at;
    let mut so_far = first;
    let mut i = MOVEMENT_BONE_WIDTH;
    loop {
        let (stands, start) = parse_optional::optional(text, Ok(d), b"bone")?;
        if !stands {
            return Ok((so_far, start));
        }
        let (b, e) = next_bone(text, Ok(start), so_far, bone_rows, i, key_rows, scratch)?;
        so_far = b;
        d = e;
        i = table_index::advance(i, MOVEMENT_BONE_WIDTH, bone_rows.len());
    }
}

// One bone or more: their rows to their table, and their keys to theirs, by bone and channel number; numbers past a table's end are
// dropped. After a refusal, or where there are too many keys, what both hold is free.
pub fn bones(text: &[u8], c: Cursor, bone_rows: &mut [i64], key_rows: &mut [i64]) -> Parsed<Boned>
    ensures { parsed text.now result (λ b. (b.count, kept b.keys bone_rows.new key_rows.new)) ≡ from text.now c (bones_into bone_rows.old key_rows.old) }
{
    let start = parse_cursor::opened(text, c, b"bone");
    let none = Boned {
        count: 0,
        keys: Some(0),
    };
    let mut scratch = [0i64; 8192];
    let (first, d) = next_bone(text, start, none, bone_rows, 0, key_rows, &mut scratch)?;
    more_bones(text, d, first, bone_rows, key_rows, &mut scratch)
}
