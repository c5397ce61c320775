// A bone: its name and its channels. How many keys stand goes through as a count, or none where there are too many.
ghost use Rattle.std.specs.Prelude.{◌≡◌, List, map, ◌^◌, ◌<◌, Some};
ghost use Rattle.std.proofs.Math.Option.{Option};
ghost use Rattle.parse_cursor.specs.Internal.Cursors.{parsed, from};
ghost use Rattle.tra4_text.specs.Movement.{Channel};
ghost use Rattle.tra4_text.specs.Grammar.{keys_in};
ghost use Rattle.tra4_channels.specs.Internal.Held.{HeldBy};
ghost use Rattle.tra4_bone.specs.Internal.Into.{Free, kept, kept_by, bone_into};

use crate::laying::lay_keys;
use parse_cursor::{Cursor, Parsed};
use parse_names::Place;
use table_counts::MOST_KEYS;
use tra4_channels::channels;

// The channels that were read, set down: the bone's row to the bones from index `to` on, its keys after the `count` that stand in
// their table, and how many keys stand then; or there are too many, and nothing is set down.
fn set_bone(
    read: Option<usize>,
    name: Place,
    ranges: &mut [i64],
    scratch: &[i64],
    bone_rows: &mut [i64],
    to: usize,
    key_rows: &mut [i64],
    count: usize,
) -> Option<usize>
    requires { ((fs : List (Option Channel)) × HeldBy fs ranges.old scratch.now read) × (name.place < 2 ^ 63) × (name.length < 2 ^ 63) }
    ensures { (fs : List (Option Channel)) → HeldBy fs ranges.old scratch.now read → kept result bone_rows.new key_rows.new ≡ kept_by to (kept (Some count) bone_rows.old key_rows.old) (name.place, name.length) (map keys_in fs) }
{
    let n = read?;
    if MOST_KEYS - n < count {
        return None;
    }
    lay_keys(ranges, scratch, key_rows, count);
    table_rows::store(bone_rows, to, &[name.place as i64, name.length as i64]);
    table_rows::store(
        bone_rows,
        table_index::advance(to, 2, bone_rows.len()),
        ranges,
    );
    Some(count + n)
}

// A bone after its keyword: its row to the bones from index `to` on, its keys after the `count` that stand in their table, and how many
// keys stand then. What the scratch table holds is free: it has the keys in text order meanwhile, and is lent so that it is made once for
// all bones. After a refusal what the others hold is free too.
pub fn bone_tail(
    text: &[u8],
    c: Cursor,
    bone_rows: &mut [i64],
    to: usize,
    key_rows: &mut [i64],
    count: Option<usize>,
    scratch: &mut [i64; 8192],
) -> Parsed<Option<usize>>
    ensures read { parsed text.now result (λ n. kept n bone_rows.new key_rows.new) ≡ from text.now c (bone_into to (kept count bone_rows.old key_rows.old)) }
    ensures free { Free scratch.new }
{
    let (name, d) = parse_names::optional_name(text, c)?;
    let mut ranges = [0i64; 20];
    let (read, e) = channels(text, d, &mut ranges, scratch)?;
    let Some(so_far) = count else {
        return Ok((None, e));
    };
    let n = set_bone(
        read,
        name,
        &mut ranges,
        scratch,
        bone_rows,
        to,
        key_rows,
        so_far,
    );
    Ok((n, e))
}
