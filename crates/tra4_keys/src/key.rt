// Rule 15: the keys of each channel, by bone and then channel number.
ghost use Rattle.std.specs.Prelude.{◌≡◌, ◌*◌, ◌≤◌, min, length};
ghost use Rattle.refusal.specs.Internal.Answers.{refusal};
ghost use Rattle.tra4_text.specs.Rules.{keys_fault};
ghost use Rattle.tra4_keys.specs.Internal.Keys.{count_of, bone_counts, channels_in, Walked};

use refusal::Refusal;
use table_counts::{KEY_WIDTH, MOVEMENT_BONE_WIDTH};
use tra4_frames::channel_fault;

// The first key of the channels of `bone_count` rows of 22 that breaks the rule; a row that is not whole is not looked at.
pub fn keys_fault(total: i64, bones: &[i64], bone_count: usize, keys: &[i64]) -> Result<(), Refusal>
    ensures { refusal result ≡ keys_fault total 0 (channels_in bone_count bones.now keys.now) }
{
    let mut row = 0;
    for i in 0..bone_count.min(bones.len() / MOVEMENT_BONE_WIDTH) {
        let base = i * MOVEMENT_BONE_WIDTH;
        row = bone_fault(total, &bones[base..base + MOVEMENT_BONE_WIDTH], keys, row)?;
    }
    Ok(())
}

// The keys of a bone's ten channels, from a key row on: the row after them, or the first fault among them.
fn bone_fault(total: i64, bone: &[i64], keys: &[i64], row: usize) -> Result<usize, Refusal>
    requires { (length bone.now ≡ 22) × (row * 2 ≤ length keys.now) }
    ensures { Walked total keys.now row (bone_counts bone.now) result }
{
    let mut at = row;
    for channel in 0..10 {
        let base = at * KEY_WIDTH;
        let count = rows_within(bone[channel * 2 + 3], (keys.len() - base) / KEY_WIDTH);
        let next = at + count;
        channel_fault(total, &keys[base..], at, next)?;
        at = next;
    }
    Ok(at)
}

// How many rows a count says, of those that are left; none below zero.
fn rows_within(count: i64, left: usize) -> usize
    ensures { result ≡ min (count_of count) left }
{
    usize::try_from(count).unwrap_or(0).min(left)
}
