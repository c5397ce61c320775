// A channel's value at a frame, in a movement's table.
ghost use Rattle.std.specs.Prelude.{◌≡◌};
ghost use Rattle.player_spec.specs.Lookups.{sample_in};
ghost use Rattle.player_spec.specs.Answers.{numbered};
ghost use Rattle.player_channel.specs.Answers.{sampled};

use player_channel::{Sample, channel_sample};
use player_tests::is_range;
use table_counts::{KEY_WIDTH, MOVEMENT_BONE_WIDTH, MovementCounts};
use table_movement::movement_in;

// The columns of a bone's name, and those of a channel: a first key row and a count.
const NAME_WIDTH: usize = 2;

const CHANNEL_WIDTH: usize = 2;

const CHANNELS: usize = 10;

// A channel of a bone at a frame, in any table with any counts; the standing pose of one that is left out, whose pair is 0 and 0. None is refusal 21.
pub fn sample(
    table: &[i64],
    n: MovementCounts,
    bone: usize,
    channel: usize,
    at: usize,
) -> Option<Sample>
    ensures { sampled result ≡ numbered (sample_in n table.now bone channel at) }
{
    let s = movement_in(table, n);
    if s.end == 0 || n.bones <= bone || CHANNELS <= channel {
        return None;
    }
    let pair = s.bones + bone * MOVEMENT_BONE_WIDTH + NAME_WIDTH + channel * CHANNEL_WIDTH;
    let first = table[pair];
    let count = table[pair + 1];
    if !is_range(n.keys, first, count) {
        return None;
    }
    let from = s.keys + first as usize * KEY_WIDTH;
    let end = from + count as usize * KEY_WIDTH;
    channel_sample(&table[from..end], channel, table[0], at)
}
