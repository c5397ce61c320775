// The standing pose.
ghost use Rattle.std.specs.Prelude.{◌≡◌};
ghost use Rattle.player_spec.specs.Samples.{standing as standing_of};

// Document 004's standing pose by channel number, in millionths.
const POSE: [i64; 10] = [0, 0, 0, 100000000, 100000000, 100000000, 0, 0, 1000000, 0];

// What the channel of a number stands for where it is left out; 0 where there is no such channel.
pub fn standing(channel: usize) -> i64
    ensures { result ≡ standing_of channel }
{
    if channel < POSE.len() {
        POSE[channel]
    } else {
        0
    }
}
