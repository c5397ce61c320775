// A channel's value at a frame, by its keys.
ghost use Rattle.std.specs.Prelude.{◌≡◌, ◌/◌, length};
ghost use Rattle.table_columns.specs.Parts.{rows_at};
ghost use Rattle.player_spec.specs.Answers.{numbered};
ghost use Rattle.player_channel.specs.Answers.{sampled};
ghost use Rattle.player_channel.specs.Internal.Answers.{sample_by};
ghost use Rattle.player_channel.specs.Internal.Passing.{fraction, said};

use crate::pass::{Pass, pass_over};
use player_tests::is_asked;

// A fraction of millionths in lowest terms.
#[derive(Clone, Copy, PartialEq, Eq)]
pub struct Sample {
    pub numerator: i64,
    pub denominator: u64,
}

// The channel of a number at a frame, by its keys, all whole rows of two numbers; of no keys, the standing pose. None is refusal 21.
pub fn channel_sample(keys: &[i64], channel: usize, total: i64, at: usize) -> Option<Sample>
    ensures { sampled result ≡ numbered (sample_by total channel at (rows_at 2 keys.now 0 (length keys.now / 2))) }
{
    if !is_asked(total, at) {
        return None;
    }
    let count = keys.len() >> 1;
    let p = pass_over(keys, count, channel, total, at)?;
    Some(value_of(p))
}

// What a finished pass says: the last key's value, if the frame is after it.
fn value_of(p: Pass) -> Sample
    ensures { fraction result ≡ said p }
{
    p.sample.unwrap_or(Sample {
        numerator: p.value,
        denominator: 1,
    })
}
