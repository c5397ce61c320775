// A channel's keys in one pass.
ghost use Rattle.std.specs.Prelude.{◌≡◌, List, [], ◌∷◌, IfSome};
ghost use Rattle.tra4_text.specs.Movement.{Key};
ghost use Rattle.player_channel.specs.Internal.Pass.{pass_from, pass_over};
ghost use Rattle.table_columns.specs.Parts.{rows_at};
ghost use Rattle.player_channel.specs.Internal.Passing.{key_of, state_of, Ready, then_from, finished, Begun, KeyRows};

use crate::channel::Sample;
use crate::line::line;
use player_pose::standing;
use player_tests::{follows, is_float};

// The last key, and the sample once it is known.
#[derive(Clone, Copy)]
pub(crate) struct Pass {
    pub before: usize,
    pub value: i64,
    pub sample: Option<Sample>,
}

// The next key, with its frame and value; none where it is at fault.
pub(crate) fn step(p: Pass, f: i64, v: i64, total: i64, at: usize) -> Option<Pass>
    requires { Ready p total at }
    ensures ks_value { (ks : List Key) → pass_from total at (key_of p) (state_of p) ((f ∷ v ∷ []) ∷ ks) ≡ then_from total at result ks }
    ensures ready { IfSome result (λ r. Ready r total at) }
{
    if !follows(total, p.before, f) || !is_float(v) {
        return None;
    }
    let g = f as usize;
    let next = Pass {
        before: g,
        value: v,
        sample: p.sample,
    };
    if p.sample.is_some() || g <= at {
        return Some(next);
    }
    // At most once a sample: from here on it is known.
    let r = line(p.before, p.value, g, v, at);
    let sample = Some(Sample {
        numerator: r.numerator,
        denominator: r.denominator,
    });
    Some(Pass { sample, ..next })
}

// A pass that has met one key, at frame 0; the standing pose is played as such a key.
fn begun(value: i64) -> Pass
    ensures { Begun result value }
{
    Pass {
        before: 0,
        value,
        sample: None,
    }
}

// All keys of a channel, in rows of two numbers; where there are none, the standing pose.
pub(crate) fn pass_over(
    keys: &[i64],
    count: usize,
    channel: usize,
    total: i64,
    at: usize,
) -> Option<Pass>
    requires { KeyRows keys.now count total }
    ensures { finished result ≡ pass_over total channel at (rows_at 2 keys.now 0 count) }
{
    if count == 0 {
        return Some(begun(standing(channel)));
    }
    let first = keys[1];
    if keys[0] != 0 || !is_float(first) {
        return None;
    }
    let mut p = begun(first);
    for i in 1..count {
        p = step(p, keys[i * 2], keys[i * 2 + 1], total, at)?;
    }
    Some(p)
}
