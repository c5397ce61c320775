// The straight line between two keys.
ghost use Rattle.std.specs.Prelude.{◌≡◌, [], ◌∷◌, ◌+◌, ◌-◌, ◌≤◌, ◌<◌, nat_abs, pos, ◌+ℤ◌, ◌*ℤ◌};
ghost use Rattle.std.proofs.Math.Option.{some};
ghost use Rattle.player_spec.specs.Samples.{line as line_of};
ghost use Rattle.player_fractions.specs.Halving.{terms_left};
ghost use Rattle.player_channel.specs.Internal.Answers.{ratio};

use crate::fraction::{Ratio, lowest};

// A sum of two values, each so many times: at most 9,999,999,999,999 * 32,767 either way.
fn weighted(v: i64, x: usize, w: i64, y: usize) -> i64
    requires { (nat_abs v ≤ 9999999999999) × (nat_abs w ≤ 9999999999999) × (x + y ≤ 32767) }
    ensures { result ≡ v *ℤ pos x +ℤ w *ℤ pos y }
{
    v * x as i64 + w * y as i64
}

// From the key at frame f to the one at frame g, at a frame from f on and before g.
pub(crate) fn line(f: usize, v: i64, g: usize, w: i64, at: usize) -> Ratio
    requires { (nat_abs v ≤ 9999999999999) × (nat_abs w ≤ 9999999999999) × (f ≤ at) × (at < g) × (g ≤ 32767) }
    ensures { (ratio result ≡ line_of (pos f ∷ v ∷ []) (pos g ∷ w ∷ []) at) × (terms_left 200 (nat_abs (v *ℤ pos (g - at) +ℤ w *ℤ pos (at - f))) (g - f) ≡ some result.left) }
{
    lowest(weighted(v, g - at, w, at - f), (g - f) as u64)
}
