// Fractions in lowest terms.
ghost use Rattle.std.specs.Prelude.{◌≡◌, ◌^◌, ◌<◌, nat_abs};
ghost use Rattle.std.proofs.Math.Option.{some};
ghost use Rattle.player_spec.specs.Fractions.{lowest as lowest_of};
ghost use Rattle.player_fractions.specs.Halving.{terms_left};
ghost use Rattle.player_channel.specs.Internal.Answers.{ratio};

use crate::halving::terms;

// A fraction's two numbers, and what is left of a sample's steps.
#[derive(Clone, Copy)]
pub(crate) struct Ratio {
    pub numerator: i64,
    pub denominator: u64,
    pub left: u64,
}

// The steps that a sample may take (document 02, (v)).
const MOST_STEPS: u64 = 200;

// A number over a denominator, in lowest terms, within the steps of a sample.
pub(crate) fn lowest(z: i64, d: u64) -> Ratio
    requires { (nat_abs z < 2 ^ 59) × (0 < d) × (d < 2 ^ 15) }
    ensures { (ratio result ≡ lowest_of z d) × (terms_left 200 (nat_abs z) d ≡ some result.left) }
{
    let size = signed::magnitude(z);
    let t = terms(size, d, MOST_STEPS);
    let n = t.numerator;
    if z < 0 {
        return Ratio {
            numerator: 0 - n as i64,
            denominator: t.denominator,
            left: t.left,
        };
    }
    Ratio {
        numerator: n as i64,
        denominator: t.denominator,
        left: t.left,
    }
}
