// The numbers of a fraction in lowest terms by halving and subtracting, for a handheld that has no divider. Each step is counted: the steps left fall by one for
// each halving of one number and for each subtraction, and are handed back, so that the contracts say how many were taken. That they never fall below zero is proved.
ghost use Rattle.std.specs.Prelude.{◌≡◌, true, false, ◌%◌, ◌/◌, ◌<◌};
ghost use Rattle.std.proofs.Math.Option.{some};
ghost use Rattle.player_spec.specs.Fractions.{factor as factor_of};
ghost use Rattle.player_fractions.specs.Halving.{is_even, both_even, odd_left, common_left, terms_left, Enough};

fn is_even(x: u64) -> bool
    ensures { result ≡ is_even x }
{
    x & 1 == 0
}

fn both_even(a: u64, d: u64) -> bool
    ensures { result ≡ both_even a d }
{
    is_even(a) && is_even(d)
}

// A common factor, and the steps left once it is found.
#[derive(Clone, Copy)]
struct Found {
    factor: u64,
    left: u64,
}

// The greatest common factor of a number and an odd one: a halving or a subtraction a turn.
fn odd_factor(a: u64, b: u64, steps: u64) -> Found
    requires { (b % 2 ≡ 1) × Enough (odd_left steps a b) }
    ensures { (result.factor ≡ factor_of a b) × (odd_left steps a b ≡ some result.left) }
{
    let mut x = a;
    let mut odd = b;
    let mut left = steps;
    while x != 0 {
        left -= 1;
        if is_even(x) {
            x = x >> 1;
            continue;
        }
        if x < odd {
            let rest = odd - x;
            odd = x;
            x = rest;
            continue;
        }
        x -= odd;
    }
    Found { factor: odd, left }
}

// The greatest common factor of two numbers that are not both even.
fn common(a: u64, d: u64, steps: u64) -> Found
    requires { (both_even a d ≡ false) × Enough (common_left steps a d) }
    ensures { (result.factor ≡ factor_of a d) × (common_left steps a d ≡ some result.left) }
{
    if is_even(a) {
        return odd_factor(a, d, steps);
    }
    odd_factor(d, a, steps)
}

// A fraction's two numbers in lowest terms, and the steps left.
#[derive(Clone, Copy)]
pub(crate) struct Reduced {
    pub numerator: u64,
    pub denominator: u64,
    pub left: u64,
}

// Both numbers are halved while both are even, and then divided by their common factor, which is odd: these are the only two divisions.
pub(crate) fn terms(a: u64, d: u64, steps: u64) -> Reduced
    requires { (0 < d) × Enough (terms_left steps a d) }
    ensures { (result.numerator ≡ a / factor_of a d) × (result.denominator ≡ d / factor_of a d) × (terms_left steps a d ≡ some result.left) }
{
    let mut numerator = a;
    let mut denominator = d;
    let mut left = steps;
    while both_even(numerator, denominator) {
        left -= 2;
        numerator = numerator >> 1;
        denominator = denominator >> 1;
    }
    let found = common(numerator, denominator, left);
    Reduced {
        numerator: numerator / found.factor,
        denominator: denominator / found.factor,
        left: found.left,
    }
}
