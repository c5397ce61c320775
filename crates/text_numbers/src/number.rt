// INT and FLOAT of a plain word, as exact whole numbers.
ghost use Rattle.std.specs.Prelude.{◌≡◌, true, cond, ◌+◌, ◌≤◌, ◌<◌, ◌^◌, length, nat_abs};
ghost use Rattle.text_numerals.specs.Numbers.{number_of, INT, FLOAT, float_of, all_digits, negative, signed, times_power, raised, in_range};
ghost use Rattle.text_numerals.specs.Numbers.{decimal as decimal_of};
ghost use Rattle.text_numbers.specs.Internal.Answers.{number_named, Leads, Fractional};
ghost use Rattle.text_numerals.specs.Internal.Parts.{whole_in, within};

use signed::magnitude;
use text_runs::{Run, run_end};

// Why a word is no number: it has the form, but too many digits or a value out of range, or it has not the form.
#[derive(Clone, Copy, PartialEq, Eq)]
pub enum NumberError {
    Beyond,
    Malformed,
}

// A word as an INT.
pub fn int(word: &[u8]) -> Result<i64, NumberError>
    ensures { number_named result ≡ number_of INT word.now }
{
    whole(word, 10, 2147483647, 2147483648)
}

// A word as a FLOAT, in millionths: a sign, digits, a fraction or none, an exponent or none.
pub fn float(word: &[u8]) -> Result<i64, NumberError>
    ensures { number_named result ≡ number_of FLOAT word.now }
{
    let n = lead(word);
    if n.end == n.start {
        return Err(NumberError::Malformed);
    }
    let f = fraction_at(word, n.end);
    let last = f.last;
    let mantissa = float_of(n.negative, &word[n.start..n.end], &word[f.from..last]);
    if word.len() <= last {
        return mantissa;
    }
    if word[last] != 101 {
        return Err(NumberError::Malformed);
    }
    times_power(mantissa, whole(&word[last + 1..], 1, 6, 6))
}

// The sign of a word, and the digits that it begins with after that.
#[derive(Clone, Copy)]
struct Leading {
    negative: bool,
    start: usize,
    end: usize,
}

fn lead(word: &[u8]) -> Leading
    ensures { Leads word.now result }
{
    let negative = is_negative(word);
    let start = usize::from(negative);
    Leading {
        negative,
        start,
        end: run_end(word, start, Run::Digits),
    }
}

fn is_negative(word: &[u8]) -> bool
    ensures { result ≡ negative word.now }
{
    word.len() != 0 && word[0] == 45
}

// A word of a sign and digits alone, so many at most: its value is up to `most`, and up to `least` with a minus sign.
fn whole(word: &[u8], digits: usize, most: u64, least: u64) -> Result<i64, NumberError>
    requires { (digits ≤ 10) × (most < 2 ^ 63) × (least < 2 ^ 63) }
    ensures { number_named result ≡ whole_in digits most least word.now }
{
    let n = lead(word);
    if n.end == n.start || n.end < word.len() {
        return Err(NumberError::Malformed);
    }
    if digits < n.end - n.start {
        return Err(NumberError::Beyond);
    }
    let value = decimal(&word[n.start..n.end]);
    if greatest(n.negative, most, least) < value {
        return Err(NumberError::Beyond);
    }
    Ok(with_sign(n.negative, value))
}

// The greatest magnitude with a sign.
fn greatest(negative: bool, most: u64, least: u64) -> u64
    ensures { result ≡ cond negative least most }
{
    if negative { least } else { most }
}

// The digits after a point.
#[derive(Clone, Copy)]
struct Fraction {
    from: usize,
    last: usize,
}

// The fraction that begins at `end`: a point and one digit or more, or none.
fn fraction_at(word: &[u8], end: usize) -> Fraction
    requires { end ≤ length word.now }
    ensures { Fractional word.now end result }
{
    if end < word.len() && word[end] == 46 {
        let from = end + 1;
        let last = run_end(word, from, Run::Digits);
        if from < last {
            return Fraction { from, last };
        }
    }
    Fraction {
        from: end,
        last: end,
    }
}

// A sign, digits, and those after the point.
fn float_of(negative: bool, digits: &[u8], fraction: &[u8]) -> Result<i64, NumberError>
    requires digits_all { all_digits digits.now ≡ true }
    requires fraction_all { all_digits fraction.now ≡ true }
    ensures { number_named result ≡ float_of negative digits.now fraction.now }
{
    if 7 < digits.len() {
        return Err(NumberError::Beyond);
    }
    if 6 < fraction.len() {
        return Err(NumberError::Beyond);
    }
    let units = decimal(digits);
    let parts = decimal(fraction);
    Ok(with_sign(
        negative,
        units * 1000000 + parts * 10u64.pow((6 - fraction.len()) as u32),
    ))
}

// A number times ten to the power that its exponent gives. An exponent that has not the form comes before a number that is beyond.
fn times_power(
    n: Result<i64, NumberError>,
    exponent: Result<i64, NumberError>,
) -> Result<i64, NumberError>
    requires n_value { within 9999999999999 (number_named n) ≡ true }
    requires exponent_value { within 6 (number_named exponent) ≡ true }
    ensures { number_named result ≡ times_power (number_named n) (number_named exponent) }
{
    match exponent {
        Err(NumberError::Malformed) => exponent,
        Err(NumberError::Beyond) => n.and(exponent),
        Ok(e) => raise(n?, e),
    }
}

// `z` times ten to the power `e`, where that is a whole number in FLOAT's range.
fn raise(z: i64, e: i64) -> Result<i64, NumberError>
    requires { (nat_abs z ≤ 9999999999999) × (nat_abs e ≤ 6) }
    ensures { number_named result ≡ raised z e }
{
    let n = magnitude(z);
    let p = 10u64.pow(magnitude(e) as u32);
    if e < 0 {
        if n % p != 0 {
            return Err(NumberError::Beyond);
        }
        return in_range(z < 0, n / p);
    }
    in_range(z < 0, n * p)
}

// A magnitude with its sign, where it is in FLOAT's range.
fn in_range(negative: bool, n: u64) -> Result<i64, NumberError>
    ensures { number_named result ≡ in_range (signed negative n) }
{
    if 9999999999999 < n {
        return Err(NumberError::Beyond);
    }
    Ok(with_sign(negative, n))
}

// The value of digits.
fn decimal(digits: &[u8]) -> u64
    requires few { length digits.now ≤ 10 }
    requires all { all_digits digits.now ≡ true }
    ensures { result ≡ decimal_of digits.now }
{
    let mut value: u64 = 0;
    for b in digits {
        value = value * 10 + u64::from(*b - 48);
    }
    value
}

fn with_sign(negative: bool, n: u64) -> i64
    requires { n < 2 ^ 63 }
    ensures { result ≡ signed negative n }
{
    let value = n as i64;
    if negative { -value } else { value }
}
