// The head of a pair, and where its figure ends.
ghost use Rattle.std.specs.Prelude.{◌≡◌, IfErr};
ghost use Rattle.pair_head.specs.Division.{head_of, divided_at, divided};
ghost use Rattle.pair_head.specs.Answers.{length_named, division_named};

use refusal::Refusal;
use text_runs::Run;

// A figure of more than 65,536 bytes, all at hand or following.
const LONG: Refusal = Refusal {
    number: 1,
    place: 0,
};

// No head, or an input that ends before its figure does.
const SHORT: Refusal = Refusal {
    number: 2,
    place: 0,
};

// Nine bytes as a head, eight digits and a line feed: the figure's length.
pub fn parse_head(bytes: &[u8]) -> Option<usize>
    ensures { length_named result ≡ head_of bytes.now }
{
    if bytes.len() != 9 {
        return None;
    }
    let digits = &bytes[..8];
    if text_runs::run_end(digits, 0, Run::Digits) < 8 || bytes[8] != b'\n' {
        return None;
    }
    match text_numbers::int(digits) {
        Ok(value) => Some(signed::magnitude(value) as usize),
        Err(_) => None,
    }
}

// Where a figure of so many bytes ends, where left bytes after the head are at hand and more follow.
fn divide_at(left: usize, more: usize, length: usize) -> Result<usize, Refusal>
    ensures answer { division_named result ≡ divided_at left more length }
    ensures place { IfErr result (λ e. e.place ≡ 0) }
{
    if length <= 65536 {
        return if length <= left {
            Ok(9 + length)
        } else {
            Err(SHORT)
        };
    }
    if length <= left || length - left <= more {
        return Err(LONG);
    }
    Err(SHORT)
}

// Where the figure ends in an input of which a text is at hand and more bytes follow.
pub fn divide(text: &[u8], more: usize) -> Result<usize, Refusal>
    ensures answer { division_named result ≡ divided text.now more }
    ensures place { IfErr result (λ e. e.place ≡ 0) }
{
    if text.len() < 9 {
        return Err(SHORT);
    }
    let Some(length) = parse_head(&text[..9]) else {
        return Err(SHORT);
    };
    divide_at(text.len() - 9, more, length)
}
