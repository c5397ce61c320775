// What a record holds: texts and numbers.
ghost use Rattle.std.specs.Prelude.{◌<◌, ◌^◌};

use crate::kept::Kept;
use text_runs::Run;

// The byte at an offset, or past the end 0.
fn byte(bytes: &[u8], at: usize) -> u8 {
    bytes.get(at).copied().unwrap_or(0)
}

// The value of a digit, to base 16; of another byte, 0.
fn digit(b: u8) -> u8
    ensures { result < 16 }
{
    match b {
        b'0'..=b'9' => b - b'0',
        b'a'..=b'f' => b - b'a' + 10,
        _ => 0,
    }
}

// Puts a text that stands in a record, after a space and up to the line's end, after the first n bytes of buf, and answers
// how many those are then: `\` and two digits to base 16 stand for a byte, any other byte for itself.
fn append_text(buf: &mut [u8; 65600], n: usize, input: &[u8], at: usize) -> usize {
    let bytes = text_parts::part(input, at, text_runs::run_end(input, at, Run::Line));
    let mut filled = n;
    let mut i = 1;
    // (a `for` cannot pass over the two digits)
    while i < bytes.len() {
        if 65600 <= filled {
            return filled;
        }
        let b = bytes[i];
        i += 1;
        if b == b'\\' {
            buf[filled] = digit(byte(bytes, i)) * 16 + digit(byte(bytes, i + 1));
            i += 2;
        } else {
            buf[filled] = b;
        }
        filled += 1;
    }
    filled
}

// A text, and after it spaces. (No heap is used here, so its size stands beside it.)
#[derive(Clone, Copy)]
pub(crate) struct Text {
    pub bytes: [u8; 65600],
    pub size: usize,
}

// The text of a question: the front and the copies after it, its own TEXT, and the back, padded to its least length.
pub(crate) fn text_of(input: &[u8], args: &[u8], k: Kept) -> Text {
    let mut bytes = [32u8; 65600];
    let mut filled = append_text(&mut bytes, 0, input, k.front);
    let copies = next_number(input, k.copies);
    for _ in 0..copies.size {
        filled = append_text(&mut bytes, filled, input, copies.at);
    }
    filled = append_text(&mut bytes, filled, args, 0);
    filled = append_text(&mut bytes, filled, input, k.back);
    let least = next_number(input, k.pad);
    Text {
        bytes,
        size: filled.max(least.size),
    }
}

// A number in decimal, the same without its sign, and the offset after it; zeros and the offset before it where there is none.
#[derive(Clone, Copy)]
pub(crate) struct Number {
    pub value: i64,
    pub size: usize,
    pub at: usize,
}

// The number that stands next, to its last 18 digits.
pub(crate) fn next_number(args: &[u8], at: usize) -> Number {
    let t = text_tokens::next(args, at);
    let first = byte(args, t.start);
    if b'9' < first {
        return Number {
            value: 0,
            size: 0,
            at,
        };
    }
    let mut size: usize = 0;
    for b in text_parts::part(args, t.start, t.end) {
        size = (size * 10 + digit(*b) as usize) % 1000000000000000000;
    }
    let value = size as i64;
    Number {
        value: if first == b'-' { 0 - value } else { value },
        size,
        at: t.end,
    }
}

// Fills a table with the numbers that a record writes, and with zeros where there are no more.
pub(crate) fn numbers(args: &[u8], from: usize, table: &mut [i64; 11779]) {
    let mut at = from;
    for z in table {
        let n = next_number(args, at);
        *z = n.value;
        at = n.at;
    }
}
