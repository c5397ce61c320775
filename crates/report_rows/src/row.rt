// A line of a word and numbers, put whole or not at all.
ghost use Rattle.std.specs.Prelude.{◌≡◌, ◌+◌, leb, length};
ghost use Rattle.report_text.specs.Output.{output, appended};
ghost use Rattle.report_text.specs.Text.{numeral};
ghost use Rattle.report_text.specs.Text.{line as line_of};

use report_text::{append, append_number, has_room};

// How many bytes a number's text has.
fn width(z: i64) -> usize
    ensures { result ≡ length (numeral z) }
{
    let digits = signed::magnitude(z).max(1).ilog10() as usize + 1;
    if z < 0 { digits + 1 } else { digits }
}

// Whether a line fits in size bytes after the first n.
fn row_fits(size: usize, n: usize, word: &[u8], numbers: &[i64]) -> bool
    ensures { result ≡ leb (n + length (line_of word.now numbers.now)) size }
{
    if !has_room(size, n, word.len()) {
        return false;
    }
    let mut left = size - n - word.len();
    for z in numbers {
        let w = width(*z);
        if left <= w {
            return false;
        }
        left -= w + 1;
    }
    0 < left
}

// Puts a line after the first n bytes of buf: a word, each number after a tab, and a line feed.
pub fn append_row(buf: &mut [u8], n: usize, word: &[u8], numbers: &[i64]) -> usize
    ensures { output result buf.new ≡ appended (output n buf.old) (line_of word.now numbers.now) }
{
    if !row_fits(buf.len(), n, word, numbers) {
        return n;
    }
    let mut at = append(buf, n, word);
    for z in numbers {
        at = append(buf, at, b"\t");
        at = append_number(buf, at, *z);
    }
    append(buf, at, b"\n")
}
