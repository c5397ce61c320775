#![tactic(auto)]
// Lists the figure that stands on standard input (document 01, "Listing").
ghost use Rattle.std.specs.Prelude.{◌≡◌, ◌≤◌, length, take};
ghost use Rattle.report_text.specs.Output.{output};
ghost use Rattle.report_lists.specs.Lists.{appended_each};
ghost use Rattle.listing.specs.Listing.{text_lines, text_listing};

use text_parts::part;

const STDIN_FILENO: i32 = 0;

const STDOUT_FILENO: i32 = 1;

// Puts the listing of a text at the start of buf, and answers how many bytes are filled.
fn list_text(text: &[u8], buf: &mut [u8]) -> usize
    ensures lines { output result buf.new ≡ appended_each (output 0 buf.old) (text_lines text.now) }
    ensures within { result ≤ length buf.new }
    ensures whole { length (text_listing text.now) ≤ length buf.old → take result buf.new ≡ text_listing text.now }
{
    let mut table = [0i64; 8192];
    let answer = bac6::read(text, &mut table);
    bac6_listing::list_figure(answer, &table, buf)
}

// Reads a text and writes its listing. What is written to a file no contract can say.
fn list_input(text: &mut [u8; 65537], out: &mut [u8; 262144]) {
    let size = io::read_full(STDIN_FILENO, text);
    let n = list_text(part(text, 0, size), out);
    io::write_all(STDOUT_FILENO, part(out, 0, n));
}

fn main() {
    // A byte more than the longest text: a longer one is refused with 1, and not cut. `figure-most` (bac6_listing) asks for 229,432 bytes.
    let mut text = [0u8; 65537];
    let mut out = [0u8; 262144];
    list_input(&mut text, &mut out);
}
