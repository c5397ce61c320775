#![tactic(auto)]
// Runs the inputs that standard input holds, and prints what `pair` prints of each after its label. A record is a label's
// line, eight digits and a line feed for how many bytes follow the input, the same for how many it has, the input, and a
// line feed.
ghost use Rattle.std.specs.Prelude.{◌<◌, ◌≤◌, length};

use text_parts::part;
use text_runs::Run;

const STDIN_FILENO: i32 = 0;

const STDOUT_FILENO: i32 = 1;

fn tell(label: &[u8], input: &[u8], more: usize) {
    let mut out = [0u8; 36295];
    let filled = pair_output::list_input(&mut out, input, more);
    io::write_all(STDOUT_FILENO, label);
    io::write_all(STDOUT_FILENO, b"\t");
    io::write_all(STDOUT_FILENO, &out[..filled]);
}

// Eight digits and a line feed as a number, or 0 where they are none.
fn number(bytes: &[u8]) -> usize
    ensures { result < 100000000 }
{
    pair_head::parse_head(bytes).unwrap_or(0)
}

fn line_end(text: &[u8], at: usize) -> usize
    requires { at ≤ length text.now }
    ensures { (at ≤ result) × (result ≤ length text.now) }
{
    text_runs::run_end(text, at, Run::Line)
}

// Where the record after the one at `at` begins.
fn tell_record(text: &[u8], at: usize) -> usize
    requires { (at ≤ length text.now) × (length text.now ≤ 65536) }
    ensures { at < result }
{
    let line = line_end(text, at);
    let more = number(part(text, line + 1, line + 10));
    let size = number(part(text, line + 10, line + 19));
    let start = line + 19;
    let end = start + size;
    tell(part(text, at, line), part(text, start, end), more);
    end + 1
}

fn tell_records(text: &[u8])
    requires { length text.now ≤ 65536 }
{
    let mut at = 0;
    while at < text.len() {
        at = tell_record(text, at);
    }
}

fn main() {
    let mut text = [0u8; 65536];
    let size = io::read_full(STDIN_FILENO, &mut text);
    tell_records(&text[..size]);
}
