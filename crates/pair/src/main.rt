#![tactic(auto)]
// Loads the pair on standard input and prints the two totals and each bone's label, or why it is refused. The pair is eight
// decimal digits giving the figure's length, a line feed, the figure, and then the movement.
use text_parts::part;

const STDIN_FILENO: i32 = 0;

const STDOUT_FILENO: i32 = 1;

// What is written to a file no contract can say.
fn list_pair(text: &mut [u8; 131082], out: &mut [u8; 36295]) {
    let input = pair_input::read_input(STDIN_FILENO, text);
    let filled = pair_output::list_input(out, part(text, 0, input.size), input.more);
    io::write_all(STDOUT_FILENO, part(out, 0, filled));
}

fn main() {
    // The head, the longest figure, and one byte more than the longest movement has.
    let mut text = [0u8; 131082];
    let mut out = [0u8; 36295];
    list_pair(&mut text, &mut out);
}
