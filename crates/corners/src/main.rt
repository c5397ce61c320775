#![tactic(auto)]
// Prints the corners of the figure that stands on standard input: a line for each face and corner.
use bac6::FigureAnswer;
use table_counts::FigureCounts;

const STDIN_FILENO: i32 = 0;

const STDOUT_FILENO: i32 = 1;

// 32 faces at a time, for which 25,088 bytes are enough. What is written to a file no contract can say.
fn tell_faces(table: &[i64], n: FigureCounts) {
    let mut out = [0u8; 25088];
    for face in (0..n.faces).step_by(32) {
        let end = face + n.faces.saturating_sub(face).min(32);
        let filled = corner_listing::list_corners(&mut out, table, n, face, end);
        io::write_all(STDOUT_FILENO, &out[..filled]);
    }
}

fn tell_refusal(answer: FigureAnswer) {
    let mut out = [0u8; 64];
    let filled = report_lists::first_line(&mut out, b"figure", answer.refusal, answer.place, 0);
    io::write_all(STDOUT_FILENO, &out[..filled]);
}

fn main() {
    // A byte more than the longest text: a longer one is refused with 1, and not cut.
    let mut text = [0u8; 65537];
    let size = io::read_full(STDIN_FILENO, &mut text);
    let mut table = [0i64; 8192];
    let answer = bac6::read(&text[..size], &mut table);
    if answer.refusal != 0 {
        tell_refusal(answer);
        return;
    }
    let n = answer.counts;
    tell_faces(&table, n);
}
