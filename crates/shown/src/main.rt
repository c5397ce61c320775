#![tactic(auto)]
// Loads the pair on standard input and prints whether each face is shown at each frame, or why the pair is refused. The pair
// is eight decimal digits giving the figure's length, a line feed, the figure, and then the movement.
use table_counts::{FigureCounts, MovementCounts};

const STDIN_FILENO: i32 = 0;

const STDOUT_FILENO: i32 = 1;

// 256 frames at a time, for which 17,664 bytes are enough. What is written to a file no contract can say.
fn tell_face(
    table: &[i64],
    n: FigureCounts,
    moves: &[i64],
    m: MovementCounts,
    face: usize,
    total: usize,
) {
    let mut out = [0u8; 17664];
    for at in (0..total).step_by(256) {
        let end = at + total.saturating_sub(at).min(256);
        let filled = shown_listing::list_shown(&mut out, table, n, moves, m, face, at, end);
        io::write_all(STDOUT_FILENO, &out[..filled]);
    }
}

fn tell_faces(table: &[i64], n: FigureCounts, moves: &[i64], m: MovementCounts, total: usize) {
    for face in 0..n.faces {
        tell_face(table, n, moves, m, face, total);
    }
}

fn tell_refusal(number: usize, place: usize, file: usize) {
    let mut out = [0u8; 71];
    let filled = pair_listing::list_reply(&mut out, number, place, file, 0, 0);
    io::write_all(STDOUT_FILENO, &out[..filled]);
}

fn tell_pair(figure: &[u8], movement: &[u8]) {
    let mut table = [0i64; 8192];
    let mut moves = [0i64; 11779];
    let answer = pair_load::load(figure, movement, &mut table, &mut moves);
    if answer.refusal != 0 {
        tell_refusal(answer.refusal, answer.place, answer.file);
        return;
    }
    let total = signed::magnitude(moves[0]) as usize;
    let n = answer.figure;
    let m = answer.movement;
    tell_faces(&table, n, &moves, m, total);
}

fn tell_text(text: &[u8], more: usize) {
    match pair_head::divide(text, more) {
        Err(e) => tell_refusal(usize::from(e.number), 0, 0),
        Ok(end) => tell_pair(
            text_parts::part(text, 9, end),
            text_parts::part(text, end, text.len()),
        ),
    }
}

fn tell_input(text: &mut [u8; 131082]) {
    let input = pair_input::read_input(STDIN_FILENO, text);
    tell_text(text_parts::part(text, 0, input.size), input.more);
}

// The head, the longest figure, and one byte more than the longest movement has.
fn main() {
    let mut text = [0u8; 131082];
    tell_input(&mut text);
}
