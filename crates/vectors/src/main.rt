#![tactic(auto)]
// Runs vectors, the lines of document 01's "Both sides of each line" among them. Each line of standard input is a record,
// KIND "LABEL" ARGS; docs/ARCHITECTURE.md, "Vectors", says what each kind means.
mod counts;
mod kept;
mod kind;
mod play;
mod record;
mod texts;

use kept::{Kept, keep};
use kind::{Kind, kind_of};
use record::text_of;
use text_check::Format;
use text_runs::Run;
use texts::{tell_checked, tell_figure, tell_movement, tell_number, tell_tokens};

const STDIN_FILENO: i32 = 0;

const STDOUT_FILENO: i32 = 1;

// Puts the answer to a question at the start of out, and tells its length.
fn answer(
    kind: Kind,
    input: &[u8],
    args: &[u8],
    k: Kept,
    figure: &mut [i64; 11779],
    moves: &mut [i64; 11779],
    out: &mut [u8; 4096],
) -> usize {
    if kind.asks_tables() {
        return play::ask(kind, input, args, k, figure, moves, out);
    }
    let t = text_of(input, args, k);
    let text = text_parts::part(&t.bytes, 0, t.size);
    match kind {
        Kind::Bac => tell_checked(text_check::check_text(text, Format::Bac), out),
        Kind::Tra => tell_checked(text_check::check_text(text, Format::Tra), out),
        Kind::Int => tell_number(text_numbers::int(text), out),
        Kind::Float => tell_number(text_numbers::float(text), out),
        Kind::Tokens => tell_tokens(text, out),
        Kind::Figure => tell_figure(text, input, k.figure, figure, out),
        _ => tell_movement(text, input, k.movement, moves, out),
    }
}

fn put(out: &[u8; 4096], size: usize) {
    io::write_all(STDOUT_FILENO, text_parts::part(out, 0, size));
}

// Keeps a record, or prints the kind and the label of a question, and its answer.
fn run_record(
    input: &[u8],
    at: usize,
    end: usize,
    k: &mut Kept,
    figure: &mut [i64; 11779],
    moves: &mut [i64; 11779],
) {
    let word = text_tokens::next(input, at);
    if end <= word.start {
        return;
    }
    let label = text_tokens::next(input, word.end);
    let kind = kind_of(input, word);
    if keep(kind, input, label.end, k, figure, moves) {
        return;
    }
    io::write_all(
        STDOUT_FILENO,
        text_parts::part(input, word.start, label.end),
    );
    io::write_all(STDOUT_FILENO, b"\t");
    let mut out = [0u8; 4096];
    let args = text_parts::part(input, label.end, end);
    let size = answer(kind, input, args, *k, figure, moves, &mut out);
    put(&out, size);
}

fn run(input: &mut [u8; 131072]) {
    let size = io::read_full(STDIN_FILENO, input);
    let records = text_parts::part(input, 0, size);
    let mut k = kept::nothing(size);
    let mut figure = [0i64; 11779];
    let mut moves = [0i64; 11779];
    let mut at = 0;
    loop {
        let end = text_runs::run_end(records, at, Run::Line);
        run_record(records, at, end, &mut k, &mut figure, &mut moves);
        if records.len() <= end {
            return;
        }
        at = end + 1;
    }
}

fn main() {
    let mut input = [0u8; 131072];
    run(&mut input);
}
