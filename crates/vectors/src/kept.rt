// What is kept for the questions after it.
use crate::kind::Kind;
use crate::record::numbers;

// Where the ARGS of the last record of a kind begin, or where the input ends: those of `front`, `copies`, `back`, `pad`,
// `figure_counts` and `movement_counts`.
#[derive(Clone, Copy)]
pub(crate) struct Kept {
    pub front: usize,
    pub copies: usize,
    pub back: usize,
    pub pad: usize,
    pub figure: usize,
    pub movement: usize,
}

pub(crate) fn nothing(size: usize) -> Kept {
    Kept {
        front: size,
        copies: size,
        back: size,
        pad: size,
        figure: size,
        movement: size,
    }
}

// Keeps a record, or says that it is a question.
pub(crate) fn keep(
    kind: Kind,
    input: &[u8],
    from: usize,
    k: &mut Kept,
    figure: &mut [i64; 11779],
    moves: &mut [i64; 11779],
) -> bool {
    match kind {
        Kind::Front => {
            k.front = from;
            k.copies = input.len();
        }
        Kind::Back => k.back = from,
        Kind::Pad => k.pad = from,
        Kind::Copies => k.copies = from,
        Kind::FigureTable => numbers(input, from, figure),
        Kind::FigureCounts => k.figure = from,
        Kind::MovementTable => numbers(input, from, moves),
        Kind::MovementCounts => k.movement = from,
        _ => return false,
    }
    true
}
