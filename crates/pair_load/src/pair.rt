// Loads a figure and a movement.
ghost use Rattle.std.specs.Prelude.{◌≡◌};
ghost use Rattle.pair_text.specs.Answer.{refused as refused_at, table_left, moves_left};
ghost use Rattle.pair_load.specs.Answers.{pair_reply, reply};

use pair_movement::load_movement;
use table_counts::{FigureCounts, MovementCounts, no_figure, no_movement};
use table_rows::put;

// A refusal's number, place and file, and zeros; or how many numbers and rows each table holds.
#[derive(Clone, Copy)]
pub struct PairAnswer {
    pub refusal: usize,
    pub place: usize,
    pub file: usize,
    pub figure_total: usize,
    pub figure: FigureCounts,
    pub movement_total: usize,
    pub movement: MovementCounts,
}

fn refused(number: usize, place: usize, file: usize) -> PairAnswer
    ensures { result ≡ pair_reply (refused_at number place file) }
{
    PairAnswer {
        refusal: number,
        place,
        file,
        figure_total: 0,
        figure: no_figure(),
        movement_total: 0,
        movement: no_movement(),
    }
}

// The answer is document 01's; each table holds its text's layout from its start on, or, where the pair is refused, what it held.
pub fn load(figure: &[u8], movement: &[u8], table: &mut [i64], moves: &mut [i64]) -> PairAnswer
    ensures answer { result ≡ reply figure.now table.old movement.now moves.old }
    ensures figure { table.new ≡ table_left figure.now table.old movement.now moves.old }
    ensures movement { moves.new ≡ moves_left figure.now table.old movement.now moves.old }
{
    // As long as the longest layout, so that 17 is told by the lent table alone.
    let mut rows = [0i64; 37026];
    let answer = bac6::read(figure, &mut rows);
    let total = answer.total;
    // What is taken has a total of at least two.
    if total == 0 {
        return refused(answer.refusal, answer.place, 0);
    }
    if table.len() < total {
        return refused(17, total, 0);
    }
    let n = answer.counts;
    let moved = load_movement(figure, &rows, n, movement, moves);
    if moved.total == 0 {
        return refused(moved.refusal, moved.place, moved.file);
    }
    put(table, 0, &rows[..total]);
    let m = moved.counts;
    PairAnswer {
        refusal: 0,
        place: 0,
        file: 0,
        figure_total: total,
        figure: n,
        movement_total: moved.total,
        movement: m,
    }
}
