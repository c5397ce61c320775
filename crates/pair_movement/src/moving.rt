// Loads a movement with a figure that already stands in a table.
ghost use Rattle.std.specs.Prelude.{◌≡◌};
ghost use Rattle.pair_text.specs.Answer.{refused as refused_at, movement_left};
ghost use Rattle.pair_movement.specs.Moved.{moved_reply, moving};

use pair_rules::{has_names, pair_fault};
use table_counts::{FigureCounts, no_movement};
use table_rows::put;
use tra4::MovementAnswer;

fn refused(number: usize, place: usize, file: usize) -> MovementAnswer
    ensures { result ≡ moved_reply (refused_at number place file) }
{
    MovementAnswer {
        refusal: number,
        place,
        file,
        total: 0,
        counts: no_movement(),
    }
}

// The figure's text, table and counts are lent; the movement is refused with its own 1 to 17 (file 1), with 18 to 20 (file 2), or with 21
// where the figure's counts, table or bone names break the rules. The movement's table is written where nothing refuses.
pub fn load_movement(
    figure: &[u8],
    table: &[i64],
    n: FigureCounts,
    movement: &[u8],
    moves: &mut [i64],
) -> MovementAnswer
    ensures answer { result ≡ moved_reply (moving figure.now n table.now movement.now moves.old) }
    ensures content { moves.new ≡ movement_left moves.old (moving figure.now n table.now movement.now moves.old) }
{
    if !has_names(figure, table, n) {
        return refused(21, 0, 0);
    }
    // As long as the longest layout, so that 17 is told by the lent table alone.
    let mut rows = [0i64; 11779];
    let answer = tra4::read(movement, &mut rows);
    let total = answer.total;
    // What is taken has a total of at least three.
    if total == 0 {
        return refused(answer.refusal, answer.place, 1);
    }
    if moves.len() < total {
        return refused(17, total, 1);
    }
    let m = answer.counts;
    match pair_fault(figure, table, n, movement, &rows, m) {
        Err(r) => refused(r.number as usize, r.place, 2),
        Ok(()) => {
            put(moves, 0, &rows[..total]);
            answer
        }
    }
}
