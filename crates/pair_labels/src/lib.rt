#![tactic(auto)]
// Loads a pair and asks for a bone's name: the answer speaks of the two texts alone.
ghost use Rattle.std.specs.Prelude.{◌≡◌};
ghost use Rattle.pair_text.specs.Answer.{loading, table_left, moves_left};
ghost use Rattle.pair_bridge.specs.Playing.{label_asked};
ghost use Rattle.pair_laws.specs.Playing.{played};
ghost use Rattle.pair_labels.specs.Answers.{refusal_of, bytes_of};

use pair_load::load;
use text_parts::part;

// A refusal's number, place and file; zeros for none.
#[derive(Clone, Copy)]
pub struct Refusal {
    pub number: usize,
    pub place: usize,
    pub file: usize,
}

// A part of one of the two texts; where the pair is refused or has no such bone, an empty one.
pub fn played_label<'a>(
    figure: &'a [u8],
    movement: &'a [u8],
    table: &mut [i64],
    moves: &mut [i64],
    bone: usize,
) -> &'a [u8]
    ensures answer { result.now ≡ bytes_of (played (loading figure.now table.old movement.now moves.old) (λ f m. label_asked f m bone)) }
    ensures figure { table.new ≡ table_left figure.now table.old movement.now moves.old }
    ensures movement { moves.new ≡ moves_left figure.now table.old movement.now moves.old }
{
    let a = load(figure, movement, table, moves);
    if a.figure_total == 0 {
        return part(figure, 0, 0);
    }
    let n = a.figure;
    let m = a.movement;
    player_label::label(figure, table, n, movement, moves, m, bone)
}

// The number, place and file of that.
pub fn played_label_number(
    figure: &[u8],
    movement: &[u8],
    table: &mut [i64],
    moves: &mut [i64],
    bone: usize,
) -> Refusal
    ensures answer { result ≡ refusal_of (played (loading figure.now table.old movement.now moves.old) (λ f m. label_asked f m bone)) }
    ensures figure { table.new ≡ table_left figure.now table.old movement.now moves.old }
    ensures movement { moves.new ≡ moves_left figure.now table.old movement.now moves.old }
{
    let a = load(figure, movement, table, moves);
    if a.figure_total == 0 {
        return Refusal {
            number: a.refusal,
            place: a.place,
            file: a.file,
        };
    }
    let n = a.figure;
    let m = a.movement;
    Refusal {
        number: player_label::label_number(figure, table, n, movement, moves, m, bone),
        place: 0,
        file: 0,
    }
}
