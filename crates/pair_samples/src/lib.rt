#![tactic(auto)]
// Loads a pair and samples a channel: the two texts are lent with two tables, and the answer speaks of the texts alone.
ghost use Rattle.std.specs.Prelude.{◌≡◌};
ghost use Rattle.player_channel.specs.Answers.{sampled};
ghost use Rattle.pair_text.specs.Answer.{loading, table_left, moves_left};
ghost use Rattle.pair_bridge.specs.Playing.{sample_asked};
ghost use Rattle.pair_laws.specs.Playing.{played};
ghost use Rattle.pair_played.specs.Answers.{told};

use pair_load::load;
use pair_played::Played;
use player_channel::Sample;

// A channel of a bone at a frame, of the pair that two texts are.
pub fn played_sample(
    figure: &[u8],
    movement: &[u8],
    table: &mut [i64],
    moves: &mut [i64],
    bone: usize,
    channel: usize,
    at: usize,
) -> Played<Sample>
    ensures answer { told sampled result ≡ played (loading figure.now table.old movement.now moves.old) (λ f m. sample_asked m bone channel at) }
    ensures figure { table.new ≡ table_left figure.now table.old movement.now moves.old }
    ensures movement { moves.new ≡ moves_left figure.now table.old movement.now moves.old }
{
    let a = load(figure, movement, table, moves);
    if a.figure_total == 0 {
        return Played::refused(a.refusal, a.place, a.file);
    }
    Played::answered(player_samples::sample(moves, a.movement, bone, channel, at))
}
