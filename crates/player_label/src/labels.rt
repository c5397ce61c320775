// The movement's name for a bone where it has one of non-zero length, else the figure's.
ghost use Rattle.std.specs.Prelude.{◌≡◌};
ghost use Rattle.player_spec.specs.Answers.{numbered};
ghost use Rattle.player_label.specs.Labels.{label_in, or_empty};
ghost use Rattle.player_label.specs.Internal.Answers.{named};

use player_names::{figure_name, movement_name};
use table_counts::{FigureCounts, MovementCounts};
use text_parts::part;

// Both names have to be there; none is refusal 21.
fn find<'a>(
    figure: &'a [u8],
    table: &[i64],
    n: FigureCounts,
    movement: &'a [u8],
    moves: &[i64],
    m: MovementCounts,
    bone: usize,
) -> Option<&'a [u8]>
    ensures { named result ≡ label_in figure.now n table.now movement.now m moves.now bone }
{
    let f = figure_name(figure, table, n, bone)?;
    let v = movement_name(movement, moves, m, bone)?;
    if v.start < v.end {
        return Some(part(movement, v.start, v.end));
    }
    Some(part(figure, f.start, f.end))
}

// A bone's name: a part of one of the two lent texts, and an empty one at 21.
pub fn label<'a>(
    figure: &'a [u8],
    table: &[i64],
    n: FigureCounts,
    movement: &'a [u8],
    moves: &[i64],
    m: MovementCounts,
    bone: usize,
) -> &'a [u8]
    ensures { result.now ≡ or_empty (label_in figure.now n table.now movement.now m moves.now bone) }
{
    find(figure, table, n, movement, moves, m, bone).unwrap_or(&figure[..0])
}

// Label's number, 0 or 21: a number of document 01, as the clause says, and no enum.
pub fn label_number(
    figure: &[u8],
    table: &[i64],
    n: FigureCounts,
    movement: &[u8],
    moves: &[i64],
    m: MovementCounts,
    bone: usize,
) -> usize
    ensures { result ≡ (numbered (label_in figure.now n table.now movement.now m moves.now bone)).0 }
{
    match find(figure, table, n, movement, moves, m, bone) {
        Some(_) => 0,
        None => 21,
    }
}
