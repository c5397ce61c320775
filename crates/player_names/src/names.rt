// Where a bone's name stands in its text.
ghost use Rattle.std.specs.Prelude.{◌≡◌, length};
ghost use Rattle.player_names.specs.Names.{name_span, figure_named, movement_named};
ghost use Rattle.player_names.specs.Internal.Answers.{found};

use table_counts::{FigureCounts, MovementCounts};

// From where to where.
#[derive(Clone, Copy, PartialEq, Eq)]
pub struct NameSpan {
    pub start: usize,
    pub end: usize,
}

// By a pair of place and length, in a text of so many bytes; none is refusal 21, here and below.
fn name_span(size: usize, place: i64, long: i64) -> Option<NameSpan>
    ensures { found result ≡ name_span size place long }
{
    if place < 0 || long < 0 || 255 < long {
        return None;
    }
    let start = place as usize;
    let end = start + long as usize;
    if size < end {
        return None;
    }
    Some(NameSpan { start, end })
}

// The two differ in whose row they read and in its columns; what they share is `name_span`.
#[tactic(auto, using(crate::proofs::Spans::figure_wide))]
pub fn figure_name(figure: &[u8], table: &[i64], n: FigureCounts, bone: usize) -> Option<NameSpan>
    ensures { found result ≡ figure_named (length figure.now) n table.now bone }
{
    let row = table_bones::figure_bone(table, n, bone);
    if row.is_empty() {
        return None;
    }
    name_span(figure.len(), row[12], row[13])
}

#[tactic(auto, using(crate::proofs::Spans::movement_wide))]
pub fn movement_name(
    movement: &[u8],
    moves: &[i64],
    m: MovementCounts,
    bone: usize,
) -> Option<NameSpan>
    ensures { found result ≡ movement_named (length movement.now) m moves.now bone }
{
    let row = table_bones::movement_bone(moves, m, bone);
    if row.is_empty() {
        return None;
    }
    name_span(movement.len(), row[0], row[1])
}
