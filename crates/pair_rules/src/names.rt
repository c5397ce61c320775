// The names of the bones of a figure and a movement.
ghost use Rattle.std.specs.Prelude.{◌≡◌, true, ◌<◌, length};
ghost use Rattle.refusal.specs.Internal.Answers.{refusal};
ghost use Rattle.parse_spec.specs.Fields.{is_some};
ghost use Rattle.table_figure.specs.Sections.{holds_figure};
ghost use Rattle.table_movement.specs.Sections.{holds_movement};
ghost use Rattle.player_names.specs.Internal.Answers.{found};
ghost use Rattle.player_names.specs.Names.{part_at, figure_named, figure_name, movement_name};
ghost use Rattle.player_label.specs.Labels.{or_empty};
ghost use Rattle.pair_text.specs.Rules.{names_agree, names_fault};
ghost use Rattle.player_label.specs.BoneNames.{names_from, names_in};

use player_names::{NameSpan, figure_name, movement_name};
use refusal::Refusal;
use table_counts::{FigureCounts, MovementCounts};
use text_parts::{part, same};

fn has_name(figure: &[u8], table: &[i64], n: FigureCounts, row: usize) -> bool
    ensures { result ≡ is_some (figure_named (length figure.now) n table.now row) }
{
    figure_name(figure, table, n, row).is_some()
}

// Whether the table holds what its counts say and every bone's pair is a name.
pub fn has_names(figure: &[u8], table: &[i64], n: FigureCounts) -> bool
    ensures { result ≡ is_some (names_in figure.now n table.now) }
{
    if !table_figure::holds_figure(table, n) {
        return false;
    }
    for row in 0..n.bones {
        if !has_name(figure, table, n, row) {
            return false;
        }
    }
    true
}

fn name_of<'a>(text: &'a [u8], name: Option<NameSpan>) -> &'a [u8]
    ensures { result.now ≡ or_empty (part_at text.now (found name)) }
{
    match name {
        None => part(text, 0, 0),
        Some(span) => part(text, span.start, span.end),
    }
}

// One is empty, or their bytes are the same.
fn names_agree(a: &[u8], b: &[u8]) -> bool
    ensures { result ≡ names_agree a.now b.now }
{
    if a.is_empty() || b.is_empty() {
        return true;
    }
    same(a, b)
}

fn bone_agrees(
    figure: &[u8],
    table: &[i64],
    n: FigureCounts,
    movement: &[u8],
    moves: &[i64],
    m: MovementCounts,
    row: usize,
) -> bool
    requires { (holds_figure n table.now ≡ true) × (holds_movement m moves.now ≡ true) × (row < n.bones) × (row < m.bones) }
    ensures { result ≡ names_agree (or_empty (figure_name figure.now n table.now row)) (or_empty (movement_name movement.now moves.now row)) }
{
    let a = figure_name(figure, table, n, row);
    let b = movement_name(movement, moves, m, row);
    names_agree(name_of(figure, a), name_of(movement, b))
}

// 19, at the first row whose names do not agree.
pub(crate) fn names_fault(
    figure: &[u8],
    table: &[i64],
    n: FigureCounts,
    movement: &[u8],
    moves: &[i64],
    m: MovementCounts,
) -> Result<(), Refusal>
    requires { (holds_figure n table.now ≡ true) × (holds_movement m moves.now ≡ true) × (n.bones ≡ m.bones) }
    ensures { refusal result ≡ names_fault 0 (names_from (figure_name figure.now n table.now) 0 n.bones) (names_from (movement_name movement.now moves.now) 0 m.bones) }
{
    let bones = n.bones;
    for row in 0..bones {
        if !bone_agrees(figure, table, n, movement, moves, m, row) {
            return Err(Refusal {
                number: 19,
                place: row,
            });
        }
    }
    Ok(())
}
