// The rules 18 to 20 over two tables, their counts and their texts.
ghost use Rattle.std.specs.Prelude.{◌≡◌, true, ◌*◌, ◌≤◌, length};
ghost use Rattle.refusal.specs.Internal.Answers.{refusal};
ghost use Rattle.table_figure.specs.Sections.{holds_figure};
ghost use Rattle.table_movement.specs.Sections.{holds_movement};
ghost use Rattle.table_columns.specs.Parts.{rows_at};
ghost use Rattle.pair_text.specs.Rules.{groups_fault};
ghost use Rattle.pair_rules.specs.Internal.Tables.{rows_fault, tables_fault};

use crate::names::names_fault;
use refusal::Refusal;
use table_counts::{FigureCounts, KEY_WIDTH, MOVEMENT_BONE_WIDTH, MovementCounts, PATTERN_WIDTH};

// 20, at the first pattern line whose group is none of so many; lines are rows of three numbers.
fn groups_fault(lines: &[i64], count: usize, groups: usize) -> Result<(), Refusal>
    requires { (length lines.now ≡ count * 3) × (count ≤ 256) }
    ensures { refusal result ≡ groups_fault groups (rows_at 3 lines.now 0 count) }
{
    for row in 0..count {
        let group = lines[row * 3 + 1];
        if !table_references::is_row(groups, group) {
            return Err(Refusal {
                number: 20,
                place: row,
            });
        }
    }
    Ok(())
}

// In tables that hold what their counts say.
fn rows_fault(
    figure: &[u8],
    table: &[i64],
    n: FigureCounts,
    movement: &[u8],
    moves: &[i64],
    m: MovementCounts,
) -> Result<(), Refusal>
    requires { (holds_figure n table.now ≡ true) × (holds_movement m moves.now ≡ true) }
    ensures { refusal result ≡ rows_fault figure.now n table.now movement.now m moves.now }
{
    let bones = m.bones;
    if n.bones != bones {
        return Err(Refusal {
            number: 18,
            place: bones,
        });
    }
    names_fault(figure, table, n, movement, moves, m)?;
    let count = m.patterns;
    let from = 3 + bones * MOVEMENT_BONE_WIDTH + m.keys * KEY_WIDTH;
    groups_fault(&moves[from..from + count * PATTERN_WIDTH], count, n.groups)
}

// The first fault of a pair; 21 where a table does not hold what its counts say.
pub fn pair_fault(
    figure: &[u8],
    table: &[i64],
    n: FigureCounts,
    movement: &[u8],
    moves: &[i64],
    m: MovementCounts,
) -> Result<(), Refusal>
    ensures { refusal result ≡ tables_fault figure.now n table.now movement.now m moves.now }
{
    if !table_figure::holds_figure(table, n) || !table_movement::holds_movement(moves, m) {
        return Err(Refusal {
            number: 21,
            place: 0,
        });
    }
    rows_fault(figure, table, n, movement, moves, m)
}
