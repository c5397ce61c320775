// Rule 10: the bones as one list, each with its parent.
ghost use Rattle.std.specs.Prelude.{◌≡◌, suc, ◌-◌, ◌*◌, ◌≤◌, length, drop};
ghost use Rattle.refusal.specs.Internal.Answers.{refusal};
ghost use Rattle.bac6_text.specs.Rules.{bone_list, whole_list, bones_fault};
ghost use Rattle.bac6_bone_rules.specs.Internal.Bones.{flags_in, one_bone, Walked, Settled};

use refusal::Refusal;
use table_columns::{BONE_BROTHER, BONE_CHILD, BONE_PARENT};
use table_counts::BONE_WIDTH;

// The first `count` rows of 14 as one list, with each row's parent set into column 11; a row that is not whole is no bone.
// Where the rows run out, which of their parents are set is free, and nothing else is altered.
pub fn place_bones(table: &mut [i64], count: usize) -> Result<(), Refusal>
    ensures answer { refusal result ≡ bones_fault (flags_in count table.old) }
    ensures content { Settled count table.old table.new (whole_list (flags_in count table.old)) }
{
    let rows = count.min(table.len() / BONE_WIDTH);
    let Some(next) = bones(table, rows, 0, -1) else {
        return Err(Refusal {
            number: 10,
            place: rows,
        });
    };
    if next < rows {
        return Err(Refusal {
            number: 10,
            place: next,
        });
    }
    Ok(())
}

// A bone and its children's list: the row after them, or none where the rows run out.
#[cycle(bone_bones)]
fn bone(table: &mut [i64], rows: usize, row: usize, parent: i64) -> Option<usize>
    requires { rows * 14 ≤ length table.old }
    ensures { Walked rows row table.old table.new (one_bone (rows - suc row) parent row (drop row (flags_in rows table.old))) result }
{
    if rows <= row {
        return None;
    }
    let base = row * BONE_WIDTH;
    table[base + BONE_PARENT] = parent;
    if table[base + BONE_CHILD] == 0 {
        return Some(row + 1);
    }
    bones(table, rows, row + 1, row as i64)
}

// A list of bones: one, then the rest of the list if it has a brother.
#[cycle(bone_bones)]
fn bones(table: &mut [i64], rows: usize, row: usize, parent: i64) -> Option<usize>
    requires { rows * 14 ≤ length table.old }
    ensures { Walked rows row table.old table.new (bone_list (rows - row) parent row (drop row (flags_in rows table.old))) result }
{
    let next = bone(table, rows, row, parent)?;
    if table[row * BONE_WIDTH + BONE_BROTHER] == 0 {
        return Some(next);
    }
    bones(table, rows, next, parent)
}
