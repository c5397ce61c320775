// A bone's row: nothing where the table does not hold what its counts say, or has no such row.
ghost use Rattle.std.specs.Prelude.{◌≡◌};
ghost use Rattle.table_bones.specs.Internal.Bones.{figure_bone, movement_bone};

use table_counts::{BONE_WIDTH, FigureCounts, MOVEMENT_BONE_WIDTH, MovementCounts};
use table_figure::figure_in;
use table_movement::movement_in;

pub fn figure_bone(table: &[i64], n: FigureCounts, bone: usize) -> &[i64]
    ensures { result.now ≡ figure_bone n table.now bone }
{
    let s = figure_in(table, n);
    if s.end == 0 {
        return &table[..0];
    }
    if n.bones <= bone {
        return &table[..0];
    }
    let base = s.bones + bone * BONE_WIDTH;
    &table[base..base + BONE_WIDTH]
}

pub fn movement_bone(moves: &[i64], m: MovementCounts, bone: usize) -> &[i64]
    ensures { result.now ≡ movement_bone m moves.now bone }
{
    let s = movement_in(moves, m);
    if s.end == 0 {
        return &moves[..0];
    }
    if m.bones <= bone {
        return &moves[..0];
    }
    let base = s.bones + bone * MOVEMENT_BONE_WIDTH;
    &moves[base..base + MOVEMENT_BONE_WIDTH]
}
