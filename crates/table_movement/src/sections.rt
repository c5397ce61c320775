// Where each list of a movement's table begins and the last ends, by its counts: zeros where a count is above its most, or the
// table is shorter than they say.
ghost use Rattle.std.specs.Prelude.{◌≡◌, ◌≤◌};
ghost use Rattle.table_movement.specs.Sections.{few_in_movement, no_movement_sections, movement_sections, holds_movement, movement_in};

use refusal::too_many;
use table_counts::{KEY_WIDTH, MOVEMENT_BONE_WIDTH, MOVEMENT_MOSTS, MovementCounts, PATTERN_WIDTH};

// The numbers in front of the lists.
const MOVEMENT_FRONT: usize = 3;

#[derive(Clone, Copy)]
pub struct MovementSections {
    pub bones: usize,
    pub keys: usize,
    pub patterns: usize,
    pub end: usize,
}

pub fn movement_in(table: &[i64], n: MovementCounts) -> MovementSections
    ensures { result ≡ movement_in n table.now }
{
    if !few_in_movement(n) {
        return no_movement_sections();
    }
    let s = movement_sections(n);
    if table.len() < s.end {
        return no_movement_sections();
    }
    s
}

// No count is above its most.
fn few_in_movement(n: MovementCounts) -> bool
    ensures { result ≡ few_in_movement n }
{
    too_many(&n.rows(), &MOVEMENT_MOSTS).is_ok()
}

fn no_movement_sections() -> MovementSections
    ensures { result ≡ no_movement_sections }
{
    MovementSections {
        bones: 0,
        keys: 0,
        patterns: 0,
        end: 0,
    }
}

fn movement_sections(n: MovementCounts) -> MovementSections
    requires { (n.bones ≤ 128) × (n.keys ≤ 4096) × (n.patterns ≤ 256) }
    ensures { result ≡ movement_sections n }
{
    let keys = MOVEMENT_FRONT + n.bones * MOVEMENT_BONE_WIDTH;
    let patterns = keys + n.keys * KEY_WIDTH;
    let end = patterns + n.patterns * PATTERN_WIDTH;
    MovementSections {
        bones: MOVEMENT_FRONT,
        keys,
        patterns,
        end,
    }
}

// No count is above its most, and the table is not shorter than they say.
pub fn holds_movement(table: &[i64], n: MovementCounts) -> bool
    ensures { result ≡ holds_movement n table.now }
{
    movement_in(table, n).end != 0
}
