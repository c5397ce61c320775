// How many numbers of a table are lent, and the counts of its lists.
ghost use Rattle.std.specs.Prelude.{◌≤◌};

use crate::record::next_number;
use table_counts::{FigureCounts, MovementCounts};

// The size that stands first, or the whole table's.
pub(crate) fn lent_size(args: &[u8], at: usize) -> usize
    ensures { result ≤ 11779 }
{
    next_number(args, at).size.min(11779)
}

// So many counts after the size.
fn counts<const N: usize>(args: &[u8], from: usize) -> [usize; N] {
    let mut found = [0usize; N];
    let mut at = next_number(args, from).at;
    for count in &mut found {
        let n = next_number(args, at);
        *count = n.size;
        at = n.at;
    }
    found
}

pub(crate) fn figure_counts(args: &[u8], at: usize) -> FigureCounts {
    let [
        textures,
        colours,
        materials,
        points,
        normals,
        bones,
        uvs,
        faces,
        groups,
    ] = counts::<9>(args, at);
    FigureCounts {
        textures,
        colours,
        materials,
        points,
        normals,
        bones,
        uvs,
        faces,
        groups,
    }
}

pub(crate) fn movement_counts(args: &[u8], at: usize) -> MovementCounts {
    let [bones, keys, patterns] = counts::<3>(args, at);
    MovementCounts {
        bones,
        keys,
        patterns,
    }
}
