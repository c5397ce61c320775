// A face's size and corners.
ghost use Rattle.std.specs.Prelude.{◌≡◌, cond};
ghost use Rattle.table_references.specs.References.{is_row, is_none};
ghost use Rattle.player_spec.specs.Lookups.{size_fine, corners_fine};

use table_references::{is_none, is_row};

pub fn size_fine(z: i64) -> bool
    ensures { result ≡ size_fine z }
{
    z == 3 || z == 4
}

// A used corner is a row of a list of n, an unused one none.
fn corner_fine(z: i64, n: usize, used: bool) -> bool
    ensures { result ≡ cond used (is_row n z) (is_none z) }
{
    if used { is_row(n, z) } else { is_none(z) }
}

// So many corners are used, from the first on.
pub fn corners_fine(corners: &[i64], n: usize, used: usize) -> bool
    ensures { result ≡ corners_fine n used corners.now }
{
    for (i, z) in corners.iter().enumerate() {
        if !corner_fine(*z, n, i < used) {
            return false;
        }
    }
    true
}
