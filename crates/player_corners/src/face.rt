// A face's row: material, size, four vertices, four texture coordinates, group.
ghost use Rattle.std.specs.Prelude.{◌≡◌, ◌||◌, length};
ghost use Rattle.player_spec.specs.Lookups.{corners_fine, all_none, face_sound};

use player_face_tests::{corners_fine, size_fine};
use table_columns::{FACE_GROUP, FACE_MATERIAL, FACE_SIZE, FACE_UVS, FACE_VERTICES};
use table_counts::FigureCounts;
use table_references::{is_index, is_row};

// Texture coordinates are all none, or as sound as vertices.
fn uvs_fine(corners: &[i64], n: usize, used: usize) -> bool
    ensures { result ≡ (all_none corners.now || corners_fine n used corners.now) }
{
    corners_fine(corners, n, 0) || corners_fine(corners, n, used)
}

pub(crate) fn face_sound(row: &[i64], n: FigureCounts) -> bool
    requires { length row.now ≡ 11 }
    ensures { result ≡ face_sound n row.now }
{
    if !is_row(n.materials, row[FACE_MATERIAL]) {
        return false;
    }
    let size = row[FACE_SIZE];
    if !size_fine(size) {
        return false;
    }
    let used = size as usize;
    if !corners_fine(&row[FACE_VERTICES..FACE_UVS], n.points, used) {
        return false;
    }
    if !uvs_fine(&row[FACE_UVS..FACE_GROUP], n.uvs, used) {
        return false;
    }
    is_index(n.groups, row[FACE_GROUP])
}
