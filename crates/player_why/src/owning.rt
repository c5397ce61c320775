// Which of a face's corners is the first without a bone.
ghost use Rattle.std.specs.Prelude.{◌≡◌, ◌≤◌, length};
ghost use Rattle.table_columns.specs.Columns.{face_vertices};
ghost use Rattle.player_why.specs.Internal.Rows.{corners_told, owned_in, row_owned};

use player_face_tests::{Figure, corners_fine, size_fine};
use table_columns::{FACE_SIZE, FACE_UVS, FACE_VERTICES, face_vertex, owner_at};
use table_references::{is_index, is_none};

// The first corner without a bone, if there is one, of so many vertices of a face's row; none is refusal 21, here and below.
// From the last to the first, so that what stays is the first.
fn owned(f: &Figure, row: &[i64], used: usize) -> Option<Option<usize>>
    requires { (length row.now ≡ 11) × (used ≤ 4) }
    ensures { corners_told result ≡ owned_in f.now.n f.now.table.now (face_vertices row.now) used }
{
    let table = f.table;
    let owners = f.sections.owners;
    let mut first = None;
    for i in (0..used).rev() {
        let owner = owner_at(&table[owners..], face_vertex(row, i));
        if !is_index(f.n.bones, owner) {
            return None;
        }
        if is_none(owner) {
            first = Some(i);
        }
    }
    Some(first)
}

// By a face's row.
pub(crate) fn row_owned(f: &Figure, row: &[i64]) -> Option<Option<usize>>
    requires { length row.now ≡ 11 }
    ensures { corners_told result ≡ row_owned f.now.n f.now.table.now row.now }
{
    let size = row[FACE_SIZE];
    if !size_fine(size) {
        return None;
    }
    let used = size as usize;
    if !corners_fine(&row[FACE_VERTICES..FACE_UVS], f.n.points, used) {
        return None;
    }
    owned(f, row, used)
}
