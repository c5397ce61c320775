// Rule 13: a face's material, vertices and texture coordinates.
ghost use Rattle.std.specs.Prelude.{◌≡◌, ◌≤◌, length};
ghost use Rattle.refusal.specs.Internal.Answers.{refusal};
ghost use Rattle.refusal.specs.FirstBad.{first_bad};
ghost use Rattle.table_references.specs.References.{is_row, is_none};
ghost use Rattle.table_columns.specs.Parts.{rows_of};
ghost use Rattle.bac6_face_rules.specs.Internal.Rows.{face_row_fine, corners_known};

use refusal::Refusal;
use table_columns::{
    FACE_CORNERS, FACE_MATERIAL, FACE_SIZE, UvRow, VertexRow, face_uv, face_vertex,
};
use table_counts::FACE_WIDTH;
use table_references::{is_none, is_row};

// The first of `count` rows of 11 that breaks the rule; a row that is not whole is not looked at.
pub fn face_fault(
    table: &[i64],
    count: usize,
    materials: usize,
    points: usize,
    uvs: usize,
) -> Result<(), Refusal>
    ensures { refusal result ≡ first_bad 13 (face_row_fine materials points uvs) 0 (rows_of 11 count table.now) }
{
    for row in 0..count.min(table.len() / FACE_WIDTH) {
        let base = row * FACE_WIDTH;
        if !is_fine(&table[base..base + FACE_WIDTH], materials, points, uvs) {
            return Err(Refusal {
                number: 13,
                place: row,
            });
        }
    }
    Ok(())
}

fn is_fine(f: &[i64], materials: usize, points: usize, uvs: usize) -> bool
    requires { length f.now ≡ 11 }
    ensures { result ≡ face_row_fine materials points uvs f.now }
{
    let used = if f[FACE_SIZE] == 4 { FACE_CORNERS } else { 3 };
    is_row(materials, f[FACE_MATERIAL]) && are_corners(f, used, points, uvs)
}

// So many corners, each with a vertex: all with a texture coordinate, or none.
fn are_corners(f: &[i64], used: usize, points: usize, uvs: usize) -> bool
    requires { (length f.now ≡ 11) × (used ≤ 4) }
    ensures { result ≡ corners_known used points uvs f.now }
{
    let mut rows = true;
    let mut none = true;
    for k in 0..used {
        if !is_vertex(face_vertex(f, k), points) {
            return false;
        }
        let u = face_uv(f, k);
        rows = rows && is_uv(u, uvs);
        none = none && is_no_uv(u);
    }
    none || rows
}

fn is_vertex(v: VertexRow, points: usize) -> bool
    ensures { result ≡ is_row points v.0 }
{
    is_row(points, v.0)
}

fn is_uv(u: UvRow, uvs: usize) -> bool
    ensures { result ≡ is_row uvs u.0 }
{
    is_row(uvs, u.0)
}

fn is_no_uv(u: UvRow) -> bool
    ensures { result ≡ is_none u.0 }
{
    is_none(u.0)
}
