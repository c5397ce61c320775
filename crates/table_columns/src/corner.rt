// A corner of a face's row. A vertex number and a texture coordinate number count separate lists.
ghost use Rattle.std.specs.Prelude.{◌≡◌, ◌≤◌};
ghost use Rattle.table_columns.specs.Columns.{corner_at};

use crate::columns::{FACE_CORNERS, FACE_UVS, FACE_VERTICES};

#[derive(Clone, Copy)]
pub struct VertexRow(pub i64);

#[derive(Clone, Copy)]
pub struct UvRow(pub i64);

// The vertex of corner k; none past the fourth.
pub fn face_vertex(row: &[i64], k: usize) -> VertexRow
    ensures { result.0 ≡ corner_at 2 row.now k }
{
    VertexRow(corner(row, FACE_VERTICES, k))
}

// The texture coordinate of corner k; none past the fourth.
pub fn face_uv(row: &[i64], k: usize) -> UvRow
    ensures { result.0 ≡ corner_at 6 row.now k }
{
    UvRow(corner(row, FACE_UVS, k))
}

fn corner(row: &[i64], from: usize, k: usize) -> i64
    requires { from ≤ 6 }
    ensures { result ≡ corner_at from row.now k }
{
    if FACE_CORNERS <= k {
        return -1;
    }
    row.get(from + k).copied().unwrap_or(0)
}
