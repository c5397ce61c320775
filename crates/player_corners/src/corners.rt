// A face's corner.
ghost use Rattle.std.specs.Prelude.{◌≡◌, length};
ghost use Rattle.player_spec.specs.Lookups.{corner_in};
ghost use Rattle.player_spec.specs.Answers.{numbered};
ghost use Rattle.player_corners.specs.Answers.{cornered};
ghost use Rattle.player_corners.specs.Internal.CornerRow.{corner_told, row_corner};

use crate::face::face_sound;
use crate::point::{Uv, point_at, uv_at};
use player_face_tests::Figure;
use table_columns::{FACE_MATERIAL, FACE_SIZE, face_uv, face_vertex};
use table_counts::FigureCounts;
use table_references::is_none;

// A position, its owner and a material's row, with a texture coordinate or without one.
#[derive(Clone, Copy, PartialEq, Eq)]
pub struct FaceCorner {
    pub x: i64,
    pub y: i64,
    pub z: i64,
    pub owner: i64,
    pub material: i64,
    pub uv: Option<Uv>,
}

// By a face's row; none is refusal 21, here and below.
fn row_corner(f: &Figure, row: &[i64], k: usize) -> Option<FaceCorner>
    requires { length row.now ≡ 11 }
    ensures { corner_told result ≡ row_corner f.now.n f.now.table.now row.now k }
{
    if !face_sound(row, f.n) {
        return None;
    }
    if row[FACE_SIZE] as usize <= k {
        return None;
    }
    let p = point_at(f, face_vertex(row, k))?;
    let corner = FaceCorner {
        x: p.x,
        y: p.y,
        z: p.z,
        owner: p.owner,
        material: row[FACE_MATERIAL],
        uv: None,
    };
    let t = face_uv(row, k);
    if is_none(t.0) {
        return Some(corner);
    }
    let uv = uv_at(f, t)?;
    Some(FaceCorner {
        uv: Some(uv),
        ..corner
    })
}

// A corner of a face, in any table with any counts. None is refusal 21.
pub fn corner(table: &[i64], n: FigureCounts, face: usize, k: usize) -> Option<FaceCorner>
    ensures { cornered result ≡ numbered (corner_in n table.now face k) }
{
    let f = Figure::of(table, n)?;
    let row = f.face(face)?;
    row_corner(&f, row, k)
}
