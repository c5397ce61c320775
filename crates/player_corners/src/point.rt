// A vertex's position and owner, and a texture coordinate.
ghost use Rattle.std.specs.Prelude.{◌≡◌, [], ◌∷◌, true, ◌&&◌};
ghost use Rattle.table_references.specs.References.{is_row};
ghost use Rattle.table_references.specs.Index.{is_index};
ghost use Rattle.player_spec.specs.Lookups.{all_float};
ghost use Rattle.player_corners.specs.Answers.{uv_told};
ghost use Rattle.player_corners.specs.Internal.CornerRow.{point_told, point_of, uv_of};

use player_face_tests::Figure;
use player_tests::is_float;
use table_columns::{UvRow, VertexRow, owner_at};
use table_counts::{POINT_WIDTH, UV_WIDTH};
use table_references::is_index;

// A vertex's position and its owner.
#[derive(Clone, Copy)]
pub(crate) struct Point {
    pub x: i64,
    pub y: i64,
    pub z: i64,
    pub owner: i64,
}

// A texture coordinate.
#[derive(Clone, Copy, PartialEq, Eq)]
pub struct Uv {
    pub u: i64,
    pub v: i64,
}

fn point_fine(x: i64, y: i64, z: i64, owner: i64, bones: usize) -> bool
    ensures { result ≡ (all_float (x ∷ y ∷ z ∷ []) && is_index bones owner) }
{
    is_float(x) && is_float(y) && is_float(z) && is_index(bones, owner)
}

// None where a number may not be so.
pub(crate) fn point_at(f: &Figure, v: VertexRow) -> Option<Point>
    requires { is_row f.now.n.points v.0 ≡ true }
    ensures { point_told result ≡ point_of f.now.n f.now.table.now v.0 }
{
    let table = f.table;
    let at = v.0 as usize;
    let base = f.sections.points + at * POINT_WIDTH;
    let x = table[base];
    let y = table[base + 1];
    let z = table[base + 2];
    let owners = f.sections.owners;
    let owner = owner_at(&table[owners..], v);
    point_fine(x, y, z, owner, f.n.bones).then_some(Point { x, y, z, owner })
}

fn uv_fine(u: i64, v: i64) -> bool
    ensures { result ≡ all_float (u ∷ v ∷ []) }
{
    is_float(u) && is_float(v)
}

pub(crate) fn uv_at(f: &Figure, t: UvRow) -> Option<Uv>
    requires { is_row f.now.n.uvs t.0 ≡ true }
    ensures { uv_told result ≡ uv_of f.now.n f.now.table.now t.0 }
{
    let table = f.table;
    let at = t.0 as usize;
    let base = f.sections.uvs + at * UV_WIDTH;
    let u = table[base];
    let v = table[base + 1];
    uv_fine(u, v).then_some(Uv { u, v })
}
