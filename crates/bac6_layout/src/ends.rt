// Where the lists end in the table of rows.
ghost use Rattle.std.specs.Prelude.{◌≡◌};
ghost use Rattle.bac6_layout.specs.Internal.Ends.{ends_of};

use table_counts::{
    BONE_WIDTH, COLOUR_WIDTH, FACE_WIDTH, FigureCounts, MATERIAL_WIDTH, NORMAL_WIDTH, POINT_WIDTH,
    TEXTURE_WIDTH, UV_WIDTH,
};
use table_index::rows_end;

// The index after each list's rows, or the table's end.
#[derive(Clone, Copy)]
pub struct Ends {
    pub textures: usize,
    pub colours: usize,
    pub materials: usize,
    pub points: usize,
    pub normals: usize,
    pub bones: usize,
    pub uvs: usize,
    pub faces: usize,
}

// In a table of `room` numbers.
pub fn row_ends(n: FigureCounts, room: usize) -> Ends
    ensures { result ≡ ends_of n room }
{
    let textures = rows_end(0, n.textures, TEXTURE_WIDTH, room);
    let colours = rows_end(textures, n.colours, COLOUR_WIDTH, room);
    let materials = rows_end(colours, n.materials, MATERIAL_WIDTH, room);
    let points = rows_end(materials, n.points, POINT_WIDTH, room);
    let normals = rows_end(points, n.normals, NORMAL_WIDTH, room);
    let bones = rows_end(normals, n.bones, BONE_WIDTH, room);
    let uvs = rows_end(bones, n.uvs, UV_WIDTH, room);
    let faces = rows_end(uvs, n.faces, FACE_WIDTH, room);
    Ends {
        textures,
        colours,
        materials,
        points,
        normals,
        bones,
        uvs,
        faces,
    }
}
