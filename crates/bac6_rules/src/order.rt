// Rules 8, 9 and 11 to 13 in order: of a figure's faults the lowest number, with its lowest row. Rule 10 stands between them (`place_bones`).
ghost use Rattle.std.specs.Prelude.{◌≡◌};
ghost use Rattle.refusal.specs.Internal.Answers.{refusal};
ghost use Rattle.bac6_rules.specs.Internal.Order.{counts_fault, later_fault};

use crate::count::normals_fault;
use bac6_face_rules::face_fault;
use bac6_material_rules::material_fault;
use refusal::Refusal;
use table_counts::{
    FigureCounts, MOST_BONES, MOST_COLOURS, MOST_FACES, MOST_GROUPS, MOST_MATERIALS, MOST_NORMALS,
    MOST_POINTS, MOST_TEXTURES, MOST_UVS,
};

// Rules 8 and 9: the first fault of the row counts.
pub fn counts_fault(n: FigureCounts) -> Result<(), Refusal>
    ensures { refusal result ≡ counts_fault n }
{
    let counts = [
        n.textures,
        n.colours,
        n.materials,
        n.points,
        n.normals,
        n.bones,
        n.uvs,
        n.faces,
        n.groups,
    ];
    let mosts = [
        MOST_TEXTURES,
        MOST_COLOURS,
        MOST_MATERIALS,
        MOST_POINTS,
        MOST_NORMALS,
        MOST_BONES,
        MOST_UVS,
        MOST_FACES,
        MOST_GROUPS,
    ];
    refusal::too_many(&counts, &mosts)?;
    normals_fault(n.points, n.normals)
}

// Rules 11 to 13: the first fault, where `claims` is what reading the vertex entries found of rule 11.
pub fn later_fault(
    n: FigureCounts,
    claims: Result<(), Refusal>,
    materials: &[i64],
    faces: &[i64],
) -> Result<(), Refusal>
    ensures { refusal result ≡ later_fault n (refusal claims) materials.now faces.now }
{
    claims?;
    material_fault(materials, n.materials, n.textures, n.colours)?;
    face_fault(faces, n.faces, n.materials, n.points, n.uvs)
}
