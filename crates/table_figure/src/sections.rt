// Where each list of a figure's table begins and the last ends, by its counts: zeros where a count is above its most, or the
// table is shorter than they say.
ghost use Rattle.std.specs.Prelude.{◌≡◌};
ghost use Rattle.table_figure.specs.Sections.{few_in_figure, no_figure_sections, figure_sections, holds_figure, WithinMosts, figure_in};

use refusal::too_many;
use table_counts::{
    BONE_WIDTH, COLOUR_WIDTH, FACE_WIDTH, FIGURE_MOSTS, FigureCounts, GROUP_WIDTH, MATERIAL_WIDTH,
    NORMAL_WIDTH, POINT_WIDTH, TEXTURE_WIDTH, UV_WIDTH,
};

// The numbers in front of the lists.
const FIGURE_FRONT: usize = 2;

#[derive(Clone, Copy)]
pub struct FigureSections {
    pub points: usize,
    pub bones: usize,
    pub owners: usize,
    pub uvs: usize,
    pub faces: usize,
    pub groups: usize,
    pub end: usize,
}

pub fn figure_in(table: &[i64], n: FigureCounts) -> FigureSections
    ensures { result ≡ figure_in n table.now }
{
    if !few_in_figure(n) {
        return no_figure_sections();
    }
    let s = figure_sections(n);
    if table.len() < s.end {
        return no_figure_sections();
    }
    s
}

// No count is above its most.
fn few_in_figure(n: FigureCounts) -> bool
    ensures { result ≡ few_in_figure n }
{
    too_many(&n.rows(), &FIGURE_MOSTS).is_ok()
}

fn no_figure_sections() -> FigureSections
    ensures { result ≡ no_figure_sections }
{
    FigureSections {
        points: 0,
        bones: 0,
        owners: 0,
        uvs: 0,
        faces: 0,
        groups: 0,
        end: 0,
    }
}

fn figure_sections(n: FigureCounts) -> FigureSections
    requires { WithinMosts n }
    ensures { result ≡ figure_sections n }
{
    let points = FIGURE_FRONT
        + n.textures * TEXTURE_WIDTH
        + n.colours * COLOUR_WIDTH
        + n.materials * MATERIAL_WIDTH;
    let bones = points + n.points * POINT_WIDTH + n.normals * NORMAL_WIDTH;
    let owners = bones + n.bones * BONE_WIDTH;
    let uvs = owners + n.points;
    let faces = uvs + n.uvs * UV_WIDTH;
    let groups = faces + n.faces * FACE_WIDTH;
    let end = groups + n.groups * GROUP_WIDTH;
    FigureSections {
        points,
        bones,
        owners,
        uvs,
        faces,
        groups,
        end,
    }
}

pub fn holds_figure(table: &[i64], n: FigureCounts) -> bool
    ensures { result ≡ holds_figure n table.now }
{
    figure_in(table, n).end != 0
}
