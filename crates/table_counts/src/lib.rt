#![tactic(auto)]
// How many rows each list of a table has, at most and in fact, and how many numbers a row.
mod counts;
mod limits;

pub use counts::{FigureCounts, MovementCounts, no_figure, no_movement};
pub use limits::{
    BONE_WIDTH, COLOUR_WIDTH, FACE_WIDTH, FIGURE_MOSTS, GROUP_WIDTH, KEY_WIDTH, MATERIAL_WIDTH,
    MOST_BONES, MOST_COLOURS, MOST_FACES, MOST_FIGURE, MOST_GROUPS, MOST_KEYS, MOST_MATERIALS,
    MOST_MOVEMENT, MOST_NORMALS, MOST_PATTERNS, MOST_POINTS, MOST_TEXTURES, MOST_UVS,
    MOVEMENT_BONE_WIDTH, MOVEMENT_MOSTS, NORMAL_WIDTH, PATTERN_WIDTH, POINT_WIDTH, TEXTURE_WIDTH,
    UV_WIDTH,
};
