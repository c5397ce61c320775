// Document 01's limits ("Most rows") and columns ("The tables"): the most rows of each list, and the numbers of a row.
pub const MOST_TEXTURES: usize = 16;

pub const MOST_COLOURS: usize = 256;

pub const MOST_MATERIALS: usize = 64;

pub const MOST_POINTS: usize = 2048;

pub const MOST_NORMALS: usize = 2048;

pub const MOST_BONES: usize = 128;

pub const MOST_UVS: usize = 4096;

pub const MOST_FACES: usize = 1024;

pub const MOST_GROUPS: usize = 32;

pub const MOST_KEYS: usize = 4096;

pub const MOST_PATTERNS: usize = 256;

// The most of each list, in the table's order without the owners.
pub const FIGURE_MOSTS: [usize; 9] = [
    MOST_TEXTURES,
    MOST_COLOURS,
    MOST_MATERIALS,
    MOST_POINTS,
    MOST_NORMALS,
    MOST_BONES,
    MOST_UVS,
    MOST_FACES,
    MOST_GROUPS,
];

pub const MOVEMENT_MOSTS: [usize; 3] = [MOST_BONES, MOST_KEYS, MOST_PATTERNS];

pub const TEXTURE_WIDTH: usize = 2;

pub const COLOUR_WIDTH: usize = 3;

pub const MATERIAL_WIDTH: usize = 9;

pub const POINT_WIDTH: usize = 3;

pub const NORMAL_WIDTH: usize = 3;

pub const BONE_WIDTH: usize = 14;

pub const UV_WIDTH: usize = 2;

pub const FACE_WIDTH: usize = 11;

pub const GROUP_WIDTH: usize = 2;

pub const MOVEMENT_BONE_WIDTH: usize = 22;

pub const KEY_WIDTH: usize = 2;

pub const PATTERN_WIDTH: usize = 3;

// The numbers of the longest layouts.
pub const MOST_FIGURE: usize = 37026;

pub const MOST_MOVEMENT: usize = 11779;
