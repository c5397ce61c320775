// Document 01's columns ("The tables") of a material's, a bone's and a face's row.
pub const MATERIAL_TEXTURE: usize = 4;

pub const MATERIAL_COLOUR: usize = 5;

pub const MATERIAL_SPECULAR: usize = 6;

pub const MATERIAL_ALPHA: usize = 7;

pub const MATERIAL_SHININESS: usize = 8;

pub const BONE_CHILD: usize = 9;

pub const BONE_BROTHER: usize = 10;

pub const BONE_PARENT: usize = 11;

pub const FACE_MATERIAL: usize = 0;

pub const FACE_SIZE: usize = 1;

pub const FACE_VERTICES: usize = 2;

pub const FACE_UVS: usize = 6;

pub const FACE_GROUP: usize = 10;

// How many vertices, and how many texture coordinates, a face's row has room for.
pub const FACE_CORNERS: usize = 4;
