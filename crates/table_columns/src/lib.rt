#![tactic(auto)]
// Numbers, rows and columns of a table, by their places.
mod columns;
mod corner;
mod owner;

pub use columns::{
    BONE_BROTHER, BONE_CHILD, BONE_PARENT, FACE_CORNERS, FACE_GROUP, FACE_MATERIAL, FACE_SIZE,
    FACE_UVS, FACE_VERTICES, MATERIAL_ALPHA, MATERIAL_COLOUR, MATERIAL_SHININESS,
    MATERIAL_SPECULAR, MATERIAL_TEXTURE,
};
pub use corner::{UvRow, VertexRow, face_uv, face_vertex};
pub use owner::owner_at;
