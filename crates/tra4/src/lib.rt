#![tactic(auto)]
// Reads a movement's text.
mod reader;
mod setting;

pub use reader::read;
pub use setting::MovementAnswer;
