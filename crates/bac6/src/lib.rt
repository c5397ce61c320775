#![tactic(auto)]
// Reads a figure's text.
mod reader;
mod setting;

pub use reader::read;
pub use setting::FigureAnswer;
