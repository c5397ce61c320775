#![tactic(auto)]
// Where each list stands in a figure's table.
mod sections;

pub use sections::{FigureSections, figure_in, holds_figure};
