#![tactic(auto)]
// A refusal's number and place, the first fault of two, and rule 8 (document 01, "Refusal numbers").
mod checked;
mod limits;

pub use checked::Refusal;
pub use limits::too_many;
