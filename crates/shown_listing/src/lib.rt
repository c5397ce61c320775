#![tactic(auto)]
// Whether faces are shown, as text.
mod faces;

pub use faces::list_shown;
