#![tactic(auto, unfolding(parse_cursor::specs::Internal::Cursors::from))]
// Names, and chunks of a name that may be left out.
mod naming;

pub use naming::{Place, name, optional_name};
