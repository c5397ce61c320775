#![tactic(auto, unfolding(parse_cursor::specs::Internal::Cursors::from))]
// The bones of a movement, their keys laid by channel number.
mod list;

pub use list::{Boned, bones};
