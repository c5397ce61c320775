#![tactic(auto)]
// Bytes and numbers put into a lent buffer one after another (document 01, "Listing").
mod buffer;
mod number;

pub use buffer::{append, has_room};
pub use number::append_number;
