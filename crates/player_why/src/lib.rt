#![tactic(auto)]
// Why a face is shown or hidden at a frame.
mod explaining;
mod owning;
mod reason;

pub use explaining::why;
pub use reason::Reason;
