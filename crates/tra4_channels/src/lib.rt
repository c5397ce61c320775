#![tactic(auto, unfolding(parse_cursor::specs::Internal::Cursors::from))]
// The channels of a bone: their keys in text order, and where each channel's stand.
mod channel;

pub use channel::channels;
