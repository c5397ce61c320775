#![tactic(auto)]
// A bone's name: a part of one of two lent texts, or nothing with the number 21.
mod labels;

pub use labels::{label, label_number};
