#![tactic(auto)]
// What a byte is (document 01, "Words").
mod bytes;

pub use bytes::{Class, class_of, is_between, is_blank, is_letter};
