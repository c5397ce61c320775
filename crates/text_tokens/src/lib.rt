#![tactic(auto)]
// The next token of a text (document 01's "words").
mod token;

pub use token::{Kind, Span, is_keyword, next};
