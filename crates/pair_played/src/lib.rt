#![tactic(auto)]
// What loading a pair and then playing it answers, whatever was asked.
mod answer;

pub use answer::Played;
