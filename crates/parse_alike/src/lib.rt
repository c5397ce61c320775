#![tactic(auto)]
// Readers on two lists of the same tokens; no code.
