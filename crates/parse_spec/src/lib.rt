#![tactic(auto)]
// Readers of tokens: definitions and no code.
