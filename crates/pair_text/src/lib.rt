#![tactic(auto)]
// The specification of pairs: definitions and no code.
