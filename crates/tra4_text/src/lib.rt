#![tactic(auto)]
// The specification of movements: definitions and no code.
