#![tactic(auto)]
// The specification of figures: definitions and no code.
