#![tactic(auto)]
// INT and FLOAT of a plain word as definitions (document 01, "Words", and document 02, request vii), and their laws.
