#![tactic(auto)]
// Contents and answers of texts that differ in name places alone; no code.
