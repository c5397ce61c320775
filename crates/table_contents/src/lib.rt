#![tactic(auto)]
// What a table and its text say together, name places left out; no code.
