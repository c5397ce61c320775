#![tactic(auto)]
// Sample from a movement's text: definitions and theorems, and no code.
