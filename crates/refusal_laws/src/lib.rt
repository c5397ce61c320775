#![tactic(auto)]
// Which numbers a refusal has: definitions and theorems, and no code.
