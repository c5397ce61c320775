#![tactic(auto)]
// Blanks and comments put after words of a text; no code.
