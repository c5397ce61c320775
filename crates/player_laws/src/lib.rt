#![tactic(auto)]
// What a channel's samples are, on its keys, between them and past the last, Sample by a channel's pair, and pattern lines exchanged: definitions and theorems, and no code.
