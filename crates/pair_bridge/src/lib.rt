#![tactic(auto)]
// Playing a pair that is loaded: theorems and no code.
