#![tactic(auto)]
// What two figure texts of the same words say; no code.
