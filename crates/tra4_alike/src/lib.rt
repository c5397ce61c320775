#![tactic(auto)]
// What two movement texts of the same words say; no code.
