#![tactic(auto)]
// Corner and Shown from the texts: what the tables give is what the texts say. Theorems and no code.
