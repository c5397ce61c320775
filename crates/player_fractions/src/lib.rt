#![tactic(auto)]
// Fractions in lowest terms, and the halvings and subtractions that bring them there: definitions and theorems, and no code.
