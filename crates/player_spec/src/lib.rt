#![tactic(auto)]
// What playing a movement's and a figure's tables answers: definitions alone.
