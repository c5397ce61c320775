#![tactic(auto)]
// Laws on what loading a pair and then playing it answers; no code.
