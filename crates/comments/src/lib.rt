#![tactic(auto)]
// Comments make no difference (document 02, (ix)); no code.
