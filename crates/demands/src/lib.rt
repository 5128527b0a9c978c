#![tactic(auto)]
// No code: the demands, stated side by side.
