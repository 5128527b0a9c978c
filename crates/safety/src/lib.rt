#![tactic(auto)]
// No code: what holds after each call of every list of event calls and list calls from a fresh record.
