#![tactic(auto)]
// No code: the event call of the record and the published actions.
