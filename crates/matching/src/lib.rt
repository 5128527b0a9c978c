#![tactic(auto)]
// Demand 2: the steps match the published actions. There is no code here: the theorems are in proofs/.
