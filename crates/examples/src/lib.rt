#![tactic(auto)]
// Document 01's proved examples. There is no code here: proofs/Examples.antt holds the table, and one theorem proves it.
