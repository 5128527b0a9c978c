#![tactic(auto)]
// The published Paxos Commit specification, and its safety at every size. There is no code here: specs/PaxosCommit.antt is module
// PaxosCommit of document 001, specs/Widened.antt its Decide widened, and proofs/Theorems.antt has the theorems.
