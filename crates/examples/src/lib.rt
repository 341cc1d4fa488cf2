// The worked examples of document 01 that are to be proved, as one table under a single claim: specs/Table.antt states it
// and proofs/Table.antt shows it. There is no code here.
#![tactic(auto)]
