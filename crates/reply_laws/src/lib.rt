// What a caller may conclude from the reply of a C call: specs/ states it of every export's answer, and proofs/ shows it. There is no
// code here.
#![tactic(auto)]
