// What the log can lose: demand 3's theory over abstract pages. It has definitions and proofs only, in specs/ and proofs/.
#![tactic(auto)]
