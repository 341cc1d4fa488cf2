// What holds of drain and write_pending beyond their contracts: what the report counts, what of the image stays, and that a refused call
// alters nothing. It has definitions and proofs only, in specs/ and proofs/.
#![tactic(auto)]
