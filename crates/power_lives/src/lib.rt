// Demand 3 of what the rig plays: over any power-ons, failed programs and cuts, all but at most the last five records logged in a power-on
// are on flash. It has definitions and proofs only, in specs/ and proofs/.
#![tactic(auto)]
