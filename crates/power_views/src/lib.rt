// The writer's calls are the theory's: how writer, queue and image stand in the theory `power`, and that drain and write_pending do there
// what the theory's drain and write_pending do. It has definitions and proofs only, in specs/ and proofs/.
#![tactic(auto)]
