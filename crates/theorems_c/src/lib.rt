// Demand 3 of the C functions: statements in specs/, proofs in proofs/.
#![tactic(auto)]
