// What follows of single calls: CP there and back, what its reader ignores, refusal 25, plans, the DIL, and the examples of document 01.
// Statements in specs/, proofs in proofs/.
#![tactic(auto)]
