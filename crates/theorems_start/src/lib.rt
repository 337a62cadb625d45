// Theorems about a start carried over from CP (document 02, A.3): specs/ states them, proofs/ proves them.
#![tactic(auto)]
