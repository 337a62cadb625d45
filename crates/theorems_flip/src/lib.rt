// Theorems about one flipped sign (document 02, A.13): specs/ states them, proofs/ proves them.
#![tactic(auto)]
