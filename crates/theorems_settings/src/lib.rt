// Theorems about the junction settings file (document 02, A.7): specs/ states them, proofs/ proves them.
#![tactic(auto)]
