// Closed instances of what `theorems` proves, computed: that its premises can hold. Statements and proofs in proofs/.
#![tactic(auto)]
