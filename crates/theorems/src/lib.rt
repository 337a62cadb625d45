// What follows of lists of calls from the definitions of `standard`: statements in specs/, proofs in proofs/.
#![tactic(auto)]
