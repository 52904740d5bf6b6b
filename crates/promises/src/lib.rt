// What a caller may rely on, stated once and proved over the crates below: theorems only, in specs/ and proofs/.
#![tactic(auto)]
