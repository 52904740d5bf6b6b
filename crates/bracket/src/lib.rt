// Theorems only, in specs/ and proofs/: what `ln_1p` answers is within 2^-40 of every bracket of its series.
#![tactic(auto)]
