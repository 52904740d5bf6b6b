// What a caller of the governor may rely on, as theorems: demand 3, what its counters count, and what its times add up to. No code.
#![tactic(auto)]
