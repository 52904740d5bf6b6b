// What a caller through the boundary may rely on, as theorems: a run of calls on words is the run on states, demand 3 of it, and what its times add up to. No code.
#![tactic(auto)]
