// No code. In specs/: what a number is looked up as, and the laws of the search by halves, which is the estimates' own.
#![tactic(auto)]
