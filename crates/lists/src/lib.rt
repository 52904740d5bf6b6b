// Theorems only, in specs/: lists, records in words, the search for a bad one, sorting, the front of a buffer.
#![tactic(auto)]
