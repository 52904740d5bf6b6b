// Lent words as tables and over-budget entries, and the words of a record of any width. Nothing here is refused: a place past the last reads as a record of zeros.
#![tactic(auto)]

pub mod tables;
pub mod words;
