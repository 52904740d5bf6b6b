// What makes tables and over-budget entries bad, one fault to a function, and the limits of all lent words. Nothing here is refused: each function answers for any words.
#![tactic(auto)]

pub mod limits;
pub mod tables;
