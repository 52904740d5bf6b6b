// The calls of arith, and a governor's state as words.
#![tactic(auto)]

pub mod arithmetic;
pub mod states;
