// The lines of `replay`, and the whole run over lent slices.
#![tactic(auto)]

pub mod lines;
pub mod run;
