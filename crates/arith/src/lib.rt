// The arithmetic below everything: floats by their bits, order, whole numbers, the root and the logarithm. Every function takes any value of its types.
#![tactic(auto)]

pub mod floats;
pub mod logarithm;
pub mod root;
pub mod whole;
