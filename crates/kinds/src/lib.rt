// The types that carry 01's numbers, below everyone who needs only them. Nothing here is refused.
#![tactic(auto)]

pub mod focus;
pub mod kind;
pub mod mode;
pub mod tier;
pub mod tuning;
pub mod vector;
