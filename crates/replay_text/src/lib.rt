// The text of `replay`: its lines and their fields.
#![tactic(auto)]

pub mod fields;
pub mod reader;
