// What every call of the test program is asked and tells (docs/ROWS.md): words and bytes by their place, shapes, and faults.
#![tactic(auto)]

pub mod shape;
pub mod words;
