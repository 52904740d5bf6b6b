// What an ordered level offers: batches, and where they start. Every function takes any places and refuses nothing.
#![tactic(auto)]

pub mod batches;

// A batch has at most so many tables, and so has a move.
pub const MAX_ADAPTIVE_BATCH: usize = 8;
