// The capacities of the lent words, in records, and the largest values in a record.
pub const MAX_TABLES: usize = 1024;

pub const MAX_OVER_BUDGET: usize = 16;

pub const MAX_CANDIDATES: usize = 145;

// In one candidate.
pub const MAX_NUMBERS: u64 = 1024;

pub const MAX_BATCH: u64 = 8;

pub const MAX_LEVEL: u64 = 0xffff_ffff;

// The level below an over-budget one has to be a level too.
pub const MAX_OVER_LEVEL: u64 = 0xffff_fffe;

pub const MAX_SIZE: u64 = 0x100_0000_0000;

pub const MAX_REWRITE: u64 = 0x4_0000_0000_0000;

pub const MAX_AGE: u64 = 0x20_0000_0000_0000;
