// The nine numbers that say when a mode begins and ends, by governor.rs's names; three of them are divisors of the pressure too.
pub const WRITE_EMERGENCY_ENTER_L0_FRACTION: f64 = 0.75;

pub const WRITE_EMERGENCY_ENTER_DEBT_RATIO: f64 = 3.0;

pub const WRITE_EMERGENCY_EXIT_L0_FRACTION: f64 = 0.45;

pub const WRITE_EMERGENCY_EXIT_DEBT_RATIO: f64 = 1.5;

pub const WRITE_EMERGENCY_EXIT_WINDOWS: u32 = 3;

pub const READ_PROTECT_ENTER_TABLES_PROBED: f64 = 1.6;

pub const READ_PROTECT_ENTER_WINDOWS: u32 = 3;

pub const READ_PROTECT_EXIT_TABLES_PROBED: f64 = 1.15;

pub const READ_PROTECT_EXIT_WINDOWS: u32 = 4;
