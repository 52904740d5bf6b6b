// What a sample is by its thresholds: hot, recovered, high or calm. Nothing is refused: a NaN passes no test.
#![tactic(auto)]

ghost use Rattle.std.specs.Prelude.{◌≡◌};
ghost use Rattle.kinds.specs.Tuning.{source};
ghost use Rattle.thresholds.specs.Thresholds.{hot, recovered, high, calm};

use kinds::tuning::{
    READ_PROTECT_ENTER_TABLES_PROBED, READ_PROTECT_EXIT_TABLES_PROBED,
    WRITE_EMERGENCY_ENTER_DEBT_RATIO, WRITE_EMERGENCY_ENTER_L0_FRACTION,
    WRITE_EMERGENCY_EXIT_DEBT_RATIO, WRITE_EMERGENCY_EXIT_L0_FRACTION,
};

pub fn emergency_now(fraction: f64, ratio: f64) -> bool
    ensures { result ≡ hot source fraction ratio }
{
    (fraction >= WRITE_EMERGENCY_ENTER_L0_FRACTION) | (ratio >= WRITE_EMERGENCY_ENTER_DEBT_RATIO)
}

pub fn has_recovered(fraction: f64, ratio: f64) -> bool
    ensures { result ≡ recovered source fraction ratio }
{
    (fraction <= WRITE_EMERGENCY_EXIT_L0_FRACTION) & (ratio <= WRITE_EMERGENCY_EXIT_DEBT_RATIO)
}

pub fn is_high(probed: f64) -> bool
    ensures { result ≡ high source probed }
{
    probed >= READ_PROTECT_ENTER_TABLES_PROBED
}

pub fn is_calm(probed: f64) -> bool
    ensures { result ≡ calm source probed }
{
    probed <= READ_PROTECT_EXIT_TABLES_PROBED
}
