// One observation's pressures, and the signals after it. Nothing here is refused.
#![tactic(auto)]

ghost use Rattle.std.specs.Prelude.{◌≡◌};
ghost use Rattle.kinds.specs.Tuning.{source};
ghost use Rattle.pressure.specs.Sample.{fraction_of};
ghost use Rattle.pressure.specs.Smoothing.{smoothed_of};
ghost use Rattle.pressure.specs.Pressure.{share_of, components_of, instant_of, blended_of, probed_of, signals_of};

use kinds::tuning::{
    READ_PROTECT_ENTER_TABLES_PROBED, WRITE_EMERGENCY_ENTER_DEBT_RATIO,
    WRITE_EMERGENCY_ENTER_L0_FRACTION,
};
use kinds::vector::PressureVector;
use state::Signals;

pub mod pacing;

const EWMA_ALPHA: f64 = 0.3;

const PRESSURE_READAMP_WEIGHT: f64 = 0.3;

const PRESSURE_BACKLOG_NORMALIZATION: f64 = 3.0;

#[derive(Clone, Copy)]
pub struct PressureSample {
    pub l0_count: u64,
    pub l0_write_stall_trigger: u64,
    pub max_level_debt_ratio: f64,
    pub tables_probed_per_get: f64,
    pub backlog_levels: u64,
}

#[derive(Clone, Copy)]
pub struct Components {
    pub l0: f64,
    pub debt: f64,
    pub backlog: f64,
    pub read: f64,
}

pub fn l0_fraction(p: PressureSample) -> f64
    ensures { result ≡ fraction_of p }
{
    if 0 < p.l0_write_stall_trigger {
        return arith::whole::of_u64(p.l0_count) / arith::whole::of_u64(p.l0_write_stall_trigger);
    }
    0.0
}

pub fn smoothed(old: f64, new: f64) -> f64
    ensures { result ≡ smoothed_of old new }
{
    EWMA_ALPHA * new + (1.0 - EWMA_ALPHA) * old
}

fn share(x: f64, limit: f64) -> f64
    ensures { result ≡ share_of x limit }
{
    arith::floats::minimum(x / limit, 1.0)
}

// Whoever decides on the mode has the L0 fraction already, so it is given.
pub fn components_of(p: PressureSample, fraction: f64, probed: f64) -> Components
    ensures { result ≡ components_of source p fraction probed }
{
    Components {
        l0: share(fraction, WRITE_EMERGENCY_ENTER_L0_FRACTION),
        debt: share(p.max_level_debt_ratio, WRITE_EMERGENCY_ENTER_DEBT_RATIO),
        backlog: share(
            arith::whole::of_u64(p.backlog_levels),
            PRESSURE_BACKLOG_NORMALIZATION,
        ),
        read: share(probed, READ_PROTECT_ENTER_TABLES_PROBED),
    }
}

fn instant(c: Components) -> f64
    ensures { result ≡ instant_of c }
{
    let structural = arith::floats::maximum(arith::floats::maximum(c.l0, c.debt), c.backlog);
    structural * (1.0 - PRESSURE_READAMP_WEIGHT) + c.read * PRESSURE_READAMP_WEIGHT
}

pub fn blended(g: Signals, probed: f64, c: Components) -> Signals
    ensures { result ≡ blended_of g probed c }
{
    let pressure_ewma = smoothed(g.pressure_ewma, instant(c));
    let last_pressure = arith::floats::clamp(arith::floats::maximum(pressure_ewma, c.l0));
    let debt_ewma = smoothed(g.debt_ewma, arith::floats::maximum(c.debt, c.backlog));
    Signals {
        tables_probed_ewma: probed,
        pressure_ewma,
        last_pressure,
        debt_ewma,
        pressure_vector: PressureVector {
            l0: c.l0,
            deep_debt: debt_ewma,
            read: c.read,
        },
    }
}

pub fn signals_after(g: Signals, p: PressureSample) -> Signals
    ensures { result ≡ signals_of source g p }
{
    let probed = smoothed(g.tables_probed_ewma, p.tables_probed_per_get);
    blended(g, probed, components_of(p, l0_fraction(p), probed))
}
