// How long merge work pauses, by mode and pressure. Nothing is refused.
ghost use Rattle.std.specs.Prelude.{◌≡◌};
ghost use Rattle.pressure.specs.Pacing.{ceiling_of, pacing_of};

use kinds::mode::GovernorMode;

// In nanoseconds.
const MAX_DELAY: f64 = 20000.0;

const READ_PROTECT_MAX_DELAY: f64 = 40000.0;

const MIN_DELAY: f64 = 5000.0;

fn ceiling(mode: GovernorMode) -> f64
    ensures { result ≡ ceiling_of mode }
{
    match mode {
        GovernorMode::Balanced => MAX_DELAY,
        GovernorMode::ReadProtect => READ_PROTECT_MAX_DELAY,
        GovernorMode::WriteEmergency => MAX_DELAY,
    }
}

// The pause in nanoseconds.
pub fn pacing_delay(mode: GovernorMode, pressure: f64) -> u64
    ensures { result ≡ pacing_of mode pressure }
{
    let ceiling_nanos = ceiling(mode);
    let p = arith::floats::clamp(pressure);
    let nanos = ceiling_nanos - p * (ceiling_nanos - MIN_DELAY);
    arith::whole::truncate(arith::floats::maximum(nanos, MIN_DELAY))
}
