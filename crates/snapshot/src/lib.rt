// The governor's figures at a clock reading.
#![tactic(auto)]

ghost use Rattle.std.specs.Prelude.{◌≡◌, IfOk};
ghost use Rattle.refusals.specs.Codes.{code};
ghost use Rattle.snapshot.specs.Snapshot.{Stats, mean_of, stats_of, snapshot_fault, snapshot_of, snapshot_refusal};

use kinds::mode::GovernorMode;
use kinds::vector::PressureVector;
use refusals::Refusal;
use state::{GovernorState, Times, clock};

#[derive(Clone, Copy)]
pub struct GovernorStats {
    pub mode: GovernorMode,
    pub pressure: f64,
    pub pressure_vector: PressureVector,
    pub mode_switches: u64,
    pub time_balanced_ms: u64,
    pub time_read_protect_ms: u64,
    pub time_write_emergency_ms: u64,
    pub avg_batch_size: f64,
    pub trivial_moves_performed: u64,
    pub trivial_move_bytes_avoided: u64,
    pub predicted_actual_samples: u64,
    pub predicted_actual_mean_abs_pct_error: f64,
}

fn mean(sum: f64, count: u64) -> f64
    ensures { result ≡ mean_of sum count }
{
    if count == 0 {
        return 0.0;
    }
    sum / arith::whole::of_u64(count)
}

fn stats(s: GovernorState, t: Times) -> GovernorStats
    ensures { result ≡ stats_of s t }
{
    let mode = s.mode;
    let vector = s.signals.pressure_vector;
    GovernorStats {
        mode,
        pressure: s.signals.last_pressure,
        pressure_vector: vector,
        mode_switches: s.counters.mode_switches,
        time_balanced_ms: t.balanced / 1000000,
        time_read_protect_ms: t.read_protect / 1000000,
        time_write_emergency_ms: t.write_emergency / 1000000,
        avg_batch_size: mean(
            arith::whole::of_u64(s.counters.batch_size_sum),
            s.counters.batch_size_count,
        ),
        trivial_moves_performed: s.counters.trivial_moves_performed,
        trivial_move_bytes_avoided: s.counters.trivial_move_bytes_avoided,
        predicted_actual_samples: s.counters.predicted_actual_samples,
        predicted_actual_mean_abs_pct_error: mean(
            s.counters.predicted_actual_abs_pct_error_sum,
            s.counters.predicted_actual_samples,
        ),
    }
}

#[tactic(auto, unfolding(crate::specs::Snapshot::snapshot_fault))]
fn snapshot_fault(s: GovernorState, now: u64) -> Result<(), Refusal>
    ensures { code result ≡ snapshot_fault s now }
{
    if counts::any_large(
        s.counters.batch_size_sum,
        s.counters.batch_size_count,
        s.counters.predicted_actual_samples,
    ) {
        return Err(Refusal::TooLarge);
    }
    let mode = s.mode;
    if clock::time_full(mode, s.times, now) {
        return Err(Refusal::CounterFull);
    }
    Ok(())
}

#[tactic(auto, unfolding(crate::specs::Snapshot::snapshot_of))]
pub fn snapshot(s: GovernorState, now: u64) -> Result<GovernorStats, Refusal>
    ensures refusal { code result ≡ snapshot_refusal (snapshot_of s now) }
    ensures figures { IfOk result (λ t. Stats t ≡ snapshot_of s now) }
{
    snapshot_fault(s, now)?;
    let mode = s.mode;
    Ok(stats(s, clock::times_after(mode, s.times, now)))
}
