// The observation of the running engine: `observe` over a window of its cumulative read counters.
#![tactic(auto)]

ghost use Rattle.std.specs.Prelude.{◌≡◌, ◌-◌, ◌≤◌, ◌^◌};
ghost use Rattle.refusals.specs.Codes.{code};
ghost use Rattle.kinds.specs.Tuning.{source};
ghost use Rattle.windows.specs.Windows.{probed_sum};
ghost use Rattle.engine.specs.Engine.{per_get, sample_with, window_of, engine_of};

use pressure::PressureSample;
use refusals::Refusal;
use state::{GovernorState, Window};
use windows::{EngineSample, ReadAmpStats, resolved_since, resolved_sum, window_fault};

// Tables probed for each get that a table resolved, since the last observation. A sum of probes past the largest u64 stops there: `window_fault` refuses it.
#[tactic(auto, using(crate::specs::Engine::WindowFault::exact), unfolding(crate::specs::Engine::per_get))]
pub fn probed_per_get(w: Window, tables_probed_ewma: f64, a: ReadAmpStats) -> f64
    ensures { probed_sum a ≤ 2 ^ 64 - 1 → result ≡ per_get w tables_probed_ewma a }
{
    let resolved = resolved_since(w, a);
    if 0 < resolved {
        let sum = a.l0_tables_probed.saturating_add(a.leveled_tables_probed);
        let probed = sum.saturating_sub(w.last_probed);
        return arith::whole::of_u64(probed) / arith::whole::of_u64(resolved);
    }
    tables_probed_ewma
}

pub fn sample(e: EngineSample, tables_probed_per_get: f64) -> PressureSample
    ensures { result ≡ sample_with e tables_probed_per_get }
{
    PressureSample {
        l0_count: e.l0_count,
        l0_write_stall_trigger: e.l0_write_stall_trigger,
        max_level_debt_ratio: e.max_level_debt_ratio,
        tables_probed_per_get,
        backlog_levels: e.backlog_levels,
    }
}

#[tactic(auto, using(crate::specs::Engine::WindowFault::exact))]
pub fn window_now(a: ReadAmpStats) -> Window
    ensures { probed_sum a ≤ 2 ^ 64 - 1 → result ≡ window_of a }
{
    Window {
        last_probed: a.l0_tables_probed.saturating_add(a.leveled_tables_probed),
        last_resolved: resolved_sum(a),
    }
}

// A refusal leaves the state as it was.
pub fn observe_engine(
    s: &mut GovernorState,
    now: u64,
    e: EngineSample,
    a: ReadAmpStats,
) -> Result<(), Refusal>
    ensures refusal { code result ≡ (engine_of source s.old now e a).refusal }
    ensures state { s.new ≡ (engine_of source s.old now e a).state }
{
    window_fault(s.mode, s.streaks, s.window, e, a)?;
    let probed = probed_per_get(s.window, s.signals.tables_probed_ewma, a);
    governor::observe(&mut *s, now, sample(e, probed))?;
    s.window = window_now(a);
    Ok(())
}
