// The window over the engine's cumulative read counters since the last observation, and what refuses it. Only `window_fault` refuses.
#![tactic(auto)]

ghost use Rattle.std.specs.Prelude.{◌≡◌, ◌-◌, ◌^◌, ltb};
ghost use Rattle.refusals.specs.Codes.{code};
ghost use Rattle.kinds.specs.Tuning.{source};
ghost use Rattle.counts.specs.Counts.{large};
ghost use Rattle.windows.specs.Windows.{probed_sum, resolved_sum, probed_since, resolved_since, deltas_large, window_fault};

use kinds::mode::GovernorMode;
use refusals::Refusal;
use state::{Streaks, Window};

#[derive(Clone, Copy)]
pub struct ReadAmpStats {
    pub gets_total: u64,
    pub resolved_in_memtable: u64,
    pub resolved_in_immutable: u64,
    pub l0_tables_probed: u64,
    pub leveled_tables_probed: u64,
}

// An observation without its probe count.
#[derive(Clone, Copy)]
pub struct EngineSample {
    pub l0_count: u64,
    pub l0_write_stall_trigger: u64,
    pub max_level_debt_ratio: f64,
    pub backlog_levels: u64,
}

// The sum of both probe counts would pass the largest u64.
fn probe_sum_full(a: ReadAmpStats) -> bool
    ensures { result ≡ ltb (2 ^ 64 - 1) (probed_sum a) }
{
    u64::MAX - a.l0_tables_probed < a.leveled_tables_probed
}

// The probe delta is too large a count, taken from the exact sum, which may pass the largest u64.
fn probed_large(w: Window, a: ReadAmpStats) -> bool
    ensures { result ≡ large (probed_since w a) }
{
    let l0 = a.l0_tables_probed.saturating_sub(w.last_probed);
    let left = w.last_probed.saturating_sub(a.l0_tables_probed);
    let leveled = a.leveled_tables_probed.saturating_sub(left);
    if counts::is_large(l0) {
        return true;
    }
    if counts::is_large(leveled) {
        return true;
    }
    counts::is_large(l0 + leveled)
}

pub fn resolved_sum(a: ReadAmpStats) -> u64
    ensures { result ≡ resolved_sum a }
{
    a.gets_total
        .saturating_sub(a.resolved_in_memtable)
        .saturating_sub(a.resolved_in_immutable)
}

pub fn resolved_since(w: Window, a: ReadAmpStats) -> u64
    ensures { result ≡ resolved_since w a }
{
    resolved_sum(a).saturating_sub(w.last_resolved)
}

fn deltas_large(w: Window, a: ReadAmpStats) -> bool
    ensures { result ≡ deltas_large w a }
{
    probed_large(w, a) | counts::is_large(resolved_since(w, a))
}

// What refuses the observation before its sample is known; 1 and the counts are tested here too, since both come before a full sum.
#[tactic(auto, unfolding(crate::specs::Windows::window_fault))]
pub fn window_fault(
    was: GovernorMode,
    k: Streaks,
    w: Window,
    e: EngineSample,
    a: ReadAmpStats,
) -> Result<(), Refusal>
    ensures { code result ≡ window_fault source was k w e a }
{
    if !sound::is_sound(was, k) {
        return Err(Refusal::BadState);
    }
    let large = counts::any_large(e.l0_count, e.l0_write_stall_trigger, e.backlog_levels);
    if large | deltas_large(w, a) {
        return Err(Refusal::TooLarge);
    }
    if probe_sum_full(a) {
        return Err(Refusal::CounterFull);
    }
    Ok(())
}
