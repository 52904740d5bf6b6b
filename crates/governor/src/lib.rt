// One observation of the engine's pressure.
#![tactic(auto)]

ghost use Rattle.std.specs.Prelude.{◌≡◌, ◌-◌, ◌<◌, ◌^◌, true, false, ◌&&◌};
ghost use Rattle.refusals.specs.Codes.{code};
ghost use Rattle.kinds.specs.Tuning.{source};
ghost use Rattle.state.specs.State.{full};
ghost use Rattle.governor.specs.Observe.{counters_full, observe_fault, accepted_of, observed_of, next_of, switched_count};

use modes::NextMode;
use pressure::PressureSample;
use refusals::Refusal;
use state::{Counters, GovernorState, clock};

// The mode and streaks after the observation.
fn next(s: GovernorState, p: PressureSample) -> NextMode
    ensures { result ≡ next_of source s p }
{
    let probed = pressure::smoothed(s.signals.tables_probed_ewma, p.tables_probed_per_get);
    let was = s.mode;
    modes::next_mode(
        was,
        s.streaks,
        pressure::l0_fraction(p),
        p.max_level_debt_ratio,
        probed,
    )
}

// One more switch would pass the largest u64.
#[tactic(auto, using(state::specs::Room::full_is))]
fn switches_full(c: Counters, switched: bool) -> bool
    ensures { result ≡ switched && full c.mode_switches }
{
    switched & (c.mode_switches == u64::MAX)
}

#[tactic(auto, unfolding(crate::specs::Observe::counters_full))]
fn counters_full(s: GovernorState, now: u64, p: PressureSample) -> bool
    ensures { result ≡ counters_full source s now p }
{
    let was = s.mode;
    let t = next(s, p);
    let is = t.mode;
    switches_full(s.counters, was != is) | clock::time_full(was, s.times, now)
}

fn with_switch(mut c: Counters, switched: bool) -> Counters
    requires { switched ≡ true → c.mode_switches < 2 ^ 64 - 1 }
    ensures { result ≡ switched_count switched c }
{
    if switched {
        c.mode_switches = c.mode_switches + 1;
    }
    c
}

// The state after an observation that nothing refuses.
#[tactic(auto, using(crate::specs::Observe::Room::switch_room), unfolding(crate::specs::Observe::accepted_of))]
fn after_accepted(s: GovernorState, now: u64, p: PressureSample) -> GovernorState
    requires { counters_full source s now p ≡ false }
    ensures { result ≡ accepted_of source s s.window now p }
{
    let was = s.mode;
    let t = next(s, p);
    let mode = t.mode;
    let streaks = t.streaks;
    let signals = pressure::signals_after(s.signals, p);
    let focus = s.focus;
    let window = s.window;
    let times = clock::times_after(was, s.times, now);
    let counters = with_switch(s.counters, was != mode);
    GovernorState {
        mode,
        signals,
        focus,
        streaks,
        times,
        window,
        counters,
    }
}

#[tactic(auto, unfolding(crate::specs::Observe::observe_fault))]
fn observe_fault(s: GovernorState, now: u64, p: PressureSample) -> Result<(), Refusal>
    ensures { code result ≡ observe_fault source s now p }
{
    let was = s.mode;
    if !sound::is_sound(was, s.streaks) {
        return Err(Refusal::BadState);
    }
    if counts::any_large(p.l0_count, p.l0_write_stall_trigger, p.backlog_levels) {
        return Err(Refusal::TooLarge);
    }
    if counters_full(s, now, p) {
        return Err(Refusal::CounterFull);
    }
    Ok(())
}

// A refusal leaves the state as it was.
#[tactic(auto, using(crate::specs::Observe::Room::counters_room), unfolding(crate::specs::Observe::observed_of))]
pub fn observe(s: &mut GovernorState, now: u64, p: PressureSample) -> Result<(), Refusal>
    ensures refusal { code result ≡ (observed_of source s.old now p).refusal }
    ensures state { s.new ≡ (observed_of source s.old now p).state }
{
    observe_fault(*s, now, p)?;
    *s = after_accepted(*s, now, p);
    Ok(())
}
