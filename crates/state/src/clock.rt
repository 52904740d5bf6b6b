// Time in each mode, in nanoseconds by the clock readings that the caller hands in. Nothing here is refused: `time_full` tells the caller.
ghost use Rattle.std.specs.Prelude.{◌≡◌, ◌-◌, ◌^◌, ltb};
ghost use Rattle.state.specs.Clock.{elapsed_of, kept_of, time_in, time_up_to, times_of};

use crate::Times;
use kinds::mode::GovernorMode;

// Time since the kept reading; none if the clock went back.
fn elapsed(t: Times, now: u64) -> u64
    ensures { result ≡ elapsed_of t now }
{
    now.saturating_sub(t.last_transition)
}

// The larger of the two readings.
fn kept(t: Times, now: u64) -> u64
    ensures { result ≡ kept_of t now }
{
    t.last_transition.max(now)
}

fn time_in(mode: GovernorMode, t: Times) -> u64
    ensures { result ≡ time_in mode t }
{
    match mode {
        GovernorMode::Balanced => t.balanced,
        GovernorMode::ReadProtect => t.read_protect,
        GovernorMode::WriteEmergency => t.write_emergency,
    }
}

// The mode's time up to now would pass the largest u64.
pub fn time_full(mode: GovernorMode, t: Times, now: u64) -> bool
    ensures { result ≡ ltb (2 ^ 64 - 1) (time_up_to mode t now) }
{
    u64::MAX - time_in(mode, t) < elapsed(t, now)
}

// A time stops at the largest u64; no call that is accepted comes there.
#[tactic(auto, unfolding(crate::specs::Clock::times_of))]
pub fn times_after(mode: GovernorMode, mut t: Times, now: u64) -> Times
    ensures { result ≡ times_of mode t now }
{
    let spent = elapsed(t, now);
    let reading = kept(t, now);
    t.last_transition = reading;
    match mode {
        GovernorMode::Balanced => {
            t.balanced = t.balanced.saturating_add(spent);
        }
        GovernorMode::ReadProtect => {
            t.read_protect = t.read_protect.saturating_add(spent);
        }
        GovernorMode::WriteEmergency => {
            t.write_emergency = t.write_emergency.saturating_add(spent);
        }
    }
    t
}
