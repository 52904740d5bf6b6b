// The mode after one observation. Nothing here is refused.
#![tactic(auto)]

ghost use Rattle.std.specs.Prelude.{◌≡◌, cond, ◌≤◌, ◌<◌, ◌-◌, ◌^◌, leb};
ghost use Rattle.kinds.specs.Tuning.{source};
ghost use Rattle.modes.specs.Mode.{next_mode_of, next, switched, stays};

use kinds::mode::GovernorMode;
use kinds::tuning::{
    READ_PROTECT_ENTER_WINDOWS, READ_PROTECT_EXIT_WINDOWS, WRITE_EMERGENCY_EXIT_WINDOWS,
};
use state::Streaks;
use thresholds::{emergency_now, has_recovered, is_calm, is_high};

#[derive(Clone, Copy)]
pub struct NextMode {
    pub mode: GovernorMode,
    pub streaks: Streaks,
}

// One more of a streak, or none. At the largest u32 it stays, which is past every window.
fn streak(passed: bool, k: u32) -> u32
    ensures { (result ≤ next passed k) × (result < 2 ^ 32 - 1 → result ≡ next passed k) }
{
    if passed {
        if k == 0xffff_ffff {
            return k;
        }
        return k + 1;
    }
    0
}

fn keep_mode(
    mode: GovernorMode,
    enter_read_protect: u32,
    exit_read_protect: u32,
    exit_emergency: u32,
) -> NextMode
    ensures { result ≡ stays mode enter_read_protect exit_read_protect exit_emergency }
{
    NextMode {
        mode,
        streaks: Streaks {
            enter_read_protect,
            exit_read_protect,
            exit_emergency,
        },
    }
}

// A switch clears all three streaks.
fn switch_to(mode: GovernorMode) -> NextMode
    ensures { result ≡ switched mode }
{
    keep_mode(mode, 0, 0, 0)
}

// A streak that reaches its window ends the mode.
fn ended(n: u32, window: u32, to: GovernorMode, kept: NextMode) -> NextMode
    ensures { result ≡ cond (leb window n) (switched to) kept }
{
    if n >= window {
        return switch_to(to);
    }
    kept
}

// The mode and the streaks after an observation.
pub fn next_mode(mode: GovernorMode, k: Streaks, fraction: f64, ratio: f64, probed: f64) -> NextMode
    ensures { result ≡ next_mode_of source mode k fraction ratio probed }
{
    let is_hot = emergency_now(fraction, ratio);
    match mode {
        GovernorMode::WriteEmergency => {
            let n = streak(has_recovered(fraction, ratio), k.exit_emergency);
            let kept = keep_mode(mode, k.enter_read_protect, k.exit_read_protect, n);
            ended(
                n,
                WRITE_EMERGENCY_EXIT_WINDOWS,
                GovernorMode::Balanced,
                kept,
            )
        }
        GovernorMode::Balanced => {
            if is_hot {
                return switch_to(GovernorMode::WriteEmergency);
            }
            let n = streak(is_high(probed), k.enter_read_protect);
            let kept = keep_mode(mode, n, k.exit_read_protect, k.exit_emergency);
            ended(
                n,
                READ_PROTECT_ENTER_WINDOWS,
                GovernorMode::ReadProtect,
                kept,
            )
        }
        GovernorMode::ReadProtect => {
            if is_hot {
                return switch_to(GovernorMode::WriteEmergency);
            }
            let n = streak(is_calm(probed), k.exit_read_protect);
            let kept = keep_mode(mode, k.enter_read_protect, n, k.exit_emergency);
            ended(n, READ_PROTECT_EXIT_WINDOWS, GovernorMode::Balanced, kept)
        }
    }
}
