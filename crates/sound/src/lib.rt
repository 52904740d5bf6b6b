// Which states are sound. Nothing here is refused.
#![tactic(auto)]

ghost use Rattle.std.specs.Prelude.{◌≡◌};
ghost use Rattle.kinds.specs.Tuning.{source};
ghost use Rattle.sound.specs.Sound.{own, sound_of};

use kinds::mode::GovernorMode;
use kinds::tuning::{
    READ_PROTECT_ENTER_WINDOWS, READ_PROTECT_EXIT_WINDOWS, WRITE_EMERGENCY_EXIT_WINDOWS,
};
use state::Streaks;

// The mode's own streak is below its window, and the others are 0.
fn only_own_streak(window: u32, streak: u32, a: u32, b: u32) -> bool
    ensures { result ≡ own window streak a b }
{
    (streak < window) & ((a == 0) & (b == 0))
}

#[tactic(auto, unfolding(crate::specs::Sound::sound_of))]
pub fn is_sound(mode: GovernorMode, k: Streaks) -> bool
    ensures { result ≡ sound_of source mode k }
{
    match mode {
        GovernorMode::Balanced => {
            only_own_streak(
                READ_PROTECT_ENTER_WINDOWS,
                k.enter_read_protect,
                k.exit_read_protect,
                k.exit_emergency,
            )
        }
        GovernorMode::ReadProtect => {
            only_own_streak(
                READ_PROTECT_EXIT_WINDOWS,
                k.exit_read_protect,
                k.enter_read_protect,
                k.exit_emergency,
            )
        }
        GovernorMode::WriteEmergency => {
            only_own_streak(
                WRITE_EMERGENCY_EXIT_WINDOWS,
                k.exit_emergency,
                k.enter_read_protect,
                k.exit_read_protect,
            )
        }
    }
}
