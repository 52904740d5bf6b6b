// The governor's state by value: a fresh one, what is read of it, and another focus for it. Nothing here is refused.
#![tactic(auto)]

ghost use Rattle.std.specs.Prelude.{◌≡◌};
ghost use Rattle.state.specs.State.{fresh_of, focused_of};

use kinds::focus::FocusState;
use kinds::mode::GovernorMode;
use kinds::vector::PressureVector;

pub mod clock;

#[derive(Clone, Copy)]
pub struct Signals {
    pub tables_probed_ewma: f64,
    pub pressure_ewma: f64,
    pub last_pressure: f64,
    pub debt_ewma: f64,
    pub pressure_vector: PressureVector,
}

#[derive(Clone, Copy)]
pub struct Streaks {
    pub enter_read_protect: u32,
    pub exit_read_protect: u32,
    pub exit_emergency: u32,
}

// Nanoseconds spent in each mode, and the kept clock reading.
#[derive(Clone, Copy)]
pub struct Times {
    pub balanced: u64,
    pub read_protect: u64,
    pub write_emergency: u64,
    pub last_transition: u64,
}

#[derive(Clone, Copy)]
pub struct Window {
    pub last_probed: u64,
    pub last_resolved: u64,
}

#[derive(Clone, Copy)]
pub struct Counters {
    pub mode_switches: u64,
    pub batch_size_sum: u64,
    pub batch_size_count: u64,
    pub trivial_moves_performed: u64,
    pub trivial_move_bytes_avoided: u64,
    pub predicted_actual_abs_pct_error_sum: f64,
    pub predicted_actual_samples: u64,
}

#[derive(Clone, Copy)]
pub struct GovernorState {
    pub mode: GovernorMode,
    pub signals: Signals,
    pub focus: FocusState,
    pub streaks: Streaks,
    pub times: Times,
    pub window: Window,
    pub counters: Counters,
}

// A governor that has seen nothing, its clock at a reading.
pub fn fresh(clock: u64) -> GovernorState
    ensures { result ≡ fresh_of clock }
{
    GovernorState {
        mode: GovernorMode::Balanced,
        signals: Signals {
            tables_probed_ewma: 0.0,
            pressure_ewma: 0.0,
            last_pressure: 0.0,
            debt_ewma: 0.0,
            pressure_vector: PressureVector {
                l0: 0.0,
                deep_debt: 0.0,
                read: 0.0,
            },
        },
        focus: FocusState::default(),
        streaks: Streaks {
            enter_read_protect: 0,
            exit_read_protect: 0,
            exit_emergency: 0,
        },
        times: Times {
            balanced: 0,
            read_protect: 0,
            write_emergency: 0,
            last_transition: clock,
        },
        window: Window {
            last_probed: 0,
            last_resolved: 0,
        },
        counters: Counters {
            mode_switches: 0,
            batch_size_sum: 0,
            batch_size_count: 0,
            trivial_moves_performed: 0,
            trivial_move_bytes_avoided: 0,
            predicted_actual_abs_pct_error_sum: 0.0,
            predicted_actual_samples: 0,
        },
    }
}

impl GovernorState {
    pub fn mode(self) -> GovernorMode
        ensures { result ≡ self.mode }
    {
        self.mode
    }

    pub fn pressure(self) -> f64
        ensures { result ≡ self.signals.last_pressure }
    {
        self.signals.last_pressure
    }

    pub fn pressure_vector(self) -> PressureVector
        ensures { result ≡ self.signals.pressure_vector }
    {
        self.signals.pressure_vector
    }

    pub fn focus(self) -> FocusState
        ensures { result ≡ self.focus }
    {
        self.focus
    }

    pub fn set_focus(mut self, focus: FocusState) -> GovernorState
        ensures { result ≡ focused_of self focus }
    {
        self.focus = focus;
        self
    }
}
