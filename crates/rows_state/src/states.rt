// A governor's state as the 27 words of a list, which a question has at its front.
use arith::floats;
use kinds::focus::FocusState;
use kinds::vector::PressureVector;
use rows_words::words::{WORDS, word};
use state::{Counters, GovernorState, Signals, Streaks, Times, Window};
pub use state_words::{focus_words, mode_of, to_words};

pub fn float(args: &[u64; WORDS], at: usize) -> f64 {
    floats::of_bits(word(args, at))
}

// The low 32 bits of a word.
pub fn small(args: &[u64; WORDS], at: usize) -> u32 {
    (word(args, at) % 0x1_0000_0000) as u32
}

// The focus whose flag, level and streak stand from a place on.
pub fn focus_at(args: &[u64; WORDS], at: usize) -> FocusState {
    state_words::focus_of(
        word(args, at),
        small(args, at.wrapping_add(1)),
        small(args, at.wrapping_add(2)),
    )
}

// The vector whose floats stand from a place on.
pub fn vector_at(args: &[u64; WORDS], at: usize) -> PressureVector {
    PressureVector {
        l0: float(args, at),
        deep_debt: float(args, at.wrapping_add(1)),
        read: float(args, at.wrapping_add(2)),
    }
}

pub fn vector_words(v: PressureVector) -> [u64; 3] {
    [
        floats::to_bits(v.l0),
        floats::to_bits(v.deep_debt),
        floats::to_bits(v.read),
    ]
}

fn signals(args: &[u64; WORDS]) -> Signals {
    Signals {
        tables_probed_ewma: float(args, 2),
        pressure_ewma: float(args, 3),
        last_pressure: float(args, 4),
        debt_ewma: float(args, 5),
        pressure_vector: vector_at(args, 6),
    }
}

fn counters(args: &[u64; WORDS]) -> Counters {
    Counters {
        mode_switches: word(args, 21),
        batch_size_sum: word(args, 22),
        batch_size_count: word(args, 23),
        trivial_moves_performed: word(args, 24),
        trivial_move_bytes_avoided: word(args, 25),
        predicted_actual_abs_pct_error_sum: float(args, 26),
        predicted_actual_samples: word(args, 27),
    }
}

pub fn state(args: &[u64; WORDS]) -> GovernorState {
    GovernorState {
        mode: mode_of(word(args, 1)),
        signals: signals(args),
        focus: focus_at(args, 9),
        streaks: Streaks {
            enter_read_protect: small(args, 12),
            exit_read_protect: small(args, 13),
            exit_emergency: small(args, 14),
        },
        times: Times {
            balanced: word(args, 15),
            read_protect: word(args, 16),
            write_emergency: word(args, 17),
            last_transition: word(args, 18),
        },
        window: Window {
            last_probed: word(args, 19),
            last_resolved: word(args, 20),
        },
        counters: counters(args),
    }
}
