// The calls of kinds, state, pressure, governor, engine, report and snapshot. A call is its number in the list of calls: rows_calls says why it is no enum.
#![tactic(auto)]

use arith::floats;
use kinds::kind::CandidateKind;
use pressure::{PressureSample, pacing};
use refusals::Refusal;
use rows_state::states;
use rows_state::states::float;
use rows_words::words;
use rows_words::words::{SHORT, WORDS, word};
use snapshot::GovernorStats;
use state::GovernorState;
use windows::{EngineSample, ReadAmpStats};

// By 01's number, as a question gives it.
fn kind_of(kind: u64, level: u32, batch_len: u64) -> CandidateKind {
    match kind {
        1 => CandidateKind::L0,
        2 => CandidateKind::LevelBatch { level, batch_len },
        _ => CandidateKind::TrivialMove { level },
    }
}

fn sample(args: &[u64; WORDS]) -> PressureSample {
    PressureSample {
        l0_count: word(args, 29),
        l0_write_stall_trigger: word(args, 30),
        max_level_debt_ratio: float(args, 31),
        tables_probed_per_get: float(args, 32),
        backlog_levels: word(args, 33),
    }
}

fn engine_sample(args: &[u64; WORDS]) -> EngineSample {
    EngineSample {
        l0_count: word(args, 29),
        l0_write_stall_trigger: word(args, 30),
        max_level_debt_ratio: float(args, 31),
        backlog_levels: word(args, 32),
    }
}

fn read_amp(args: &[u64; WORDS]) -> ReadAmpStats {
    ReadAmpStats {
        gets_total: word(args, 33),
        resolved_in_memtable: word(args, 34),
        resolved_in_immutable: word(args, 35),
        l0_tables_probed: word(args, 36),
        leveled_tables_probed: word(args, 37),
    }
}

// The call that reports what was done.
fn reported(call: u64, s: &mut GovernorState, n: u64, m: u64) -> Result<(), Refusal> {
    match call {
        41 => {
            *s = report::with_trivial_move(*s, n)?;
        }
        42 => {
            *s = report::with_outcome(*s, n, m)?;
        }
        43 => lent::record_trivial_move(s, n)?,
        _ => lent::record_outcome(s, n, m)?,
    }
    Ok(())
}

// The call that answers a state, and a refusal or none.
fn observe(call: u64, args: &[u64; WORDS], s: &mut GovernorState) -> Result<(), Refusal> {
    let n = word(args, 28);
    match call {
        36 => {
            *s = state::fresh(word(args, 0));
        }
        37 => {
            *s = s.set_focus(states::focus_at(args, 28));
        }
        38 => {
            let kind = kind_of(n, states::small(args, 29), word(args, 30));
            *s = report::record_candidate_chosen(*s, kind);
        }
        39 => governor::observe(s, n, sample(args))?,
        40 => engine::observe_engine(s, n, engine_sample(args), read_amp(args))?,
        _ => reported(call, s, n, word(args, 29))?,
    }
    Ok(())
}

// The call that answers a number or three.
fn numbers(call: u64, args: &[u64; WORDS]) -> [u64; 3] {
    let v = states::vector_at(args, 0);
    let s = states::state(args);
    match call {
        30 => [
            pacing::pacing_delay(states::mode_of(word(args, 0)), float(args, 1)),
            0,
            0,
        ],
        31 => [u64::from(v.dominant()), 0, 0],
        32 => [s.mode().idx(), 0, 0],
        33 => [floats::to_bits(s.pressure()), 0, 0],
        34 => states::vector_words(s.pressure_vector()),
        _ => states::focus_words(s.focus()),
    }
}

fn stats_words(g: GovernorStats) -> [u64; 14] {
    let mode = g.mode;
    [
        mode.idx(),
        floats::to_bits(g.pressure),
        floats::to_bits(g.pressure_vector.l0),
        floats::to_bits(g.pressure_vector.deep_debt),
        floats::to_bits(g.pressure_vector.read),
        g.mode_switches,
        g.time_balanced_ms,
        g.time_read_protect_ms,
        g.time_write_emergency_ms,
        floats::to_bits(g.avg_batch_size),
        g.trivial_moves_performed,
        g.trivial_move_bytes_avoided,
        g.predicted_actual_samples,
        floats::to_bits(g.predicted_actual_mean_abs_pct_error),
    ]
}

fn snapshot_told(args: &[u64; WORDS]) -> [u64; SHORT] {
    match snapshot::snapshot(states::state(args), word(args, 28)) {
        Ok(g) => words::told(&[0], &stats_words(g)),
        Err(refusal) => words::told(&[u64::from(refusal)], &[]),
    }
}

fn state_told(call: u64, args: &[u64; WORDS]) -> [u64; SHORT] {
    let mut s = states::state(args);
    let head = [refusals::code(observe(call, args, &mut s))];
    let n = ((38 < call) as usize).min(1);
    words::told(&head[0..n], &states::to_words(s)[1..])
}

pub fn answer(call: u64, args: &[u64; WORDS]) -> [u64; SHORT] {
    match call {
        30..=35 => words::told(&numbers(call, args), &[]),
        45 => snapshot_told(args),
        _ => state_told(call, args),
    }
}
