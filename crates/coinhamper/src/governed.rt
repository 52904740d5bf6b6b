// The governor. Its state is 28 lent words that `coinhamper_fresh` makes and every other call tests: words that are no state of this version are refused by 100.
ghost use Rattle.std.specs.Prelude.{◌≡◌, length};
ghost use Rattle.refusals.specs.Refusals.{none};
ghost use Rattle.refusals.specs.Written.{written_out};
ghost use Rattle.kinds.specs.Numbers.{dominant_number};
ghost use Rattle.kinds.specs.Tuning.{source};
ghost use Rattle.kinds.specs.Vector.{dominant_of};
ghost use Rattle.governor.specs.Observe.{observed_of};
ghost use Rattle.engine.specs.Engine.{engine_of};
ghost use Rattle.report.specs.Counters.{trivial_move_of, outcome_of};
ghost use Rattle.snapshot.specs.Snapshot.{snapshot_of, snapshot_refusal};
ghost use Rattle.state_words.specs.StateWords.{state_in, gated, refusal_of, words_after};
ghost use Rattle.answer_words.specs.AnswerWords.{answer_fault, reading_words, mode_or, pacing_refusal, pacing_after, figures_or};
ghost use Rattle.coinhamper.specs.Governed.{vector_of, sample_of, engine_sample_of, read_amp_of, fresh_refusal, fresh_after, kind_by, chosen_by, focused_by};

use answer_words::answer;
use kinds::kind::CandidateKind;
use kinds::vector::PressureVector;
use pressure::PressureSample;
use state_words::{
    NO_SUCH_CASE, NOT_A_STATE, STATE_WORDS, focus_good, focus_of, gate, keep, state_in,
};
use windows::{EngineSample, ReadAmpStats};

#[unsafe(no_mangle)]
pub extern "C" fn coinhamper_fresh(state: &mut [u64], clock: u64) -> u64
    ensures value { result ≡ fresh_refusal state.old }
    ensures state_after { state.new ≡ fresh_after state.old clock }
{
    if state.len() != STATE_WORDS {
        return NOT_A_STATE;
    }
    let all = state_words::to_words(state::fresh(clock));
    buffers::put_words(state, 0, &all);
    refusals::NONE
}

#[unsafe(no_mangle)]
pub extern "C" fn coinhamper_observe(
    state: &mut [u64],
    clock: u64,
    l0_count: u64,
    l0_write_stall_trigger: u64,
    max_level_debt_ratio: f64,
    tables_probed_per_get: f64,
    backlog_levels: u64,
) -> u64
    ensures value { result ≡ refusal_of state.old (observed_of source (state_in state.old) clock (sample_of l0_count l0_write_stall_trigger max_level_debt_ratio tables_probed_per_get backlog_levels)) }
    ensures state_after { state.new ≡ words_after state.old (observed_of source (state_in state.old) clock (sample_of l0_count l0_write_stall_trigger max_level_debt_ratio tables_probed_per_get backlog_levels)) }
{
    let sample = PressureSample {
        l0_count,
        l0_write_stall_trigger,
        max_level_debt_ratio,
        tables_probed_per_get,
        backlog_levels,
    };
    observe_words::observe(state, clock, sample)
}

#[unsafe(no_mangle)]
pub extern "C" fn coinhamper_observe_engine(
    state: &mut [u64],
    clock: u64,
    l0_count: u64,
    l0_write_stall_trigger: u64,
    max_level_debt_ratio: f64,
    backlog_levels: u64,
    gets_total: u64,
    resolved_in_memtable: u64,
    resolved_in_immutable: u64,
    l0_tables_probed: u64,
    leveled_tables_probed: u64,
) -> u64
    ensures value { result ≡ refusal_of state.old (engine_of source (state_in state.old) clock (engine_sample_of l0_count l0_write_stall_trigger max_level_debt_ratio backlog_levels) (read_amp_of gets_total resolved_in_memtable resolved_in_immutable l0_tables_probed leveled_tables_probed)) }
    ensures state_after { state.new ≡ words_after state.old (engine_of source (state_in state.old) clock (engine_sample_of l0_count l0_write_stall_trigger max_level_debt_ratio backlog_levels) (read_amp_of gets_total resolved_in_memtable resolved_in_immutable l0_tables_probed leveled_tables_probed)) }
{
    let sample = EngineSample {
        l0_count,
        l0_write_stall_trigger,
        max_level_debt_ratio,
        backlog_levels,
    };
    let read_amp = ReadAmpStats {
        gets_total,
        resolved_in_memtable,
        resolved_in_immutable,
        l0_tables_probed,
        leveled_tables_probed,
    };
    observe_words::windowed::observe_engine(state, clock, sample, read_amp)
}

// Kinds are 1 L0, 2 a batch of a level, 3 a move of a level.
#[tactic(auto, unfolding(crate::specs::Governed::kind_by))]
fn kind_of(kind: u64, level: u32, batch_len: u64) -> Option<CandidateKind>
    ensures { result ≡ kind_by kind level batch_len }
{
    match kind {
        1 => Some(CandidateKind::L0),
        2 => Some(CandidateKind::LevelBatch { level, batch_len }),
        3 => Some(CandidateKind::TrivialMove { level }),
        _ => None,
    }
}

#[unsafe(no_mangle)]
pub extern "C" fn coinhamper_record_candidate_chosen(
    state: &mut [u64],
    kind: u64,
    level: u32,
    batch_len: u64,
) -> u64
    ensures value { result ≡ refusal_of state.old (chosen_by (state_in state.old) kind level batch_len) }
    ensures state_after { state.new ≡ words_after state.old (chosen_by (state_in state.old) kind level batch_len) }
{
    let s = state_in(&*state);
    match kind_of(kind, level, batch_len) {
        Some(chosen) => keep(
            state,
            refusals::NONE,
            report::record_candidate_chosen(s, chosen),
        ),
        None => keep(state, NO_SUCH_CASE, s),
    }
}

#[unsafe(no_mangle)]
pub extern "C" fn coinhamper_record_trivial_move(state: &mut [u64], bytes_avoided: u64) -> u64
    ensures value { result ≡ refusal_of state.old (trivial_move_of (state_in state.old) bytes_avoided) }
    ensures state_after { state.new ≡ words_after state.old (trivial_move_of (state_in state.old) bytes_avoided) }
{
    let s = state_in(&*state);
    let moved = report::with_trivial_move(s, bytes_avoided);
    keep(state, refusals::code(moved), moved.unwrap_or(s))
}

#[unsafe(no_mangle)]
pub extern "C" fn coinhamper_record_outcome(state: &mut [u64], predicted: u64, actual: u64) -> u64
    ensures value { result ≡ refusal_of state.old (outcome_of (state_in state.old) predicted actual) }
    ensures state_after { state.new ≡ words_after state.old (outcome_of (state_in state.old) predicted actual) }
{
    let s = state_in(&*state);
    let recorded = report::with_outcome(s, predicted, actual);
    keep(state, refusals::code(recorded), recorded.unwrap_or(s))
}

// Flag 0 is no focus, and then the level is 0; flag 1 is a level.
#[unsafe(no_mangle)]
pub extern "C" fn coinhamper_set_focus(
    state: &mut [u64],
    focus_flag: u64,
    focus_level: u32,
    focus_streak: u32,
) -> u64
    ensures value { result ≡ refusal_of state.old (focused_by (state_in state.old) focus_flag focus_level focus_streak) }
    ensures state_after { state.new ≡ words_after state.old (focused_by (state_in state.old) focus_flag focus_level focus_streak) }
{
    let s = state_in(&*state);
    if focus_good(focus_flag, focus_level as u64) {
        let focus = focus_of(focus_flag, focus_level, focus_streak);
        return keep(state, refusals::NONE, s.set_focus(focus));
    }
    keep(state, NO_SUCH_CASE, s)
}

// Eight words: mode, pressure, the three pressures of the vector, focus flag, focus level, focus streak.
#[unsafe(no_mangle)]
pub extern "C" fn coinhamper_read(state: &[u64], out: &mut [u64]) -> u64
    ensures value { result ≡ answer_fault (gated state.now 0) 8 (length out.old) }
    ensures out_after { out.new ≡ written_out result (reading_words (state_in state.now)) out.old }
{
    let eight = answer_words::reading_of(state);
    answer(out, gate(state, refusals::NONE), &eight)
}

// The first of these words alone: 0 Balanced, 1 ReadProtect, 2 WriteEmergency.
#[unsafe(no_mangle)]
pub extern "C" fn coinhamper_mode(state: &[u64], mode: &mut u64) -> u64
    ensures value { result ≡ gated state.now none }
    ensures mode_after { mode.new ≡ mode_or state.now mode.old }
{
    answer_words::tell_mode(mode, state)
}

// Fourteen words: the figures of `GovernorStats` in order.
#[unsafe(no_mangle)]
pub extern "C" fn coinhamper_snapshot(state: &[u64], clock: u64, out: &mut [u64]) -> u64
    ensures value { result ≡ answer_fault (gated state.now (snapshot_refusal (snapshot_of (state_in state.now) clock))) 14 (length out.old) }
    ensures out_after { out.new ≡ written_out result (figures_or (snapshot_of (state_in state.now) clock)) out.old }
{
    let a = snapshot::snapshot(state_in(state), clock);
    let fourteen = answer_words::snapshot_words(a);
    answer(out, gate(state, refusals::code(a)), &fourteen)
}

// In nanoseconds. Modes are 0 Balanced, 1 ReadProtect, 2 WriteEmergency.
#[unsafe(no_mangle)]
pub extern "C" fn coinhamper_pacing_delay(mode: u64, pressure: f64, nanos: &mut u64) -> u64
    ensures value { result ≡ pacing_refusal mode }
    ensures nanos_after { nanos.new ≡ pacing_after mode pressure nanos.old }
{
    answer_words::tell_delay(nanos, mode, pressure)
}

// Answers a number: 0 none, 1 L0, 2 deep debt, 3 reads.
#[unsafe(no_mangle)]
pub extern "C" fn coinhamper_dominant(l0: f64, deep_debt: f64, read: f64) -> u64
    ensures { result ≡ dominant_number (dominant_of (vector_of l0 deep_debt read)) }
{
    let vector = PressureVector {
        l0,
        deep_debt,
        read,
    };
    u64::from(vector.dominant())
}
