// The governor. Its state is 28 lent words that `coinhamper_fresh` makes and every other call tests: words that are no state of this version are refused by 100.
ghost use Rattle.std.specs.Prelude.{◌≡◌, length};
ghost use Rattle.refusals.specs.Refusals.{none};
ghost use Rattle.refusals.specs.Written.{written_out};
ghost use Rattle.kinds.specs.Numbers.{dominant_number};
ghost use Rattle.kinds.specs.Tuning.{source};
ghost use Rattle.kinds.specs.Vector.{dominant_of};
ghost use Rattle.governor.specs.Observe.{observed_of};
ghost use Rattle.engine.specs.Engine.{engine_of};
ghost use Rattle.report.specs.Counters.{trivial_move_of, outcome_of};
ghost use Rattle.snapshot.specs.Snapshot.{snapshot_of, snapshot_refusal};
ghost use Rattle.state_words.specs.StateWords.{state_in, gated, refusal_of, words_after};
ghost use Rattle.answer_words.specs.AnswerWords.{answer_fault, reading_words, mode_or, pacing_refusal, pacing_after, figures_or};
ghost use Rattle.coinhamper.specs.Governed.{vector_of, sample_of, engine_sample_of, read_amp_of, fresh_refusal, fresh_after, chosen_by, focused_by};

#[unsafe(no_mangle)]
pub extern "C" fn coinhamper_fresh(state: &mut [u64], clock: u64) -> u64
    ensures value { result ≡ fresh_refusal state.old }
    ensures state_after { state.new ≡ fresh_after state.old clock }
{
    coinhamper::governed::coinhamper_fresh(state, clock)
}

#[unsafe(no_mangle)]
pub extern "C" fn coinhamper_observe(
    state: &mut [u64],
    clock: u64,
    l0_count: u64,
    l0_write_stall_trigger: u64,
    max_level_debt_ratio: f64,
    tables_probed_per_get: f64,
    backlog_levels: u64,
) -> u64
    ensures value { result ≡ refusal_of state.old (observed_of source (state_in state.old) clock (sample_of l0_count l0_write_stall_trigger max_level_debt_ratio tables_probed_per_get backlog_levels)) }
    ensures state_after { state.new ≡ words_after state.old (observed_of source (state_in state.old) clock (sample_of l0_count l0_write_stall_trigger max_level_debt_ratio tables_probed_per_get backlog_levels)) }
{
    coinhamper::governed::coinhamper_observe(
        state,
        clock,
        l0_count,
        l0_write_stall_trigger,
        max_level_debt_ratio,
        tables_probed_per_get,
        backlog_levels,
    )
}

#[unsafe(no_mangle)]
pub extern "C" fn coinhamper_observe_engine(
    state: &mut [u64],
    clock: u64,
    l0_count: u64,
    l0_write_stall_trigger: u64,
    max_level_debt_ratio: f64,
    backlog_levels: u64,
    gets_total: u64,
    resolved_in_memtable: u64,
    resolved_in_immutable: u64,
    l0_tables_probed: u64,
    leveled_tables_probed: u64,
) -> u64
    ensures value { result ≡ refusal_of state.old (engine_of source (state_in state.old) clock (engine_sample_of l0_count l0_write_stall_trigger max_level_debt_ratio backlog_levels) (read_amp_of gets_total resolved_in_memtable resolved_in_immutable l0_tables_probed leveled_tables_probed)) }
    ensures state_after { state.new ≡ words_after state.old (engine_of source (state_in state.old) clock (engine_sample_of l0_count l0_write_stall_trigger max_level_debt_ratio backlog_levels) (read_amp_of gets_total resolved_in_memtable resolved_in_immutable l0_tables_probed leveled_tables_probed)) }
{
    coinhamper::governed::coinhamper_observe_engine(
        state,
        clock,
        l0_count,
        l0_write_stall_trigger,
        max_level_debt_ratio,
        backlog_levels,
        gets_total,
        resolved_in_memtable,
        resolved_in_immutable,
        l0_tables_probed,
        leveled_tables_probed,
    )
}

#[unsafe(no_mangle)]
pub extern "C" fn coinhamper_record_candidate_chosen(
    state: &mut [u64],
    kind: u64,
    level: u32,
    batch_len: u64,
) -> u64
    ensures value { result ≡ refusal_of state.old (chosen_by (state_in state.old) kind level batch_len) }
    ensures state_after { state.new ≡ words_after state.old (chosen_by (state_in state.old) kind level batch_len) }
{
    coinhamper::governed::coinhamper_record_candidate_chosen(state, kind, level, batch_len)
}

#[unsafe(no_mangle)]
pub extern "C" fn coinhamper_record_trivial_move(state: &mut [u64], bytes_avoided: u64) -> u64
    ensures value { result ≡ refusal_of state.old (trivial_move_of (state_in state.old) bytes_avoided) }
    ensures state_after { state.new ≡ words_after state.old (trivial_move_of (state_in state.old) bytes_avoided) }
{
    coinhamper::governed::coinhamper_record_trivial_move(state, bytes_avoided)
}

#[unsafe(no_mangle)]
pub extern "C" fn coinhamper_record_outcome(state: &mut [u64], predicted: u64, actual: u64) -> u64
    ensures value { result ≡ refusal_of state.old (outcome_of (state_in state.old) predicted actual) }
    ensures state_after { state.new ≡ words_after state.old (outcome_of (state_in state.old) predicted actual) }
{
    coinhamper::governed::coinhamper_record_outcome(state, predicted, actual)
}

// Flag 0 is no focus, and then the level is 0; flag 1 is a level.
#[unsafe(no_mangle)]
pub extern "C" fn coinhamper_set_focus(
    state: &mut [u64],
    focus_flag: u64,
    focus_level: u32,
    focus_streak: u32,
) -> u64
    ensures value { result ≡ refusal_of state.old (focused_by (state_in state.old) focus_flag focus_level focus_streak) }
    ensures state_after { state.new ≡ words_after state.old (focused_by (state_in state.old) focus_flag focus_level focus_streak) }
{
    coinhamper::governed::coinhamper_set_focus(state, focus_flag, focus_level, focus_streak)
}

// Eight words: mode, pressure, the three pressures of the vector, focus flag, focus level, focus streak.
#[unsafe(no_mangle)]
pub extern "C" fn coinhamper_read(state: &[u64], out: &mut [u64]) -> u64
    ensures value { result ≡ answer_fault (gated state.now 0) 8 (length out.old) }
    ensures out_after { out.new ≡ written_out result (reading_words (state_in state.now)) out.old }
{
    coinhamper::governed::coinhamper_read(state, out)
}

// The first of these words alone: 0 Balanced, 1 ReadProtect, 2 WriteEmergency.
#[unsafe(no_mangle)]
pub extern "C" fn coinhamper_mode(state: &[u64], mode: &mut u64) -> u64
    ensures value { result ≡ gated state.now none }
    ensures mode_after { mode.new ≡ mode_or state.now mode.old }
{
    coinhamper::governed::coinhamper_mode(state, mode)
}

// Fourteen words: the figures of `GovernorStats` in order.
#[unsafe(no_mangle)]
pub extern "C" fn coinhamper_snapshot(state: &[u64], clock: u64, out: &mut [u64]) -> u64
    ensures value { result ≡ answer_fault (gated state.now (snapshot_refusal (snapshot_of (state_in state.now) clock))) 14 (length out.old) }
    ensures out_after { out.new ≡ written_out result (figures_or (snapshot_of (state_in state.now) clock)) out.old }
{
    coinhamper::governed::coinhamper_snapshot(state, clock, out)
}

// In nanoseconds. Modes are 0 Balanced, 1 ReadProtect, 2 WriteEmergency.
#[unsafe(no_mangle)]
pub extern "C" fn coinhamper_pacing_delay(mode: u64, pressure: f64, nanos: &mut u64) -> u64
    ensures value { result ≡ pacing_refusal mode }
    ensures nanos_after { nanos.new ≡ pacing_after mode pressure nanos.old }
{
    coinhamper::governed::coinhamper_pacing_delay(mode, pressure, nanos)
}

// Answers a number: 0 none, 1 L0, 2 deep debt, 3 reads.
#[unsafe(no_mangle)]
pub extern "C" fn coinhamper_dominant(l0: f64, deep_debt: f64, read: f64) -> u64
    ensures { result ≡ dominant_number (dominant_of (vector_of l0 deep_debt read)) }
{
    coinhamper::governed::coinhamper_dominant(l0, deep_debt, read)
}
