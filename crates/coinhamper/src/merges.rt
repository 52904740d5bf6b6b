// The next merge: candidates from lent tables, an estimate to each, the choice among them, and the decision to log. Layouts are those of docs/SCOPE.md, section 3.
ghost use Rattle.std.specs.Prelude.{◌≡◌, length};
ghost use Rattle.refusals.specs.Written.{written_out};
ghost use Rattle.decisions.specs.Decision.{decision_words};
ghost use Rattle.estimate_faults.specs.Faults.{estimate_input};
ghost use Rattle.estimates.specs.Estimate.Call.{estimated_of, estimates_out};
ghost use Rattle.scores.specs.Score.{score_of};
ghost use Rattle.candidates.specs.Generate.{generate_input};
ghost use Rattle.trace.specs.Trace.{decision_of};
ghost use Rattle.answer_words.specs.AnswerWords.{answer_fault, picked_words};
ghost use Rattle.choice_words.specs.ChoiceWords.{picked_by, pick_refusal, is_picked, case_fault, picked_in};
ghost use Rattle.coinhamper.specs.Governed.{vector_of};
ghost use Rattle.coinhamper.specs.Merges.{Generation, estimate_with};

use candidate_records::CandidateEstimate;
use kinds::vector::PressureVector;

// Six words to a candidate; both counts are written beside a 0 only.
#[unsafe(no_mangle)]
pub extern "C" fn coinhamper_generate_candidates(
    tables: &[u64],
    keys: &[u8],
    l0_compaction_trigger: u64,
    over_budget_levels: &[u64],
    candidates: &mut [u64],
    numbers: &mut [u64],
    candidate_count: &mut usize,
    number_count: &mut usize,
) -> u64
    ensures { Generation (generate_input tables.now keys.now l0_compaction_trigger over_budget_levels.now) candidates.old candidates.new numbers.old numbers.new candidate_count.old candidate_count.new number_count.old number_count.new result }
{
    let answer = candidates::generate_candidates(
        tables,
        keys,
        l0_compaction_trigger,
        over_budget_levels,
        candidates,
        numbers,
    );
    match answer {
        Ok(made) => {
            *candidate_count = made.candidates;
            *number_count = made.numbers;
            refusals::NONE
        }
        Err(refusal) => u64::from(refusal),
    }
}

// Nine words to each candidate, in order.
#[unsafe(no_mangle)]
pub extern "C" fn coinhamper_estimate_candidates(
    tables: &[u64],
    next_file_number: u64,
    over_budget_levels: &[u64],
    candidates: &[u64],
    numbers: &[u64],
    estimates: &mut [u64],
) -> u64
    ensures value { result ≡ (estimated_of (estimate_input tables.now next_file_number over_budget_levels.now candidates.now numbers.now) (length estimates.old)).refusal }
    ensures estimates_after { estimates.new ≡ estimates_out (estimate_input tables.now next_file_number over_budget_levels.now candidates.now numbers.now) estimates.old }
{
    refusals::code(estimates::estimate_candidates(
        tables,
        next_file_number,
        over_budget_levels,
        candidates,
        numbers,
        estimates,
    ))
}

// Answers a number: the score of an estimate under a vector.
#[unsafe(no_mangle)]
pub extern "C" fn coinhamper_cause_aware_score(
    l0: f64,
    deep_debt: f64,
    read: f64,
    estimated_rewrite_bytes: u64,
    age: u64,
    l0_relief: f64,
    debt_relief: f64,
    read_relief: f64,
) -> f64
    ensures { result ≡ score_of (vector_of l0 deep_debt read) (estimate_with estimated_rewrite_bytes age l0_relief debt_relief read_relief) }
{
    let vector = PressureVector {
        l0,
        deep_debt,
        read,
    };
    let est = CandidateEstimate {
        input_bytes: 0,
        overlap_bytes: 0,
        estimated_rewrite_bytes,
        debt_relief_bytes: 0,
        l0_files_removed: 0,
        age,
        l0_relief,
        debt_relief,
        read_relief,
    };
    scores::cause_aware_score(vector, est)
}

// Six words: 1 and the winner's place or 0 and 0; focus flag, level, streak; tier. A focus is given as it is answered.
#[unsafe(no_mangle)]
pub extern "C" fn coinhamper_pick_best_cause_aware(
    l0: f64,
    deep_debt: f64,
    read: f64,
    focus_flag: u64,
    focus_level: u32,
    focus_streak: u32,
    candidates: &[u64],
    estimates: &[u64],
    picked: &mut [u64],
) -> u64
    ensures value { result ≡ answer_fault (pick_refusal focus_flag focus_level (picked_by (vector_of l0 deep_debt read) focus_flag focus_level focus_streak candidates.now estimates.now)) 6 (length picked.old) }
    ensures picked_after { picked.new ≡ written_out result (picked_words (picked_by (vector_of l0 deep_debt read) focus_flag focus_level focus_streak candidates.now estimates.now)) picked.old }
{
    let vector = PressureVector {
        l0,
        deep_debt,
        read,
    };
    choice_words::pick_best_cause_aware(
        vector,
        focus_flag,
        focus_level,
        focus_streak,
        candidates,
        estimates,
        picked,
    )
}

// Fourteen words, from the vector, the six words of a choice, and the words that it was made of.
#[unsafe(no_mangle)]
pub extern "C" fn coinhamper_scheduling_decision(
    l0: f64,
    deep_debt: f64,
    read: f64,
    picked: &[u64],
    candidates: &[u64],
    estimates: &[u64],
    decision: &mut [u64],
) -> u64
    ensures value { result ≡ answer_fault (case_fault (is_picked picked.now) 0) 14 (length decision.old) }
    ensures decision_after { decision.new ≡ written_out result (decision_words (decision_of (vector_of l0 deep_debt read) (picked_in picked.now) candidates.now estimates.now)) decision.old }
{
    let vector = PressureVector {
        l0,
        deep_debt,
        read,
    };
    choice_words::scheduling_decision(vector, picked, candidates, estimates, decision)
}
