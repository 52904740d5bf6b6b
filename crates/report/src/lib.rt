// The reporting counters: batches chosen, moves, and how far outcomes were from their predictions.
#![tactic(auto)]

ghost use Rattle.std.specs.Prelude.{◌≡◌, IfOk};
ghost use Rattle.refusals.specs.Codes.{code};
ghost use Rattle.report.specs.Counters.{error_of, chosen_of, trivial_move_of, outcome_fault, outcome_of};

use kinds::kind::CandidateKind;
use refusals::Refusal;
use state::GovernorState;

#[tactic(auto, unfolding(crate::specs::Counters::chosen_of))]
pub fn record_candidate_chosen(mut s: GovernorState, kind: CandidateKind) -> GovernorState
    ensures { result ≡ chosen_of s kind }
{
    if let CandidateKind::LevelBatch {
        level: _,
        batch_len,
    } = kind
    {
        let sum = s.counters.batch_size_sum.saturating_add(batch_len);
        let count = s.counters.batch_size_count.saturating_add(1);
        s.counters.batch_size_sum = sum;
        s.counters.batch_size_count = count;
        return s;
    }
    s
}

#[tactic(auto, using(state::specs::Room::full_is), unfolding(crate::specs::Counters::trivial_move_of))]
pub fn with_trivial_move(mut s: GovernorState, bytes_avoided: u64) -> Result<GovernorState, Refusal>
    ensures refusal { code result ≡ (trivial_move_of s bytes_avoided).refusal }
    ensures state { IfOk result (λ g. g ≡ (trivial_move_of s bytes_avoided).state) }
{
    if s.counters.trivial_moves_performed == u64::MAX {
        return Err(Refusal::CounterFull);
    }
    let moves = s.counters.trivial_moves_performed + 1;
    let bytes = s
        .counters
        .trivial_move_bytes_avoided
        .saturating_add(bytes_avoided);
    s.counters.trivial_moves_performed = moves;
    s.counters.trivial_move_bytes_avoided = bytes;
    Ok(s)
}

fn error(predicted: u64, actual: u64) -> f64
    ensures { result ≡ error_of predicted actual }
{
    let gap = arith::whole::of_u64(actual) - arith::whole::of_u64(predicted);
    arith::floats::absolute(gap) / arith::whole::of_u64(predicted.max(1))
}

fn outcome_fault(s: GovernorState, predicted: u64, actual: u64) -> Result<(), Refusal>
    ensures { code result ≡ outcome_fault s predicted actual }
{
    if counts::is_large(predicted) | counts::is_large(actual) {
        return Err(Refusal::TooLarge);
    }
    if s.counters.predicted_actual_samples == u64::MAX {
        return Err(Refusal::CounterFull);
    }
    Ok(())
}

#[tactic(auto, unfolding(crate::specs::Counters::outcome_of))]
pub fn with_outcome(
    mut s: GovernorState,
    predicted: u64,
    actual: u64,
) -> Result<GovernorState, Refusal>
    ensures refusal { code result ≡ (outcome_of s predicted actual).refusal }
    ensures state { IfOk result (λ g. g ≡ (outcome_of s predicted actual).state) }
{
    outcome_fault(s, predicted, actual)?;
    let sum = s.counters.predicted_actual_abs_pct_error_sum + error(predicted, actual);
    let samples = s.counters.predicted_actual_samples + 1;
    s.counters.predicted_actual_abs_pct_error_sum = sum;
    s.counters.predicted_actual_samples = samples;
    Ok(s)
}
