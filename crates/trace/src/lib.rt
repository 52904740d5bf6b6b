// From a choice to the decision that is logged. Nothing is refused: a place past the lists reads as records of zeros, which choose nothing.
#![tactic(auto)]

ghost use Rattle.std.specs.Prelude.{◌≡◌};
ghost use Rattle.choice.specs.Choice.{answered};
ghost use Rattle.trace.specs.Trace.{decision_of, decision_for};

use candidate_records::{Candidate, CandidateEstimate};
use choice::Picked;
use decisions::SchedulingDecision;
use kinds::tier::SelectionTier;
use kinds::vector::PressureVector;

// The log gives the sequence.
fn decision(
    vector: PressureVector,
    tier: SelectionTier,
    considered: u64,
    c: Candidate,
    e: CandidateEstimate,
) -> SchedulingDecision
    ensures { result ≡ decision_for vector tier considered c e }
{
    SchedulingDecision {
        sequence: 0,
        pressure: vector,
        dominant: vector.dominant(),
        tier,
        candidates_considered: considered,
        chosen: decisions::chosen_kind(c.kind, c.level, c.batch_len),
        predicted_rewrite_bytes: e.estimated_rewrite_bytes,
        l0_relief: e.l0_relief,
        debt_relief: e.debt_relief,
        read_relief: e.read_relief,
    }
}

// What `pick_best_cause_aware` answered about a vector, candidates and estimates, as the decision to log.
pub fn scheduling_decision(
    vector: PressureVector,
    picked: Picked,
    candidates: &[u64],
    estimates: &[u64],
) -> SchedulingDecision
    ensures { result ≡ decision_of vector (answered picked) candidates.now estimates.now }
{
    let considered = candidate_records::candidate_count(candidates) as u64;
    let tier = picked.tier;
    match picked.winner {
        None => decision(
            vector,
            tier,
            considered,
            candidate_records::candidate_at(&candidates[0..0], 0),
            candidate_records::estimate_at(&estimates[0..0], 0),
        ),
        Some(place) => decision(
            vector,
            tier,
            considered,
            candidate_records::candidate_at(candidates, place),
            candidate_records::estimate_at(estimates, place),
        ),
    }
}
