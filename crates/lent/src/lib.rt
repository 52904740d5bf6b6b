// The counts of a move and of an outcome behind a lent governor, which a refusal leaves as it was: both calls answer the refusal.
#![tactic(auto)]

ghost use Rattle.std.specs.Prelude.{◌≡◌};
ghost use Rattle.refusals.specs.Codes.{code};
ghost use Rattle.report.specs.Counters.{trivial_move_of, outcome_of};

use refusals::Refusal;
use report::{with_outcome, with_trivial_move};
use state::GovernorState;

#[tactic(auto, using(state::specs::State::Answered::left), unfolding(report::specs::Counters::trivial_move_of))]
pub fn record_trivial_move(g: &mut GovernorState, bytes_avoided: u64) -> Result<(), Refusal>
    ensures { (g.new ≡ (trivial_move_of g.old bytes_avoided).state) × (code result ≡ (trivial_move_of g.old bytes_avoided).refusal) }
{
    *g = with_trivial_move(*g, bytes_avoided)?;
    Ok(())
}

#[tactic(auto, using(state::specs::State::Answered::left), unfolding(report::specs::Counters::outcome_of))]
pub fn record_outcome(g: &mut GovernorState, predicted: u64, actual: u64) -> Result<(), Refusal>
    ensures { (g.new ≡ (outcome_of g.old predicted actual).state) × (code result ≡ (outcome_of g.old predicted actual).refusal) }
{
    *g = with_outcome(*g, predicted, actual)?;
    Ok(())
}
