// The choice with focus: any L0 first, then the focus level while its streak is short, then the best score overall.
#![tactic(auto)]

ghost use Rattle.std.specs.Prelude.{◌≡◌, ◌<◌, List, ℕ, IfOk};
ghost use Rattle.refusals.specs.Codes.{code};
ghost use Rattle.candidate_records.specs.Candidates.{candidates_of, estimates_of};
ghost use Rattle.search.specs.Choices.{choices_from, last_best, lower_score, winner_of};
ghost use Rattle.search.specs.Search.{read_choices};
ghost use Rattle.choice.specs.Choice.{best_within, focus_max_jobs, answered, reselected, top_level, continued, choice_of};
ghost use Rattle.choice.specs.Choice.Call.{broken_pairs, pick_fault, picked_of};
ghost use Rattle.choice.specs.Choice.Accepted.{LevelsFit, Pickable};

use kinds::focus::FocusState;
use kinds::tier::SelectionTier;
use kinds::vector::PressureVector;
use refusals::Refusal;
use search::Scores;

// So many jobs in a row go to one level before the best score overall decides anew.
const FOCUS_MAX_CONSECUTIVE_JOBS: u32 = 3;

#[derive(Clone, Copy)]
pub struct Picked {
    pub winner: Option<usize>,
    pub focus: FocusState,
    pub tier: SelectionTier,
}

pub fn pick_best_cause_aware(
    vector: PressureVector,
    focus: FocusState,
    candidates: &[u64],
    estimates: &[u64],
) -> Result<Picked, Refusal>
    ensures refusal { code result ≡ (picked_of vector focus candidates.now estimates.now).refusal }
    ensures picked { IfOk result (λ p. answered p ≡ picked_of vector focus candidates.now estimates.now) }
{
    pick_fault(vector, candidates, estimates)?;
    Ok(choose(vector, focus, candidates, estimates))
}

// The call's checks, in 01's order: 4, 5, 7, 8.
#[tactic(auto, unfolding(crate::specs::Choice::Call::pick_fault))]
fn pick_fault(vector: PressureVector, candidates: &[u64], estimates: &[u64]) -> Result<(), Refusal>
    ensures { code result ≡ pick_fault vector candidates.now estimates.now }
{
    if candidate_faults::too_many_candidates(candidates) {
        return Err(Refusal::TooMany);
    }
    if broken_pairs(candidates, estimates) {
        return Err(Refusal::BadRecord);
    }
    if !candidate_faults::all_in_unit(vector.l0, vector.deep_debt, vector.read) {
        return Err(Refusal::BadVector);
    }
    if candidate_faults::estimates_out(estimates) {
        return Err(Refusal::BadEstimate);
    }
    Ok(())
}

fn broken_pairs(candidates: &[u64], estimates: &[u64]) -> bool
    ensures { result ≡ broken_pairs candidates.now estimates.now }
{
    candidate_faults::broken_candidates(candidates)
        || estimates.len() % 9 != 0
        || candidate_records::candidate_count(candidates)
            != candidate_records::estimate_count(estimates)
}

fn choose(
    vector: PressureVector,
    focus: FocusState,
    candidates: &[u64],
    estimates: &[u64],
) -> Picked
    requires { Pickable candidates.now estimates.now }
    ensures { answered result ≡ choice_of focus (choices_from vector 0 (candidates_of candidates.now) (estimates_of estimates.now)) }
{
    if let Some(place) = search::first_l0(candidates) {
        return Picked {
            winner: Some(place),
            focus: FocusState {
                current_focus: None,
                streak: 0,
            },
            tier: SelectionTier::L0,
        };
    }
    let scores = search::all_scores(vector, estimates);
    match focus.current_focus {
        Some(level) if focus.streak < FOCUS_MAX_CONSECUTIVE_JOBS => {
            continue_focus(level, focus.streak, candidates, estimates, scores)
        }
        _ => reselect(candidates, estimates, scores),
    }
}

// The focus level while it has candidates.
fn continue_focus(
    level: u32,
    streak: u32,
    candidates: &[u64],
    estimates: &[u64],
    scores: Scores,
) -> Picked
    requires { LevelsFit candidates.now × (streak < focus_max_jobs) }
    ensures { answered result ≡ continued level streak (read_choices candidates.now estimates.now scores) }
{
    let Some(place) = pick_best_within_level(level, candidates, estimates, scores) else {
        return reselect(candidates, estimates, scores);
    };
    Picked {
        winner: Some(place),
        focus: FocusState {
            current_focus: Some(level),
            streak: streak + 1,
        },
        tier: SelectionTier::FocusContinued,
    }
}

// The best score overall says the level.
fn reselect(candidates: &[u64], estimates: &[u64], scores: Scores) -> Picked
    requires { LevelsFit candidates.now }
    ensures { answered result ≡ reselected (read_choices candidates.now estimates.now scores) }
{
    let Some(level) = select_focus_level(candidates, scores) else {
        return Picked {
            winner: None,
            focus: FocusState {
                current_focus: None,
                streak: 0,
            },
            tier: SelectionTier::None,
        };
    };
    Picked {
        winner: pick_best_within_level(level, candidates, estimates, scores),
        focus: FocusState {
            current_focus: Some(level),
            streak: 1,
        },
        tier: SelectionTier::FocusReselected,
    }
}

// The level of the best score overall, the last on a tie.
fn select_focus_level(candidates: &[u64], scores: Scores) -> Option<u32>
    requires { LevelsFit candidates.now }
    ensures { (ew : List ℕ) → result ≡ top_level (last_best lower_score (read_choices candidates.now ew scores)) }
{
    let place = search::best(candidates, scores)?;
    Some(candidate_records::candidate_at(candidates, place).level as u32)
}

// The best score of a level; a saturated best yields to the longest such batch.
fn pick_best_within_level(
    level: u32,
    candidates: &[u64],
    estimates: &[u64],
    scores: Scores,
) -> Option<usize>
    ensures { result ≡ winner_of (best_within level (read_choices candidates.now estimates.now scores)) }
{
    let place = search::best_of_level(level, candidates, scores)?;
    if search::saturated_at(candidates, estimates, place) {
        return search::longest_of_level(level, candidates, estimates);
    }
    Some(place)
}
