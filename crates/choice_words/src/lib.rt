// The choice and the decision on lent words: the six words of a choice, with numbers that stand for no focus or no choice refused. Refusals and the focus flag are numbers here, as C has them.
#![tactic(auto)]

ghost use Rattle.std.specs.Prelude.{◌≡◌, length};
ghost use Rattle.refusals.specs.Written.{written_out};
ghost use Rattle.decisions.specs.Decision.{decision_words};
ghost use Rattle.trace.specs.Trace.{decision_of};
ghost use Rattle.choice.specs.Choice.{answered};
ghost use Rattle.answer_words.specs.AnswerWords.{answer_fault, picked_words};
ghost use Rattle.choice_words.specs.ChoiceWords.{picked_by, pick_refusal, is_picked, case_fault, picked_in};

use answer_words::answer;
use choice::Picked;
use kinds::focus::FocusState;
use kinds::tier::SelectionTier;
use kinds::vector::PressureVector;
use state_words::{NO_SUCH_CASE, focus_good, focus_of};

fn case_fault(good: bool, refusal: u64) -> u64
    ensures { result ≡ case_fault good refusal }
{
    if good {
        return refusal;
    }
    NO_SUCH_CASE
}

// Six words: 1 and the winner's place or 0 and 0; focus flag, level, streak; tier. A focus is given as it is answered.
pub fn pick_best_cause_aware(
    vector: PressureVector,
    flag: u64,
    level: u32,
    streak: u32,
    candidates: &[u64],
    estimates: &[u64],
    picked: &mut [u64],
) -> u64
    ensures value { result ≡ answer_fault (pick_refusal flag level (picked_by vector flag level streak candidates.now estimates.now)) 6 (length picked.old) }
    ensures picked_after { picked.new ≡ written_out result (picked_words (picked_by vector flag level streak candidates.now estimates.now)) picked.old }
{
    let focus = focus_of(flag, level, streak);
    let good = focus_good(flag, level as u64);
    match choice::pick_best_cause_aware(vector, focus, candidates, estimates) {
        Ok(p) => {
            let six = answer_words::picked_words(p);
            answer(picked, case_fault(good, refusals::NONE), &six)
        }
        Err(refusal) => case_fault(good, u64::from(refusal)),
    }
}

fn is_picked(words: &[u64]) -> bool
    ensures { result ≡ is_picked words.now }
{
    if words.len() != 6 {
        return false;
    }
    (words[0] <= 1) & (words[5] <= 3)
}

// Of a choice the decision has only the winner and the tier.
#[tactic(auto, unfolding(crate::specs::ChoiceWords::picked_in))]
fn picked_in(words: &[u64]) -> Picked
    ensures { answered result ≡ picked_in words.now }
{
    let focus = FocusState::default();
    if !is_picked(words) {
        return Picked {
            winner: None,
            focus,
            tier: SelectionTier::None,
        };
    }
    Picked {
        winner: if words[0] == 1 {
            Some(words[1] as usize)
        } else {
            None
        },
        focus,
        tier: decisions::tier_of(words[5]),
    }
}

// Fourteen words, from the vector, the six words of a choice, and the words that it was made of.
pub fn scheduling_decision(
    vector: PressureVector,
    picked: &[u64],
    candidates: &[u64],
    estimates: &[u64],
    decision: &mut [u64],
) -> u64
    ensures value { result ≡ answer_fault (case_fault (is_picked picked.now) 0) 14 (length decision.old) }
    ensures decision_after { decision.new ≡ written_out result (decision_words (decision_of vector (picked_in picked.now) candidates.now estimates.now)) decision.old }
{
    let d = trace::scheduling_decision(vector, picked_in(picked), candidates, estimates);
    let fourteen = decisions::to_words(d);
    answer(
        decision,
        case_fault(is_picked(picked), refusals::NONE),
        &fourteen,
    )
}
