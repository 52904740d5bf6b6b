// Adding a decision to the log: after the newest, or over the oldest when all places are kept.
#![tactic(auto)]

ghost use Rattle.std.specs.Prelude.{◌≡◌, IfOk, length};
ghost use Rattle.refusals.specs.Codes.{code};
ghost use Rattle.recording.specs.Recording.{numbered, record_fault, recorded_of, recorded_words};

use buffers::put_words;
use decision_log::{DecisionLog, log_bad};
use decisions::{DECISION_WIDTH, SchedulingDecision};
use next_log::{next_log, next_place, next_sequence};
use refusals::Refusal;

fn with_sequence(d: SchedulingDecision, sequence: u64) -> SchedulingDecision
    ensures { result ≡ numbered d sequence }
{
    let mut n = d;
    n.sequence = sequence;
    n
}

#[tactic(auto, unfolding(crate::specs::Recording::record_fault))]
fn record_fault(log: DecisionLog, length: usize) -> Result<(), Refusal>
    ensures { code result ≡ record_fault log length }
{
    if log_bad(log, length) {
        return Err(Refusal::BadLog);
    }
    Ok(())
}

#[tactic(auto, unfolding(crate::specs::Recording::recorded_of, crate::specs::Recording::recorded_words))]
pub fn record_decision(
    log: DecisionLog,
    words: &mut [u64],
    d: SchedulingDecision,
) -> Result<DecisionLog, Refusal>
    ensures refusal { code result ≡ (recorded_of log (length words.old)).refusal }
    ensures log { IfOk result (λ g. g ≡ (recorded_of log (length words.old)).log) }
    ensures words_after { words.new ≡ recorded_words log words.old d }
{
    record_fault(log, words.len())?;
    let written = decisions::to_words(with_sequence(d, next_sequence(log)));
    let at = DECISION_WIDTH * next_place(log) as usize;
    put_words(words, at, &written);
    Ok(next_log(log))
}
