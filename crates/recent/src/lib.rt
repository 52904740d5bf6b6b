// Reading the log: the words of the kept decisions, oldest first.
#![tactic(auto)]

ghost use Rattle.std.specs.Prelude.{◌≡◌, IfOk, length};
ghost use Rattle.refusals.specs.Codes.{code};
ghost use Rattle.recent.specs.Recent.{recent_fault, recent_of, recent_out};

use buffers::put_words;
use decision_log::{DecisionLog, kept_place, log_bad};
use decisions::DECISION_WIDTH;
use refusals::Refusal;

#[tactic(auto, unfolding(crate::specs::Recent::recent_fault))]
fn recent_fault(log: DecisionLog, length: usize, room: usize) -> Result<(), Refusal>
    ensures { code result ≡ recent_fault log length room }
{
    if log_bad(log, length) {
        return Err(Refusal::BadLog);
    }
    if room < DECISION_WIDTH * log.count as usize {
        return Err(Refusal::NoRoom);
    }
    Ok(())
}

// The words of the kept decisions, oldest first and undecoded, to the front of a buffer: how many decisions they are.
#[tactic(auto, unfolding(crate::specs::Recent::recent_of, crate::specs::Recent::recent_out))]
pub fn recent_decisions(log: DecisionLog, words: &[u64], out: &mut [u64]) -> Result<u64, Refusal>
    ensures refusal { code result ≡ (recent_of log (length words.now) (length out.old)).refusal }
    ensures count { IfOk result (λ n. n ≡ (recent_of log (length words.now) (length out.old)).count) }
    ensures out_after { out.new ≡ recent_out log words.now out.old }
{
    recent_fault(log, words.len(), out.len())?;
    let count = log.count;
    for k in 0..count {
        let from = DECISION_WIDTH * kept_place(log, k) as usize;
        let end = from + DECISION_WIDTH;
        let at = DECISION_WIDTH * k as usize;
        put_words(out, at, &words[from..end]);
    }
    Ok(count)
}
