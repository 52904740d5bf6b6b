// The log after one more decision: its place, its sequence, and the log's own numbers. Nothing is refused, whatever the log.
#![tactic(auto)]

ghost use Rattle.std.specs.Prelude.{◌≡◌};
ghost use Rattle.next_log.specs.Next.{next_place, next_log, next_sequence};

use decision_log::{DecisionLog, MAX_DECISIONS_KEPT, kept_place};

#[tactic(auto, unfolding(crate::specs::Next::next_place))]
pub fn next_place(log: DecisionLog) -> u64
    ensures { result ≡ next_place log }
{
    if log.count < MAX_DECISIONS_KEPT {
        return kept_place(log, log.count);
    }
    log.first
}

pub fn next_sequence(log: DecisionLog) -> u64
    ensures { result ≡ next_sequence log }
{
    log.sequence.saturating_add(1)
}

pub fn next_log(log: DecisionLog) -> DecisionLog
    ensures { result ≡ next_log log }
{
    let sequence = next_sequence(log);
    if log.count < MAX_DECISIONS_KEPT {
        let count = log.count + 1;
        return DecisionLog {
            count,
            sequence,
            ..log
        };
    }
    DecisionLog {
        first: kept_place(log, 1),
        count: MAX_DECISIONS_KEPT,
        sequence,
    }
}
