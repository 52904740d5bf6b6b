// The log: first, count and sequence by value beside the lent words, which are 4,096 places of a decision each.
#![tactic(auto)]

ghost use Rattle.std.specs.Prelude.{◌≡◌};
ghost use Rattle.decision_log.specs.Log.{empty_log, log_bad, kept_place};

use decisions::DECISION_WIDTH;

pub const MAX_DECISIONS_KEPT: u64 = 4096;

pub const LOG_WORDS: usize = MAX_DECISIONS_KEPT as usize * DECISION_WIDTH;

#[derive(Clone, Copy)]
pub struct DecisionLog {
    pub first: u64,
    pub count: u64,
    pub sequence: u64,
}

pub fn empty() -> DecisionLog
    ensures { result ≡ empty_log }
{
    DecisionLog {
        first: 0,
        count: 0,
        sequence: 0,
    }
}

// The place of the k-th kept decision, the oldest being the 0th. Nothing is refused: first and k may be any, so their sum is never formed.
pub fn kept_place(log: DecisionLog, k: u64) -> u64
    ensures { result ≡ kept_place log k }
{
    (log.first % MAX_DECISIONS_KEPT + k % MAX_DECISIONS_KEPT) % MAX_DECISIONS_KEPT
}

// Nothing is refused by it, whatever the log and the length: callers refuse by BAD_LOG where it is true.
pub fn log_bad(log: DecisionLog, length: usize) -> bool
    ensures { result ≡ log_bad log length }
{
    if length != LOG_WORDS {
        return true;
    }
    if MAX_DECISIONS_KEPT <= log.first {
        return true;
    }
    MAX_DECISIONS_KEPT < log.count
}
