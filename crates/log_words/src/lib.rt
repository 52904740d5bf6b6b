// A log beside its head, three lent words: first, count and sequence. A decision added, and a text read, on such words. Refusals are numbers here, as C is told them.
#![tactic(auto)]

ghost use Rattle.std.specs.Prelude.{◌≡◌, length};
ghost use Rattle.log_words.specs.LogWords.{head_of, three_words, record_refusal, record_head, record_words, read_refusal, read_head, read_words};

use decision_log::DecisionLog;

// Not three words are no log, as a first place past all of them says to the calls below.
#[tactic(auto, unfolding(crate::specs::LogWords::head_of))]
pub fn head_in(head: &[u64]) -> DecisionLog
    ensures { result ≡ head_of head.now }
{
    match *head {
        [first, count, sequence] => DecisionLog {
            first,
            count,
            sequence,
        },
        _ => DecisionLog {
            first: u64::MAX,
            count: 0,
            sequence: 0,
        },
    }
}

fn put_head(head: &mut [u64], g: DecisionLog)
    requires { length head.old ≡ 3 }
    ensures { head.new ≡ three_words g }
{
    head.copy_from_slice(&[g.first, g.count, g.sequence]);
}

// 10, then 5 for words that are no decision. The log gives the sequence.
pub fn record_decision(head: &mut [u64], words: &mut [u64], decision: &[u64]) -> u64
    ensures value { result ≡ record_refusal head.old (length words.old) decision.now }
    ensures head_after { head.new ≡ record_head head.old (length words.old) decision.now }
    ensures words_after { words.new ≡ record_words head.old words.old decision.now }
{
    let g = head_in(&*head);
    if decision_log::log_bad(g, words.len()) {
        return refusals::BAD_LOG;
    }
    let Some(d) = decisions::of_words(decision) else {
        return refusals::BAD_RECORD;
    };
    match recording::record_decision(g, words, d) {
        Ok(log) => {
            put_head(head, log);
            refusals::NONE
        }
        Err(refusal) => u64::from(refusal),
    }
}

// The log that a text is, a line to each decision: 10, 4, 5. Head and words are written together or not at all.
pub fn read_log(text: &[u8], head: &mut [u64], words: &mut [u64]) -> u64
    ensures value { result ≡ read_refusal text.now head.old (length words.old) }
    ensures head_after { head.new ≡ read_head text.now head.old (length words.old) }
    ensures words_after { words.new ≡ read_words text.now head.old words.old }
{
    if head.len() != 3 {
        return refusals::BAD_LOG;
    }
    match log_text::read_log(text, words) {
        Ok(log) => {
            put_head(head, log);
            refusals::NONE
        }
        Err(refusal) => u64::from(refusal),
    }
}
