// The log of decisions: three words, first, count and sequence, all 0 for an empty log, beside 57,344 words of decisions; its table, its text, and replay.
ghost use Rattle.std.specs.Prelude.{◌≡◌, cond, length, eqb};
ghost use Rattle.refusals.specs.Refusals.{none};
ghost use Rattle.decisions.specs.Decision.{is_decision};
ghost use Rattle.recent.specs.Recent.{recent_fault, recent_out};
ghost use Rattle.fits.specs.File.{length_of, fits_written, fits_out};
ghost use Rattle.log_text.specs.Text.{reported_of, report_out};
ghost use Rattle.replay_lines.specs.Replay.{replayed_of, replay_out};
ghost use Rattle.log_words.specs.LogWords.{head_of, record_refusal, record_head, record_words, read_refusal, read_head, read_words, place_of};

use answer_words::tell;
use decision_log::DecisionLog;
use log_words::head_in;

// Answers a number: 1 where the words are a decision, 0 where they are none.
#[unsafe(no_mangle)]
pub extern "C" fn coinhamper_is_decision(words: &[u64]) -> u64
    ensures { result ≡ cond (is_decision words.now) 1 0 }
{
    if decisions::is_decision(words) {
        return 1;
    }
    0
}

// Answers a number: the place of the k-th kept decision, the oldest being the 0th.
#[unsafe(no_mangle)]
pub extern "C" fn coinhamper_kept_place(first: u64, k: u64) -> u64
    ensures { result ≡ place_of first k }
{
    let g = DecisionLog {
        first,
        count: 0,
        sequence: 0,
    };
    decision_log::kept_place(g, k)
}

// 10, then 5 for words that are no decision. The log gives the sequence.
#[unsafe(no_mangle)]
pub extern "C" fn coinhamper_record_decision(
    head: &mut [u64],
    words: &mut [u64],
    decision: &[u64],
) -> u64
    ensures value { result ≡ record_refusal head.old (length words.old) decision.now }
    ensures head_after { head.new ≡ record_head head.old (length words.old) decision.now }
    ensures words_after { words.new ≡ record_words head.old words.old decision.now }
{
    log_words::record_decision(head, words, decision)
}

// Fourteen words to each kept decision, oldest first.
#[unsafe(no_mangle)]
pub extern "C" fn coinhamper_recent_decisions(head: &[u64], words: &[u64], out: &mut [u64]) -> u64
    ensures value { result ≡ recent_fault (head_of head.now) (length words.now) (length out.old) }
    ensures out_after { out.new ≡ recent_out (head_of head.now) words.now out.old }
{
    refusals::code(recent::recent_decisions(head_in(head), words, out))
}

#[unsafe(no_mangle)]
pub extern "C" fn coinhamper_fits_length(head: &[u64], words: &[u64], written: &mut usize) -> u64
    ensures value { result ≡ (length_of (head_of head.now) words.now).refusal }
    ensures written_after { written.new ≡ cond (eqb result none) (length_of (head_of head.now) words.now).length written.old }
{
    let answer = fits::fits_length(head_in(head), words);
    tell(written, refusals::code(answer), answer.unwrap_or(0))
}

// The log as a binary table of the FITS Standard 4.0, oldest first; 469,440 bytes are always enough.
#[unsafe(no_mangle)]
pub extern "C" fn coinhamper_write_fits(
    head: &[u64],
    words: &[u64],
    out: &mut [u8],
    written: &mut usize,
) -> u64
    ensures value { result ≡ (fits_written (head_of head.now) words.now (length out.old)).refusal }
    ensures written_after { written.new ≡ cond (eqb result none) (fits_written (head_of head.now) words.now (length out.old)).length written.old }
    ensures out_after { out.new ≡ fits_out (head_of head.now) words.now out.old }
{
    let answer = fits::write_fits(head_in(head), words, out);
    tell(written, refusals::code(answer), answer.unwrap_or(0))
}

// The log that a text is, a line to each decision: 10, 4, 5. Head and words are written together or not at all.
#[unsafe(no_mangle)]
pub extern "C" fn coinhamper_read_log(text: &[u8], head: &mut [u64], words: &mut [u64]) -> u64
    ensures value { result ≡ read_refusal text.now head.old (length words.old) }
    ensures head_after { head.new ≡ read_head text.now head.old (length words.old) }
    ensures words_after { words.new ≡ read_words text.now head.old words.old }
{
    log_words::read_log(text, head, words)
}

// The refused lines of such a text: number, comma, refusal, LF.
#[unsafe(no_mangle)]
pub extern "C" fn coinhamper_refused_lines(text: &[u8], out: &mut [u8], written: &mut usize) -> u64
    ensures value { result ≡ (reported_of text.now (length out.old)).refusal }
    ensures written_after { written.new ≡ cond (eqb result none) (reported_of text.now (length out.old)).length written.old }
    ensures out_after { out.new ≡ report_out text.now out.old }
{
    let answer = log_text::refused_lines(text, out);
    tell(written, refusals::code(answer), answer.unwrap_or(0))
}

// The answers to a text of observations; 1,179,648 bytes are always enough. More than 65,536 bytes are answered by none.
#[unsafe(no_mangle)]
pub extern "C" fn coinhamper_replay(text: &[u8], out: &mut [u8], written: &mut usize) -> u64
    ensures value { result ≡ (replayed_of text.now (length out.old)).refusal }
    ensures written_after { written.new ≡ cond (eqb result none) (replayed_of text.now (length out.old)).length written.old }
    ensures out_after { out.new ≡ replay_out text.now out.old }
{
    let answer = replay_lines::run::replay(text, out);
    tell(written, refusals::code(answer), answer.unwrap_or(0))
}
