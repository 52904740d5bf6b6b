// The log's text: the log that it is, and a report of the lines that are refused.
#![tactic(auto)]

ghost use Rattle.std.specs.Prelude.{◌≡◌, IfOk, cond, not, [], ◌+◌, ◌-◌, ◌*◌, ◌≤◌, length, take, get_or, replicate};
ghost use Rattle.lists.specs.Writes.{Filled};
ghost use Rattle.refusals.specs.Refusals.{bad_record};
ghost use Rattle.refusals.specs.Codes.{code};
ghost use Rattle.refusals.specs.Written.{Counts};
ghost use Rattle.replay_text.specs.Lines.{lines_of};
ghost use Rattle.log_text.specs.Text.{too_long, read_fault, words_of, read_of, read_out, refused_line, bad_from, report_of, reported_of, report_out};

use buffers::put_words;
use decision_log::{DecisionLog, LOG_WORDS, MAX_DECISIONS_KEPT, log_bad};
use decisions::DECISION_WIDTH;
use log_fields::line_of;
use refusals::Refusal;
use replay_text::reader::{COMMA, LF, Lines};
use text_writers::put_row;

// The most bytes that 4,096 good lines have.
pub const MOST: usize = 1110016;

// Room for every text that is read, and a byte more, which shows one that is too long.
pub fn text_room() -> [u8; 1110017]
    ensures { (1110017 ≡ length result) × (result ≡ replicate 1110017 0) }
{
    [0; 1110017]
}

// Room for a log's words.
pub fn word_room() -> [u64; LOG_WORDS]
    ensures { (57344 ≡ length result) × (result ≡ replicate 57344 0) }
{
    [0; LOG_WORDS]
}

// Writes every line's words as far as the buffer goes, and answers how many lines there are.
fn put_lines(text: &[u8], words: &mut [u64]) -> u64
    requires { length text.now ≤ 1110016 }
    ensures { (result ≡ length (lines_of text.now)) × Filled words.old 0 (words_of (lines_of text.now)) words.new (14 * result) }
{
    let mut n: u64 = 0;
    for line in Lines::of(text) {
        // A line that is none takes its place too, as zeros.
        let decision = line_of(line).unwrap_or([0; DECISION_WIDTH]);
        put_words(words, DECISION_WIDTH * n as usize, &decision);
        n += 1;
    }
    n
}

// A refused line's row, and nothing for a good one.
fn put_refused(out: &mut [u8], at: usize, number: u64, good: bool) -> usize
    ensures { Filled out.old at (cond (not good) (refused_line number bad_record) []) out.new (at + result) }
{
    if good {
        return 0;
    }
    put_row(out, at, &[number, refusals::BAD_RECORD], COMMA, LF)
}

// Writes the bad lines as far as the buffer goes, and answers how many bytes they take.
fn put_bad(text: &[u8], out: &mut [u8]) -> usize
    requires { length text.now ≤ 1110016 }
    ensures { Filled out.old 0 (bad_from 1 (lines_of text.now)) out.new result }
{
    // Counted beside the lines: `enumerate` gives a usize from 0, and would be no plainer.
    let mut number: u64 = 1;
    let mut at: usize = 0;
    for line in Lines::of(text) {
        at += put_refused(out, at, number, line_of(line).is_some());
        number += 1;
    }
    at
}

fn too_long(text: &[u8]) -> bool
    ensures { result ≡ too_long text.now }
{
    if MOST < text.len() {
        return true;
    }
    let mut spare = [0u64; 1];
    MAX_DECISIONS_KEPT < put_lines(text, &mut spare)
}

fn read_fault(text: &[u8], length: usize) -> Result<(), Refusal>
    ensures { code result ≡ read_fault text.now length }
{
    if log_bad(decision_log::empty(), length) {
        return Err(Refusal::BadLog);
    }
    if too_long(text) {
        return Err(Refusal::TooMany);
    }
    let mut spare = [0u8; 1];
    if put_bad(text, &mut spare) != 0 {
        return Err(Refusal::BadRecord);
    }
    Ok(())
}

// The sequence of the newest of so many decisions, 0 for none.
fn newest_sequence(words: &[u64], count: u64) -> u64
    requires { 14 * count ≤ length words.now }
    ensures { result ≡ get_or (take (14 * count) words.now) (14 * count - 14) 0 }
{
    if count == 0 {
        return 0;
    }
    words[DECISION_WIDTH * (count - 1) as usize]
}

// The log that a text is, from place 0 on.
#[tactic(auto, unfolding(crate::specs::Text::read_of, crate::specs::Text::read_out))]
pub fn read_log(text: &[u8], words: &mut [u64]) -> Result<DecisionLog, Refusal>
    ensures refusal { code result ≡ (read_of text.now (length words.old)).refusal }
    ensures log { IfOk result (λ g. g ≡ (read_of text.now (length words.old)).log) }
    ensures words_after { words.new ≡ read_out text.now words.old }
{
    read_fault(text, words.len())?;
    let count = put_lines(text, words);
    let sequence = newest_sequence(words, count);
    Ok(DecisionLog {
        first: 0,
        count,
        sequence,
    })
}

// Writes the whole report as far as the buffer goes, and answers its length.
fn put_report(text: &[u8], out: &mut [u8]) -> usize
    ensures { Filled out.old 0 (report_of text.now) out.new result }
{
    if too_long(text) {
        return put_row(out, 0, &[0, refusals::TOO_MANY], COMMA, LF);
    }
    put_bad(text, out)
}

// The refused lines of a text, each by its number and its refusal: how many bytes they are. A first run over none of the buffer tells the length, so that one too short is left alone.
pub fn refused_lines(text: &[u8], out: &mut [u8]) -> Result<usize, Refusal>
    ensures refusal { code result ≡ (reported_of text.now (length out.old)).refusal }
    ensures value { IfOk result (λ n. n ≡ (reported_of text.now (length out.old)).length) }
    ensures out_after { out.new ≡ report_out text.now out.old }
    ensures counts { IfOk result (λ n. Counts n out.new) }
{
    let length = put_report(text, &mut out[..0]);
    if out.len() < length {
        return Err(Refusal::NoRoom);
    }
    put_report(text, out);
    Ok(length)
}
