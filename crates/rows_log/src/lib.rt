// The calls of decisions and of their log, whose words come from a seed. A call is its number in the list of calls: rows_calls says why it is no enum.
#![tactic(auto)]

use decision_log::DecisionLog;
use rows_seeded::{SEEDED, length_at, log_at};
use rows_words::words;
use rows_words::words::{SHORT, WORDS, word};

// A decision's words written anew, for `of_words` behind a 1; zeros where they are none.
fn anew(call: u64, list: &[u64]) -> [u64; SHORT] {
    let head = [1];
    let n = ((call == 50) as usize).min(1);
    match decisions::of_words(list) {
        Some(d) => words::told(&head[0..n], &decisions::to_words(d)),
        None => [0; SHORT],
    }
}

fn log_told(log: DecisionLog) -> [u64; SHORT] {
    words::told(&[log.first, log.count, log.sequence], &[])
}

// ---- one decision

fn record_told(refusal: u64, log: DecisionLog, words: &[u64], seed: u64) -> [u64; SHORT] {
    let told = words::told(&[refusal, log.first, log.count, log.sequence], &[]);
    rows_seeded::changes(told, words, seed)
}

fn record(args: &[u64; WORDS]) -> [u64; SHORT] {
    let log = log_at(args);
    let list = words::part(args, 5);
    let seed = word(args, 4);
    let n = length_at(args, 3);
    let mut buffer = rows_seeded::seeded(seed);
    let words = &mut buffer[0..n];
    let answer = match decisions::of_words(list) {
        Some(d) => recording::record_decision(log, words, d),
        None => Ok(log),
    };
    record_told(refusals::code(answer), answer.unwrap_or(log), words, seed)
}

// ---- the kept decisions

fn recent_told(refusal: u64, count: u64, out: &[u64], seed: u64) -> [u64; SHORT] {
    let changes = rows_seeded::changes([0; SHORT], out, seed);
    let digest = rows_seeded::digest(out);
    words::told(&[refusal, count, digest, changes[4] / 2], &[])
}

fn recent(args: &[u64; WORDS]) -> [u64; SHORT] {
    let log = log_at(args);
    let seed = word(args, 6);
    let n = length_at(args, 3);
    let m = length_at(args, 5);
    let buffer = rows_seeded::seeded(word(args, 4));
    let words = &buffer[0..n];
    let mut room = rows_seeded::seeded(seed);
    let out = &mut room[0..m];
    let answer = recent::recent_decisions(log, words, out);
    recent_told(refusals::code(answer), answer.unwrap_or(0), out, seed)
}

// ---- many decisions

// The words of a run's i-th decision.
fn made(i: u64) -> [u64; 14] {
    let n = i % 0x1_0000_0000;
    [
        0,
        n,
        n * 2,
        n * 3,
        n % 4,
        (n + 1) % 4,
        n * 6,
        2,
        n,
        n * 9,
        n * 10,
        n * 11,
        n * 12,
        n * 13,
    ]
}

fn filled(start: DecisionLog, words: &mut [u64], n: u64) -> DecisionLog {
    let mut log = start;
    for i in 1..=n {
        if let Some(d) = decisions::of_words(&made(i)) {
            log = recording::record_decision(log, words, d).unwrap_or(log);
        }
    }
    log
}

// The digest of what is read of a log into zeros.
fn digest_of_kept(log: DecisionLog, words: &[u64]) -> u64 {
    let n = words.len();
    let mut room = [0u64; SEEDED];
    let out = words::room(&mut room, 0, n);
    let _count = recent::recent_decisions(log, words, out);
    rows_seeded::digest(out)
}

fn run_told(log: DecisionLog, words: &[u64]) -> [u64; SHORT] {
    let digest = rows_seeded::digest(words);
    let kept = digest_of_kept(log, words);
    words::told(&[log.first, log.count, log.sequence, digest, kept], &[])
}

fn run(args: &[u64; WORDS]) -> [u64; SHORT] {
    let start = log_at(args);
    let n = word(args, 4);
    let mut buffer = rows_seeded::seeded(word(args, 3));
    let words = words::room(&mut buffer, 0, 57344);
    let log = filled(start, words, n);
    run_told(log, words)
}

pub fn answer(call: u64, args: &[u64; WORDS]) -> [u64; SHORT] {
    match call {
        49 | 50 => anew(call, words::part(args, 0)),
        51 => log_told(decision_log::empty()),
        52 => words::told(
            &[decision_log::kept_place(log_at(args), word(args, 3))],
            &[],
        ),
        53 => record(args),
        54 => recent(args),
        _ => run(args),
    }
}
