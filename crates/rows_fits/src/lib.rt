// The calls of fits and log_text. A call is its number in the list of calls: rows_calls says why it is no enum.
#![tactic(auto)]

use decision_log::DecisionLog;
use refusals::Refusal;
use rows_seeded::{SEEDED, length_at, log_at};
use rows_texts as texts;
use rows_words::words;
use rows_words::words::{BYTES, SHORT, WORDS, word};

// The most bytes that a table is written to, one more than the longest has.
const ROOM: usize = 469441;

// The words that are told of a log that was read: two decisions.
const SHOWN: usize = 28;

// How many bytes were written, 0 beside a refusal.
fn length_in(answer: Result<usize, Refusal>) -> usize {
    answer.unwrap_or(0)
}

// ---- tables

pub fn answer(args: &[u64; WORDS]) -> [u64; SHORT] {
    let buffer = rows_seeded::seeded(word(args, 4));
    let n = length_at(args, 3);
    let answer = fits::fits_length(log_at(args), &buffer[0..n]);
    words::told(&[refusals::code(answer), length_in(answer) as u64], &[])
}

// The four numbers from a place on: room, fill, and from where to where bytes are told.
fn four(args: &[u64; WORDS], at: usize) -> [u64; 4] {
    [
        word(args, at),
        word(args, at.wrapping_add(1)),
        word(args, at.wrapping_add(2)),
        word(args, at.wrapping_add(3)),
    ]
}

// A seed's words, with a list laid over them.
fn laid(seed: u64, at: u64, list: &[u64]) -> [u64; SEEDED] {
    let mut words = rows_seeded::seeded(seed);
    buffers::put_words(&mut words, at as usize, list);
    words
}

fn put_table(answer: Result<usize, Refusal>, out: &[u8], asked: [u64; 4], told: &mut [u64; WORDS]) {
    let length = length_in(answer) as u64;
    words::put_all(
        told,
        0,
        &[refusals::code(answer), length, rows_seeded::digest(out)],
    );
    words::put_list(
        told,
        3,
        words::cut(out, asked[2] as usize, asked[3] as usize),
    );
}

fn filled(byte: u8) -> [u8; ROOM] {
    [byte; ROOM]
}

fn put_written(log: DecisionLog, words: &[u64], asked: [u64; 4], told: &mut [u64; WORDS]) {
    let n = (asked[0] as usize).min(ROOM);
    let mut room = filled((asked[1] % 256) as u8);
    let out = &mut room[0..n];
    put_table(fits::write_fits(log, words, out), out, asked, told);
}

fn put_fits(args: &[u64; WORDS], told: &mut [u64; WORDS]) {
    let asked = four(args, words::after_list(args, 6));
    let n = length_at(args, 3);
    let buffer = laid(word(args, 4), word(args, 5), words::part(args, 6));
    put_written(log_at(args), &buffer[0..n], asked, told);
}

// ---- the log's text

fn log_in(answer: Result<DecisionLog, Refusal>) -> DecisionLog {
    answer.unwrap_or(decision_log::empty())
}

fn put_read(answer: Result<DecisionLog, Refusal>, words: &[u64], told: &mut [u64; WORDS]) {
    let n = words.len().min(SHOWN);
    let log = log_in(answer);
    let refusal = refusals::code(answer);
    words::put_all(told, 0, &[refusal, log.first, log.count, log.sequence]);
    let at = words::put_list(told, 4, &words[0..n]);
    words::put(told, at, rows_seeded::digest(words));
}

fn put_log(text: &[u8], length: u64, seed: u64, told: &mut [u64; WORDS]) {
    let n = (length as usize).min(SEEDED);
    let mut buffer = rows_seeded::seeded(seed);
    let words = &mut buffer[0..n];
    put_read(log_text::read_log(text, words), words, told);
}

fn put_report(answer: Result<usize, Refusal>, shown: &[u8], told: &mut [u64; WORDS]) {
    words::put_all(told, 0, &[refusals::code(answer), length_in(answer) as u64]);
    words::put_list(told, 2, shown);
}

// The report goes to what a list holds.
fn put_refused(text: &[u8], list: &[u64], told: &mut [u64; WORDS]) {
    let mut bytes = texts::bytes_of(list);
    let n = list.len().min(BYTES);
    let room = &mut bytes[0..n];
    put_report(log_text::refused_lines(text, room), room, told);
}

// ---- a text that fills the input

// Room for every report.
fn report_room() -> [u8; 28672] {
    [0; 28672]
}

// What reading a text answers, and a digest of the words after it.
fn read_filled(text: &[u8]) -> [u64; 4] {
    let mut buffer = rows_seeded::seeded(1);
    let words = &mut buffer[0..57344];
    let answer = log_text::read_log(text, words);
    let log = log_in(answer);
    [
        refusals::code(answer),
        log.count,
        log.sequence,
        rows_seeded::digest(words),
    ]
}

// The report's length and its last line, behind four numbers.
fn put_last(text: &[u8], told: &mut [u64; WORDS]) {
    let mut room = report_room();
    let length = length_in(log_text::refused_lines(text, &mut room));
    words::put(told, 4, length as u64);
    let shown = words::cut(&room, 0, length);
    words::put_list(told, 5, texts::last_line(shown));
}

fn put_filled(text: &[u8], told: &mut [u64; WORDS]) {
    words::put_all(told, 0, &read_filled(text));
    put_last(text, told);
}

fn put_repeated(text: &[u8], length: u64, told: &mut [u64; WORDS]) {
    let mut bytes = log_text::text_room();
    texts::repeat(text, &mut bytes);
    put_filled(words::cut(&bytes, 0, length as usize), told);
}

pub fn put_answer(call: u64, args: &[u64; WORDS], bytes: &[u8], told: &mut [u64; WORDS]) {
    let text = texts::text_of(args, bytes);
    let second = words::after_list(args, 0);
    match call {
        63 => put_fits(args, told),
        64 => put_log(
            text,
            word(args, second),
            word(args, second.wrapping_add(1)),
            told,
        ),
        65 => put_refused(text, words::part(args, second), told),
        _ => put_repeated(text, word(args, second), told),
    }
}
