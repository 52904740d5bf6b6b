// Answers questions: reads standard input, and writes one line for each line of it (docs/ROWS.md).
#![tactic(auto)]

use rows_answers::Output;
use rows_state::arithmetic;
use rows_tables::placed;
use rows_words::shape::{Fault, Shape};
use rows_words::words;
use rows_words::words::{BYTES, SHORT, WORDS, word};
use std::io;
use std::io::Read;

const TEXT: usize = 1048576;

// The longest question.
const LINE: usize = 1000000;

// A call is its number in the list of calls: rows_calls says why it is no enum.

// The number that a call of arith, records, faults or keys answers.
fn number_of(call: u64, args: &[u64; WORDS], bytes: &[u8; BYTES]) -> u64 {
    match call {
        0..=8 => arithmetic::value_of(call, word(args, 0), word(args, 1)),
        9..=15 => rows_tables::count_of(call, words::part(args, 0)),
        _ => rows_keys::number_of(call, args, bytes),
    }
}

// A short answer, by the call's number in the list of calls.
fn short_answer(call: u64, args: &[u64; WORDS], bytes: &[u8; BYTES]) -> [u64; SHORT] {
    match call {
        0..=18 => words::told(&[number_of(call, args, bytes)], &[]),
        24 | 25 => rows_tables::record(call, args),
        30..=45 => rows_governed::answer(call, args),
        49..=55 => rows_log::answer(call, args),
        56 | 57 => rows_replay::answer(call, args, bytes),
        62 => rows_fits::answer(args),
        _ => rows_merges::answer(call, args),
    }
}

// A call's answer: one that may be long is written where it is told.
fn put_answer(call: u64, args: &[u64; WORDS], bytes: &[u8; BYTES], told: &mut [u64; WORDS]) {
    match call {
        19..=23 => {
            words::put_list(told, 0, rows_keys::key_of(call, args, bytes));
        }
        26..=28 => placed::put_answer(call, args, bytes, told),
        29 => rows_candidates::put_answer(args, bytes, told),
        46 => rows_merges::put_estimates(args, told),
        58 | 59 => rows_replay::put_answer(call, args, bytes, told),
        60 => told.copy_from_slice(args),
        63..=66 => rows_fits::put_answer(call, args, bytes, told),
        _ => {
            words::put_all(told, 0, &short_answer(call, args, bytes));
        }
    }
}

// The answer of a question that is read. On its own: with its room in `answered`, the compiler zeroed that once more for each line.
fn called(
    name: &[u8],
    asked: Option<Shape>,
    args: &mut [u64; WORDS],
    told: &mut [u64; WORDS],
) -> Result<Shape, Fault> {
    let mut bytes = [0u8; BYTES];
    let call = rows_calls::call_of(name, asked, args, &mut bytes)?;
    put_answer(call.number, args, &bytes, told);
    Ok(call.told)
}

// The answer of a question goes to words, whose shape is answered.
fn answered(line: &[u8], args: &mut [u64; WORDS], told: &mut [u64; WORDS]) -> Result<Shape, Fault> {
    if line.is_empty() {
        return Err(Fault::Empty);
    }
    if LINE < line.len() {
        return Err(Fault::Long);
    }
    let end = line.iter().position(|b| *b == b' ').unwrap_or(line.len());
    let (name, text) = line.split_at(end);
    let asked = rows_questions::arguments(text, args)?;
    called(name, asked, args, told)
}

// Answers the whole lines, and tells where the line that has no end yet starts.
fn answer_lines(
    rt: &impl Print,
    text: &[u8],
    args: &mut [u64; WORDS],
    told: &mut [u64; WORDS],
    out: &mut Output,
) -> io::Result<usize> {
    let Some(last) = text.iter().rposition(|b| *b == b'\n') else {
        return Ok(0);
    };
    for line in text[..last].split(|b| *b == b'\n') {
        out.line(rt, answered(line, args, told), told)?;
    }
    out.flush(rt)?;
    Ok(last + 1)
}

// Moves what stands from a place up to an end to the front, and tells where it then ends. Of a line that is too long only so much is kept that it still is.
fn shift(text: &mut [u8; TEXT], from: usize, end: usize) -> usize {
    let last = end.min(TEXT);
    let first = from.min(last);
    let kept = (last - first).min(LINE + 1);
    text.copy_within(first..first + kept, 0);
    kept
}

// Answers what stands before an end; what is kept of it is then at the front. Not put in line, so that its rooms are laid only where there is a text.
#[inline(never)]
fn answer_text(rt: &impl Print, text: &mut [u8; TEXT], end: usize) -> io::Result<usize> {
    let mut args = [0u64; WORDS];
    let mut told = [0u64; WORDS];
    let mut out = Output::new();
    let start = answer_lines(rt, words::cut(text, 0, end), &mut args, &mut told, &mut out)?;
    Ok(shift(text, start, end))
}

// Reads once behind what is kept, and tells where the text then ends.
fn read_behind(input: &mut impl Read, text: &mut [u8], kept: usize) -> io::Result<usize> {
    if text.len() < kept {
        return Ok(kept);
    }
    let got = input.read(&mut text[kept..])?;
    Ok(kept + got)
}

fn run(rt: &impl Print, input: &mut impl Read, text: &mut [u8; TEXT]) -> io::Result<()> {
    let mut kept = 0;
    // A proved loop has to end; no run uses the turns up.
    for _ in 0..u64::MAX {
        let end = read_behind(input, text, kept)?;
        if end <= kept {
            break;
        }
        kept = answer_text(rt, text, end)?;
    }
    // The last line may lack its end.
    if 0 < kept && kept < TEXT {
        text[kept] = b'\n';
        answer_text(rt, text, kept + 1)?;
    }
    Ok(())
}

fn main(rt: HostRuntime) -> io::Result<()> {
    let mut text = [0u8; TEXT];
    run(&rt, &mut rt.stdin(), &mut text)
}
