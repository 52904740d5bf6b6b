// A log of one decision, its table and its text; and an observation replayed. A line has the refusal and two words or bytes, unless it says otherwise.
use crate::told::told;
use coinhamper::logged;
use rows_words::words::word;
use std::io::Result;

fn decision(kind: u64) -> [u64; 14] {
    [0, 0, 0, 0, 0, 0, 0, kind, 0, 0, 50, 0, 0, 0]
}

fn record(rt: &impl Print, kind: u64, head: &mut [u64], words: &mut [u64]) -> Result<()> {
    let d = decision(kind);
    let refusal = logged::coinhamper_record_decision(head, words, &d);
    told(
        rt,
        b"record_decision",
        refusal,
        word(head, 1),
        word(words, 10),
    )
}

fn recent(rt: &impl Print, head: &[u64], words: &[u64], out: &mut [u64]) -> Result<()> {
    let refusal = logged::coinhamper_recent_decisions(head, words, out);
    told(
        rt,
        b"recent_decisions",
        refusal,
        word(out, 10),
        word(out, 14),
    )
}

// The refusal and the length.
fn length(rt: &impl Print, head: &[u64], words: &[u64]) -> Result<()> {
    let mut written: usize = 7;
    let refusal = logged::coinhamper_fits_length(head, words, &mut written);
    told(rt, b"fits_length", refusal, written as u64, 0)
}

// The refusal, the length, and the last byte of the first word.
fn table(rt: &impl Print, head: &[u64], words: &[u64], file: &mut [u8]) -> Result<()> {
    let mut written: usize = 7;
    let refusal = logged::coinhamper_write_fits(head, words, file, &mut written);
    told(rt, b"write_fits", refusal, written as u64, word(file, 8647))
}

fn read(rt: &impl Print, text: &[u8], head: &mut [u64], words: &mut [u64]) -> Result<()> {
    let refusal = logged::coinhamper_read_log(text, head, words);
    told(rt, b"read_log", refusal, word(head, 2), word(words, 10))
}

fn report(rt: &impl Print, text: &[u8], out: &mut [u8]) -> Result<()> {
    let mut written: usize = 7;
    let refusal = logged::coinhamper_refused_lines(text, out, &mut written);
    told(rt, b"refused_lines", refusal, written as u64, word(out, 2))
}

fn replay(rt: &impl Print, out: &mut [u8]) -> Result<()> {
    let mut written: usize = 7;
    let refusal = logged::coinhamper_replay(
        b"0,3,4,0000000000000000,0000000000000000,0\n",
        out,
        &mut written,
    );
    told(rt, b"replay", refusal, written as u64, word(out, 4))
}

fn reading(rt: &impl Print, head: &[u64], words: &[u64]) -> Result<()> {
    let mut few: [u64; 13] = [7; 13];
    recent(rt, head, words, &mut few)?;
    let mut out: [u64; 15] = [7; 15];
    recent(rt, head, words, &mut out)
}

fn tables(rt: &impl Print, head: &[u64], words: &[u64]) -> Result<()> {
    length(rt, words, words)?;
    length(rt, head, words)?;
    let mut few: [u8; 2880] = [7; 2880];
    table(rt, head, words, &mut few)?;
    let mut file = fits::file_room();
    table(rt, head, words, &mut file)
}

fn texts(rt: &impl Print, head: &mut [u64], words: &mut [u64]) -> Result<()> {
    read(rt, b"8\n", head, words)?;
    read(
        rt,
        b"8,0000000000000000,0000000000000000,0000000000000000,0,0,4,3,1,0,9,0000000000000000,0000000000000000,0000000000000000\n",
        head,
        words,
    )
}

fn reports(rt: &impl Print) -> Result<()> {
    let mut few: [u8; 3] = [7; 3];
    report(rt, b"8\n", &mut few)?;
    let mut out: [u8; 4] = [7; 4];
    report(rt, b"8\n", &mut out)
}

fn replays(rt: &impl Print) -> Result<()> {
    let mut few: [u8; 12] = [7; 12];
    replay(rt, &mut few)?;
    let mut out: [u8; 13] = [7; 13];
    replay(rt, &mut out)
}

fn recording(rt: &impl Print, head: &mut [u64], words: &mut [u64]) -> Result<()> {
    let mut two: [u64; 2] = [0; 2];
    record(rt, 3, &mut two, words)?;
    record(rt, 4, head, words)?;
    record(rt, 3, head, words)
}

pub(crate) fn rows(rt: &impl Print) -> Result<()> {
    let mut head: [u64; 3] = [0; 3];
    let mut words = log_text::word_room();
    recording(rt, &mut head, &mut words)?;
    reading(rt, &head, &words)?;
    tables(rt, &head, &words)?;
    texts(rt, &mut head, &mut words)?;
    reports(rt)?;
    replays(rt)
}
