// The governor's calls, on one state. A line has the refusal, the mode and the streak of the focus, unless it says otherwise.
use crate::told::told;
use coinhamper::governed;
use rows_words::words::word;
use std::io::Result;

fn read(rt: &impl Print, name: &[u8], refusal: u64, s: &[u64]) -> Result<()> {
    let mut out: [u64; 8] = [0; 8];
    governed::coinhamper_read(s, &mut out);
    told(rt, name, refusal, out[0], out[7])
}

// The refusal and the mode, 7 where none was told.
fn mode(rt: &impl Print, s: &[u64]) -> Result<()> {
    let mut number: u64 = 7;
    let refusal = governed::coinhamper_mode(s, &mut number);
    told(rt, b"mode", refusal, number, 0)
}

// The refusal and the nanoseconds.
fn pacing(rt: &impl Print, mode: u64) -> Result<()> {
    let mut nanos: u64 = 7;
    let refusal = governed::coinhamper_pacing_delay(mode, 0.25, &mut nanos);
    told(rt, b"pacing_delay", refusal, nanos, 0)
}

fn fresh(rt: &impl Print, s: &mut [u64]) -> Result<()> {
    let refusal = governed::coinhamper_fresh(s, 0);
    read(rt, b"fresh", refusal, s)
}

fn observe(rt: &impl Print, s: &mut [u64], clock: u64, l0_count: u64) -> Result<()> {
    let refusal = governed::coinhamper_observe(s, clock, l0_count, 4, 0.0, 0.0, 0);
    read(rt, b"observe", refusal, s)
}

fn observe_engine(rt: &impl Print, s: &mut [u64], clock: u64) -> Result<()> {
    let refusal = governed::coinhamper_observe_engine(s, clock, 0, 4, 0.0, 0, 9, 0, 0, 9, 0);
    read(rt, b"observe_engine", refusal, s)
}

fn chosen(rt: &impl Print, s: &mut [u64], kind: u64) -> Result<()> {
    let refusal = governed::coinhamper_record_candidate_chosen(s, kind, 1, 5);
    read(rt, b"record_candidate_chosen", refusal, s)
}

fn moved(rt: &impl Print, s: &mut [u64]) -> Result<()> {
    let refusal = governed::coinhamper_record_trivial_move(s, 9);
    read(rt, b"record_trivial_move", refusal, s)
}

fn outcome(rt: &impl Print, s: &mut [u64], predicted: u64) -> Result<()> {
    let refusal = governed::coinhamper_record_outcome(s, predicted, 6);
    read(rt, b"record_outcome", refusal, s)
}

fn focus(rt: &impl Print, s: &mut [u64], flag: u64, streak: u32) -> Result<()> {
    let refusal = governed::coinhamper_set_focus(s, flag, 3, streak);
    read(rt, b"set_focus", refusal, s)
}

// The refusal, the switches and the average batch; then moves, bytes avoided and samples.
fn figures(rt: &impl Print, s: &[u64], out: &mut [u64]) -> Result<()> {
    let refusal = governed::coinhamper_snapshot(s, 9, out);
    told(rt, b"snapshot", refusal, word(out, 5), word(out, 9))?;
    told(rt, b"snapshot", word(out, 10), word(out, 11), word(out, 12))
}

fn observing(rt: &impl Print, s: &mut [u64]) -> Result<()> {
    observe(rt, s, 1, 3)?;
    mode(rt, s)?;
    observe(rt, s, 2, 9007199254740993)?;
    observe_engine(rt, s, 2)?;
    observe_engine(rt, s, 3)?;
    observe_engine(rt, s, 4)
}

fn reporting(rt: &impl Print, s: &mut [u64]) -> Result<()> {
    chosen(rt, s, 2)?;
    chosen(rt, s, 4)?;
    moved(rt, s)?;
    outcome(rt, s, 4)?;
    outcome(rt, s, 9007199254740993)?;
    focus(rt, s, 1, 2)?;
    focus(rt, s, 0, 1)
}

fn snapshots(rt: &impl Print, s: &[u64]) -> Result<()> {
    let mut short: [u64; 13] = [7; 13];
    figures(rt, s, &mut short)?;
    let mut out: [u64; 14] = [7; 14];
    figures(rt, s, &mut out)
}

// The refusal, and a word that was not touched.
fn unread(rt: &impl Print, s: &[u64]) -> Result<()> {
    let mut out: [u64; 7] = [7; 7];
    let refusal = governed::coinhamper_read(s, &mut out);
    told(rt, b"read", refusal, out[0], 0)
}

pub(crate) fn rows(rt: &impl Print) -> Result<()> {
    pacing(rt, 3)?;
    pacing(rt, 1)?;
    let mut few: [u64; 27] = [0; 27];
    fresh(rt, &mut few)?;
    let mut s: [u64; 28] = [0; 28];
    observe(rt, &mut s, 1, 3)?;
    fresh(rt, &mut s)?;
    observing(rt, &mut s)?;
    reporting(rt, &mut s)?;
    snapshots(rt, &s)?;
    unread(rt, &s)?;
    s[0] = 0x436f_696e_6861_6d02;
    unread(rt, &s)?;
    mode(rt, &s)
}
