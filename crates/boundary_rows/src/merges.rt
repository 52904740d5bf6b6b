// README's worked run, from tables to a decision. A line has the refusal and two words of the answer, unless it says otherwise.
use crate::told::told;
use coinhamper::merges;
use rows_words::words::word;
use std::io::Result;

fn tables() -> [u64; 28] {
    [
        7, 1, 100, 2, 1, 3, 1, 3, 1, 50, 0, 1, 1, 1, 9, 1, 10, 4, 1, 5, 1, 4, 2, 30, 3, 1, 4, 1,
    ]
}

fn over() -> [u64; 2] {
    [1, 100]
}

// The refusal and both counts; then the last candidate's kind and two numbers.
fn generate(rt: &impl Print, c: &mut [u64], n: &mut [u64]) -> Result<()> {
    let t = tables();
    let o = over();
    let mut count: usize = 77;
    let mut numbers: usize = 88;
    let refusal = merges::coinhamper_generate_candidates(
        &t,
        b"abcdef",
        4,
        &o,
        c,
        n,
        &mut count,
        &mut numbers,
    );
    told(
        rt,
        b"generate_candidates",
        refusal,
        count as u64,
        numbers as u64,
    )?;
    told(
        rt,
        b"generate_candidates",
        word(c, 18),
        word(n, 3),
        word(n, 8),
    )
}

fn estimate(rt: &impl Print, next: u64, c: &[u64], n: &[u64], e: &mut [u64]) -> Result<()> {
    let t = tables();
    let o = over();
    let refusal = merges::coinhamper_estimate_candidates(&t, next, &o, c, n, e);
    told(
        rt,
        b"estimate_candidates",
        refusal,
        word(e, 11),
        word(e, 34),
    )
}

fn pick(rt: &impl Print, flag: u64, c: &[u64], e: &[u64], p: &mut [u64]) -> Result<()> {
    let refusal = merges::coinhamper_pick_best_cause_aware(0.0, 1.0, 0.0, flag, 0, 0, c, e, p);
    told(
        rt,
        b"pick_best_cause_aware",
        refusal,
        word(p, 1),
        word(p, 5),
    )
}

fn decide(rt: &impl Print, p: &[u64], c: &[u64], e: &[u64]) -> Result<()> {
    let mut d: [u64; 14] = [7; 14];
    let refusal = merges::coinhamper_scheduling_decision(0.0, 1.0, 0.0, p, c, e, &mut d);
    told(rt, b"scheduling_decision", refusal, d[7], d[12])
}

fn choosing(rt: &impl Print, c: &[u64], e: &[u64]) -> Result<()> {
    let mut p: [u64; 6] = [7; 6];
    pick(rt, 2, c, e, &mut p)?;
    pick(rt, 0, c, e, &mut p)?;
    decide(rt, &p, c, e)?;
    let few: [u64; 5] = [0; 5];
    decide(rt, &few, c, e)
}

fn estimating(rt: &impl Print, c: &[u64], n: &[u64]) -> Result<()> {
    let mut e: [u64; 36] = [0; 36];
    estimate(rt, 9007199254740993, c, n, &mut e)?;
    estimate(rt, 10, c, n, &mut e)?;
    choosing(rt, c, &e)
}

pub(crate) fn rows(rt: &impl Print) -> Result<()> {
    let mut few: [u64; 23] = [0; 23];
    let mut c: [u64; 24] = [0; 24];
    let mut n: [u64; 9] = [0; 9];
    generate(rt, &mut few, &mut n)?;
    generate(rt, &mut c, &mut n)?;
    estimating(rt, &c, &n)
}
