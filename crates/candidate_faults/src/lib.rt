// What makes candidates, estimates and pressure vectors bad, one fault to a function: too many (4), broken records (5), a vector (7) or an estimate (8) out of range. Nothing here is refused: each function answers for any words.
#![tactic(auto)]

ghost use Rattle.std.specs.Prelude.{◌≡◌, ◌&&◌};
ghost use Rattle.lists.specs.Any.{any_of};
ghost use Rattle.candidate_records.specs.Candidates.{candidates_of, estimates_of};
ghost use Rattle.candidate_faults.specs.Candidates.{too_many_candidates, too_many_numbers, fits_kind, numbers_out, broken_candidates, in_unit, estimate_out};

use candidate_records::Candidate;
use faults::limits;
use faults::tables::part_out;

pub fn too_many_candidates(candidates: &[u64]) -> bool
    ensures { result ≡ too_many_candidates candidates.now }
{
    limits::MAX_CANDIDATES < candidate_records::candidate_count(candidates)
}

// Some candidate has too many numbers.
pub fn too_many_numbers(candidates: &[u64]) -> bool
    ensures { result ≡ any_of too_many_numbers (candidates_of candidates.now) }
{
    (0..candidate_records::candidate_count(candidates)).any(|place| {
        let c = candidate_records::candidate_at(candidates, place);
        limits::MAX_NUMBERS < c.count
    })
}

// Whole records, kinds, levels and batch lengths; starts and counts are not looked at.
pub fn broken_candidates(candidates: &[u64]) -> bool
    ensures { result ≡ broken_candidates candidates.now }
{
    candidates.len() % 6 != 0
        || (0..candidate_records::candidate_count(candidates)).any(|place| {
            let c = candidate_records::candidate_at(candidates, place);
            !fits_kind(c)
        })
}

// Some candidate's start and count reach past the number list, which is `numbers` long.
pub fn numbers_out(candidates: &[u64], numbers: u64) -> bool
    ensures { result ≡ any_of (numbers_out numbers) (candidates_of candidates.now) }
{
    (0..candidate_records::candidate_count(candidates)).any(|place| {
        let c = candidate_records::candidate_at(candidates, place);
        part_out(c.start, c.count, numbers)
    })
}

// Some estimate has a relief outside 0 to 1, or too large a rewrite or age.
pub fn estimates_out(estimates: &[u64]) -> bool
    ensures { result ≡ any_of estimate_out (estimates_of estimates.now) }
{
    (0..candidate_records::estimate_count(estimates)).any(|place| {
        let e = candidate_records::estimate_at(estimates, place);
        let inside = all_in_unit(e.l0_relief, e.debt_relief, e.read_relief);
        let large = (limits::MAX_REWRITE < e.estimated_rewrite_bytes) | (limits::MAX_AGE < e.age);
        !inside | large
    })
}

// Whether the level and the batch length are such as the kind allows.
#[tactic(auto, unfolding(crate::specs::Candidates::fits_kind))]
fn fits_kind(c: Candidate) -> bool
    ensures { result ≡ fits_kind c }
{
    let batch = c.batch_len;
    match c.kind {
        1 => (c.level == 0) & (batch == 0),
        2 => (c.level <= limits::MAX_LEVEL) & ((1 <= batch) & (batch <= limits::MAX_BATCH)),
        3 => (c.level <= limits::MAX_LEVEL) & (batch == 0),
        _ => false,
    }
}

// A NaN is in no range, and -0.0 is in this one.
#[tactic(auto, unfolding(crate::specs::Candidates::in_unit))]
fn in_unit(x: f64) -> bool
    ensures { result ≡ in_unit x }
{
    (0.0 <= x) & (x <= 1.0)
}

pub fn all_in_unit(a: f64, b: f64, c: f64) -> bool
    ensures { result ≡ in_unit a && (in_unit b && in_unit c) }
{
    in_unit(a) & (in_unit(b) & in_unit(c))
}
