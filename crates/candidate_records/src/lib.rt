// Candidates and estimates in lent words: six to a candidate, nine to an estimate, floats as bits. A place is a record's number in its list, from 0. Nothing here is refused: a place past the last reads as a record of zeros.
#![tactic(auto)]

ghost use Rattle.std.specs.Prelude.{◌≡◌, length};
ghost use Rattle.candidate_records.specs.Candidates.{candidates_of, candidate_at, estimates_of, estimate_at};

use arith::floats;
use records::words::word;

// The kind is a number as it was lent, so that one that stands for no kind can be refused.
#[derive(Clone, Copy)]
pub struct Candidate {
    pub kind: u64,
    pub level: u64,
    pub batch_len: u64,
    pub output_level: u64,
    pub start: u64,
    pub count: u64,
}

#[derive(Clone, Copy)]
pub struct CandidateEstimate {
    pub input_bytes: u64,
    pub overlap_bytes: u64,
    pub estimated_rewrite_bytes: u64,
    pub debt_relief_bytes: u64,
    pub l0_files_removed: u64,
    pub age: u64,
    pub l0_relief: f64,
    pub debt_relief: f64,
    pub read_relief: f64,
}

// How many whole candidates the words are.
pub fn candidate_count(candidates: &[u64]) -> usize
    ensures { result ≡ length (candidates_of candidates.now) }
{
    candidates.len() / 6
}

// The candidate at a place, and one of zeros past the last.
pub fn candidate_at(candidates: &[u64], place: usize) -> Candidate
    ensures { result ≡ candidate_at (candidates_of candidates.now) place }
{
    Candidate {
        kind: word(candidates, 6, place, 0),
        level: word(candidates, 6, place, 1),
        batch_len: word(candidates, 6, place, 2),
        output_level: word(candidates, 6, place, 3),
        start: word(candidates, 6, place, 4),
        count: word(candidates, 6, place, 5),
    }
}

pub fn estimate_count(estimates: &[u64]) -> usize
    ensures { result ≡ length (estimates_of estimates.now) }
{
    estimates.len() / 9
}

pub fn estimate_at(estimates: &[u64], place: usize) -> CandidateEstimate
    ensures { result ≡ estimate_at (estimates_of estimates.now) place }
{
    CandidateEstimate {
        input_bytes: word(estimates, 9, place, 0),
        overlap_bytes: word(estimates, 9, place, 1),
        estimated_rewrite_bytes: word(estimates, 9, place, 2),
        debt_relief_bytes: word(estimates, 9, place, 3),
        l0_files_removed: word(estimates, 9, place, 4),
        age: word(estimates, 9, place, 5),
        l0_relief: floats::of_bits(word(estimates, 9, place, 6)),
        debt_relief: floats::of_bits(word(estimates, 9, place, 7)),
        read_relief: floats::of_bits(word(estimates, 9, place, 8)),
    }
}
