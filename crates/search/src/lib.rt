// The search in a list of candidates: every score, the first L0, and the last of the best by score or by length. Nothing is refused.
#![tactic(auto)]

ghost use Rattle.std.specs.Prelude.{◌≡◌, List, [], ℕ, length, Float, get_or};
ghost use Rattle.std.specs.Float.{nan};
ghost use Rattle.std.specs.Float.Ieee.{lt};
ghost use Rattle.lists.specs.Records.{tabulate};
ghost use Rattle.candidate_records.specs.Candidates.{candidates_of, estimates_of};
ghost use Rattle.search.specs.Choices.{Choice, saturated, on_level, shorter};
ghost use Rattle.search.specs.Search.{Search, All, OfLevel, Batches, score_array, first_l0, read_choice, read_choices, Tests, Compares, best_of, held_in};

use faults::limits::MAX_CANDIDATES;
use kinds::vector::PressureVector;
use scores::cause_aware_score;

pub type Scores = [f64; MAX_CANDIDATES];

// Each estimate's score, worked out once; those past the array are left out.
pub fn all_scores(vector: PressureVector, estimates: &[u64]) -> Scores
    ensures { result ≡ score_array vector (estimates_of estimates.now) }
{
    let n = candidate_records::estimate_count(estimates);
    let mut scores = [0.0; MAX_CANDIDATES];
    for i in 0..n.min(MAX_CANDIDATES) {
        scores[i] = cause_aware_score(vector, candidate_records::estimate_at(estimates, i));
    }
    scores
}

pub fn first_l0(candidates: &[u64]) -> Option<usize>
    ensures { result ≡ first_l0 0 (candidates_of candidates.now) }
{
    (0..candidate_records::candidate_count(candidates)).find(
        |&place| candidate_records::candidate_at(candidates, place).kind == 1,
    )
}

// The best score, the last on a tie.
pub fn best(candidates: &[u64], scores: Scores) -> Option<usize>
    ensures { (ew : List ℕ) → held_in (read_choice candidates.now ew scores) result ≡ best_of All (read_choices candidates.now ew scores) }
{
    let n = candidate_records::candidate_count(candidates);
    last_best(n, |_| true, |here, best| scores_below(scores, here, best))
}

// The best score of a level, the last on a tie.
pub fn best_of_level(level: u32, candidates: &[u64], scores: Scores) -> Option<usize>
    ensures { (ew : List ℕ) → held_in (read_choice candidates.now ew scores) result ≡ best_of (OfLevel level) (read_choices candidates.now ew scores) }
{
    let n = candidate_records::candidate_count(candidates);
    last_best(
        n,
        |here| on_level(level, candidates, here),
        |here, best| scores_below(scores, here, best),
    )
}

// The longest saturated batch of a level, the last on a tie.
pub fn longest_of_level(level: u32, candidates: &[u64], estimates: &[u64]) -> Option<usize>
    ensures { (scores : List Float) → held_in (read_choice candidates.now estimates.now scores) result ≡ best_of (Batches level) (read_choices candidates.now estimates.now scores) }
{
    let n = candidate_records::candidate_count(candidates);
    last_best(
        n,
        |here| on_level(level, candidates, here) && saturated_at(candidates, estimates, here),
        |here, best| is_shorter(candidates, here, best),
    )
}

// Of the first `n` places the best of what is compared, the last where none is below another.
fn last_best<C: Fn(usize) -> bool, B: Fn(usize, usize) -> bool>(
    n: usize,
    compared: C,
    below: B,
) -> Option<usize>
    requires compared { C.IsAlwaysCallable compared }
    requires below { B.IsAlwaysCallable below }
    ensures { (search : Search) (read : ℕ → Choice) → Tests search read n (C.post compared) → Compares search read n (B.post below) → held_in read result ≡ best_of search (tabulate read n 0) }
{
    let mut best: Option<usize> = None;
    for here in 0..n {
        if compared(here) {
            match best {
                Some(place) if below(here, place) => {}
                _ => best = Some(here),
            }
        }
    }
    best
}

fn on_level(level: u32, candidates: &[u64], place: usize) -> bool
    ensures { result ≡ on_level level (read_choice candidates.now [] [] place) }
{
    candidate_records::candidate_at(candidates, place).level == u64::from(level)
}

// A batch that clears its level's excess.
pub fn saturated_at(candidates: &[u64], estimates: &[u64], place: usize) -> bool
    ensures { result ≡ saturated (read_choice candidates.now estimates.now [] place) }
{
    candidate_records::candidate_at(candidates, place).kind == 2
        && candidate_records::estimate_at(estimates, place).debt_relief >= 1.0
}

fn is_shorter(candidates: &[u64], here: usize, best: usize) -> bool
    ensures { result ≡ shorter (read_choice candidates.now [] [] here) (read_choice candidates.now [] [] best) }
{
    let c = candidate_records::candidate_at(candidates, here);
    let b = candidate_records::candidate_at(candidates, best);
    c.batch_len < b.batch_len
}

// A score past the array is a NaN, which is below nothing and above nothing.
fn scores_below(scores: Scores, here: usize, best: usize) -> bool
    ensures { result ≡ lt (get_or scores here nan) (get_or scores best nan) }
{
    match (scores.get(here), scores.get(best)) {
        (Some(c), Some(b)) => *c < *b,
        _ => false,
    }
}
