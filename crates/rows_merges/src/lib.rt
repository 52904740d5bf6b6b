// The calls of estimates, scores, choice and the decision that a choice leads to. A call is its number in the list of calls: rows_calls says why it is no enum.
#![tactic(auto)]

ghost use Rattle.std.specs.Prelude.{◌≤◌};

use arith::floats;
use candidate_records::CandidateEstimate;
use choice::Picked;
use kinds::tier::SelectionTier;
use rows_state::states;
use rows_state::states::float;
use rows_words::words;
use rows_words::words::{SHORT, WORDS, word};

// ---- estimates

// The estimates go to the words from 3 up to an end. Told are the refusal, 0 for none, and how many estimates there are.
fn estimated(
    args: &[u64; WORDS],
    next: usize,
    fourth: usize,
    out: &mut [u64],
    end: usize,
) -> [u64; 2]
    requires { next ≤ 262143 }
{
    let answer = estimates::estimate_candidates(
        words::part(args, 0),
        word(args, next),
        words::part(args, next + 1),
        words::part(args, fourth),
        words::part(args, words::after_list(args, fourth)),
        words::room(out, 3, end),
    );
    [refusals::code(answer), answer.unwrap_or(0) as u64]
}

pub fn put_estimates(args: &[u64; WORDS], out: &mut [u64; WORDS]) {
    let next = words::after_list(args, 0);
    let fourth = words::after_list(args, next + 1);
    let last = words::after_list(args, words::after_list(args, fourth));
    let end = words::put_list(out, 2, words::part(args, last));
    let told = estimated(args, next, fourth, out, end);
    words::put_all(out, 0, &told);
}

// ---- choice

fn estimate_at(args: &[u64; WORDS]) -> CandidateEstimate {
    CandidateEstimate {
        input_bytes: word(args, 3),
        overlap_bytes: word(args, 4),
        estimated_rewrite_bytes: word(args, 5),
        debt_relief_bytes: word(args, 6),
        l0_files_removed: word(args, 7),
        age: word(args, 8),
        l0_relief: float(args, 9),
        debt_relief: float(args, 10),
        read_relief: float(args, 11),
    }
}

fn winner_words(winner: Option<usize>) -> [u64; 2] {
    match winner {
        None => [0, 0],
        Some(place) => [1, place as u64],
    }
}

fn picked(args: &[u64; WORDS]) -> [u64; SHORT] {
    let before = states::focus_at(args, 3);
    let answer = choice::pick_best_cause_aware(
        states::vector_at(args, 0),
        before,
        words::part(args, 6),
        words::part(args, words::after_list(args, 6)),
    );
    // A refused choice has no winner and no tier, and leaves the focus as it was.
    let p = answer.unwrap_or(Picked {
        winner: None,
        focus: before,
        tier: SelectionTier::None,
    });
    let won = winner_words(p.winner);
    let focus = states::focus_words(p.focus);
    words::told(
        &[
            refusals::code(answer),
            won[0],
            won[1],
            focus[0],
            focus[1],
            focus[2],
            u64::from(p.tier),
        ],
        &[],
    )
}

// ---- the decision

fn winner_of(won: u64, place: u64) -> Option<usize> {
    if won == 0 { None } else { Some(place as usize) }
}

fn decision(args: &[u64; WORDS]) -> [u64; SHORT] {
    let d = trace::scheduling_decision(
        states::vector_at(args, 0),
        Picked {
            winner: winner_of(word(args, 4), word(args, 5)),
            focus: states::focus_at(args, 6),
            tier: decisions::tier_of(word(args, 9)),
        },
        words::part(args, 10),
        words::part(args, words::after_list(args, 10)),
    );
    words::told(&[], &decisions::to_words(d))
}

fn score_of(args: &[u64; WORDS]) -> u64 {
    floats::to_bits(scores::cause_aware_score(states::vector_at(args, 0), estimate_at(args)))
}

pub fn answer(call: u64, args: &[u64; WORDS]) -> [u64; SHORT] {
    match call {
        47 => words::told(&[score_of(args)], &[]),
        48 => picked(args),
        _ => decision(args),
    }
}
