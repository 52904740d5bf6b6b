// Answers as words: what is read of a governor, its figures, a pause, a choice; and the front of a lent buffer that gets them. A refused answer writes nothing. Refusals are numbers here, as C is told them.
#![tactic(auto)]

ghost use Rattle.std.specs.Prelude.{◌≡◌, cond, length, eqb};
ghost use Rattle.kinds.specs.Numbers.{winner_numbers};
ghost use Rattle.refusals.specs.Refusals.{none};
ghost use Rattle.refusals.specs.Written.{written_out};
ghost use Rattle.snapshot.specs.Snapshot.{figures};
ghost use Rattle.snapshot.specs.Snapshot.Answered.{told_of};
ghost use Rattle.std.specs.Float.{binary64};
ghost use Rattle.std.specs.Float.Ieee.{of_bits, to_bits};
ghost use Rattle.choice.specs.Choice.{answered};
ghost use Rattle.state_words.specs.StateWords.{state_in, gated};
ghost use Rattle.answer_words.specs.AnswerWords.{answer_fault, reading_words, reading_in, mode_or, pacing_refusal, pacing_after, figures_or, picked_words};

use arith::floats;
use choice::Picked;
use pressure::pacing;
use refusals::Refusal;
use snapshot::GovernorStats;
use state_words::{focus_words, is_state, option_words};

// What the call refuses by comes before a buffer that is too short.
pub fn answer(out: &mut [u64], refusal: u64, words: &[u64]) -> u64
    ensures value { result ≡ answer_fault refusal (length words.now) (length out.old) }
    ensures out_after { out.new ≡ written_out (answer_fault refusal (length words.now) (length out.old)) words.now out.old }
{
    if refusal != refusals::NONE {
        return refusal;
    }
    if out.len() < words.len() {
        return refusals::NO_ROOM;
    }
    buffers::put_words(out, 0, words);
    refusals::NONE
}

// How much a call wrote, unless it was refused.
pub fn tell(count: &mut usize, refusal: u64, written: usize) -> u64
    ensures value { result ≡ refusal }
    ensures count_after { count.new ≡ cond (eqb refusal none) written count.old }
{
    if refusal == refusals::NONE {
        *count = written;
    }
    refusal
}

// The one pattern for a NaN.
fn canonical(bits: u64) -> u64
    ensures { result ≡ to_bits binary64 (of_bits binary64 bits) }
{
    floats::to_bits(floats::of_bits(bits))
}

fn reading_in(words: &[u64]) -> [u64; 8]
    requires { length words.now ≡ 28 }
    ensures { result ≡ reading_in words.now }
{
    [
        words[1],
        canonical(words[4]),
        canonical(words[6]),
        canonical(words[7]),
        canonical(words[8]),
        words[9],
        words[10],
        words[11],
    ]
}

// Of the state in some words mode, pressure, the three of the vector and the focus, read off the words.
pub fn reading_of(words: &[u64]) -> [u64; 8]
    ensures { result ≡ reading_words (state_in words.now) }
{
    if is_state(words) {
        return reading_in(words);
    }
    [0; 8]
}

// The mode alone, for a caller that asks after every observation.
pub fn tell_mode(mode: &mut u64, words: &[u64]) -> u64
    ensures value { result ≡ gated words.now none }
    ensures mode_after { mode.new ≡ mode_or words.now mode.old }
{
    if !is_state(words) {
        return state_words::NOT_A_STATE;
    }
    *mode = words[1];
    refusals::NONE
}

// The pause in nanoseconds. Modes are 0 Balanced, 1 ReadProtect, 2 WriteEmergency.
pub fn tell_delay(nanos: &mut u64, mode: u64, pressure: f64) -> u64
    ensures value { result ≡ pacing_refusal mode }
    ensures nanos_after { nanos.new ≡ pacing_after mode pressure nanos.old }
{
    if 2 < mode {
        return state_words::NO_SUCH_CASE;
    }
    *nanos = pacing::pacing_delay(state_words::mode_of(mode), pressure);
    refusals::NONE
}

fn stats_words(t: GovernorStats) -> [u64; 14]
    ensures { result ≡ figures t }
{
    let mode = t.mode;
    let v = t.pressure_vector;
    [
        mode.idx(),
        floats::to_bits(t.pressure),
        floats::to_bits(v.l0),
        floats::to_bits(v.deep_debt),
        floats::to_bits(v.read),
        t.mode_switches,
        t.time_balanced_ms,
        t.time_read_protect_ms,
        t.time_write_emergency_ms,
        floats::to_bits(t.avg_batch_size),
        t.trivial_moves_performed,
        t.trivial_move_bytes_avoided,
        t.predicted_actual_samples,
        floats::to_bits(t.predicted_actual_mean_abs_pct_error),
    ]
}

// Beside a refusal there are no figures: nobody gets the zeros.
#[tactic(auto, unfolding(crate::specs::AnswerWords::figures_or))]
pub fn snapshot_words(a: Result<GovernorStats, Refusal>) -> [u64; 14]
    ensures { result ≡ figures_or (told_of a) }
{
    match a {
        Ok(t) => stats_words(t),
        Err(_) => [0; 14],
    }
}

fn winner_words(winner: Option<usize>) -> [u64; 2]
    ensures { result ≡ winner_numbers winner }
{
    option_words(winner.map(|place| place as u64))
}

// Winner, focus, tier.
pub fn picked_words(p: Picked) -> [u64; 6]
    ensures { result ≡ picked_words (answered p) }
{
    let winner = winner_words(p.winner);
    let focus = focus_words(p.focus);
    [
        winner[0],
        winner[1],
        focus[0],
        focus[1],
        focus[2],
        u64::from(p.tier),
    ]
}
