// A scheduling decision by value, its fourteen words, and the words read back. Nothing is refused.
#![tactic(auto)]

ghost use Rattle.std.specs.Prelude.{◌≡◌, ◌+◌, ◌-◌, ◌^◌, ◌≤◌, length, get_or};
ghost use Rattle.decisions.specs.Decision.{decision_width, decision_words, source_from, tier_from, chosen_good, is_decision, kind_from, chosen_from, floats_at, decision_in, read_of};

use kinds::kind::CandidateKind;
use kinds::tier::SelectionTier;
use kinds::vector::{PressureSource, PressureVector};

// The words of a decision.
pub const DECISION_WIDTH: usize = 14;

#[derive(Clone, Copy)]
pub struct SchedulingDecision {
    pub sequence: u64,
    pub pressure: PressureVector,
    pub dominant: PressureSource,
    pub tier: SelectionTier,
    pub candidates_considered: u64,
    pub chosen: Option<CandidateKind>,
    pub predicted_rewrite_bytes: u64,
    pub l0_relief: f64,
    pub debt_relief: f64,
    pub read_relief: f64,
}

// A number past the last is read as the last: who reads words tests them before. Source and tier each have their own match, since a trait for both would be longer.
#[tactic(auto, unfolding(crate::specs::Decision::source_from))]
fn source_of(n: u64) -> PressureSource
    ensures { result ≡ source_from n }
{
    match n {
        0 => PressureSource::None,
        1 => PressureSource::L0,
        2 => PressureSource::DeepDebt,
        _ => PressureSource::Read,
    }
}

#[tactic(auto, unfolding(crate::specs::Decision::tier_from))]
pub fn tier_of(n: u64) -> SelectionTier
    ensures { result ≡ tier_from n }
{
    match n {
        0 => SelectionTier::None,
        1 => SelectionTier::L0,
        2 => SelectionTier::FocusContinued,
        _ => SelectionTier::FocusReselected,
    }
}

#[tactic(auto, unfolding(crate::specs::Decision::kind_from))]
fn kind_of(kind: u64, level: u64, length: u64) -> Option<CandidateKind>
    requires { level ≤ 2 ^ 32 - 1 }
    ensures { result ≡ kind_from kind level length }
{
    match kind {
        0 => None,
        1 => Some(CandidateKind::L0),
        2 => Some(CandidateKind::LevelBatch {
            level: level as u32,
            batch_len: length,
        }),
        _ => Some(CandidateKind::TrivialMove {
            level: level as u32,
        }),
    }
}

pub fn to_words(d: SchedulingDecision) -> [u64; DECISION_WIDTH]
    ensures { result ≡ decision_words d }
{
    [
        d.sequence,
        arith::floats::to_bits(d.pressure.l0),
        arith::floats::to_bits(d.pressure.deep_debt),
        arith::floats::to_bits(d.pressure.read),
        u64::from(d.dominant),
        u64::from(d.tier),
        d.candidates_considered,
        d.chosen.map_or(0, u64::from),
        d.chosen.map_or(0, CandidateKind::level),
        d.chosen.map_or(0, CandidateKind::batch_len),
        d.predicted_rewrite_bytes,
        arith::floats::to_bits(d.l0_relief),
        arith::floats::to_bits(d.debt_relief),
        arith::floats::to_bits(d.read_relief),
    ]
}

#[tactic(auto, unfolding(crate::specs::Decision::chosen_good))]
fn chosen_good(kind: u64, level: u64, length: u64) -> bool
    ensures { result ≡ chosen_good kind level length }
{
    match kind {
        0 | 1 => (level == 0) & (length == 0),
        2 => level <= 0xffff_ffff,
        3 => (level <= 0xffff_ffff) & (length == 0),
        _ => false,
    }
}

// The chosen kind that a candidate's kind, level and batch length say; none where they say no kind.
#[tactic(auto, unfolding(crate::specs::Decision::chosen_from))]
pub fn chosen_kind(kind: u64, level: u64, length: u64) -> Option<CandidateKind>
    ensures { result ≡ chosen_from kind level length }
{
    if chosen_good(kind, level, length) {
        return kind_of(kind, level, length);
    }
    None
}

#[tactic(auto, unfolding(crate::specs::Decision::is_decision))]
pub fn is_decision(words: &[u64]) -> bool
    ensures { result ≡ is_decision words.now }
{
    if words.len() != DECISION_WIDTH {
        return false;
    }
    (words[4] <= 3) & ((words[5] <= 3) & chosen_good(words[7], words[8], words[9]))
}

// Three floats by their bits, one to each pressure, from a word on.
fn floats_at(words: &[u64], at: usize) -> PressureVector
    requires { at + 3 ≤ length words.now }
    ensures { result ≡ floats_at words.now at }
{
    PressureVector {
        l0: arith::floats::of_bits(words[at]),
        deep_debt: arith::floats::of_bits(words[at + 1]),
        read: arith::floats::of_bits(words[at + 2]),
    }
}

#[tactic(auto, unfolding(crate::specs::Decision::decision_in))]
fn decision_in(words: &[u64]) -> SchedulingDecision
    requires { (length words.now ≡ decision_width) × (get_or words.now 8 0 ≤ 2 ^ 32 - 1) }
    ensures { result ≡ decision_in words.now }
{
    let relief = floats_at(words, 11);
    SchedulingDecision {
        sequence: words[0],
        pressure: floats_at(words, 1),
        dominant: source_of(words[4]),
        tier: tier_of(words[5]),
        candidates_considered: words[6],
        chosen: kind_of(words[7], words[8], words[9]),
        predicted_rewrite_bytes: words[10],
        l0_relief: relief.l0,
        debt_relief: relief.deep_debt,
        read_relief: relief.read,
    }
}

#[tactic(auto, unfolding(crate::specs::Decision::read_of))]
pub fn of_words(words: &[u64]) -> Option<SchedulingDecision>
    ensures { result ≡ read_of words.now }
{
    if is_decision(words) {
        return Some(decision_in(words));
    }
    None
}
