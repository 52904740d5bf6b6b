// A governor's state in lent words: a tag with the version of the layout, then the state's fields in order, floats as their bits. Words that are no such state are refused by a number of their own. Refusals, the mode and the focus flag are numbers here, as C has them.
#![tactic(auto)]

ghost use Rattle.std.specs.Prelude.{◌≡◌, is_some, IfSome};
ghost use Rattle.kinds.specs.Numbers.{option_numbers};
ghost use Rattle.state_words.specs.StateWords.{mode_from, focus_good, focus_from, streaks_good, is_state, Good, state_from, state_in, focus_words, state_words, gated, refusal_of, words_after};

use arith::floats;
use kinds::focus::FocusState;
use kinds::mode::GovernorMode;
use kinds::vector::PressureVector;
use state::{Counters, GovernorState, Signals, Streaks, Times, Window};

// Counts up whenever a signature, the layout of the words or what a number means changes.
pub const VERSION: u64 = 1;

pub const STATE_WORDS: usize = 28;

// The words are no governor of this version.
pub const NOT_A_STATE: u64 = 100;

// A number stands for no mode, kind, focus or choice.
pub const NO_SUCH_CASE: u64 = 101;

// The letters Coinham, and the version.
const TAG: u64 = 0x436f_696e_6861_6d00 + VERSION;

// Flag 0 is no focus and has no level, flag 1 has one.
pub fn focus_good(flag: u64, level: u64) -> bool
    ensures { result ≡ focus_good flag level }
{
    if flag == 0 {
        return level == 0;
    }
    (flag == 1) & (level <= 0xffff_ffff)
}

fn streaks_good(a: u64, b: u64, c: u64, d: u64) -> bool
    ensures { result ≡ streaks_good a b c d }
{
    ((a <= 0xffff_ffff) & (b <= 0xffff_ffff)) & ((c <= 0xffff_ffff) & (d <= 0xffff_ffff))
}

// Streaks may be any that fit their type: which of them are sound is for the observing calls to say.
pub fn is_state(words: &[u64]) -> bool
    ensures { result ≡ is_state words.now }
{
    if words.len() != STATE_WORDS {
        return false;
    }
    if words[0] != TAG {
        return false;
    }
    if 2 < words[1] {
        return false;
    }
    focus_good(words[9], words[10]) & streaks_good(words[11], words[12], words[13], words[14])
}

// A number past the last is read as the last: who reads words tests them before.
pub fn mode_of(n: u64) -> GovernorMode
    ensures { result ≡ mode_from n }
{
    match n {
        0 => GovernorMode::Balanced,
        1 => GovernorMode::ReadProtect,
        _ => GovernorMode::WriteEmergency,
    }
}

#[tactic(auto, unfolding(crate::specs::StateWords::focus_from))]
pub fn focus_of(flag: u64, level: u32, streak: u32) -> FocusState
    ensures { result ≡ focus_from flag level streak }
{
    FocusState {
        current_focus: if flag == 0 { None } else { Some(level) },
        streak,
    }
}

// Words that are a state, which a reader of them need not ask again.
#[derive(Clone, Copy)]
pub struct StateWords<'a> {
    words: &'a [u64],
    pub ghost good: { Good words.now },
}

impl<'a> StateWords<'a> {
    pub fn of(words: &'a [u64]) -> Option<Self>
        ensures some { is_some result ≡ is_state words.now }
        ensures words { IfSome result (λ s. s.words.now ≡ words.now) }
    {
        if is_state(words) {
            return Some(StateWords { words });
        }
        None
    }

    #[tactic(auto, unfolding(crate::specs::StateWords::state_from))]
    pub fn mode(&self) -> GovernorMode
        ensures { result ≡ (state_from self.now.words.now).mode }
    {
        mode_of(self.words[1])
    }

    // What an observation goes by, each read from its one word.
    #[tactic(auto, unfolding(crate::specs::StateWords::state_from, crate::specs::StateWords::signals_in))]
    pub fn tables_probed_ewma(&self) -> f64
        ensures { result ≡ (state_from self.now.words.now).signals.tables_probed_ewma }
    {
        floats::of_bits(self.words[2])
    }

    #[tactic(auto, unfolding(crate::specs::StateWords::state_from, crate::specs::StateWords::signals_in))]
    pub fn pressure_ewma(&self) -> f64
        ensures { result ≡ (state_from self.now.words.now).signals.pressure_ewma }
    {
        floats::of_bits(self.words[3])
    }

    #[tactic(auto, unfolding(crate::specs::StateWords::state_from, crate::specs::StateWords::signals_in))]
    pub fn debt_ewma(&self) -> f64
        ensures { result ≡ (state_from self.now.words.now).signals.debt_ewma }
    {
        floats::of_bits(self.words[5])
    }

    #[tactic(auto, unfolding(crate::specs::StateWords::state_from, crate::specs::StateWords::counters_in))]
    pub fn mode_switches(&self) -> u64
        ensures { result ≡ (state_from self.now.words.now).counters.mode_switches }
    {
        self.words[21]
    }

    #[tactic(auto, unfolding(crate::specs::StateWords::state_from, crate::specs::StateWords::counters_in))]
    pub fn error_sum(&self) -> f64
        ensures { result ≡ (state_from self.now.words.now).counters.predicted_actual_abs_pct_error_sum }
    {
        floats::of_bits(self.words[26])
    }

    #[tactic(auto, unfolding(crate::specs::StateWords::state_from, crate::specs::StateWords::signals_in, crate::specs::StateWords::vector_in))]
    pub fn signals(&self) -> Signals
        ensures { result ≡ (state_from self.now.words.now).signals }
    {
        Signals {
            tables_probed_ewma: floats::of_bits(self.words[2]),
            pressure_ewma: floats::of_bits(self.words[3]),
            last_pressure: floats::of_bits(self.words[4]),
            debt_ewma: floats::of_bits(self.words[5]),
            pressure_vector: PressureVector {
                l0: floats::of_bits(self.words[6]),
                deep_debt: floats::of_bits(self.words[7]),
                read: floats::of_bits(self.words[8]),
            },
        }
    }

    #[tactic(auto, unfolding(crate::specs::StateWords::state_from))]
    fn focus(&self) -> FocusState
        ensures { result ≡ (state_from self.now.words.now).focus }
    {
        focus_of(self.words[9], self.words[10] as u32, self.words[11] as u32)
    }

    #[tactic(auto, unfolding(crate::specs::StateWords::state_from))]
    pub fn streaks(&self) -> Streaks
        ensures { result ≡ (state_from self.now.words.now).streaks }
    {
        Streaks {
            enter_read_protect: self.words[12] as u32,
            exit_read_protect: self.words[13] as u32,
            exit_emergency: self.words[14] as u32,
        }
    }

    #[tactic(auto, unfolding(crate::specs::StateWords::state_from, crate::specs::StateWords::times_in))]
    pub fn times(&self) -> Times
        ensures { result ≡ (state_from self.now.words.now).times }
    {
        Times {
            balanced: self.words[15],
            read_protect: self.words[16],
            write_emergency: self.words[17],
            last_transition: self.words[18],
        }
    }

    #[tactic(auto, unfolding(crate::specs::StateWords::state_from))]
    pub fn window(&self) -> Window
        ensures { result ≡ (state_from self.now.words.now).window }
    {
        Window {
            last_probed: self.words[19],
            last_resolved: self.words[20],
        }
    }

    #[tactic(auto, unfolding(crate::specs::StateWords::state_from, crate::specs::StateWords::counters_in))]
    pub fn counters(&self) -> Counters
        ensures { result ≡ (state_from self.now.words.now).counters }
    {
        Counters {
            mode_switches: self.words[21],
            batch_size_sum: self.words[22],
            batch_size_count: self.words[23],
            trivial_moves_performed: self.words[24],
            trivial_move_bytes_avoided: self.words[25],
            predicted_actual_abs_pct_error_sum: floats::of_bits(self.words[26]),
            predicted_actual_samples: self.words[27],
        }
    }

    fn state(&self) -> GovernorState
        ensures { result ≡ state_from self.now.words.now }
    {
        GovernorState {
            mode: self.mode(),
            signals: self.signals(),
            focus: self.focus(),
            streaks: self.streaks(),
            times: self.times(),
            window: self.window(),
            counters: self.counters(),
        }
    }
}

// Words that are no state are read as a fresh governor, so that every caller has one; `keep` and `gate` let nobody see what becomes of it.
pub fn state_in(words: &[u64]) -> GovernorState
    ensures { result ≡ state_in words.now }
{
    match StateWords::of(words) {
        None => state::fresh(0),
        Some(s) => s.state(),
    }
}

// An option's two words: 1 and its number, or 0 and 0.
pub fn option_words(option: Option<u64>) -> [u64; 2]
    ensures { result ≡ option_numbers option }
{
    match option {
        None => [0, 0],
        Some(number) => [1, number],
    }
}

// The level's two words, and the streak.
pub fn focus_words(focus: FocusState) -> [u64; 3]
    ensures { result ≡ focus_words focus }
{
    let level = option_words(focus.current_focus.map(u64::from));
    [level[0], level[1], u64::from(focus.streak)]
}

pub fn to_words(s: GovernorState) -> [u64; STATE_WORDS]
    ensures { result ≡ state_words s }
{
    let mode = s.mode;
    let v = s.signals.pressure_vector;
    let focus = focus_words(s.focus);
    [
        TAG,
        mode.idx(),
        floats::to_bits(s.signals.tables_probed_ewma),
        floats::to_bits(s.signals.pressure_ewma),
        floats::to_bits(s.signals.last_pressure),
        floats::to_bits(s.signals.debt_ewma),
        floats::to_bits(v.l0),
        floats::to_bits(v.deep_debt),
        floats::to_bits(v.read),
        focus[0],
        focus[1],
        focus[2],
        s.streaks.enter_read_protect as u64,
        s.streaks.exit_read_protect as u64,
        s.streaks.exit_emergency as u64,
        s.times.balanced,
        s.times.read_protect,
        s.times.write_emergency,
        s.times.last_transition,
        s.window.last_probed,
        s.window.last_resolved,
        s.counters.mode_switches,
        s.counters.batch_size_sum,
        s.counters.batch_size_count,
        s.counters.trivial_moves_performed,
        s.counters.trivial_move_bytes_avoided,
        floats::to_bits(s.counters.predicted_actual_abs_pct_error_sum),
        s.counters.predicted_actual_samples,
    ]
}

// What a call on a state answers where the words are one, and that they are none otherwise.
pub fn gate(words: &[u64], refusal: u64) -> u64
    ensures { result ≡ gated words.now refusal }
{
    if is_state(words) {
        return refusal;
    }
    NOT_A_STATE
}

// The words of the state that a call answers, unless it is refused or the words were none.
pub fn keep(words: &mut [u64], refusal: u64, state: GovernorState) -> u64
    ensures value { result ≡ refusal_of words.old (record { refusal = refusal; state = state }) }
    ensures words_after { words.new ≡ words_after words.old (record { refusal = refusal; state = state }) }
{
    let told = gate(&*words, refusal);
    if told != refusals::NONE {
        return told;
    }
    let all = to_words(state);
    buffers::put_words(words, 0, &all);
    refusals::NONE
}
