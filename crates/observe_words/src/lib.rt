// One observation on a governor's words, which reads and writes only the words that it is about: the same as on the state in them. Refusals are numbers here, as C is told them.
#![tactic(auto)]

ghost use Rattle.std.specs.Prelude.{◌≡◌, true, false, cond, ◌&&◌, ◌+◌, ◌-◌, ◌^◌, ◌<◌};
ghost use Rattle.refusals.specs.Codes.{code};
ghost use Rattle.kinds.specs.Tuning.{source};
ghost use Rattle.state.specs.State.{full};
ghost use Rattle.sound.specs.Sound.{differ};
ghost use Rattle.pressure.specs.Pressure.{signals_of};
ghost use Rattle.pressure.specs.Sample.{fraction_of};
ghost use Rattle.governor.specs.Observe.{next_of, observe_fault, observed_of};
ghost use Rattle.state_words.specs.StateWords.{state_from, state_in, refusal_of, words_after};
ghost use Rattle.observe_words.specs.ObserveWords.{full_at, signal_words, time_words};

use arith::floats;
use kinds::mode::GovernorMode;
use kinds::vector::PressureVector;
use modes::NextMode;
use pressure::PressureSample;
use refusals::Refusal;
use state::clock::{time_full, times_after};
use state::{Signals, Streaks, Times};
use state_words::StateWords;

pub mod windowed;

// The new signals: of the old ones only the three averages count.
fn signals_after(s: &StateWords, p: PressureSample, fraction: f64) -> Signals
    requires { fraction ≡ fraction_of p }
    ensures { result ≡ signals_of source (state_from s.now.words.now).signals p }
{
    let averages = Signals {
        tables_probed_ewma: s.tables_probed_ewma(),
        pressure_ewma: s.pressure_ewma(),
        last_pressure: 0.0,
        debt_ewma: s.debt_ewma(),
        pressure_vector: PressureVector {
            l0: 0.0,
            deep_debt: 0.0,
            read: 0.0,
        },
    };
    let probed = pressure::smoothed(averages.tables_probed_ewma, p.tables_probed_per_get);
    pressure::blended(
        averages,
        probed,
        pressure::components_of(p, fraction, probed),
    )
}

// The mode and the streaks after the observation.
fn next(s: &StateWords, p: PressureSample, fraction: f64) -> NextMode
    requires { fraction ≡ fraction_of p }
    ensures { result ≡ next_of source (state_from s.now.words.now) p }
{
    let probed = pressure::smoothed(s.tables_probed_ewma(), p.tables_probed_per_get);
    modes::next_mode(
        s.mode(),
        s.streaks(),
        fraction,
        p.max_level_debt_ratio,
        probed,
    )
}

// One more switch would pass the largest u64.
#[tactic(auto, using(state::specs::Room::full_is))]
fn switches_full(switches: u64, switched: bool) -> bool
    ensures { result ≡ switched && full switches }
{
    switched & (switches == u64::MAX)
}

#[tactic(auto, unfolding(crate::specs::ObserveWords::full_at))]
fn counters_full(s: &StateWords, clock: u64, is: GovernorMode) -> bool
    ensures { result ≡ full_at (state_from s.now.words.now) clock is }
{
    let was = s.mode();
    switches_full(s.mode_switches(), was != is) | time_full(was, s.times(), clock)
}

// The mode after the observation is given.
#[tactic(auto, unfolding(governor::specs::Observe::observe_fault, governor::specs::Observe::counters_full, crate::specs::ObserveWords::full_at))]
fn observe_fault(
    s: &StateWords,
    clock: u64,
    p: PressureSample,
    is: GovernorMode,
) -> Result<(), Refusal>
    requires { is ≡ (next_of source (state_from s.now.words.now) p).mode }
    ensures { code result ≡ observe_fault source (state_from s.now.words.now) clock p }
{
    if !sound::is_sound(s.mode(), s.streaks()) {
        return Err(Refusal::BadState);
    }
    if counts::any_large(p.l0_count, p.l0_write_stall_trigger, p.backlog_levels) {
        return Err(Refusal::TooLarge);
    }
    if counters_full(s, clock, is) {
        return Err(Refusal::CounterFull);
    }
    Ok(())
}

// Words 1 to 8.
#[tactic(auto, unfolding(crate::specs::ObserveWords::signal_words))]
fn signal_words(mode: GovernorMode, g: Signals) -> [u64; 8]
    ensures { result ≡ signal_words mode g }
{
    [
        mode.idx(),
        floats::to_bits(g.tables_probed_ewma),
        floats::to_bits(g.pressure_ewma),
        floats::to_bits(g.last_pressure),
        floats::to_bits(g.debt_ewma),
        floats::to_bits(g.pressure_vector.l0),
        floats::to_bits(g.pressure_vector.deep_debt),
        floats::to_bits(g.pressure_vector.read),
    ]
}

// Words 12 to 18.
#[tactic(auto, unfolding(crate::specs::ObserveWords::time_words))]
fn time_words(k: Streaks, t: Times) -> [u64; 7]
    ensures { result ≡ time_words k t }
{
    [
        k.enter_read_protect as u64,
        k.exit_read_protect as u64,
        k.exit_emergency as u64,
        t.balanced,
        t.read_protect,
        t.write_emergency,
        t.last_transition,
    ]
}

// The number of switches, the mode after the observation given.
fn switches_after(s: &StateWords, is: GovernorMode) -> u64
    requires { differ (state_from s.now.words.now).mode is ≡ true → (state_from s.now.words.now).counters.mode_switches < 2 ^ 64 - 1 }
    ensures { result ≡ cond (differ (state_from s.now.words.now).mode is) ((state_from s.now.words.now).counters.mode_switches + 1) (state_from s.now.words.now).counters.mode_switches }
{
    let switches = s.mode_switches();
    if s.mode() != is {
        return switches + 1;
    }
    switches
}

pub fn observe(words: &mut [u64], clock: u64, p: PressureSample) -> u64
    ensures value { result ≡ refusal_of words.old (observed_of source (state_in words.old) clock p) }
    ensures words_after { words.new ≡ words_after words.old (observed_of source (state_in words.old) clock p) }
{
    let Some(s) = StateWords::of(&*words) else {
        return state_words::NOT_A_STATE;
    };
    let fraction = pressure::l0_fraction(p);
    let t = next(&s, p, fraction);
    let is = t.mode;
    if let Err(refusal) = observe_fault(&s, clock, p, is) {
        return u64::from(refusal);
    }
    let signals = signal_words(is, signals_after(&s, p, fraction));
    let times = time_words(t.streaks, times_after(s.mode(), s.times(), clock));
    let switches = switches_after(&s, is);
    let errors = floats::to_bits(s.error_sum());
    buffers::put_words(&mut *words, 1, &signals);
    buffers::put_words(&mut *words, 12, &times);
    buffers::put(&mut *words, 21, switches);
    buffers::put(words, 26, errors);
    refusals::NONE
}
