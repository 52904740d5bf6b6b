// The observation of the running engine on a governor's words: `observe` over a window of its read counters, whose sums are kept. Refusals are numbers here, as C is told them.
ghost use Rattle.std.specs.Prelude.{◌≡◌, ◌-◌, ◌^◌, ◌≤◌};
ghost use Rattle.refusals.specs.Codes.{code};
ghost use Rattle.kinds.specs.Tuning.{source};
ghost use Rattle.windows.specs.Windows.{probed_sum, window_fault};
ghost use Rattle.engine.specs.Engine.{sample_of, engine_of};
ghost use Rattle.state_words.specs.StateWords.{state_from, state_in, refusal_of, words_after};

use crate::observe;
use pressure::PressureSample;
use refusals::Refusal;
use state_words::StateWords;
use windows::{EngineSample, ReadAmpStats};

fn window_fault(s: &StateWords, e: EngineSample, a: ReadAmpStats) -> Result<(), Refusal>
    ensures { code result ≡ window_fault source (state_from s.now.words.now).mode (state_from s.now.words.now).streaks (state_from s.now.words.now).window e a }
{
    windows::window_fault(s.mode(), s.streaks(), s.window(), e, a)
}

// What the counters say since the last observation.
fn sample(s: &StateWords, e: EngineSample, a: ReadAmpStats) -> PressureSample
    ensures { probed_sum a ≤ 2 ^ 64 - 1 → result ≡ sample_of (state_from s.now.words.now) e a }
{
    let probed = engine::probed_per_get(s.window(), s.tables_probed_ewma(), a);
    engine::sample(e, probed)
}

pub fn observe_engine(words: &mut [u64], clock: u64, e: EngineSample, a: ReadAmpStats) -> u64
    ensures value { result ≡ refusal_of words.old (engine_of source (state_in words.old) clock e a) }
    ensures words_after { words.new ≡ words_after words.old (engine_of source (state_in words.old) clock e a) }
{
    let Some(s) = StateWords::of(&*words) else {
        return state_words::NOT_A_STATE;
    };
    if let Err(refusal) = window_fault(&s, e, a) {
        return u64::from(refusal);
    }
    let p = sample(&s, e, a);
    let refusal = observe(&mut *words, clock, p);
    if refusal != refusals::NONE {
        return refusal;
    }
    let w = engine::window_now(a);
    let sums = [w.last_probed, w.last_resolved];
    buffers::put_words(words, 19, &sums);
    refusals::NONE
}
