// What a line does to the governor.
ghost use Rattle.std.specs.Prelude.{◌≡◌};
ghost use Rattle.refusals.specs.Codes.{code};
ghost use Rattle.replay_lines.specs.Replay.{observe_line};

use refusals::Refusal;
use replay_fields::Observation;
use state::GovernorState;

// A line that is no observation counts as refusal 5, and leaves the state as it was.
pub(crate) fn observe_line(s: &mut GovernorState, line: Option<Observation>) -> Result<(), Refusal>
    ensures refusal { code result ≡ (observe_line s.old line).refusal }
    ensures state { s.new ≡ (observe_line s.old line).state }
{
    match line {
        Some(seen) => governor::observe(s, seen.now, seen.sample),
        None => Err(Refusal::BadRecord),
    }
}
