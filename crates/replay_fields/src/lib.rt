// One line: its six fields, as an observation or none. Nothing is refused.
#![tactic(auto)]

ghost use Rattle.std.specs.Prelude.{◌≡◌};
ghost use Rattle.replay_text.specs.Lines.{fields_of};
ghost use Rattle.replay_text.specs.Lines.Left.{fields_left};
ghost use Rattle.replay_fields.specs.Fields.{observation, line_of};
ghost use Rattle.replay_fields.specs.Fields.Reading.{SixRead};

use numerals::{bits, decimal};
use pressure::PressureSample;
use replay_text::fields::Fields;

// What a line says: the clock, and what is observed at it.
#[derive(Clone, Copy)]
pub struct Observation {
    pub now: u64,
    pub sample: PressureSample,
}

// An observation, if every field is a number of its kind.
#[tactic(auto, unfolding(crate::specs::Fields::observation))]
fn observed(
    clock: Option<u64>,
    l0: Option<u64>,
    trigger: Option<u64>,
    ratio: Option<u64>,
    probes: Option<u64>,
    backlog: Option<u64>,
) -> Option<Observation>
    ensures { result ≡ observation clock l0 trigger ratio probes backlog }
{
    Some(Observation {
        now: clock?,
        sample: PressureSample {
            l0_count: l0?,
            l0_write_stall_trigger: trigger?,
            max_level_debt_ratio: arith::floats::of_bits(ratio?),
            tables_probed_per_get: arith::floats::of_bits(probes?),
            backlog_levels: backlog?,
        },
    })
}

// The next six fields.
fn six_of(fields: &mut Fields) -> Option<Observation>
    ensures { SixRead (fields_left fields.old) (fields_left fields.new) result }
{
    let clock = fields.next().and_then(decimal);
    let l0 = fields.next().and_then(decimal);
    let trigger = fields.next().and_then(decimal);
    let ratio = fields.next().and_then(bits);
    let probes = fields.next().and_then(bits);
    let backlog = fields.next().and_then(decimal);
    observed(clock, l0, trigger, ratio, probes, backlog)
}

// Exactly six fields, parted by commas.
pub fn line_of(line: &[u8]) -> Option<Observation>
    ensures { result ≡ line_of (fields_of line.now) }
{
    let mut fields = Fields::of(line);
    let observation = six_of(&mut fields);
    if fields.next().is_some() {
        return None;
    }
    observation
}
