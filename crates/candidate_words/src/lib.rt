// The candidates for the next merge as words, written to two lent buffers: L0's, then each over-budget level's in order. Nothing is refused: what is past the limits offers nothing, and a word that would stand past a buffer's end is lost, so that a run over empty slices counts.
#![tactic(auto)]

ghost use Rattle.l0_words.specs.Written.{Written, start};
ghost use Rattle.candidate_words.specs.Candidates.{lent_offers};

use l0_words::Ends;
use records::tables;

mod batches;
mod heads;
mod level;
mod moves;

pub fn put_candidates(
    tables: &[u64],
    keys: &[u8],
    trigger: u64,
    over: &[u64],
    candidates: &mut [u64],
    numbers: &mut [u64],
) -> Ends
    ensures { Written start (lent_offers tables.now keys.now trigger over.now) candidates.old candidates.new numbers.old numbers.new result }
{
    if faults::tables::past_limits(tables, over) {
        return Ends {
            words: 0,
            numbers: 0,
        };
    }
    let mut end = l0_words::put_l0(tables, keys, trigger, &mut *candidates, &mut *numbers);
    for i in 0..tables::entry_count(over) {
        let e = tables::entry_at(over, i);
        end = level::put_level(tables, keys, e.level, &mut *candidates, &mut *numbers, end);
    }
    end
}
