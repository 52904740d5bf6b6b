// L0's candidate, written to the front of two lent buffers: all of L0 and what it overlaps in level 1, if there is any and it reaches the trigger. Nothing is refused: of too many tables nothing is written, and a word that would stand past a buffer's end is lost.
#![tactic(auto)]

ghost use Rattle.std.specs.Prelude.{◌≡◌, ◌&&◌, leb, ltb};
ghost use Rattle.l0_words.specs.L0.{lent_l0};
ghost use Rattle.l0_words.specs.Written.{Written, start};

use faults::limits::MAX_TABLES;

// Where the next word goes in each of the two.
#[derive(Clone, Copy)]
pub struct Ends {
    pub words: usize,
    pub numbers: usize,
}

// There is some L0, and it reaches the trigger.
fn due(count: usize, trigger: u64) -> bool
    ensures { result ≡ ltb 0 count && leb trigger count }
{
    0 < count && trigger <= count as u64
}

pub fn put_l0(
    tables: &[u64],
    keys: &[u8],
    trigger: u64,
    candidates: &mut [u64],
    numbers: &mut [u64],
) -> Ends
    ensures { Written start (lent_l0 tables.now keys.now trigger) candidates.old candidates.new numbers.old numbers.new result }
{
    let start = Ends {
        words: 0,
        numbers: 0,
    };
    if faults::tables::too_many_tables(tables) {
        return start;
    }
    let mut places = [0usize; MAX_TABLES];
    let count = levels::level_places(tables, 0, &mut places);
    if !due(count, trigger) {
        return start;
    }
    let mut next = [0usize; MAX_TABLES];
    let below = levels::level_places(tables, 1, &mut next);
    let n = writers::put_many(tables, keys, &places[..count], &next[..below], numbers, 0);
    let words = [1, 0, 0, 1, 0, n as u64];
    buffers::put_words(candidates, 0, &words);
    Ends {
        words: 6,
        numbers: n,
    }
}
