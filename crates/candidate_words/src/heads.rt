// A candidate's six words. A word that would stand past the buffer's end is lost.
ghost use Rattle.std.specs.Prelude.{◌+◌, ◌≤◌, ◌<◌, ◌^◌};
ghost use Rattle.l0_words.specs.Written.{Headed};

use l0_words::Ends;

// The candidate whose `count` numbers stand from `at` on.
pub(crate) fn put_candidate(
    out: &mut [u64],
    at: Ends,
    kind: u64,
    level: u64,
    batch_len: u64,
    count: usize,
) -> Ends
    requires level_bound { level < 2 ^ 32 }
    requires words_bound { (at.words + 6 ≤ 2 ^ 32) × (at.numbers + count ≤ 2 ^ 32) }
    ensures { Headed at kind level batch_len count out.old out.new result }
{
    let words = [
        kind,
        level,
        batch_len,
        level + 1,
        at.numbers as u64,
        count as u64,
    ];
    buffers::put_words(out, at.words, &words);
    Ends {
        words: at.words + 6,
        numbers: at.numbers + count,
    }
}
