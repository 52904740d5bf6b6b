// Buffers too long for a question: what they hold before a call comes from a seed, and after it they are told by a digest and by the words that differ.
#![tactic(auto)]

ghost use Rattle.std.specs.Prelude.{◌≤◌};

use decision_log::DecisionLog;
use rows_words::words::{Element, SHORT, WORDS, word};

// The most words of a log or of what is read of it, one more than there are.
pub const SEEDED: usize = 57345;

// A question's log.
pub fn log_at(args: &[u64; WORDS]) -> DecisionLog {
    DecisionLog {
        first: word(args, 0),
        count: word(args, 1),
        sequence: word(args, 2),
    }
}

// A length that a question gives.
pub fn length_at(args: &[u64; WORDS], at: usize) -> usize
    ensures { result ≤ 57345 }
{
    (word(args, at) as usize).min(SEEDED)
}

fn odd_after(word: u64, seed: u64) -> u64 {
    word.wrapping_add(seed).wrapping_add(seed)
}

// The i-th word is seed * (2 i + 1).
pub fn seeded(seed: u64) -> [u64; SEEDED] {
    let mut words = [0u64; SEEDED];
    let mut next = seed;
    for word in words.iter_mut() {
        *word = next;
        next = odd_after(next, seed);
    }
    words
}

// The sum of each word or byte times its place from 1 on, by the sums from each place to the end: a product costs more.
pub fn digest<T: Element>(list: &[T]) -> u64 {
    let mut sum: u64 = 0;
    let mut total: u64 = 0;
    for n in list.iter().rev() {
        sum = sum.wrapping_add(n.as_word());
        total = total.wrapping_add(sum);
    }
    total
}

fn put_pair(told: &mut [u64; SHORT], at: usize, n: u64, m: u64) {
    if at < SHORT - 1 {
        told[at] = n;
        told[at + 1] = m;
    }
}

// An answer with, from 4 on, the list of the places and words that differ from the seed's, and the digest.
pub fn changes(mut told: [u64; SHORT], words: &[u64], seed: u64) -> [u64; SHORT] {
    let mut to: usize = 5;
    let mut next = seed;
    for (i, word) in words.iter().enumerate() {
        if *word != next {
            put_pair(&mut told, to, i as u64, *word);
            to = to.wrapping_add(2);
        }
        next = odd_after(next, seed);
    }
    told[4] = (to as u64).wrapping_sub(5);
    put_pair(&mut told, to, digest(words), 0);
    told
}
