// Words and bytes by their place. A list is its count and then its elements; what lies past the end reads 0 or nothing, and what has no room is lost.
ghost use Rattle.std.specs.Prelude.{◌≤◌};

use crate::shape::Kind;

// The most words of a question, and of an answer.
pub const WORDS: usize = 131072;

// The words of an answer that is handed back by value.
pub const SHORT: usize = 40;

// The most bytes of a question's byte lists.
pub const BYTES: usize = 131073;

// What is told as a word.
pub trait Element: Copy {
    fn as_word(self) -> u64;
}

impl Element for u8 {
    fn as_word(self) -> u64 {
        u64::from(self)
    }
}

impl Element for u64 {
    fn as_word(self) -> u64 {
        self
    }
}

impl Element for usize {
    fn as_word(self) -> u64 {
        self as u64
    }
}

// The word or byte at a place.
pub fn word<T: Element>(list: &[T], at: usize) -> u64 {
    match list.get(at) {
        Some(n) => n.as_word(),
        None => 0,
    }
}

// The place after the part at a place.
pub fn behind(words: &[u64; WORDS], at: usize, kind: Kind) -> usize
    ensures { result ≤ 262143 }
{
    match words.get(at) {
        None => WORDS,
        Some(count) => match kind {
            Kind::Number => at + 1,
            Kind::List => at + 1 + (*count % 131072) as usize,
        },
    }
}

pub fn after_list(words: &[u64; WORDS], at: usize) -> usize
    ensures { result ≤ 262143 }
{
    behind(words, at, Kind::List)
}

// What stands from a place up to another, as far as it goes.
pub fn cut<T>(list: &[T], from: usize, end: usize) -> &[T] {
    let last = end.min(list.len());
    &list[from.min(last)..last]
}

// The same, to write to.
pub fn room<T>(list: &mut [T], from: usize, end: usize) -> &mut [T] {
    let last = end.min(list.len());
    &mut list[from.min(last)..last]
}

// The elements of the list at a place.
pub fn part(words: &[u64; WORDS], at: usize) -> &[u64] {
    cut(words, at.saturating_add(1), after_list(words, at))
}

pub fn put(words: &mut [u64; WORDS], at: usize, n: u64) {
    if let Some(word) = words.get_mut(at) {
        *word = n;
    }
}

// Elements go to the words from a place on, and the place after them is answered.
pub fn put_all<T: Element>(words: &mut [u64; WORDS], at: usize, list: &[T]) -> usize {
    let end = at.saturating_add(list.len()).min(WORDS);
    for (to, n) in room(words, at, end).iter_mut().zip(list) {
        *to = n.as_word();
    }
    end
}

// A list goes to a place, and the place after it is answered.
pub fn put_list<T: Element>(words: &mut [u64; WORDS], at: usize, list: &[T]) -> usize {
    put(words, at, list.len() as u64);
    put_all(words, at.saturating_add(1), list)
}

// A list as bytes from a place up to an end: where they end, if they have room.
pub fn lay_bytes(bytes: &mut [u8; BYTES], at: usize, list: &[u64], end: usize) -> Option<usize> {
    let last = at.saturating_add(list.len()).min(BYTES);
    if end < last {
        return None;
    }
    for (to, n) in room(bytes, at, last).iter_mut().zip(list) {
        *to = (*n % 256) as u8;
    }
    Some(last)
}

// An answer of numbers and then a list, which stays unread where only numbers are told.
pub fn told(numbers: &[u64], list: &[u64]) -> [u64; SHORT] {
    let mut words = [0u64; SHORT];
    let count = [list.len() as u64];
    for (to, n) in words
        .iter_mut()
        .zip(numbers.iter().chain(&count).chain(list))
    {
        *to = *n;
    }
    words
}
