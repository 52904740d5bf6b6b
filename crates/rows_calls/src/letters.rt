// What a letter of an argument stands for: a small one for a number, a capital for a list.
use rows_words::shape::{Kind, Shape};
use rows_words::words;
use rows_words::words::{BYTES, WORDS};

// A number of a letter: a flag, a mode, a kind, a tier, a byte, 32 bits, a log's words, a run's decisions, the bytes of a text, of a table or of a log's text, or any.
fn is_number(letter: u8, n: u64) -> bool {
    match letter {
        b'f' => n <= 1,
        b'm' => n <= 2,
        b'k' => 1 <= n && n <= 3,
        b's' => n <= 3,
        b'b' => n <= 255,
        b'u' => n <= 0xffff_ffff,
        b'c' => n <= 57345,
        b'r' => n <= 1000000,
        b't' => n <= 65537,
        b'g' => n <= 469441,
        b'q' => n <= 1110017,
        _ => true,
    }
}

// Each number of the list is as its letter says, from the last letter on as that one.
fn are_numbers(letters: &[u8], list: &[u64]) -> bool {
    let last = letters.len().saturating_sub(1);
    list.iter().enumerate().all(|(i, n)| letters
        .get(i.min(last))
        .is_some_and(|letter| is_number(*letter, *n)))
}

// A list of a letter: one to write to, a state, a decision, bytes, or any words.
fn is_list(letter: u8, list: &[u64]) -> bool {
    match letter {
        b'O' => list.len() <= 65536,
        b'S' => list.len() == 27 && are_numbers(b"mnnnnnnnfuuuuun", list),
        b'D' => decisions::is_decision(list),
        b'B' | b'T' | b'R' => are_numbers(b"b", list),
        _ => true,
    }
}

// The most that a list of bytes from a place on may end at: for the byte lists of a question all together, for a replay's text, and for the room that it is lent, which counts from its own start. Other lists have none.
fn limit(letter: u8, at: usize) -> Option<usize> {
    match letter {
        b'B' => Some(65536),
        b'T' => Some(65537),
        b'R' => Some(at.saturating_add(65536)),
        _ => None,
    }
}

// Where the bytes end after a list of a letter, if it is one.
fn laid(letter: u8, list: &[u64], bytes: &mut [u8; BYTES], at: usize) -> Option<usize> {
    if !is_list(letter, list) {
        return None;
    }
    match limit(letter, at) {
        Some(end) => words::lay_bytes(bytes, at, list, end),
        None => Some(at),
    }
}

// The same after the argument at a place.
fn argument(
    letter: u8,
    args: &[u64; WORDS],
    place: usize,
    bytes: &mut [u8; BYTES],
    at: usize,
) -> Option<usize> {
    match kind_of(letter) {
        Kind::List => laid(letter, words::part(args, place), bytes, at),
        Kind::Number => is_number(letter, words::word(args, place)).then_some(at),
    }
}

// The arguments, of the right shape, are as the letters say; the lists of bytes then stand one behind the other.
pub(crate) fn fits(letters: &[u8], args: &[u64; WORDS], bytes: &mut [u8; BYTES]) -> bool {
    let mut place = 0;
    let mut at = 0;
    for letter in letters {
        match argument(*letter, args, place, bytes, at) {
            Some(end) => at = end,
            None => return false,
        }
        place = words::behind(args, place, kind_of(*letter));
    }
    true
}

// A capital is a list, a small letter a number.
fn kind_of(letter: u8) -> Kind {
    if letter.is_ascii_uppercase() {
        return Kind::List;
    }
    Kind::Number
}

// The shape that letters stand for.
pub(crate) fn shape_of(letters: &[u8]) -> Option<Shape> {
    let mut shape = Shape::new();
    for letter in letters {
        shape = shape.with(kind_of(*letter))?;
    }
    Some(shape)
}
