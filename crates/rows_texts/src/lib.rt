// Texts of a question, as bytes.
#![tactic(auto)]

use rows_words::words;
use rows_words::words::{BYTES, WORDS};

// A question's first list.
pub fn text_of<'a>(args: &[u64; WORDS], bytes: &'a [u8]) -> &'a [u8] {
    words::cut(bytes, 0, words::word(args, 0) as usize)
}

pub fn bytes_of(list: &[u64]) -> [u8; BYTES] {
    let mut bytes = [0u8; BYTES];
    words::lay_bytes(&mut bytes, 0, list, BYTES);
    bytes
}

// The text again and again, as far as a buffer goes; zeros where it is empty.
pub fn repeat(text: &[u8], out: &mut [u8]) {
    out.fill(0);
    for (to, b) in out.iter_mut().zip(text.iter().cycle()) {
        *to = *b;
    }
}

// The last line, from behind the line end before it.
pub fn last_line(output: &[u8]) -> &[u8] {
    let before = words::cut(output, 0, output.len().saturating_sub(1));
    match before.iter().rposition(|b| *b == b'\n') {
        Some(place) => words::cut(output, place + 1, output.len()),
        None => output,
    }
}
