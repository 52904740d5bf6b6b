// Text written to a lent buffer from a place on; each writer of numbers answers how many bytes there are. Nothing is refused: a byte that would stand past the buffer's end is lost, so that a run over an empty slice counts.
#![tactic(auto)]

ghost use Rattle.std.specs.Prelude.{◌≡◌, [], ◌∷◌, ◌++◌, ◌+◌, set, take};
ghost use Rattle.std.proofs.lemmas.List.Edits.{sets};
ghost use Rattle.lists.specs.Writes.{Filled};
ghost use Rattle.numerals.specs.Numbers.{spelt};
ghost use Rattle.text_writers.specs.Rows.{behind, row_of};

use buffers::{put, put_words};

// The most numbers in a row; those behind them are left out.
pub const MOST: usize = 1024;

// Byte i of those from a place on. A sum that passes the largest number is past the buffer's end as well.
pub fn put_byte(out: &mut [u8], at: usize, i: usize, byte: u8)
    ensures { out.new ≡ set out.old (at + i) byte }
{
    put(out, at.saturating_add(i), byte);
}

// Bytes as they are.
pub fn put_bytes(out: &mut [u8], at: usize, bytes: &[u8])
    ensures { out.new ≡ sets out.old at bytes.now }
{
    put_words(out, at, bytes);
}

// A number's decimal digits, at most 20. By recursion, since they come from the right and no buffer holds them first.
pub fn put_number(out: &mut [u8], at: usize, n: u64) -> usize
    ensures { Filled out.old at (spelt n) out.new (at + result) }
{
    let mut i: usize = 0;
    if 10 <= n {
        i = put_number(out, at, n / 10);
    }
    put_byte(out, at, i, 48 + (n % 10) as u8);
    i + 1
}

// A number, and the byte behind it.
fn put_ended(out: &mut [u8], at: usize, n: u64, byte: u8) -> usize
    ensures { Filled out.old at (spelt n ++ (byte ∷ [])) out.new (at + result) }
{
    let i = put_number(out, at, n);
    put_byte(out, at, i, byte);
    i + 1
}

// The byte behind a number that so many follow.
fn byte_behind(between: u8, last: u8, left: usize) -> u8
    ensures { result ≡ behind between last left }
{
    if left == 0 { last } else { between }
}

// Numbers with a byte between each two, and another behind the last.
pub fn put_row(out: &mut [u8], at: usize, numbers: &[u64], between: u8, last: u8) -> usize
    ensures { Filled out.old at (row_of between last (take 1024 numbers.now)) out.new (at + result) }
{
    let from = at.min(out.len());
    let row = &numbers[..MOST.min(numbers.len())];
    let mut n: usize = 0;
    for (i, &number) in row.iter().enumerate() {
        let byte = byte_behind(between, last, row.len() - 1 - i);
        n += put_ended(out, from + n, number, byte);
    }
    n
}
