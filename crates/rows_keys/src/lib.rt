// The calls of keys, with `first_key`, `last_key`, `broken_keys` and `overlaps_at`. The byte lists of a question stand one behind the other. A call is its number in the list of calls: rows_calls says why it is no enum.
#![tactic(auto)]

ghost use Rattle.std.specs.Prelude.{◌≤◌};

use records::tables;
use records::tables::Table;
use rows_words::words;
use rows_words::words::WORDS;
use std::cmp::Ordering;

// The end of the bytes of the list at a place, which begin at another.
pub fn end_of(args: &[u64; WORDS], place: usize, from: usize) -> usize {
    from.wrapping_add(words::word(args, place) as usize)
}

fn overlap(args: &[u64; WORDS], second: usize, bytes: &[u8]) -> bool
    requires { second ≤ 262143 }
{
    let place = words::after_list(args, second);
    let low = end_of(args, second, 0);
    let high = end_of(args, place + 1, low);
    let end = end_of(args, words::after_list(args, place + 1), high);
    overlaps::overlaps_at(
        words::part(args, 0),
        words::cut(bytes, 0, low),
        words::word(args, place) as usize,
        words::cut(bytes, low, high),
        words::cut(bytes, high, end),
    )
}

// By the C interface's numbers: the rooms below it have the order itself.
fn order_of(a: &[u8], b: &[u8]) -> u64 {
    match keys::compare(a, b) {
        Ordering::Less => 0,
        Ordering::Equal => 1,
        Ordering::Greater => 2,
    }
}

// The number of a call that answers one.
pub fn number_of(call: u64, args: &[u64; WORDS], bytes: &[u8]) -> u64 {
    let second = words::after_list(args, 0);
    if call == 16 {
        let keys = words::cut(bytes, 0, end_of(args, second, 0));
        return faults::tables::broken_keys(words::part(args, 0), keys) as u64;
    }
    if call == 17 {
        return overlap(args, second, bytes) as u64;
    }
    let middle = end_of(args, 0, 0);
    let end = end_of(args, second, middle);
    order_of(words::cut(bytes, 0, middle), words::cut(bytes, middle, end))
}

fn table(args: &[u64; WORDS], at: usize) -> Table
    requires { at ≤ 262143 }
{
    Table {
        number: words::word(args, at),
        level: words::word(args, at + 1),
        size: words::word(args, at + 2),
        first_start: words::word(args, at + 3),
        first_len: words::word(args, at + 4),
        last_start: words::word(args, at + 5),
        last_len: words::word(args, at + 6),
    }
}

// The key of a call that answers one.
pub fn key_of<'a>(call: u64, args: &[u64; WORDS], bytes: &'a [u8]) -> &'a [u8] {
    let at = words::after_list(args, 0);
    let middle = end_of(args, 0, 0);
    let first = words::cut(bytes, 0, middle);
    let second = words::cut(bytes, middle, end_of(args, at, middle));
    match call {
        19 => keys::lesser(first, second),
        20 => keys::greater(first, second),
        21 => keys::part(first, words::word(args, at), words::word(args, at + 1)),
        22 => tables::first_key(first, table(args, at)),
        _ => tables::last_key(first, table(args, at)),
    }
}
