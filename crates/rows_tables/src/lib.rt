// The calls of records, faults and levels.
#![tactic(auto)]

pub mod placed;

use records::tables;
use rows_words::words;
use rows_words::words::{SHORT, WORDS};

// A call is its number in the list of calls: rows_calls says why it is no enum.
pub fn count_of(call: u64, list: &[u64]) -> u64 {
    match call {
        9 => tables::table_count(list) as u64,
        10 => tables::entry_count(list) as u64,
        11 => faults::tables::too_many_tables(list) as u64,
        12 => faults::tables::broken_tables(list) as u64,
        13 => faults::tables::too_many_entries(list) as u64,
        14 => faults::tables::broken_entries(list) as u64,
        _ => faults::tables::levels_out(list) as u64,
    }
}

// The words of the record at a place.
pub fn record(call: u64, args: &[u64; WORDS]) -> [u64; SHORT] {
    let list = words::part(args, 0);
    let place = words::word(args, words::after_list(args, 0)) as usize;
    if call == 25 {
        let e = tables::entry_at(list, place);
        return words::told(&[e.level, e.budget], &[]);
    }
    let t = tables::table_at(list, place);
    words::told(
        &[
            t.number,
            t.level,
            t.size,
            t.first_start,
            t.first_len,
            t.last_start,
            t.last_len,
        ],
        &[],
    )
}
