// The calls that write places. A call is its number in the list of calls: rows_calls says why it is no enum.
use rows_words::words;
use rows_words::words::WORDS;

// The most places.
const LENT: usize = 65536;

fn places_of(list: &[u64]) -> [usize; LENT] {
    let mut places = [0usize; LENT];
    for (place, n) in places.iter_mut().zip(list) {
        *place = *n as usize;
    }
    places
}

// Where the call's first number stands.
fn number_place(call: u64, args: &[u64; WORDS]) -> usize {
    let second = words::after_list(args, 0);
    if call == 27 {
        return words::after_list(args, second);
    }
    second
}

// The list that the call writes to.
fn list_of(call: u64, args: &[u64; WORDS], at: usize) -> &[u64] {
    if call == 28 {
        return words::part(args, 0);
    }
    words::part(args, at.wrapping_add(1))
}

// The call, whose first number stands at a place, on the places; what it tells.
fn ordered(call: u64, args: &[u64; WORDS], bytes: &[u8], at: usize, places: &mut [usize]) -> usize {
    let tables = words::part(args, 0);
    let n = words::word(args, at);
    match call {
        26 => levels::level_places(tables, n, places),
        27 => {
            let end = rows_keys::end_of(args, words::after_list(args, 0), 0);
            levels::sort_level(tables, words::cut(bytes, 0, end), n, places)
        }
        _ => {
            let place = words::word(args, at.wrapping_add(1)) as usize;
            let value = words::word(args, at.wrapping_add(2)) as usize;
            places::insert_at(places, n as usize, place, value);
            0
        }
    }
}

// The call's list comes back whole, behind a number but for `insert_at`.
pub fn put_answer(call: u64, args: &[u64; WORDS], bytes: &[u8], out: &mut [u64; WORDS]) {
    let at = number_place(call, args);
    let list = list_of(call, args, at);
    let mut room = places_of(list);
    let places = words::room(&mut room, 0, list.len());
    out[0] = ordered(call, args, bytes, at, places) as u64;
    words::put_list(out, usize::from(call < 28), places);
}
