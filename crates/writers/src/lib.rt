// The numbers of a candidate's tables, written to a lent buffer from a place on; each writer answers how many there are. Nothing is refused: a word that would stand past the buffer's end is lost, so that a run over an empty slice counts.
#![tactic(auto)]

ghost use Rattle.std.specs.Prelude.{◌≡◌, ◌+◌, ◌<◌, ◌^◌, length};
ghost use Rattle.records.specs.Tables.{tables_of};
ghost use Rattle.overlaps.specs.Overlaps.{overlapping_of};
ghost use Rattle.lists.specs.Writes.{Filled};
ghost use Rattle.offers.specs.Offers.{held_in};
ghost use Rattle.writers.specs.Writers.{numbers_of, merged_in, merged_of};

use offers::batches::Batch;
use records::tables::number_at;

fn put_numbers(tables: &[u64], places: &[usize], out: &mut [u64], at: usize) -> usize
    ensures { Filled out.old at (numbers_of (tables_of tables.now) places.now) out.new (at + result) }
{
    let from = at.min(out.len());
    for (i, &place) in places.iter().enumerate() {
        buffers::put(&mut *out, from + i, number_at(tables, place));
    }
    places.len()
}

// A batch's tables, and no others.
pub fn put_held(tables: &[u64], b: Batch, out: &mut [u64], at: usize) -> usize
    ensures { Filled out.old at (numbers_of (tables_of tables.now) (held_in b)) out.new (at + result) }
{
    put_numbers(tables, b.held(), out, at)
}

// A batch's tables, then those of the next level that overlap their range.
pub fn put_batch(
    tables: &[u64],
    keys: &[u8],
    b: Batch,
    next: &[usize],
    out: &mut [u64],
    at: usize,
) -> usize
    ensures { Filled out.old at (merged_of keys.now (tables_of tables.now) next.now (held_in b)) out.new (at + result) }
{
    let lo = ranges::batch_low(tables, keys, b);
    let hi = ranges::batch_high(tables, keys, b);
    put_merged(tables, keys, lo, hi, b.held(), next, out, at)
}

// The same of any number of tables. Where there is no next level, the range is of no use.
pub fn put_many(
    tables: &[u64],
    keys: &[u8],
    places: &[usize],
    next: &[usize],
    out: &mut [u64],
    at: usize,
) -> usize
    ensures { Filled out.old at (merged_of keys.now (tables_of tables.now) next.now places.now) out.new (at + result) }
{
    if next.len() == 0 {
        return put_numbers(tables, places, out, at);
    }
    let lo = ranges::low(tables, keys, places);
    let hi = ranges::high(tables, keys, places);
    put_merged(tables, keys, lo, hi, places, next, out, at)
}

fn put_merged(
    tables: &[u64],
    keys: &[u8],
    lo: &[u8],
    hi: &[u8],
    places: &[usize],
    next: &[usize],
    out: &mut [u64],
    at: usize,
) -> usize
    ensures { Filled out.old at (merged_in keys.now (tables_of tables.now) lo.now hi.now next.now places.now) out.new (at + result) }
{
    let from = at.min(out.len());
    let own = put_numbers(tables, places, &mut *out, from);
    own + put_overlapping(tables, keys, lo, hi, next, out, from + own)
}

// The numbers of those of the next level's tables that meet the range.
fn put_overlapping(
    tables: &[u64],
    keys: &[u8],
    lo: &[u8],
    hi: &[u8],
    next: &[usize],
    out: &mut [u64],
    at: usize,
) -> usize
    requires { at + length next.now < 2 ^ 64 }
    ensures { Filled out.old at (numbers_of (tables_of tables.now) (overlapping_of keys.now (tables_of tables.now) lo.now hi.now next.now)) out.new (at + result) }
{
    let mut n: usize = 0;
    for &place in next {
        if overlaps::overlaps_at(tables, keys, place, lo, hi) {
            buffers::put(&mut *out, at + n, number_at(tables, place));
            n += 1;
        }
    }
    n
}
