// The range of some tables: the smallest of their first keys and the largest of their last keys, each as that part of the key bytes. Nothing is refused: of no table it is the empty part.
#![tactic(auto)]

ghost use Rattle.std.specs.Prelude.{◌≡◌};
ghost use Rattle.records.specs.Tables.{tables_of};
ghost use Rattle.ranges.specs.Ranges.{low_of, high_of};
ghost use Rattle.offers.specs.Offers.{held_in};

use keys::{greater, lesser, part};
use offers::batches::Batch;
use records::tables;

pub fn batch_low<'a>(tables: &[u64], keys: &'a [u8], b: Batch) -> &'a [u8]
    ensures { result.now ≡ low_of keys.now (tables_of tables.now) (held_in b) }
{
    low(tables, keys, b.held())
}

pub fn batch_high<'a>(tables: &[u64], keys: &'a [u8], b: Batch) -> &'a [u8]
    ensures { result.now ≡ high_of keys.now (tables_of tables.now) (held_in b) }
{
    high(tables, keys, b.held())
}

// By halves, so that 1,024 places are ten calls deep; recursion, since a call's result can't be laid in a local that holds a reference.
pub fn low<'a>(tables: &[u64], keys: &'a [u8], places: &[usize]) -> &'a [u8]
    ensures { result.now ≡ low_of keys.now (tables_of tables.now) places.now }
{
    if places.len() == 0 {
        return part(keys, 0, 0);
    }
    if places.len() == 1 {
        return tables::first_key(keys, tables::table_at(tables, places[0]));
    }
    let half = places.len() / 2;
    lesser(
        low(tables, keys, &places[..half]),
        low(tables, keys, &places[half..]),
    )
}

// `low`'s twin: one function of both would take the key and the lesser or greater as closures, with a `requires` for what each answers, and hand them on at each half.
pub fn high<'a>(tables: &[u64], keys: &'a [u8], places: &[usize]) -> &'a [u8]
    ensures { result.now ≡ high_of keys.now (tables_of tables.now) places.now }
{
    if places.len() == 0 {
        return part(keys, 0, 0);
    }
    if places.len() == 1 {
        return tables::last_key(keys, tables::table_at(tables, places[0]));
    }
    let half = places.len() / 2;
    greater(
        high(tables, keys, &places[..half]),
        high(tables, keys, &places[half..]),
    )
}
