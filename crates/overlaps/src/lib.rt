// Whether a table's keys meet a range of keys. Nothing is refused: past the last place stands a table of zeros.
#![tactic(auto)]

ghost use Rattle.std.specs.Prelude.{◌≡◌};
ghost use Rattle.keys.specs.Keys.{key_le};
ghost use Rattle.records.specs.Tables.{tables_of, table_at};
ghost use Rattle.overlaps.specs.Overlaps.{overlaps};

use records::tables;

#[tactic(auto, using(keys::specs::KeyOrder::at_least_is), unfolding(keys::specs::Keys::key_le))]
fn at_most(a: &[u8], b: &[u8]) -> bool
    ensures { result ≡ key_le a.now b.now }
{
    keys::compare(b, a).is_ge()
}

// The table's keys meet the range from lo to hi, both ends counted.
#[inline(always)]
pub fn overlaps_at(tables: &[u64], keys: &[u8], place: usize, lo: &[u8], hi: &[u8]) -> bool
    ensures { result ≡ overlaps keys.now lo.now hi.now (table_at (tables_of tables.now) place) }
{
    let t = tables::table_at(tables, place);
    if at_most(tables::first_key(keys, t), hi) {
        return at_most(lo, tables::last_key(keys, t));
    }
    false
}
