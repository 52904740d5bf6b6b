// Bad tables and over-budget entries: too many (4), broken records (5), levels out of range (6).
ghost use Rattle.std.specs.Prelude.{◌≡◌, length};
ghost use Rattle.faults.specs.Tables.{too_many_tables, broken_tables, broken_keys, too_many_entries, broken_entries, levels_out, past_limits, part_out};

use crate::limits;
use records::tables;

pub fn too_many_tables(tables: &[u64]) -> bool
    ensures { result ≡ too_many_tables tables.now }
{
    limits::MAX_TABLES < tables::table_count(tables)
}

// Whole records, levels and sizes; no key part is looked at.
pub fn broken_tables(tables: &[u64]) -> bool
    ensures { result ≡ broken_tables tables.now }
{
    tables.len() % 7 != 0
        || (0..tables::table_count(tables)).any(|place| {
            let t = tables::table_at(tables, place);
            (limits::MAX_LEVEL < t.level) | (limits::MAX_SIZE < t.size)
        })
}

// Some table's first or last key reaches past the key bytes.
pub fn broken_keys(tables: &[u64], keys: &[u8]) -> bool
    ensures { result ≡ broken_keys (length keys.now) tables.now }
{
    let size = keys.len() as u64;
    (0..tables::table_count(tables)).any(|place| {
        let t = tables::table_at(tables, place);
        part_out(t.first_start, t.first_len, size) | part_out(t.last_start, t.last_len, size)
    })
}

pub fn too_many_entries(over: &[u64]) -> bool
    ensures { result ≡ too_many_entries over.now }
{
    limits::MAX_OVER_BUDGET < tables::entry_count(over)
}

pub fn broken_entries(over: &[u64]) -> bool
    ensures { result ≡ broken_entries over.now }
{
    over.len() % 2 != 0
}

pub fn levels_out(over: &[u64]) -> bool
    ensures { result ≡ levels_out over.now }
{
    (0..tables::entry_count(over)).any(|place| {
        let e = tables::entry_at(over, place);
        limits::MAX_OVER_LEVEL < e.level
    })
}

// Too many tables or entries, or a level with none below.
pub fn past_limits(tables: &[u64], over: &[u64]) -> bool
    ensures { result ≡ past_limits tables.now over.now }
{
    let many = too_many_tables(tables) | too_many_entries(over);
    many | levels_out(over)
}

// Whether a part reaches past `size`. Starts and lengths go up to 2^64 - 1, so their sum is never formed.
pub fn part_out(start: u64, len: u64, size: u64) -> bool
    ensures { result ≡ part_out size start len }
{
    size < start || size - start < len
}
