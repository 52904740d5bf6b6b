// Words as records: seven to a table, two to an over-budget entry. A place is a record's number in its list, from 0.
ghost use Rattle.std.specs.Prelude.{◌≡◌, length};
ghost use Rattle.records.specs.Tables.{tables_of, table_at, entries_of, entry_at, IsFirstKey, IsLastKey};

use crate::words::word;

#[derive(Clone, Copy)]
pub struct Table {
    pub number: u64,
    pub level: u64,
    pub size: u64,
    pub first_start: u64,
    pub first_len: u64,
    pub last_start: u64,
    pub last_len: u64,
}

#[derive(Clone, Copy)]
pub struct Entry {
    pub level: u64,
    pub budget: u64,
}

// How many whole tables the words are.
pub fn table_count(tables: &[u64]) -> usize
    ensures { result ≡ length (tables_of tables.now) }
{
    tables.len() / 7
}

// The table at a place, and one of zeros past the last.
pub fn table_at(tables: &[u64], place: usize) -> Table
    ensures { result ≡ table_at (tables_of tables.now) place }
{
    Table {
        number: word(tables, 7, place, 0),
        level: word(tables, 7, place, 1),
        size: word(tables, 7, place, 2),
        first_start: word(tables, 7, place, 3),
        first_len: word(tables, 7, place, 4),
        last_start: word(tables, 7, place, 5),
        last_len: word(tables, 7, place, 6),
    }
}

pub fn number_at(tables: &[u64], place: usize) -> u64
    ensures { result ≡ (table_at (tables_of tables.now) place).number }
{
    let t = table_at(tables, place);
    t.number
}

pub fn entry_count(over: &[u64]) -> usize
    ensures { result ≡ length (entries_of over.now) }
{
    over.len() / 2
}

pub fn entry_at(over: &[u64], place: usize) -> Entry
    ensures { result ≡ entry_at (entries_of over.now) place }
{
    Entry {
        level: word(over, 2, place, 0),
        budget: word(over, 2, place, 1),
    }
}

pub fn first_key<'a>(keys: &'a [u8], t: Table) -> &'a [u8]
    ensures { IsFirstKey keys.entry t result }
{
    keys::part(keys, t.first_start, t.first_len)
}

pub fn last_key<'a>(keys: &'a [u8], t: Table) -> &'a [u8]
    ensures { IsLastKey keys.entry t result }
{
    keys::part(keys, t.last_start, t.last_len)
}
