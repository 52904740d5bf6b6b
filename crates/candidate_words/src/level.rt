// A level's candidates: its batches, then its moves.
ghost use Rattle.std.specs.Prelude.{◌+◌, ◌≤◌, ◌<◌, ◌^◌, length};
ghost use Rattle.records.specs.Tables.{tables_of};
ghost use Rattle.levels.specs.Levels.{places_of, by_key};
ghost use Rattle.l0_words.specs.Written.{Written};
ghost use Rattle.candidate_words.specs.Candidates.{level_offers};
ghost use Rattle.candidate_words.specs.Writing.{Fit};

use crate::{batches, moves};
use faults::limits::MAX_TABLES;
use l0_words::Ends;

// The order is that of first keys, the next level's that of the tables.
fn put_ordered(
    tables: &[u64],
    keys: &[u8],
    level: u64,
    order: &[usize],
    next: &[usize],
    candidates: &mut [u64],
    numbers: &mut [u64],
    at: Ends,
) -> Ends
    requires level_bound { level < 2 ^ 32 }
    requires fit { Fit at (level_offers keys.now (tables_of tables.now) level next.now order.now) }
    ensures { Written at (level_offers keys.now (tables_of tables.now) level next.now order.now) candidates.old candidates.new numbers.old numbers.new result }
{
    let from = offers::batches::seed(tables, order);
    let middle = batches::put_batches(
        tables,
        keys,
        level,
        &order[from..],
        next,
        &mut *candidates,
        &mut *numbers,
        at,
    );
    let b = trivial_moves::free_moves(tables, keys, order, next);
    moves::put_moves(tables, level, b, candidates, numbers, middle)
}

pub(crate) fn put_level(
    tables: &[u64],
    keys: &[u8],
    level: u64,
    candidates: &mut [u64],
    numbers: &mut [u64],
    at: Ends,
) -> Ends
    requires tables_len_bound { (length (tables_of tables.now) ≤ 1024) × (level < 2 ^ 32) }
    requires fit { Fit at (level_offers keys.now (tables_of tables.now) level (places_of (level + 1) (tables_of tables.now)) (by_key keys.now (tables_of tables.now) level)) }
    ensures { Written at (level_offers keys.now (tables_of tables.now) level (places_of (level + 1) (tables_of tables.now)) (by_key keys.now (tables_of tables.now) level)) candidates.old candidates.new numbers.old numbers.new result }
{
    let mut order = [0usize; MAX_TABLES];
    let count = levels::sort_level(tables, keys, level, &mut order);
    let mut next = [0usize; MAX_TABLES];
    let below = levels::level_places(tables, level + 1, &mut next);
    put_ordered(
        tables,
        keys,
        level,
        &order[..count],
        &next[..below],
        candidates,
        numbers,
        at,
    )
}
