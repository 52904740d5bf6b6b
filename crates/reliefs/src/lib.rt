// What share of a level's excess some bytes are. Nothing here is refused: a level's bytes stop at the largest u64.
#![tactic(auto)]

ghost use Rattle.std.specs.Prelude.{◌≡◌};
ghost use Rattle.records.specs.Tables.{tables_of, entries_of};
ghost use Rattle.reliefs.specs.Reliefs.{level_bytes_of, share_of, relief_by};

use arith::whole;
use records::tables;

// By the first entry with the level, whose bytes are `total`.
pub fn debt_relief(over: &[u64], level: u64, bytes: u64, total: u64) -> f64
    ensures { result ≡ relief_by (entries_of over.now) level bytes total }
{
    for i in 0..tables::entry_count(over) {
        let e = tables::entry_at(over, i);
        if e.level == level {
            return share(bytes, total, e.budget);
        }
    }
    0.0
}

fn share(bytes: u64, total: u64, budget: u64) -> f64
    ensures { result ≡ share_of bytes total budget }
{
    let excess = total.saturating_sub(budget).max(1);
    arith::floats::minimum(whole::of_u64(bytes) / whole::of_u64(excess), 1.0)
}

pub fn level_bytes(tables: &[u64], level: u64) -> u64
    ensures { result ≡ level_bytes_of level (tables_of tables.now) }
{
    let mut sum: u64 = 0;
    for i in 0..tables::table_count(tables) {
        let t = tables::table_at(tables, i);
        if t.level == level {
            sum = sum.saturating_add(t.size);
        }
    }
    sum
}
