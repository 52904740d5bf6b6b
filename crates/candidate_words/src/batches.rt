// Batches of up to eight tables that follow each other in key order.
ghost use Rattle.std.specs.Prelude.{◌<◌, ◌^◌};
ghost use Rattle.records.specs.Tables.{tables_of};
ghost use Rattle.l0_words.specs.Written.{Written};
ghost use Rattle.candidate_words.specs.Candidates.{batches_of};
ghost use Rattle.candidate_words.specs.Writing.{Fit};

use crate::heads::put_candidate;
use l0_words::Ends;
use offers::MAX_ADAPTIVE_BATCH;
use offers::batches::batch_of;

// The batches that begin a run of places, each with what it overlaps.
pub(crate) fn put_batches(
    tables: &[u64],
    keys: &[u8],
    level: u64,
    run: &[usize],
    next: &[usize],
    candidates: &mut [u64],
    numbers: &mut [u64],
    at: Ends,
) -> Ends
    requires level_bound { level < 2 ^ 32 }
    requires fit { Fit at (batches_of keys.now (tables_of tables.now) level next.now run.now) }
    ensures { Written at (batches_of keys.now (tables_of tables.now) level next.now run.now) candidates.old candidates.new numbers.old numbers.new result }
{
    let most = MAX_ADAPTIVE_BATCH.min(run.len());
    let mut end = at;
    for last in 0..most {
        let len = last + 1;
        let b = batch_of(run, len);
        let count = writers::put_batch(tables, keys, b, next, &mut *numbers, end.numbers);
        end = put_candidate(&mut *candidates, end, 2, level, len as u64, count);
    }
    end
}
