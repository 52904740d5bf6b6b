// Places of up to eight tables, held by value; where a level's batches start. Nothing is refused: what is too long is cut.
ghost use Rattle.std.specs.Prelude.{◌≡◌, min, take};
ghost use Rattle.records.specs.Tables.{tables_of};
ghost use Rattle.offers.specs.Offers.{seed_of, held_in, Holds};

use crate::MAX_ADAPTIVE_BATCH;
use records::tables;

// Table places, the first `len` of the eight.
#[derive(Clone, Copy)]
pub struct Batch {
    pub places: [usize; MAX_ADAPTIVE_BATCH],
    pub len: usize,
}

impl Batch {
    // The places held; a length that says more than eight means eight.
    pub fn held(&self) -> &[usize]
        ensures { result.now ≡ held_in self.now }
    {
        &self.places[..MAX_ADAPTIVE_BATCH.min(self.len)]
    }
}

// The first `len` of a run of places, as far as it goes, and at most eight.
pub fn batch_of(run: &[usize], len: usize) -> Batch
    ensures { Holds result (take (min 8 len) run.now) }
{
    let most = MAX_ADAPTIVE_BATCH.min(len).min(run.len());
    let mut places = [0usize; MAX_ADAPTIVE_BATCH];
    places[..most].copy_from_slice(&run[..most]);
    Batch { places, len: most }
}

// Where in the order the smallest number stands.
pub fn seed(tables: &[u64], order: &[usize]) -> usize
    ensures { result ≡ seed_of (tables_of tables.now) order.now }
{
    if order.len() == 0 {
        return 0;
    }
    let mut best = tables::number_at(tables, order[0]);
    let mut at: usize = 0;
    for i in 1..order.len() {
        let number = tables::number_at(tables, order[i]);
        if number < best {
            best = number;
            at = i;
        }
    }
    at
}
