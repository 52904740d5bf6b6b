// What `estimate_candidates` refuses beside 11. The call gives the refusal on.
#![tactic(auto)]

ghost use Rattle.std.specs.Prelude.{◌≡◌};
ghost use Rattle.refusals.specs.Codes.{code};
ghost use Rattle.refusals.specs.Refusals.{first_fault};
ghost use Rattle.estimate_faults.specs.Faults.{too_many_inputs, broken_inputs, words_checks, values_checks};

use refusals::Refusal;

// 4, 5: whole records, few and sound; there are so many numbers.
pub fn words_fault(
    tables: &[u64],
    over: &[u64],
    candidates: &[u64],
    numbers: u64,
) -> Result<(), Refusal>
    ensures { code result ≡ first_fault (words_checks tables.now over.now candidates.now numbers) }
{
    if too_many(tables, over, candidates) {
        return Err(Refusal::TooMany);
    }
    if broken(tables, over, candidates, numbers) {
        return Err(Refusal::BadRecord);
    }
    Ok(())
}

// 6, 2, 9: the room is the length of the output buffer.
pub fn values_fault(next: u64, over: &[u64], candidates: &[u64], room: usize) -> Result<(), Refusal>
    ensures { code result ≡ first_fault (values_checks next over.now candidates.now room) }
{
    if faults::tables::levels_out(over) {
        return Err(Refusal::BadLevel);
    }
    if counts::is_large(next) {
        return Err(Refusal::TooLarge);
    }
    if room / 9 < candidate_records::candidate_count(candidates) {
        return Err(Refusal::NoRoom);
    }
    Ok(())
}

fn too_many(tables: &[u64], over: &[u64], candidates: &[u64]) -> bool
    ensures { result ≡ too_many_inputs tables.now over.now candidates.now }
{
    let numbers = candidate_faults::too_many_candidates(candidates)
        | candidate_faults::too_many_numbers(candidates);
    faults::tables::too_many_tables(tables) | (faults::tables::too_many_entries(over) | numbers)
}

fn broken(tables: &[u64], over: &[u64], candidates: &[u64], numbers: u64) -> bool
    ensures { result ≡ broken_inputs tables.now over.now candidates.now numbers }
{
    let lists = candidate_faults::broken_candidates(candidates)
        | candidate_faults::numbers_out(candidates, numbers);
    faults::tables::broken_tables(tables) | (faults::tables::broken_entries(over) | lists)
}
