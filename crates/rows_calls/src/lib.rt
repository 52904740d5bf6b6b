// The calls: their names, what they are asked and what they tell.
#![tactic(auto)]

mod letters;
mod names;

use rows_words::shape::{Fault, Shape};
use rows_words::words::{BYTES, WORDS};

// `echo`, which the table does not list: it answers as `lent`, of any arguments.
const ECHO: u64 = 60;

// A call, and the shape of its answer.
#[derive(Clone, Copy)]
pub struct Call {
    // The number in the list of calls. An enum of them all would stand below every room, and each further call would be a check of all of them.
    pub number: u64,
    pub told: Shape,
}

fn told_by(
    asks: &[u8],
    tells: &[u8],
    asked: Option<Shape>,
    args: &[u64; WORDS],
    bytes: &mut [u8; BYTES],
) -> Result<Shape, Fault> {
    if asked == letters::shape_of(asks) && letters::fits(asks, args, bytes) {
        return letters::shape_of(tells).ok_or(Fault::Arguments);
    }
    Err(Fault::Arguments)
}

fn unlisted(name: &[u8], asked: Option<Shape>) -> Result<Call, Fault> {
    if name != b"echo".as_slice() {
        return Err(Fault::Name);
    }
    match asked {
        Some(told) if 0 < told.parts() => Ok(Call { number: ECHO, told }),
        _ => Err(Fault::Arguments),
    }
}

// The call of a name in a table, which has a line to a call: name, arguments, answer, number.
fn call_in(
    table: &str,
    name: &[u8],
    asked: Option<Shape>,
    args: &[u64; WORDS],
    bytes: &mut [u8; BYTES],
) -> Result<Call, Fault> {
    let Some(line) = names::line_of(table, name) else {
        return unlisted(name, asked);
    };
    let asks = names::word_at(line, 1).as_bytes();
    let tells = names::word_at(line, 2).as_bytes();
    Ok(Call {
        number: names::word_at(line, 3).parse().unwrap_or(0),
        told: told_by(asks, tells, asked, args, bytes)?,
    })
}

// The call that a question names, and its byte lists.
pub fn call_of(
    name: &[u8],
    asked: Option<Shape>,
    args: &[u64; WORDS],
    bytes: &mut [u8; BYTES],
) -> Result<Call, Fault> {
    let table = "of_bits n n 00
absolute n n 01
clamp n n 02
of_u64 n n 03
sqrt n n 04
ln_1p n n 05
minimum nn n 06
maximum nn n 07
truncate n n 08
table_count W n 09
entry_count W n 10
too_many_tables W n 11
broken_tables W n 12
too_many_entries W n 13
broken_entries W n 14
levels_out W n 15
broken_keys WB n 16
overlaps_at WBnBB n 17
compare BB n 18
lesser BB L 19
greater BB L 20
part Bnn L 21
first_key Bnnnnnnn L 22
last_key Bnnnnnnn L 23
table_at Wn nnnnnnn 24
entry_at Wn nn 25
level_places WnO nL 26
sort_level WBnO nL 27
insert_at Onnn L 28
generate_candidates WBnWOO nnnLL 29
pacing_delay mn n 30
dominant nnn n 31
mode S n 32
pressure S n 33
pressure_vector S nnn 34
focus S nnn 35
fresh n L 36
set_focus Sfuu L 37
record_candidate_chosen Skun L 38
observe Snnnnnn nL 39
observe_engine Snnnnnnnnnn nL 40
with_trivial_move Sn nL 41
with_outcome Snn nL 42
record_trivial_move Sn nL 43
record_outcome Snn nL 44
snapshot Sn nL 45
estimate_candidates WnWWWO nnL 46
cause_aware_score nnnnnnnnnnnn n 47
pick_best_cause_aware nnnfuuWW nnnnnnn 48
to_words D L 49
of_words W nL 50
empty_log  nnn 51
kept_place nnnn n 52
record_decision nnncnD nnnnLn 53
recent_decisions nnncncn nnnn 54
log_run nnnnr nnnnn 55
decimal B nn 56
bits B nn 57
replay TR nnL 58
replay_filled Bt nnL 59
lent OOB LLL 60
scheduling_decision nnnnfnfuusWW L 61
fits_length nnncn nn 62
write_fits nnncnnWgbnn nnnL 63
read_log Tcn nnnnLn 64
refused_lines TR nnL 65
log_filled Bq nnnnnL 66
";
    call_in(table, name, asked, args, bytes)
}
