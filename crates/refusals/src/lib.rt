// The refusals and their numbers, named once. Of several faults a call gives the first in this order: 1, 10, 4, 5, 11, 6, 7, 8, 2, 3, 9. 12 to 15 are free.
#![tactic(auto)]

ghost use Rattle.std.specs.Prelude.{◌≡◌};
ghost use Rattle.refusals.specs.Codes.{number_of, code};

// Why a call gives no answer.
#[derive(Clone, Copy, Debug, PartialEq, Eq)]
pub enum Refusal {
    BadState,
    TooLarge,
    CounterFull,
    TooMany,
    BadRecord,
    BadLevel,
    BadVector,
    BadEstimate,
    NoRoom,
    BadLog,
    DuplicateNumber,
}

// 01's number of the refusal.
impl From<Refusal> for u64 {
    ghost from_gives = { λ e n. n ≡ number_of e };

    fn from(refusal: Refusal) -> u64 {
        match refusal {
            Refusal::BadState => BAD_STATE,
            Refusal::TooLarge => TOO_LARGE,
            Refusal::CounterFull => COUNTER_FULL,
            Refusal::TooMany => TOO_MANY,
            Refusal::BadRecord => BAD_RECORD,
            Refusal::BadLevel => BAD_LEVEL,
            Refusal::BadVector => BAD_VECTOR,
            Refusal::BadEstimate => BAD_ESTIMATE,
            Refusal::NoRoom => NO_ROOM,
            Refusal::BadLog => BAD_LOG,
            Refusal::DuplicateNumber => DUPLICATE_NUMBER,
        }
    }
}

// What C and the text of `replay` are told of an answer: its refusal's number, 0 for none.
pub fn code<T: Copy>(answer: Result<T, Refusal>) -> u64
    ensures { result ≡ code answer }
{
    match answer {
        Ok(_) => NONE,
        Err(refusal) => u64::from(refusal),
    }
}

pub const NONE: u64 = 0;

// The state's mode has its own streak above its top (Balanced 2, ReadProtect 3, WriteEmergency 2), or another streak is not 0.
pub const BAD_STATE: u64 = 1;

// A count to be made a float exceeds 2^53.
pub const TOO_LARGE: u64 = 2;

// The probe sum, the switches, the moves, the samples or a time sum would pass 2^64 - 1.
pub const COUNTER_FULL: u64 = 3;

// Over 1,024 tables, 16 over-budget entries, 145 candidates, or 1,024 numbers in one candidate; over 4,096 lines or 1,110,016 bytes of a log's text.
pub const TOO_MANY: u64 = 4;

// A record buffer isn't whole records, paired buffers differ in record count, a table's level exceeds 2^32 - 1 or its size 2^40, a key part leaves the key bytes, or a candidate's kind, level, batch length or place is malformed; or a line of a log's text isn't fourteen numbers.
pub const BAD_RECORD: u64 = 5;

// An over-budget level exceeds 2^32 - 2.
pub const BAD_LEVEL: u64 = 6;

// A pressure component for selection isn't in 0 to 1.
pub const BAD_VECTOR: u64 = 7;

// A relief isn't in 0 to 1, the rewrite exceeds 2^50, or the age exceeds 2^53.
pub const BAD_ESTIMATE: u64 = 8;

// An output buffer is shorter than the answer.
pub const NO_ROOM: u64 = 9;

// The log buffer isn't 57,344 words, its first place exceeds 4,095, or its count exceeds 4,096.
pub const BAD_LOG: u64 = 10;

// A number occurs twice in a table list.
pub const DUPLICATE_NUMBER: u64 = 11;
