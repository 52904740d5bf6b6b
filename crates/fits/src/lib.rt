// The log as a binary table of the FITS Standard 4.0: how long it is, and the table written.
#![tactic(auto)]

ghost use Rattle.std.specs.Prelude.{◌≡◌, IfOk, ◌+◌, ◌-◌, ◌*◌, ◌≤◌, length, replicate};
ghost use Rattle.std.proofs.lemmas.List.Edits.{sets};
ghost use Rattle.refusals.specs.Codes.{code};
ghost use Rattle.refusals.specs.Written.{Counts};
ghost use Rattle.decision_log.specs.Log.{kept_words};
ghost use Rattle.fits.specs.Rows.{cells_from};
ghost use Rattle.fits.specs.File.{length_of, fits_written, fits_out};
ghost use Rattle.fits.specs.File.Laws.{file_length};

use decision_log::{DecisionLog, kept_place, log_bad};
use decisions::DECISION_WIDTH;
use fits_cells::{CELL, put_cell};
use fits_headers::{HEADERS, put_headers};
use refusals::Refusal;

// The bytes of a block.
const BLOCK: usize = 2880;

// The bytes of a row.
const ROW: usize = CELL * DECISION_WIDTH;

// Room for every log's table.
pub fn file_room() -> [u8; 469440]
    ensures { (469440 ≡ length result) × (result ≡ replicate 469440 0) }
{
    [0; 469440]
}

// The bytes of a table with so many rows.
fn file_length(rows: u64) -> usize
    requires { rows ≤ 4096 }
    ensures { result ≡ file_length rows }
{
    HEADERS + BLOCK * ((ROW * rows as usize + BLOCK - 1) / BLOCK)
}

// How long the table of a log is.
#[tactic(auto, unfolding(crate::specs::File::length_fault))]
pub fn fits_length(log: DecisionLog, words: &[u64]) -> Result<usize, Refusal>
    ensures refusal { code result ≡ (length_of log words.now).refusal }
    ensures value { IfOk result (λ n. n ≡ (length_of log words.now).length) }
{
    if log_bad(log, words.len()) {
        return Err(Refusal::BadLog);
    }
    Ok(file_length(log.count))
}

// The kept words, oldest first, behind the headers.
fn put_rows(log: DecisionLog, words: &[u64], out: &mut [u8])
    requires { (length words.now ≡ 57344) × (log.count ≤ 4096) }
    ensures { out.new ≡ sets out.old 8640 (cells_from 0 (kept_words log words.now)) }
{
    let total = DECISION_WIDTH * log.count as usize;
    for i in 0..total {
        let column = i % DECISION_WIDTH;
        let place = kept_place(log, (i / DECISION_WIDTH) as u64) as usize;
        let word = words[DECISION_WIDTH * place + column];
        put_cell(out, HEADERS + CELL * i, column, word);
    }
}

fn put_zeros(out: &mut [u8], from: usize, to: usize)
    requires { (from ≤ to) × (to ≤ length out.old) }
    ensures { out.new ≡ sets out.old from (replicate (to - from) 0) }
{
    out[from..to].fill(0);
}

// The kept decisions as a table, to the front of a buffer: how many bytes it has.
#[tactic(auto, unfolding(crate::specs::File::fits_fault, crate::specs::File::length_fault))]
pub fn write_fits(log: DecisionLog, words: &[u64], out: &mut [u8]) -> Result<usize, Refusal>
    ensures refusal { code result ≡ (fits_written log words.now (length out.old)).refusal }
    ensures value { IfOk result (λ n. n ≡ (fits_written log words.now (length out.old)).length) }
    ensures out_after { out.new ≡ fits_out log words.now out.old }
    ensures counts { IfOk result (λ n. Counts n out.new) }
{
    let length = fits_length(log, words)?;
    if out.len() < length {
        return Err(Refusal::NoRoom);
    }
    let rows = log.count;
    let end = HEADERS + ROW * rows as usize;
    put_headers(out, rows);
    put_rows(log, words, out);
    put_zeros(out, end, length);
    Ok(length)
}
