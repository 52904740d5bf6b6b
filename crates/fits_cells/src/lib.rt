// A word in its column, as eight bytes. Nothing is refused: a column past the last is as those of floats, and a byte that would stand past the buffer's end is lost.
#![tactic(auto)]

ghost use Rattle.std.specs.Prelude.{◌≡◌};
ghost use Rattle.std.proofs.lemmas.List.Edits.{sets};
ghost use Rattle.columns.specs.Columns.{form_of};
ghost use Rattle.fits_cells.specs.Cells.{stored_of, cell};

use columns::is_float;
use text_writers::put_bytes;

// The bytes of a word.
pub const CELL: usize = 8;

// TZERO of the columns that are no floats.
const OFFSET: u64 = 0x8000_0000_0000_0000;

fn stored(column: usize, word: u64) -> u64
    ensures { result ≡ stored_of (form_of column) word }
{
    if is_float(column) {
        return word;
    }
    word.wrapping_add(OFFSET)
}

pub fn put_cell(out: &mut [u8], at: usize, column: usize, word: u64)
    ensures { out.new ≡ sets out.old at (cell (form_of column) word) }
{
    put_bytes(out, at, &stored(column, word).to_be_bytes());
}
