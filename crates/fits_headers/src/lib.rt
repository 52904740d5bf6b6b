// Both headers of the log's table, by their cards. Nothing is refused: a byte that would stand past the buffer's end is lost.
#![tactic(auto)]

ghost use Rattle.std.specs.Prelude.{◌≡◌, ◌<◌};
ghost use Rattle.std.proofs.lemmas.List.Edits.{sets};
ghost use Rattle.fits_headers.specs.Headers.{headers};
ghost use Rattle.fits_headers.specs.Places.{front_card, count_card, place_card};

use text_writers::{put_bytes, put_number};

// The bytes of both headers, three blocks.
pub const HEADERS: usize = 8640;

const CARD: usize = 80;

// The bytes of a card that may hold more than spaces.
const FRONT: usize = 30;

const SPACE: u8 = 32;

// The places for a card in three blocks, and where the table's header begins and its cards end.
const PLACES: usize = 108;

const TABLE: usize = 36;

const TABLE_END: usize = TABLE + 45;

// The cards of the primary header, END among them, and the places behind them that have none.
const PRIMARY: usize = 5;

const EMPTY: usize = TABLE - PRIMARY;

// NAXIS2's front, and its place: the fifth card of the table's header.
const NAXIS2: usize = PRIMARY + 4;

const NAXIS2_PLACE: usize = TABLE + 4;

// The front of each card, as it stands in the file. NAXIS2's number is put in.
const FRONTS: [u8; 1500] = *b"\
SIMPLE  =                    T\
BITPIX  =                    8\
NAXIS   =                    0\
EXTEND  =                    T\
END                           \
XTENSION= 'BINTABLE'          \
BITPIX  =                    8\
NAXIS   =                    2\
NAXIS1  =                  112\
NAXIS2  =                     \
PCOUNT  =                    0\
GCOUNT  =                    1\
TFIELDS =                   14\
TTYPE1  = 'SEQ     '          \
TFORM1  = '1K      '          \
TZERO1  =  9223372036854775808\
TTYPE2  = 'P_L0    '          \
TFORM2  = '1D      '          \
TTYPE3  = 'P_DEBT  '          \
TFORM3  = '1D      '          \
TTYPE4  = 'P_READ  '          \
TFORM4  = '1D      '          \
TTYPE5  = 'DOMINANT'          \
TFORM5  = '1K      '          \
TZERO5  =  9223372036854775808\
TTYPE6  = 'TIER    '          \
TFORM6  = '1K      '          \
TZERO6  =  9223372036854775808\
TTYPE7  = 'CONSIDER'          \
TFORM7  = '1K      '          \
TZERO7  =  9223372036854775808\
TTYPE8  = 'KIND    '          \
TFORM8  = '1K      '          \
TZERO8  =  9223372036854775808\
TTYPE9  = 'LEVEL   '          \
TFORM9  = '1K      '          \
TZERO9  =  9223372036854775808\
TTYPE10 = 'BATCH   '          \
TFORM10 = '1K      '          \
TZERO10 =  9223372036854775808\
TTYPE11 = 'BYTES   '          \
TFORM11 = '1K      '          \
TZERO11 =  9223372036854775808\
TTYPE12 = 'R_L0    '          \
TFORM12 = '1D      '          \
TTYPE13 = 'R_DEBT  '          \
TFORM13 = '1D      '          \
TTYPE14 = 'R_READ  '          \
TFORM14 = '1D      '          \
END                           ";

// A card by its front.
fn front_card(k: usize) -> [u8; CARD]
    requires { k < 50 }
    ensures { result ≡ front_card k }
{
    let mut card = [SPACE; CARD];
    card[..FRONT].copy_from_slice(&FRONTS[FRONT * k..FRONT * (k + 1)]);
    card
}

// The card of NAXIS2, its number's last digit in byte 30.
fn count_card(rows: u64) -> [u8; CARD]
    ensures { result ≡ count_card rows }
{
    let mut card = front_card(NAXIS2);
    let digits = put_number(&mut [0u8; 0], 0, rows);
    put_number(&mut card, FRONT - digits, rows);
    card
}

// What stands in each place for a card.
#[tactic(auto, unfolding(crate::specs::Places::place_card))]
fn place_card(place: usize, rows: u64) -> [u8; CARD]
    requires { place < 108 }
    ensures { result ≡ place_card rows place }
{
    if place == NAXIS2_PLACE {
        return count_card(rows);
    }
    if place < PRIMARY {
        return front_card(place);
    }
    if place < TABLE {
        return [SPACE; CARD];
    }
    if place < TABLE_END {
        return front_card(place - EMPTY);
    }
    [SPACE; CARD]
}

// The headers of a table with so many rows, at a buffer's front.
pub fn put_headers(out: &mut [u8], rows: u64)
    ensures { out.new ≡ sets out.old 0 (headers rows) }
{
    for place in 0..PLACES {
        put_bytes(out, CARD * place, &place_card(place, rows));
    }
}
