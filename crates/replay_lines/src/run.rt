// The whole run: a governor fresh at clock 0, and a line written for each line read.
ghost use Rattle.std.specs.Prelude.{◌≡◌, ◌≤◌, length, replicate, IfOk};
ghost use Rattle.lists.specs.Writes.{Filled};
ghost use Rattle.refusals.specs.Codes.{code};
ghost use Rattle.state.specs.State.{fresh_of};
ghost use Rattle.replay_text.specs.Lines.{LF, comma, lines_of};
ghost use Rattle.text_writers.specs.Rows.{row_of};
ghost use Rattle.replay_lines.specs.Replay.{printed, replay_from, replayed_of, replay_out, Counts};

use crate::lines::observe_line;
use refusals::Refusal;
use replay_fields::line_of;
use replay_text::reader::{COMMA, LF, Lines};
use state::GovernorState;
use text_writers::put_row;

// The most bytes that are read; given more, nothing is printed.
pub const MOST: usize = 65536;

// Room for every text that is read, and a byte more, which shows one that is too long. Each room's size is its promise, so one function over a size would be no plainer.
pub fn text_room() -> [u8; 65537]
    ensures { (65537 ≡ length result) × (result ≡ replicate 65537 0) }
{
    [0; 65537]
}

// Room for every output: at most 65,536 lines of at most 18 bytes.
pub fn output_room() -> [u8; 1179648]
    ensures { (1179648 ≡ length result) × (result ≡ replicate 1179648 0) }
{
    [0; 1179648]
}

// The numbers that a line prints: its own, refusal, mode, dominant, delay.
fn line_numbers(number: u64, refusal: u64, s: GovernorState) -> [u64; 5]
    ensures { (5 ≡ length result) × (row_of comma LF result ≡ printed number (record { refusal = refusal; state = s })) }
{
    let mode = s.mode();
    let dominant = s.pressure_vector().dominant();
    let delay = pressure::pacing::pacing_delay(mode, s.pressure());
    [number, refusal, mode.idx(), u64::from(dominant), delay]
}

// Writes the whole output as far as the buffer goes, and answers its length.
fn run(text: &[u8], out: &mut [u8]) -> usize
    requires { length text.now ≤ 65536 }
    ensures { Filled out.old 0 (replay_from (fresh_of 0) 1 (lines_of text.now)) out.new result }
{
    let mut s = state::fresh(0);
    // Counted beside the lines: `enumerate` gives a usize from 0, and would be no plainer.
    let mut number: u64 = 1;
    let mut at: usize = 0;
    for line in Lines::of(text) {
        let told = refusals::code(observe_line(&mut s, line_of(line)));
        at += put_row(out, at, &line_numbers(number, told, s), COMMA, LF);
        number += 1;
    }
    at
}

// The output for a text, in a lent buffer, and its length; 9 where it has no room. A first run over none of it tells the length, so that a buffer too short is left alone.
pub fn replay(text: &[u8], out: &mut [u8]) -> Result<usize, Refusal>
    ensures refusal { code result ≡ (replayed_of text.now (length out.old)).refusal }
    ensures value { IfOk result (λ n. n ≡ (replayed_of text.now (length out.old)).length) }
    ensures out_after { out.new ≡ replay_out text.now out.old }
    ensures counts { IfOk result (λ n. Counts n out.new) }
{
    if MOST < text.len() {
        return Ok(0);
    }
    let length = run(text, &mut out[..0]);
    if out.len() < length {
        return Err(Refusal::NoRoom);
    }
    run(text, out);
    Ok(length)
}
