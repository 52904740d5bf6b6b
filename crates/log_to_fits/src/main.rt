// Reads the log's text from standard input to its end, and writes its table to standard output; of a text that is refused it writes the refused lines to standard error, and nothing else.
#![tactic(auto)]

use inputs::read_full;
use std::io::Result;

// The refused lines, and nothing where the buffer is shorter than they are.
fn report(stderr: &impl Print, text: &[u8], out: &mut [u8]) -> Result<()> {
    let length = log_text::refused_lines(text, out).unwrap_or(0);
    stderr.write_all(&out[..length])
}

fn answer(
    stdout: &impl Print,
    stderr: &impl Print,
    text: &[u8],
    words: &mut [u64],
    out: &mut [u8],
) -> Result<()> {
    let Ok(log) = log_text::read_log(text, words) else {
        return report(stderr, text, out);
    };
    let length = fits::write_fits(log, words, out).unwrap_or(0);
    stdout.write_all(&out[..length])
}

fn main(rt: HostRuntime) -> Result<()> {
    let mut text = log_text::text_room();
    let mut words = log_text::word_room();
    let mut out = fits::file_room();
    let length = read_full(&mut rt.stdin(), &mut text)?;
    answer(
        &rt.stdout(),
        &rt.stderr(),
        &text[..length],
        &mut words,
        &mut out,
    )
}
