// Reads standard input to its end and writes what the library makes of it.
#![tactic(auto)]

use inputs::read_full;
use std::io::Result;

fn answer(rt: &impl Print, text: &[u8], out: &mut [u8]) -> Result<()> {
    // Room for every output is room enough, so that nothing is refused.
    let length = replay_lines::run::replay(text, out).unwrap_or(0);
    rt.write_all(&out[..length])
}

fn main(rt: HostRuntime) -> Result<()> {
    let mut text = replay_lines::run::text_room();
    let mut out = replay_lines::run::output_room();
    let length = read_full(&mut rt.stdin(), &mut text)?;
    answer(&rt, &text[..length], &mut out)
}
