// Each export for C and Rust called once or more, from Rattle: a line to each call, its name, what it answered, and words that it wrote or left.
#![tactic(auto)]

mod governed;
mod logged;
mod merges;
mod numbers;
mod told;

use std::io::Result;

fn main(rt: HostRuntime) -> Result<()> {
    numbers::rows(&rt)?;
    governed::rows(&rt)?;
    merges::rows(&rt)?;
    logged::rows(&rt)
}
