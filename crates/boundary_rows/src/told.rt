// A line of the answer.
use std::io::Result;

pub(crate) fn told(rt: &impl Print, name: &[u8], a: u64, b: u64, c: u64) -> Result<()> {
    rt.write_all(name)?;
    println!(rt; " {a} {b} {c}")
}
