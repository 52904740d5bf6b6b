// Counts too large for a float; in specs/ also a sum that stops at the largest u64. Nothing here is refused.
#![tactic(auto)]

ghost use Rattle.std.specs.Prelude.{◌≡◌};
ghost use Rattle.counts.specs.Counts.{large, any_large};

// A count that a binary64 may not hold.
pub fn is_large(n: u64) -> bool
    ensures { result ≡ large n }
{
    0x20_0000_0000_0000 < n
}

pub fn any_large(a: u64, b: u64, c: u64) -> bool
    ensures { result ≡ any_large a b c }
{
    is_large(a) | (is_large(b) | is_large(c))
}
