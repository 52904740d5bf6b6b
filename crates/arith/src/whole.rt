// Whole numbers as floats: Rust's `as` between u64 and f64.
ghost use Rattle.std.specs.Prelude.{◌≡◌};
ghost use Rattle.std.specs.Float.Ieee;
ghost use Rattle.std.specs.Float.Ieee.{to_unsigned};
ghost use Rattle.arith.specs.Whole.{float_of};

// How many binary digits n has.
pub(crate) fn size(n: u64) -> u64
    ensures { result ≡ Ieee.size n }
{
    64 - u64::from(n.leading_zeros())
}

// `n as f64`.
pub fn of_u64(n: u64) -> f64
    ensures { result ≡ float_of n }
{
    std::num::nearest_u64_to_f64(n)
}

// `x as u64`.
pub fn truncate(x: f64) -> u64
    ensures { result ≡ to_unsigned 64 x }
{
    std::num::saturating_f64_to_u64(x)
}
