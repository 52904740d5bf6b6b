// Floats by their bits; minimum, maximum, absolute value and clamp as Rust's `f64` has them.
ghost use Rattle.std.specs.Prelude.{◌≡◌, from_bits, to_bits};
ghost use Rattle.std.specs.Float.{binary64};
ghost use Rattle.arith.specs.Floats.{minimum_of, maximum_of, absolute_of, clamp_of};

// Any NaN pattern is read as a NaN.
pub fn of_bits(bits: u64) -> f64
    ensures { result ≡ from_bits binary64 bits }
{
    std::num::f64_from_bits_with_nan(bits)
}

// A NaN is written as the one pattern, since the machine's own may be any.
pub fn to_bits(x: f64) -> u64
    ensures { result ≡ to_bits binary64 x }
{
    std::num::f64_to_bits_with_nan(x)
}

// The left one of two that are equal: the library's `min` promises either, and zeros of unlike sign are told apart.
#[tactic(auto, unfolding(crate::specs::Floats::minimum_of))]
pub fn minimum(a: f64, b: f64) -> f64
    ensures { result ≡ minimum_of a b }
{
    if a.is_nan() {
        return b;
    }
    if b < a {
        return b;
    }
    a
}

#[tactic(auto, unfolding(crate::specs::Floats::maximum_of))]
pub fn maximum(a: f64, b: f64) -> f64
    ensures { result ≡ maximum_of a b }
{
    if a.is_nan() {
        return b;
    }
    if a < b {
        return b;
    }
    a
}

#[tactic(auto, using(crate::proofs::Absolute::without_sign))]
pub fn absolute(x: f64) -> f64
    ensures { result ≡ absolute_of x }
{
    x.abs()
}

#[tactic(auto, unfolding(crate::specs::Floats::clamp_of))]
pub fn clamp(x: f64) -> f64
    ensures { result ≡ clamp_of x }
{
    x.clamp(0.0, 1.0)
}
