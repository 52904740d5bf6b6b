// Floats, roots and logarithms by their rules, and the order of keys. Every call here answers a number.
ghost use Rattle.std.specs.Prelude.{◌≡◌};
ghost use Rattle.std.specs.Float.{binary64};
ghost use Rattle.std.specs.Float.Ieee.{of_bits, to_bits, to_unsigned};
ghost use Rattle.arith.specs.Floats.{minimum_of, maximum_of, absolute_of, clamp_of};
ghost use Rattle.arith.specs.Whole.{float_of};
ghost use Rattle.arith.specs.Root.{root_of};
ghost use Rattle.arith.specs.Logarithm.{ln_of};
ghost use Rattle.keys.specs.Keys.{order_of, order_number};

use arith::floats;
use std::cmp::Ordering;

#[unsafe(no_mangle)]
pub extern "C" fn coinhamper_of_bits(bits: u64) -> f64
    ensures { result ≡ of_bits binary64 bits }
{
    floats::of_bits(bits)
}

// Every NaN has the one pattern.
#[unsafe(no_mangle)]
pub extern "C" fn coinhamper_to_bits(x: f64) -> u64
    ensures { result ≡ to_bits binary64 x }
{
    floats::to_bits(x)
}

#[unsafe(no_mangle)]
pub extern "C" fn coinhamper_minimum(a: f64, b: f64) -> f64
    ensures { result ≡ minimum_of a b }
{
    floats::minimum(a, b)
}

#[unsafe(no_mangle)]
pub extern "C" fn coinhamper_maximum(a: f64, b: f64) -> f64
    ensures { result ≡ maximum_of a b }
{
    floats::maximum(a, b)
}

#[unsafe(no_mangle)]
pub extern "C" fn coinhamper_absolute(x: f64) -> f64
    ensures { result ≡ absolute_of x }
{
    floats::absolute(x)
}

// To 0 to 1.
#[unsafe(no_mangle)]
pub extern "C" fn coinhamper_clamp(x: f64) -> f64
    ensures { result ≡ clamp_of x }
{
    floats::clamp(x)
}

#[unsafe(no_mangle)]
pub extern "C" fn coinhamper_of_u64(n: u64) -> f64
    ensures { result ≡ float_of n }
{
    arith::whole::of_u64(n)
}

#[unsafe(no_mangle)]
pub extern "C" fn coinhamper_truncate(x: f64) -> u64
    ensures { result ≡ to_unsigned 64 x }
{
    arith::whole::truncate(x)
}

#[unsafe(no_mangle)]
pub extern "C" fn coinhamper_sqrt(n: u64) -> f64
    ensures { result ≡ root_of n }
{
    arith::root::sqrt(n)
}

#[unsafe(no_mangle)]
pub extern "C" fn coinhamper_ln_1p(age: u64) -> f64
    ensures { result ≡ ln_of age }
{
    arith::logarithm::ln_1p(age)
}

// 0 less, 1 equal, 2 greater. Of two keys the lesser or greater is the first where they are equal.
#[unsafe(no_mangle)]
pub extern "C" fn coinhamper_compare(a: &[u8], b: &[u8]) -> u64
    ensures { result ≡ order_number (order_of a.now b.now) }
{
    match keys::compare(a, b) {
        Ordering::Less => 0,
        Ordering::Equal => 1,
        Ordering::Greater => 2,
    }
}
