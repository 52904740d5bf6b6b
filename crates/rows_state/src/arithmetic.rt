// The calls of arith. A float is asked and answered by its bits. A call is its number in the list of calls: rows_calls says why it is no enum.
use arith::{floats, logarithm, root, whole};

fn float_of(call: u64, n: u64, x: f64, y: f64) -> f64 {
    match call {
        1 => floats::absolute(x),
        2 => floats::clamp(x),
        3 => whole::of_u64(n),
        4 => root::sqrt(n),
        5 => logarithm::ln_1p(n),
        6 => floats::minimum(x, y),
        7 => floats::maximum(x, y),
        _ => x,
    }
}

pub fn value_of(call: u64, n: u64, m: u64) -> u64 {
    let x = floats::of_bits(n);
    if call == 8 {
        return whole::truncate(x);
    }
    floats::to_bits(float_of(call, n, x, floats::of_bits(m)))
}
