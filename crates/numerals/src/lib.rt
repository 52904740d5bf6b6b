// Numbers in text: decimal, and bits as 16 hex digits. Nothing is refused: a text that is no number is none.
#![tactic(auto)]

ghost use Rattle.std.specs.Prelude.{◌≡◌, ◌≤◌};
ghost use Rattle.numerals.specs.Numbers.{decimal_of, bits_of, number_from};

// Digits to a base.
fn digits(s: &[u8], base: u32) -> Option<u64>
    requires { (2 ≤ base) × (base ≤ 16) }
    ensures { result ≡ number_from base 0 s.now }
{
    let mut n: u64 = 0;
    for &byte in s {
        let digit = char::from(byte).to_digit(base)?;
        n = n
            .checked_mul(u64::from(base))?
            .checked_add(u64::from(digit))?;
    }
    Some(n)
}

// Decimal digits, no leading zero but in 0 itself, below 2^64.
pub fn decimal(s: &[u8]) -> Option<u64>
    ensures { result ≡ decimal_of s.now }
{
    if s.is_empty() {
        return None;
    }
    if 1 < s.len() && s[0] == b'0' {
        return None;
    }
    digits(s, 10)
}

// Exactly 16 hex digits, each of either case.
pub fn bits(s: &[u8]) -> Option<u64>
    ensures { result ≡ bits_of s.now }
{
    if s.len() != 16 {
        return None;
    }
    digits(s, 16)
}
