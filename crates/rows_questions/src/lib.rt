// A question's text: its arguments as words, a list as its count and then its elements.
#![tactic(auto)]

ghost use Rattle.std.specs.Prelude.{◌≤◌, length, IfOk};

use rows_words::shape::{Fault, Kind, Shape};
use rows_words::words;
use rows_words::words::WORDS;

// A number, and the text behind it.
#[derive(Clone, Copy)]
struct Numeral<'a> {
    value: u64,
    rest: &'a [u8],
}

// The number that has so many digits, if it is below 2^64.
fn value_of(digits: &[u8]) -> Option<u64> {
    let mut value: u64 = 0;
    for digit in digits {
        value = value
            .checked_mul(10)?
            .checked_add(u64::from(digit.wrapping_sub(b'0')))?;
    }
    Some(value)
}

// The number that a text begins with: at least one digit, and none behind a first 0.
fn number(text: &[u8]) -> Result<Numeral<'_>, Fault>
    ensures { IfOk result (λ n. length n.rest.now ≤ length text.now) }
{
    let count = text
        .iter()
        .position(|b| !b.is_ascii_digit())
        .unwrap_or(text.len());
    let (digits, rest) = text.split_at(count);
    match digits {
        [] | [b'0', _, ..] => Err(Fault::Number),
        _ => match value_of(digits) {
            Some(value) => Ok(Numeral { value, rest }),
            None => Err(Fault::Number),
        },
    }
}

// A list's numbers, from its first on, up to its bracket, go to the words; the text behind is answered.
fn elements<'a>(text: &'a [u8], args: &mut [u64; WORDS], at: usize) -> Result<&'a [u8], Fault>
    ensures { IfOk result (λ rest. length rest.now ≤ length text.now) }
{
    let mut left = text;
    for to in at.saturating_add(1)..WORDS {
        let n = number(left)?;
        words::put(args, to, n.value);
        match n.rest.split_first() {
            Some((b' ', rest)) => left = rest,
            Some((b']', rest)) => {
                words::put(args, at, (to - at) as u64);
                return Ok(rest);
            }
            _ => return Err(Fault::Number),
        }
    }
    Err(Fault::Long)
}

// The list whose text stands behind its bracket goes to a place of the words.
fn list<'a>(text: &'a [u8], args: &mut [u64; WORDS], at: usize) -> Result<&'a [u8], Fault>
    ensures { IfOk result (λ rest. length rest.now ≤ length text.now) }
{
    if WORDS <= at {
        return Err(Fault::Long);
    }
    match text.split_first() {
        None => Err(Fault::Number),
        Some((b']', rest)) => {
            args[at] = 0;
            Ok(rest)
        }
        Some(_) => elements(text, args, at),
    }
}

// The number goes to a place of the words.
fn single<'a>(text: &'a [u8], args: &mut [u64; WORDS], at: usize) -> Result<&'a [u8], Fault>
    ensures { IfOk result (λ rest. length rest.now ≤ length text.now) }
{
    let n = number(text)?;
    if WORDS <= at {
        return Err(Fault::Long);
    }
    args[at] = n.value;
    Ok(n.rest)
}

// The arguments, each behind one space, go to the words; their shape is answered, none where they are too many for one.
pub fn arguments(text: &[u8], args: &mut [u64; WORDS]) -> Result<Option<Shape>, Fault> {
    let mut shape = Some(Shape::new());
    let mut at = 0;
    let mut left = text;
    // No `for`: how much text an argument takes is known when it is read.
    while let Some((space, argument)) = left.split_first() {
        if *space != b' ' {
            return Err(Fault::Number);
        }
        let kind = match argument.split_first() {
            Some((b'[', elements)) => {
                left = list(elements, args, at)?;
                Kind::List
            }
            _ => {
                left = single(argument, args, at)?;
                Kind::Number
            }
        };
        shape = shape.and_then(|s| s.with(kind));
        at = words::behind(args, at, kind);
    }
    Ok(shape)
}
