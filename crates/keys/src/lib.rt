// Keys and their order, byte by byte, a prefix being smaller; and a part of the key bytes. Nothing is refused.
#![tactic(auto)]

ghost use Rattle.std.specs.Prelude.{◌≡◌, ◌≤◌, length, drop};
ghost use Rattle.std.specs.Ordering.{nat_cmp};
ghost use Rattle.keys.specs.Keys.{order_of};
ghost use Rattle.keys.specs.Parts.{IsPart, lesser_part, greater_part};

use std::cmp::Ordering;

// A byte at a time from a place on, before which the keys are equal.
fn by_bytes(a: &[u8], b: &[u8], from: usize) -> Ordering
    requires { (from ≤ length a.now) × (order_of a.now b.now ≡ order_of (drop from a.now) (drop from b.now)) }
    ensures { result ≡ order_of a.now b.now }
{
    for i in from..a.len() {
        if b.len() <= i {
            return Ordering::Greater;
        }
        let x = a[i];
        let y = b[i];
        if x < y {
            return Ordering::Less;
        }
        if y < x {
            return Ordering::Greater;
        }
    }
    if a.len() < b.len() {
        return Ordering::Less;
    }
    Ordering::Equal
}

// The library passes equal bytes in groups, and looks at a whole group before it stops: worth it where the first eight are equal.
#[tactic(auto, using(crate::specs::KeyOrder::order_slices))]
#[inline(never)]
fn by_groups(a: &[u8], b: &[u8], from: usize) -> Ordering
    requires { (from ≤ length a.now) × (order_of a.now b.now ≡ order_of (drop from a.now) (drop from b.now)) }
    ensures { result ≡ order_of a.now b.now }
{
    match (a.first_chunk::<8>(), b.first_chunk::<8>()) {
        (Some(x), Some(y)) if x == y => a.cmp(b),
        _ => by_bytes(a, b, from),
    }
}

// Of two keys of which one starts the other.
#[inline(always)]
fn by_length(a: &[u8], b: &[u8]) -> Ordering
    ensures { result ≡ nat_cmp (length a.now) (length b.now) }
{
    a.len().cmp(&b.len())
}

// Many keys differ in their first or second byte, which are looked at where the call stands, or end there.
#[inline(always)]
pub fn compare(a: &[u8], b: &[u8]) -> Ordering
    ensures { result ≡ order_of a.now b.now }
{
    if a.len() < 1 || b.len() < 1 {
        return by_length(a, b);
    }
    let x = a[0];
    let y = b[0];
    if x < y {
        return Ordering::Less;
    }
    if y < x {
        return Ordering::Greater;
    }
    if a.len() < 2 || b.len() < 2 {
        return by_length(a, b);
    }
    let v = a[1];
    let w = b[1];
    if v < w {
        return Ordering::Less;
    }
    if w < v {
        return Ordering::Greater;
    }
    by_groups(a, b, 2)
}

// Of equal keys the first, here and below: `min` gives its first then, and `max` its second.
#[tactic(auto, using(crate::specs::KeyOrder::less_is, crate::specs::KeyOrder::order_slices), unfolding(crate::specs::Keys::key_lt, crate::specs::Parts::lesser_part))]
pub fn lesser<'a>(a: &'a [u8], b: &'a [u8]) -> &'a [u8]
    ensures { result ≡ lesser_part a.entry b.entry }
{
    a.min(b)
}

#[tactic(auto, using(crate::specs::KeyOrder::less_is, crate::specs::KeyOrder::order_slices), unfolding(crate::specs::Keys::key_lt, crate::specs::Parts::greater_part))]
pub fn greater<'a>(a: &'a [u8], b: &'a [u8]) -> &'a [u8]
    ensures { result ≡ greater_part a.entry b.entry }
{
    b.max(a)
}

// A part of the bytes, cut off at their end.
pub fn part<'a>(s: &'a [u8], start: u64, len: u64) -> &'a [u8]
    ensures { IsPart s.entry start len result }
{
    let from = s.len().min(start as usize);
    let rest = &s[from..];
    &rest[..rest.len().min(len as usize)]
}
