// The tests of steps that look at pointers and access nothing.
ghost use Rattle.std.specs.Prelude.{◌≡◌, ◌<◌, None, Some, MatchResult};
ghost use Rattle.sc_rules.specs.Tests as tests;
ghost use Rattle.sc_mem.specs.Violations.{is_dead, is_number};
ghost use Rattle.sc_mem.specs.Comparisons.{are_unrelated, difference_rule, elements_of, equality_rule, free_rule, is_overlapping, order_of, order_rule, truth_rule};

use crate::arithmetic::offset;
use sc_base::{Kind, Rule, Word};
use sc_objects::Objects;
use std::cmp::Ordering;

/// The first of U15 and U3 that a truth test breaks.
pub fn truth(objects: &Objects, p: Word) -> Option<Rule>
    ensures { result ≡ truth_rule objects.now p }
{
    if number(p) {
        Some(Rule::U15)
    } else if dead(objects, p) {
        Some(Rule::U3)
    } else {
        None
    }
}

/// The first of U15 and U3 that a test for equality breaks.
pub fn equality(objects: &Objects, p: Word, q: Word) -> Option<Rule>
    ensures { result ≡ equality_rule objects.now p q }
{
    if number(p) || number(q) {
        Some(Rule::U15)
    } else if dead(objects, p) || dead(objects, q) {
        Some(Rule::U3)
    } else {
        None
    }
}

/// The first of U15, U3 and U6 that an order breaks.
pub fn order(objects: &Objects, p: Word, q: Word) -> Option<Rule>
    ensures { result ≡ order_rule objects.now p q }
{
    if number(p) || number(q) {
        Some(Rule::U15)
    } else if dead(objects, p) || dead(objects, q) {
        Some(Rule::U3)
    } else if unrelated(objects, p, q) {
        Some(Rule::U6)
    } else {
        None
    }
}

/// The elements of `size` bytes from `q` to `p`, or the first of U15, U3, U6 and U5 that their difference breaks.
pub fn difference(objects: &Objects, p: Word, q: Word, size: u32) -> Result<i64, Rule>
    requires { 0 < size }
    ensures { MatchResult result (λ n. (difference_rule objects.now p q size ≡ None) × (n ≡ elements_of objects.now p q size)) (λ rule. difference_rule objects.now p q size ≡ Some rule) }
{
    if number(p) || number(q) {
        return Err(Rule::U15);
    }
    if dead(objects, p) || dead(objects, q) {
        return Err(Rule::U3);
    }
    if unrelated(objects, p, q) {
        return Err(Rule::U6);
    }
    let bytes = i64::from(offset(objects, p)) - i64::from(offset(objects, q));
    if uneven(bytes, size) {
        return Err(Rule::U5);
    }
    Ok(bytes / i64::from(size))
}

/// U14, where a pointer cannot be freed.
pub fn freeing(objects: &Objects, p: Word) -> Option<Rule>
    ensures { result ≡ free_rule objects.now p }
{
    if p.tag == 0 && p.bits == 0 {
        return None;
    }
    let Some(object) = objects.find(p.tag) else {
        return Some(Rule::U14);
    };
    match object.kind {
        Kind::Heap if object.live && p.bits.wrapping_sub(object.base) == 0 => None,
        _ => Some(Rule::U14),
    }
}

/// Whether `n` bytes from `p` on and `m` bytes from `q` on have a byte in common (U18).
pub fn overlap(objects: &Objects, p: Word, n: u32, q: Word, m: u32) -> bool
    ensures { result ≡ is_overlapping objects.now p n q m }
{
    let first = offset(objects, p);
    let other = offset(objects, q);
    let end = u64::from(first) + u64::from(n);
    let last = u64::from(other) + u64::from(m);
    p.tag == q.tag && u64::from(first.max(other)) < end.min(last)
}

/// The order of the offsets of two pointers.
pub fn ordering(objects: &Objects, p: Word, q: Word) -> Ordering
    ensures { result ≡ order_of objects.now p q }
{
    offset(objects, p).cmp(&offset(objects, q))
}

// U15: a number that is not null.
fn number(p: Word) -> bool
    ensures { result ≡ is_number p }
{
    p.tag == 0 && p.bits != 0
}

// U3: the object has died.
fn dead(objects: &Objects, p: Word) -> bool
    ensures { result ≡ is_dead objects.now p }
{
    match objects.find(p.tag) {
        None => false,
        Some(object) => !object.live,
    }
}

// U5: a distance in bytes that is no multiple of an element's size.
fn uneven(bytes: i64, size: u32) -> bool
    requires { 0 < size }
    ensures { result ≡ tests.is_uneven bytes size }
{
    let rest = bytes % i64::from(size);
    rest < 0 || 0 < rest
}

// U6, behind the other two tests.
fn unrelated(objects: &Objects, p: Word, q: Word) -> bool
    ensures { result ≡ are_unrelated objects.now p q }
{
    if p.tag == 0 && p.bits == 0 && q.tag == 0 && q.bits == 0 {
        return false;
    }
    p.tag != q.tag || objects.find(p.tag).is_none()
}
