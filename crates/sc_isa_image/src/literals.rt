// The places of literals.
ghost use Rattle.std.specs.Prelude.{◌≡◌, ◌≢◌, ◌↔◌, ◌⊎◌, ℕ, ◌+◌, ◌<◌, ◌≤◌, ◌^◌, [], fold, if◌then◌else◌, nat_eq, length, slice_index, IsTrue, IsSome, IsNone, IfSome, MatchOption, OnOk, None, Some, vec_len, vec_capacity};
ghost use Rattle.std.specs.HashMap.{get, spare};
ghost use Rattle.sc_isa_image.specs.declared.literals.Literal.{Literal as Text};
ghost use Rattle.sc_isa_image.specs.Literals.{IsListed, fingerprint_of, literal_of, mixed};

use sc_base::{Bytes, Name, NoMemory};
use std::alloc::Global;
use std::collections::HashMap;
use std::marker::Model;

/// A literal: the module in which it stands, and its bytes.
#[derive(Debug, Drop)]
pub struct Literal {
    pub module: Name,
    pub bytes: Bytes,
}

/// Literals by their places. No two places have one literal.
#[derive(Drop)]
pub struct Literals {
    places: HashMap<u32, Literal>,
    index: HashMap<u64, u32>,
    others: Vec<u32>,
}

impl Model for Literals {
    ghost use Rattle.std.specs.Prelude.{◌-◌, min, vec_len, vec_capacity};
    ghost use Rattle.std.specs.HashMap.{spare};
    ghost use Rattle.sc_isa_image.specs.Literals.{IsIndexed, Placed};

    ghost Value = { Placed };

    ghost view = { λ s. record { places = s.places.entries; room = min (spare s.places) (min (spare s.index) (vec_capacity s.others - vec_len s.others)) } };

    ghost invariant = { λ s. IsIndexed s.places.entries s.index s.others.items };
}

impl Literals {
    ghost use Rattle.sc_isa_image.specs.Literals.{literal_at};

    /// No literal.
    pub fn new(alloc: Global) -> Literals
        ensures { result.places ≡ [] }
    {
        Literals {
            places: HashMap::new(alloc),
            index: HashMap::new(alloc),
            others: Vec::new(alloc),
        }
    }

    /// Makes room for `n` more literals.
    pub fn reserve(&mut self, n: usize) -> Result<(), NoMemory>
        ensures literals { (p : ℕ) → literal_at self.new.places p ≡ literal_at self.old.places p }
        ensures room { OnOk result (n ≤ self.new.room) }
        ensures kept { self.old.room ≤ self.new.room }
    {
        self.places.reserve(n)?;
        self.index.reserve(n)?;
        self.others.reserve(n)?;
        Ok(())
    }

    /// Puts a literal that has no place at a place that has no literal. There is room for it.
    pub fn put(&mut self, at: u32, literal: Literal)
        requires room { 0 < self.old.room }
        requires free { literal_at self.old.places at ≡ None }
        requires absent { (p : ℕ) → literal_at self.old.places p ≢ Some literal }
        ensures literals { (p : ℕ) → literal_at self.new.places p ≡ (if nat_eq at p then Some literal else literal_at self.old.places p) }
        ensures room { self.old.room ≤ self.new.room + 1 }
    {
        let print = fingerprint(literal.module.as_slice(), literal.bytes.as_slice());
        remember(&mut self.index, &mut self.others, print, at);
        place(&mut self.places, at, literal);
    }

    /// Takes away the literal at a place.
    pub fn take(&mut self, at: u32)
        requires { IsSome (literal_at self.old.places at) }
        ensures literals { (p : ℕ) → literal_at self.new.places p ≡ (if nat_eq at p then None else literal_at self.old.places p) }
        ensures room { self.old.room ≤ self.new.room }
    {
        if let Some(literal) = self.places.remove(&at) {
            let print = fingerprint(literal.module.as_slice(), literal.bytes.as_slice());
            forget(&mut self.index, &mut self.others, print, at);
        }
    }

    /// The place of a literal.
    pub fn find(&self, module: &Name, bytes: &[u8]) -> Option<u32>
        ensures { (p : ℕ) → (result ≡ Some p) ↔ (literal_at self.now.places p ≡ Some (literal_of «module».now bytes.now)) }
    {
        let print = fingerprint(module.as_slice(), bytes);
        match indexed(&self.index, &self.places, print, module.as_slice(), bytes) {
            Some(at) => Some(at),
            None => search(
                &self.places,
                self.others.as_slice(),
                module.as_slice(),
                bytes,
            ),
        }
    }
}

// A number that a module and bytes make.
fn fingerprint(module: &[u8], bytes: &[u8]) -> u64
    ensures { result ≡ fingerprint_of (literal_of «module».now bytes.now) }
{
    let start = mix_all(14695981039346656037, module);
    mix_all(mix(start, 0), bytes)
}

fn mix_all(print: u64, bytes: &[u8]) -> u64
    ensures { result ≡ fold mixed print bytes.now }
{
    bytes.iter().fold(print, |print, byte| mix(print, *byte))
}

fn mix(print: u64, byte: u8) -> u64
    ensures { result ≡ mixed print byte }
{
    (print ^ u64::from(byte)).wrapping_mul(1099511628211)
}

// Whether a place has this literal.
fn is_at(places: &HashMap<u32, Literal>, at: u32, module: &[u8], bytes: &[u8]) -> bool
    ensures { IsTrue result ↔ (get nat_eq places.now at ≡ Some (literal_of «module».now bytes.now)) }
{
    match places.get(&at) {
        Some(literal) => literal.module.as_slice() == module && literal.bytes.as_slice() == bytes,
        None => false,
    }
}

// The place that the index has for a number, where it has this literal.
fn indexed(
    index: &HashMap<u64, u32>,
    places: &HashMap<u32, Literal>,
    print: u64,
    module: &[u8],
    bytes: &[u8],
) -> Option<u32>
    ensures found { IfSome result (λ p. get nat_eq places.now p ≡ Some (literal_of «module».now bytes.now)) }
    ensures absent { IsNone result → (p : ℕ) → get nat_eq index.now print ≡ Some p → get nat_eq places.now p ≢ Some (literal_of «module».now bytes.now) }
{
    match index.get(&print) {
        Some(at) => {
            if is_at(places, *at, module, bytes) {
                Some(*at)
            } else {
                None
            }
        }
        None => None,
    }
}

// The first of some places that has this literal.
fn search(
    places: &HashMap<u32, Literal>,
    others: &[u32],
    module: &[u8],
    bytes: &[u8],
) -> Option<u32>
    ensures found { IfSome result (λ p. get nat_eq places.now p ≡ Some (literal_of «module».now bytes.now)) }
    ensures absent { IsNone result → (p : ℕ) → IsListed others.now p → get nat_eq places.now p ≢ Some (literal_of «module».now bytes.now) }
{
    for at in others {
        if is_at(places, *at, module, bytes) {
            return Some(*at);
        }
    }
    None
}

// Puts a literal at a place. There is room for it.
fn place(places: &mut HashMap<u32, Literal>, at: u32, literal: Literal)
    requires { 0 < spare places.old }
    ensures literals { (p : ℕ) → get nat_eq places.new p ≡ (if nat_eq at p then Some literal else get nat_eq places.old p) }
    ensures room { spare places.old ≤ spare places.new + 1 }
{
    let _ = places.insert(at, literal);
}

// Puts a place into the index, or into the list where its number has an entry. There is room for it.
fn remember(index: &mut HashMap<u64, u32>, others: &mut Vec<u32>, print: u64, at: u32)
    requires spare { 0 < spare index.old }
    requires capacity { vec_len others.old < vec_capacity others.old }
    ensures found { (get nat_eq index.new print ≡ Some at) ⊎ IsListed others.new.items at }
    ensures index { (q p : ℕ) → get nat_eq index.old q ≡ Some p → get nat_eq index.new q ≡ Some p }
    ensures others { (p : ℕ) → IsListed others.old.items p → IsListed others.new.items p }
    ensures room { spare index.old ≤ spare index.new + 1 }
    ensures capacity { vec_capacity others.new ≡ vec_capacity others.old }
    ensures len { vec_len others.new ≤ vec_len others.old + 1 }
{
    if index.contains_key(&print) {
        others.push_reserved(at);
    } else {
        let _ = index.insert(print, at);
    }
}

// Takes a place out of the index and out of the list.
fn forget(index: &mut HashMap<u64, u32>, others: &mut Vec<u32>, print: u64, at: u32)
    ensures index { (q p : ℕ) → p ≢ at → get nat_eq index.old q ≡ Some p → get nat_eq index.new q ≡ Some p }
    ensures others { (p : ℕ) → p ≢ at → IsListed others.old.items p → IsListed others.new.items p }
    ensures room { spare index.old ≤ spare index.new }
    ensures capacity { vec_capacity others.new ≡ vec_capacity others.old }
    ensures len { vec_len others.new ≤ vec_len others.old }
{
    if let Some(place) = index.get(&print) {
        if *place == at {
            let _ = index.remove(&print);
        }
    }
    if let Some(i) = place_in(others.as_slice(), at) {
        let _ = others.swap_remove(i);
    }
}

// Where a number stands in a list.
fn place_in(list: &[u32], at: u32) -> Option<usize>
    ensures { IfSome result (λ i. (i < length list.now) × (slice_index list.now i ≡ at)) }
{
    for (i, p) in list.iter().enumerate() {
        if *p == at {
            return Some(i);
        }
    }
    None
}
