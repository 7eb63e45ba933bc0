// The text area: the placed texts, and their words by the place of an address.
ghost use Rattle.std.specs.Prelude.{◌≡◌, ◌⊎◌, ℕ, ◌+◌, ◌-◌, ◌*◌, ◌/◌, ◌<◌, ◌≤◌, ◌==◌, [], length, if◌then◌else◌, Option, IfSome, IsSome, IsTrue, None, Some, OnOk, vec_len};
ghost use Rattle.std.specs.Option.{option_copied, option_map};
ghost use Rattle.sc_isa.specs.Reading.{instr_of};
ghost use Rattle.sc_isa.specs.Table.{IsSound};
ghost use Rattle.sc_isa_image.specs.Slots.{AreSlots, IsRenewed, IsRenewedTo, slot_address};
ghost use Rattle.sc_isa_image.specs.Texts.{IsOrdered, count_of, text_holding, text_word};

use crate::decoded::Decoded;
use crate::stub::TEXTS;
use crate::text::{Text, TextAt};
use crate::texts::Texts;
use sc_base::NoMemory;
use sc_isa::{Instr, decode};
use std::alloc::Global;
use std::marker::Model;

/// How many words the text area has room for.
const MOST: usize = 0x0100_0000;

/// A text that begins this many words behind the last slot gets no slots.
const GAP: usize = 0x0001_0000;

/// Texts, and slots for the words from the beginning of the area on, as far as there was memory for them. A word that
/// has a slot is found by its address alone, each other one by halving.
#[derive(Drop)]
pub struct Area {
    texts: Texts,
    slots: Vec<Option<Decoded>>,
}

impl Model for Area {
    ghost use Rattle.sc_isa_image.specs.Texts.{Table};
    ghost use Rattle.sc_isa_image.specs.Slots.{AreSlots};

    ghost Value = { Table };

    ghost view = { λ a. a.texts };

    ghost invariant = { λ a. AreSlots a.slots.items a.texts.texts };
}

impl Area {
    ghost use Rattle.sc_isa_image.specs.Texts.{IsFree, holds, place_of, starts_at, text_holding, without};

    /// No text.
    pub fn new(alloc: Global) -> Area
        ensures { result.texts ≡ [] }
    {
        Area {
            texts: Texts::new(alloc),
            slots: Vec::new(alloc),
        }
    }

    /// Makes room for `n` more texts.
    pub fn reserve(&mut self, n: usize) -> Result<(), NoMemory>
        ensures texts { self.new.texts ≡ self.old.texts }
        ensures room { OnOk result (n ≤ self.new.room) }
        ensures kept { self.old.room ≤ self.new.room }
    {
        self.texts.reserve(n)
    }

    /// Puts a text at a range that is free. There is room for it.
    pub fn put(&mut self, t: Text)
        requires room { 0 < self.old.room }
        requires some { 0 < length t.words }
        requires free { IsFree self.old.texts t.at.start (t.at.start + 4 * length t.words) }
        ensures texts { (pc : ℕ) → text_holding self.new.texts pc ≡ (if holds pc t then Some t else text_holding self.old.texts pc) }
        ensures room { self.new.room + 1 ≡ self.old.room }
    {
        let from = slot_of(t.at.start);
        let count = t.words.len();
        self.texts.put(t);
        look_again(&mut self.slots, &self.texts, from, count);
        grow(&mut self.slots, &self.texts, from, count);
    }

    /// Takes away the text that begins at an address.
    pub fn take(&mut self, start: u32)
        requires { IsTrue (starts_at start (place_of (text_holding self.old.texts start))) }
        ensures texts { (pc : ℕ) → text_holding self.new.texts pc ≡ without start (text_holding self.old.texts pc) }
        ensures room { self.old.room + 1 ≡ self.new.room }
    {
        let count = words_at(&self.texts, start);
        self.texts.take(start);
        look_again(&mut self.slots, &self.texts, slot_of(start), count);
    }

    /// Puts another word at an address that has one.
    pub fn set_word(&mut self, pc: u32, word: u32)
        requires { IsSome (text_word self.old.texts pc) }
        ensures words { (q : ℕ) → text_word self.new.texts q ≡ (if q == pc then Some word else text_word self.old.texts q) }
        ensures texts { (q : ℕ) → place_of (text_holding self.new.texts q) ≡ place_of (text_holding self.old.texts q) }
        ensures room { self.new.room ≡ self.old.room }
    {
        self.texts.set_word(pc, word);
        look_again(&mut self.slots, &self.texts, slot_of(pc), 1);
    }

    /// The text that holds an address.
    pub fn find(&self, pc: u32) -> Option<&Text>
        ensures text { option_copied result ≡ text_holding self.now.texts pc }
        ensures held { IfSome result (λ t. t.now.at.start ≤ pc) }
    {
        self.texts.find(pc)
    }

    /// The word at an address.
    #[inline(always)]
    pub fn word(&self, pc: u32) -> Option<u32>
        ensures { result ≡ text_word self.now.texts pc }
    {
        match self.slot(pc) {
            Some(Some(decoded)) => Some(decoded.word()),
            Some(None) => None,
            None => self.texts.word(pc),
        }
    }

    /// The word at an address as an instruction.
    #[inline(always)]
    pub fn instruction(&self, pc: u32) -> Option<Option<Instr>>
        ensures value { result ≡ option_map instr_of (text_word self.now.texts pc) }
        ensures sound { IfSome result (λ r. IfSome r (λ i. IsSound i)) }
    {
        match self.slot(pc) {
            Some(Some(decoded)) => Some(decoded.instruction()),
            Some(None) => None,
            None => decoded_now(&self.texts, pc),
        }
    }

    // The slot of an address, where it has one.
    #[inline(always)]
    fn slot(&self, pc: u32) -> Option<&Option<Decoded>>
        ensures { IfSome result (λ s. s.now ≡ text_word self.now.texts pc) }
    {
        if pc % 4 != 0 || pc < TEXTS {
            return None;
        }
        self.slots.as_slice().get(slot_of(pc))
    }
}

// The place of the slot that has an address of the text area.
#[inline(always)]
fn slot_of(pc: u32) -> usize
    ensures { result ≡ (pc - 0x00100000) / 4 }
{
    (pc.saturating_sub(TEXTS) / 4) as usize
}

// The word at an address as an instruction, where it has no slot.
#[inline(never)]
fn decoded_now(texts: &Texts, pc: u32) -> Option<Option<Instr>>
    ensures value { result ≡ option_map instr_of (text_word texts.now.texts pc) }
    ensures sound { IfSome result (λ r. IfSome r (λ i. IsSound i)) }
{
    match texts.word(pc) {
        Some(word) => Some(decode(word)),
        None => None,
    }
}

// What stands in a slot.
fn decoded_at(texts: &Texts, i: usize) -> Option<Decoded>
    requires { i < 0x01000000 }
    ensures { result ≡ text_word texts.now.texts (slot_address i) }
{
    match texts.word(TEXTS + 4 * i as u32) {
        Some(word) => Some(Decoded::new(word)),
        None => None,
    }
}

// How many words the text that holds an address has.
fn words_at(texts: &Texts, pc: u32) -> usize
    ensures count { result ≡ count_of (text_holding texts.now.texts pc) }
    ensures ordered { IsOrdered texts.now.texts }
{
    match texts.find(pc) {
        Some(text) => text.words.len(),
        None => 0,
    }
}

// Looks up again what stands in the slots from a place on: one for each of this many words, and one more.
#[tactic(auto, using(crate::proofs::Renewed::all_renewed, crate::proofs::Renewed::renewed_past))]
fn look_again(slots: &mut Vec<Option<Decoded>>, texts: &Texts, from: usize, count: usize)
    requires { vec_len slots.old ≤ 0x01000000 }
    ensures { IsRenewed slots.old.items slots.new.items texts.now.texts from count }
{
    if from < slots.len() {
        let end = end_within(from, count, slots.len());
        renew(slots, texts, from, end);
    }
}

// The place behind this many slots and one more, or the end of all.
fn end_within(from: usize, count: usize, len: usize) -> usize
    requires { from < len }
    ensures low { from ≤ result }
    ensures within { result ≤ len }
    ensures near { result ≤ from + count + 1 }
    ensures whole { result ≤ from + count → len ≤ result }
{
    if count < len - from {
        from + count + 1
    } else {
        len
    }
}

fn renew(slots: &mut Vec<Option<Decoded>>, texts: &Texts, from: usize, end: usize)
    requires few { vec_len slots.old ≤ 0x01000000 }
    requires some { from ≤ end }
    requires within { end ≤ vec_len slots.old }
    ensures { IsRenewedTo slots.old.items slots.new.items texts.now.texts from end }
{
    'renewing: for i in from..end {
        slots[i] = decoded_at(texts, i);
    }
}

// Makes slots up to the end of a text, as far as there is memory.
fn grow(slots: &mut Vec<Option<Decoded>>, texts: &Texts, from: usize, count: usize)
    requires { AreSlots slots.old.items texts.now.texts }
    ensures { AreSlots slots.new.items texts.now.texts }
{
    if from < MOST && count < MOST - from && from < slots.len() + GAP {
        grow_to(slots, texts, from + count);
    }
}

fn grow_to(slots: &mut Vec<Option<Decoded>>, texts: &Texts, end: usize)
    requires few { end ≤ 0x01000000 }
    requires right { AreSlots slots.old.items texts.now.texts }
    ensures { AreSlots slots.new.items texts.now.texts }
{
    'growing: while slots.len() < end {
        let slot = decoded_at(texts, slots.len());
        match slots.push(slot) {
            Ok(()) => {}
            Err(_) => return,
        }
    }
}
