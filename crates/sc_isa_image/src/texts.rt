// The placed texts, in the order of their addresses.
ghost use Rattle.std.specs.Prelude.{◌≡◌, ◌+◌, ◌*◌, ◌/◌, ◌<◌, ◌≤◌, ◌==◌, ◌-◌, ℕ, [], length, if◌then◌else◌, IfSome, IsSome, IsTrue, None, Some, OnOk, OnErr, insert, slice_get, vec_capacity, vec_len};
ghost use Rattle.std.specs.Option.{option_copied};
ghost use Rattle.sc_isa_image.specs.declared.text.Text.{Text as Placed};
ghost use Rattle.sc_isa_image.specs.Texts.{IsOrdered, with_word, word_in};

use crate::text::{Text, TextAt};
use sc_base::{Items, NoMemory};
use std::alloc::Global;
use std::marker::Model;

/// Texts whose ranges have no byte in common, in the order of their addresses.
#[derive(Drop)]
pub struct Texts {
    texts: Vec<Text>,
}

impl Model for Texts {
    ghost use Rattle.std.specs.Prelude.{◌-◌, vec_len, vec_capacity};
    ghost use Rattle.sc_isa_image.specs.Texts.{Table, IsOrdered};

    ghost Value = { Table };

    ghost view = { λ s. record { texts = s.texts.items; room = vec_capacity s.texts - vec_len s.texts } };

    ghost invariant = { λ s. IsOrdered s.texts.items };
}

impl Texts {
    ghost use Rattle.sc_isa_image.specs.Texts.{IsFree, holds, place_of, starts_at, text_holding, text_word, without};

    /// No text.
    pub fn new(alloc: Global) -> Texts
        ensures { result.texts ≡ [] }
    {
        Texts {
            texts: Vec::new(alloc),
        }
    }

    /// Makes room for `n` more texts.
    pub fn reserve(&mut self, n: usize) -> Result<(), NoMemory>
        ensures texts { self.new.texts ≡ self.old.texts }
        ensures room { OnOk result (n ≤ self.new.room) }
        ensures kept { self.old.room ≤ self.new.room }
    {
        self.texts.reserve(n)?;
        Ok(())
    }

    /// Puts a text at a range that is free. There is room for it.
    pub fn put(&mut self, t: Text)
        requires room { 0 < self.old.room }
        requires some { 0 < length t.words }
        requires free { IsFree self.old.texts t.at.start (t.at.start + 4 * length t.words) }
        ensures texts { (pc : ℕ) → text_holding self.new.texts pc ≡ (if holds pc t then Some t else text_holding self.old.texts pc) }
        ensures room { self.new.room + 1 ≡ self.old.room }
    {
        let i = rank(self.texts.as_slice(), t.at.start);
        insert_text(&mut self.texts, i, t);
    }

    /// Takes away the text that begins at an address.
    pub fn take(&mut self, start: u32)
        requires { IsTrue (starts_at start (place_of (text_holding self.old.texts start))) }
        ensures texts { (pc : ℕ) → text_holding self.new.texts pc ≡ without start (text_holding self.old.texts pc) }
        ensures room { self.old.room + 1 ≡ self.new.room }
    {
        let i = rank(self.texts.as_slice(), start);
        let _ = self.texts.remove(i - 1);
    }

    /// Puts another word at an address that has one.
    pub fn set_word(&mut self, pc: u32, word: u32)
        requires { IsSome (text_word self.old.texts pc) }
        ensures words { (q : ℕ) → text_word self.new.texts q ≡ (if q == pc then Some word else text_word self.old.texts q) }
        ensures texts { (q : ℕ) → place_of (text_holding self.new.texts q) ≡ place_of (text_holding self.old.texts q) }
        ensures room { self.new.room ≡ self.old.room }
    {
        let i = rank(self.texts.as_slice(), pc);
        set_word_of(&mut self.texts[i - 1], pc, word);
    }

    /// The text that holds an address.
    pub fn find(&self, pc: u32) -> Option<&Text>
        ensures text { option_copied result ≡ text_holding self.now.texts pc }
        ensures held { IfSome result (λ t. t.now.at.start ≤ pc) }
        ensures ordered { IsOrdered self.now.texts }
    {
        let i = rank(self.texts.as_slice(), pc);
        if i == 0 {
            return None;
        }
        let text = &self.texts[i - 1];
        if ((pc - text.at.start) / 4) as usize >= text.words.len() {
            return None;
        }
        Some(text)
    }

    /// The word at an address.
    pub fn word(&self, pc: u32) -> Option<u32>
        ensures { result ≡ text_word self.now.texts pc }
    {
        match self.find(pc) {
            Some(text) => word_of(text, pc),
            None => None,
        }
    }
}

// The word at an address of a text.
fn word_of(text: &Text, pc: u32) -> Option<u32>
    requires { text.now.at.start ≤ pc }
    ensures { result ≡ word_in pc text.now }
{
    let offset = pc - text.at.start;
    if offset % 4 == 0 {
        text.words.as_slice().get((offset / 4) as usize).copied()
    } else {
        None
    }
}

// Puts another word at an address of a text.
fn set_word_of(text: &mut Text, pc: u32, word: u32)
    requires start { text.old.at.start ≤ pc }
    requires within { (pc - text.old.at.start) / 4 < length text.old.words }
    ensures { text.new ≡ with_word text.old pc word }
{
    let place = ((pc - text.at.start) / 4) as usize;
    text.words.set(place, word);
}

// Puts a text at a place of a list with room for it.
fn insert_text(texts: &mut Vec<Text>, i: usize, t: Text)
    requires place { i ≤ vec_len texts.old }
    requires room { vec_len texts.old < vec_capacity texts.old }
    ensures items { texts.new.items ≡ insert texts.old.items i t }
    ensures len { vec_len texts.new ≡ vec_len texts.old + 1 }
    ensures capacity { vec_capacity texts.new ≡ vec_capacity texts.old }
{
    let _ = texts.insert(i, t);
}

// How many texts begin at an address or before it.
fn rank(texts: &[Text], pc: u32) -> usize
    requires { IsOrdered texts.now }
    ensures bound { result ≤ length texts.now }
    ensures below { (k : ℕ) (t : Placed) → slice_get texts.now k ≡ Some t → k < result → t.at.start ≤ pc }
    ensures above { (k : ℕ) (t : Placed) → slice_get texts.now k ≡ Some t → result ≤ k → pc < t.at.start }
{
    let mut low = 0;
    let mut high = texts.len();
    'search: while low < high {
        let middle = low + (high - low) / 2;
        if texts[middle].at.start <= pc {
            low = middle + 1;
        } else {
            high = middle;
        }
    }
    low
}
