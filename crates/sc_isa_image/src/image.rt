// The image of a program.
ghost use Rattle.std.specs.Prelude.{◌≡◌, ◌≢◌, ◌↔◌, ℕ, ◌+◌, ◌*◌, ◌/◌, ◌<◌, ◌≤◌, ◌==◌, [], ◌∷◌, ◌++◌, true, false, length, map, slice_get, if◌then◌else◌, nat_eq, IfSome, IsSome, IsTrue, MatchBool, None, Some, OnOk};
ghost use Rattle.std.specs.Option.{option_copied, option_map};
ghost use Rattle.sc_isa.specs.Reading.{instr_of};
ghost use Rattle.sc_isa.specs.Table.{IsSound};
ghost use Rattle.sc_base.specs.declared.key.Key.{Key as Named};
ghost use Rattle.sc_isa_image.specs.declared.stub.Stub.{Stub as Words};
ghost use Rattle.sc_isa_image.specs.Literals.{literal_of};
ghost use Rattle.sc_isa_image.specs.Stubs.{face, half, led_by, new_stub, set_at, stub_address, stub_word, with_half};
ghost use Rattle.std.specs.Map.{lookup};
ghost use Rattle.indexmap.specs.IndexMap.{spare};
ghost use Rattle.sc_isa_image.specs.Texts.{holds, starts_at, text_with, word_in};
ghost use Rattle.sc_isa_image.specs.Lookups.{SameKeys, SameLiterals, SameTargets, SameTexts, SameValues, SameWords, Spends, and_more, function_room, functions_of, is_stub_of, key_eq, key_of, literal_in, literal_room, stub_value, target_of, text_at, text_room, value_of, value_room, word_at, written_of};

use crate::area::Area;
use crate::decoded::Decoded;
use crate::literals::{Literal, Literals};
use crate::stub::{STUBS, Stub, TEXTS, call_stub, led, stub_at};
use crate::text::{Text, TextAt};
use indexmap::IndexMap;
use sc_base::{Bytes, Items, Key, Name, NoMemory};
use sc_isa::Instr;
use std::alloc::Global;
use std::collections::HashMap;

/// The image of a program: words by address, of placed texts and of the stubs of functions; keys by the addresses of
/// stubs; the values of keys; and the places of literals. It counts the words that were written, as far as 2^64 - 1.
#[derive(Drop)]
pub struct Image {
    texts: Area,
    functions: IndexMap<Key, Stub>,
    values: HashMap<Key, u32>,
    literals: Literals,
    written: u64,
}

impl Image {
    /// The word at an address: `None` exactly where the image has none.
    pub fn word(&self, pc: u32) -> Option<u32>
        ensures { result ≡ word_at self.now pc }
    {
        if pc < TEXTS {
            stub_word_of(&self.functions, pc)
        } else {
            self.texts.word(pc)
        }
    }

    /// The word at an address as an instruction, decoded when it was written: `None` exactly where the image has no
    /// word, and `Some(None)` for a word that is no instruction.
    #[inline(always)]
    pub fn instruction(&self, pc: u32) -> Option<Option<Instr>>
        ensures value { result ≡ option_map instr_of (word_at self.now pc) }
        ensures sound { IfSome result (λ r. IfSome r (λ i. IsSound i)) }
    {
        if pc < TEXTS {
            stub_instruction_of(&self.functions, pc)
        } else {
            self.texts.instruction(pc)
        }
    }

    /// The value of a key: a function's is its stub, an object's its place.
    pub fn value(&self, k: &Key) -> Option<u32>
        ensures { result ≡ value_of self.now k.now }
    {
        match self.values.get(k) {
            Some(at) => Some(*at),
            None => match self.functions.get(k) {
                Some(stub) => stub.value,
                None => None,
            },
        }
    }

    /// The text to which a function's stub leads: `None` for a stub that asks for a service, and for a key without one.
    pub fn target(&self, k: &Key) -> Option<u32>
        ensures { result ≡ target_of self.now k.now }
    {
        match self.functions.get(k) {
            Some(stub) => led(stub.first.word(), stub.second.word()),
            None => None,
        }
    }

    /// How many words were written since the image was made.
    pub fn written(&self) -> u64
        ensures { result ≡ written_of self.now }
    {
        self.written
    }

    /// The place of a literal, by its module and its bytes.
    pub fn literal(&self, module: &Name, bytes: &[u8]) -> Option<u32>
        ensures { (at : ℕ) → (result ≡ Some at) ↔ (literal_in self.now at ≡ Some (literal_of «module».now bytes.now)) }
    {
        self.literals.find(module, bytes)
    }

    /// The function whose stub begins at an address.
    pub fn key_of(&self, stub: u32) -> Option<&Key>
        ensures { option_copied result ≡ key_of self.now stub }
    {
        if stub % 8 != 0 {
            return None;
        }
        let n = stub_at(stub)?;
        let (key, _) = self.functions.get_index(n as usize)?;
        Some(key)
    }

    /// How many functions have a number.
    pub fn functions(&self) -> usize
        ensures { result ≡ length (functions_of self.now) }
    {
        self.functions.len()
    }

    /// Whether a key has a function number.
    pub fn is_function(&self, k: &Key) -> bool
        ensures { MatchBool result ((at : ℕ) × (key_of self.now at ≡ Some k.now)) ((at : ℕ) → key_of self.now at ≢ Some k.now) }
    {
        self.functions.contains_key(k)
    }

    /// The placed text that holds an address.
    pub fn text_at(&self, pc: u32) -> Option<&TextAt>
        ensures { option_copied result ≡ text_at self.now pc }
    {
        if pc < TEXTS {
            return None;
        }
        match self.texts.find(pc) {
            Some(text) => Some(&text.at),
            None => None,
        }
    }
}

impl Image {
    ghost use Rattle.sc_isa_image.specs.Lookups.{IsBlank};

    /// An image in which nothing is, and which takes no memory.
    pub fn new(alloc: Global) -> Image
        ensures { IsBlank result }
    {
        Image {
            texts: Area::new(alloc),
            functions: IndexMap::new(alloc),
            values: HashMap::new(alloc),
            literals: Literals::new(alloc),
            written: 0,
        }
    }

    /// Makes room for this many more texts, values, literals and functions, and changes no look-up. Within the room
    /// that there is a change takes no memory.
    pub fn make_room(
        &mut self,
        texts: usize,
        values: usize,
        literals: usize,
        functions: usize,
    ) -> Result<(), NoMemory>
        ensures room { OnOk result ((texts ≤ text_room self.new) × (values ≤ value_room self.new) × (literals ≤ literal_room self.new) × (functions ≤ function_room self.new)) }
        ensures kept { Spends self.old self.new 0 0 0 0 }
        ensures count { length (functions_of self.new) ≡ length (functions_of self.old) }
        ensures words { SameWords self.old self.new }
        ensures texts { SameTexts self.old self.new }
        ensures keys { SameKeys self.old self.new }
        ensures values { SameValues self.old self.new }
        ensures literals { SameLiterals self.old self.new }
        ensures targets { SameTargets self.old self.new }
        ensures written { written_of self.new ≡ written_of self.old }
    {
        self.texts.reserve(texts)?;
        self.values.reserve(values)?;
        self.literals.reserve(literals)?;
        self.functions.reserve(functions)?;
        Ok(())
    }

    /// Places a text with its words, inside the text area and where no text is. There is room for it.
    pub fn put_text(&mut self, t: TextAt, words: Vec<u32>)
        requires room { 0 < text_room self.old }
        requires low { 0x00100000 ≤ t.start }
        requires high { t.start + 4 * length words.items ≤ 0x04100000 }
        requires some { 0 < length words.items }
        requires free { (pc : ℕ) → t.start ≤ pc → pc < t.start + 4 * length words.items → text_at self.old pc ≡ None }
        ensures words { (pc : ℕ) → word_at self.new pc ≡ (if holds pc (text_with t words.items) then word_in pc (text_with t words.items) else word_at self.old pc) }
        ensures texts { (pc : ℕ) → text_at self.new pc ≡ (if holds pc (text_with t words.items) then Some t else text_at self.old pc) }
        ensures count { length (functions_of self.new) ≡ length (functions_of self.old) }
        ensures keys { SameKeys self.old self.new }
        ensures values { SameValues self.old self.new }
        ensures literals { SameLiterals self.old self.new }
        ensures targets { SameTargets self.old self.new }
        ensures written { written_of self.new ≡ and_more (written_of self.old) (length words.items) }
        ensures room { Spends self.old self.new 1 0 0 0 }
    {
        self.written = self.written.saturating_add(words.len() as u64);
        let words = Items::from_vec(words);
        self.texts.put(Text { at: t, words });
    }

    /// Takes away the text that begins at an address.
    pub fn take_text(&mut self, start: u32)
        requires { IsTrue (starts_at start (text_at self.old start)) }
        ensures words { (pc : ℕ) → word_at self.new pc ≡ (if starts_at start (text_at self.old pc) then None else word_at self.old pc) }
        ensures texts { (pc : ℕ) → text_at self.new pc ≡ (if starts_at start (text_at self.old pc) then None else text_at self.old pc) }
        ensures count { length (functions_of self.new) ≡ length (functions_of self.old) }
        ensures keys { SameKeys self.old self.new }
        ensures values { SameValues self.old self.new }
        ensures literals { SameLiterals self.old self.new }
        ensures targets { SameTargets self.old self.new }
        ensures written { written_of self.new ≡ written_of self.old }
        ensures room { Spends self.old self.new 0 0 0 0 }
    {
        self.texts.take(start);
    }

    /// Gives a key a value, which it does not have yet. There is room for it.
    pub fn put_value(&mut self, k: Key, at: u32)
        requires room { 0 < value_room self.old }
        requires absent { value_of self.old k ≡ None }
        ensures values { (q : Named) → value_of self.new q ≡ (if key_eq k q then Some at else value_of self.old q) }
        ensures words { SameWords self.old self.new }
        ensures texts { SameTexts self.old self.new }
        ensures count { length (functions_of self.new) ≡ length (functions_of self.old) }
        ensures keys { SameKeys self.old self.new }
        ensures literals { SameLiterals self.old self.new }
        ensures targets { SameTargets self.old self.new }
        ensures written { written_of self.new ≡ written_of self.old }
        ensures room { Spends self.old self.new 0 1 0 0 }
    {
        let _ = self.values.insert(k, at);
    }

    /// Places a literal that has no place, where no literal is. There is room for it.
    pub fn put_literal(&mut self, module: Name, bytes: Bytes, at: u32)
        requires room { 0 < literal_room self.old }
        requires free { literal_in self.old at ≡ None }
        requires absent { (p : ℕ) → literal_in self.old p ≢ Some (literal_of «module» bytes) }
        ensures literals { (p : ℕ) → literal_in self.new p ≡ (if nat_eq at p then Some (literal_of «module» bytes) else literal_in self.old p) }
        ensures targets { SameTargets self.old self.new }
        ensures written { written_of self.new ≡ written_of self.old }
        ensures words { SameWords self.old self.new }
        ensures texts { SameTexts self.old self.new }
        ensures count { length (functions_of self.new) ≡ length (functions_of self.old) }
        ensures keys { SameKeys self.old self.new }
        ensures values { SameValues self.old self.new }
        ensures room { Spends self.old self.new 0 0 1 0 }
    {
        self.literals.put(at, Literal { module, bytes });
    }

    /// Takes away the literal at a place.
    pub fn take_literal(&mut self, at: u32)
        requires { IsSome (literal_in self.old at) }
        ensures literals { (p : ℕ) → literal_in self.new p ≡ (if nat_eq at p then None else literal_in self.old p) }
        ensures targets { SameTargets self.old self.new }
        ensures written { written_of self.new ≡ written_of self.old }
        ensures words { SameWords self.old self.new }
        ensures texts { SameTexts self.old self.new }
        ensures count { length (functions_of self.new) ≡ length (functions_of self.old) }
        ensures keys { SameKeys self.old self.new }
        ensures values { SameValues self.old self.new }
        ensures room { Spends self.old self.new 0 0 0 0 }
    {
        self.literals.take(at);
    }
}

impl Image {
    ghost use Rattle.sc_isa_image.specs.Stubs.{call_words};

    /// Gives a key the next function number, counted from 0, with a stub of the form of `call_stub`, which is its value.
    /// There is room for it, and there are fewer than 65,536 functions.
    pub fn put_fun(&mut self, k: Key)
        requires room { 0 < function_room self.old }
        requires few { length (functions_of self.old) < 65536 }
        requires new { (at : ℕ) → key_of self.old at ≢ Some k }
        requires absent { value_of self.old k ≡ None }
        ensures count { length (functions_of self.new) ≡ length (functions_of self.old) + 1 }
        ensures keys { (at : ℕ) → key_of self.new at ≡ (if at == stub_address (length (functions_of self.old)) then Some k else key_of self.old at) }
        ensures values { (q : Named) → value_of self.new q ≡ (if key_eq k q then Some (stub_address (length (functions_of self.old))) else value_of self.old q) }
        ensures words { (pc : ℕ) → word_at self.new pc ≡ (if pc == stub_address (length (functions_of self.old)) then slice_get call_words 0 else if pc == stub_address (length (functions_of self.old)) + 4 then slice_get call_words 1 else word_at self.old pc) }
        ensures texts { SameTexts self.old self.new }
        ensures literals { SameLiterals self.old self.new }
        ensures targets { (q : Named) → target_of self.new q ≡ (if key_eq k q then None else target_of self.old q) }
        ensures written { written_of self.new ≡ and_more (written_of self.old) 2 }
        ensures room { Spends self.old self.new 0 0 0 1 }
    {
        add_function(&mut self.functions, k);
        self.written = self.written.saturating_add(2);
    }

    /// Takes the value of a key away.
    pub fn take_value(&mut self, k: &Key)
        requires { IsSome (value_of self.old k.now) }
        ensures values { (q : Named) → value_of self.new q ≡ (if key_eq k.now q then None else value_of self.old q) }
        ensures count { length (functions_of self.new) ≡ length (functions_of self.old) }
        ensures words { SameWords self.old self.new }
        ensures texts { SameTexts self.old self.new }
        ensures keys { SameKeys self.old self.new }
        ensures literals { SameLiterals self.old self.new }
        ensures targets { SameTargets self.old self.new }
        ensures written { written_of self.new ≡ written_of self.old }
        ensures room { Spends self.old self.new 0 0 0 0 }
    {
        let _ = self.values.remove(k);
        forget_value(&mut self.functions, k);
    }

    /// Puts another word at an address that has one, in a text or in a stub.
    pub fn set_word(&mut self, pc: u32, word: u32)
        requires { IsSome (word_at self.old pc) }
        ensures words { (q : ℕ) → word_at self.new q ≡ (if q == pc then Some word else word_at self.old q) }
        ensures count { length (functions_of self.new) ≡ length (functions_of self.old) }
        ensures texts { SameTexts self.old self.new }
        ensures keys { SameKeys self.old self.new }
        ensures values { SameValues self.old self.new }
        ensures literals { SameLiterals self.old self.new }
        ensures targets { (q : Named) → target_of self.new q ≡ (if is_stub_of self.old q pc then led_by (word_at self.new (pc / 8 * 8)) (word_at self.new (pc / 8 * 8 + 4)) else target_of self.old q) }
        ensures written { written_of self.new ≡ and_more (written_of self.old) 1 }
        ensures room { Spends self.old self.new 0 0 0 0 }
    {
        self.written = self.written.saturating_add(1);
        if pc >= TEXTS {
            self.texts.set_word(pc, word);
        } else if let Some(n) = stub_at(pc) {
            set_half(&mut self.functions, n as usize, pc % 8 == 0, word);
        }
    }
}

// Appends a function with a stub. There is room for it.
fn add_function(functions: &mut IndexMap<Key, Stub>, k: Key)
    requires room { 0 < spare functions.old }
    requires few { length functions.old.entries < 65536 }
    requires new { lookup (key_eq k) functions.old.entries ≡ None }
    ensures entries { functions.new.entries ≡ functions.old.entries ++ (k, new_stub (length functions.old.entries)) ∷ [] }
    ensures found { (q : Named) → lookup (key_eq q) functions.new.entries ≡ (if key_eq k q then Some (new_stub (length functions.old.entries)) else lookup (key_eq q) functions.old.entries) }
    ensures room { spare functions.old ≤ spare functions.new + 1 }
{
    let stub = fresh_stub(functions.len() as u32);
    let _ = functions.insert(k, stub);
}

// The stub of a new function.
fn fresh_stub(n: u32) -> Stub
    requires { n < 65536 }
    ensures { result ≡ new_stub n }
{
    let words = call_stub();
    Stub {
        value: Some(STUBS + 8 * n),
        first: Decoded::new(words[0]),
        second: Decoded::new(words[1]),
    }
}

// A function's stub is no longer its value.
fn forget_value(functions: &mut IndexMap<Key, Stub>, k: &Key)
    ensures faces { map face functions.new.entries ≡ map face functions.old.entries }
    ensures value { stub_value (lookup (key_eq k.now) functions.new.entries) ≡ None }
    ensures others { (q : Named) → key_eq k.now q ≡ false → lookup (key_eq q) functions.new.entries ≡ lookup (key_eq q) functions.old.entries }
    ensures same { (q : Named) → key_eq k.now q ≡ true → stub_value (lookup (key_eq q) functions.new.entries) ≡ None }
    ensures room { spare functions.old ≤ spare functions.new }
{
    if let Some(stub) = functions.get_mut(k) {
        stub.value = None;
    }
}

// Puts a word into a stub, its first one or its second.
fn set_half(functions: &mut IndexMap<Key, Stub>, n: usize, first: bool, word: u32)
    ensures entries { functions.new.entries ≡ set_at functions.old.entries n first word }
    ensures found { (k : Named) (s : Words) → slice_get functions.old.entries n ≡ Some (k, s) → (q : Named) → lookup (key_eq q) functions.new.entries ≡ (if key_eq k q then Some (with_half first word s) else lookup (key_eq q) functions.old.entries) }
    ensures room { spare functions.old ≤ spare functions.new }
{
    if let Some(stub) = functions.get_index_mut(n) {
        if first {
            stub.first = Decoded::new(word);
        } else {
            stub.second = Decoded::new(word);
        }
    }
}

// The word at an address in a stub.
fn stub_word_of(functions: &IndexMap<Key, Stub>, pc: u32) -> Option<u32>
    ensures { result ≡ stub_word functions.now.entries pc }
{
    let n = stub_at(pc)?;
    let (_, stub) = functions.get_index(n as usize)?;
    Some(half_of(stub, pc).word())
}

// The instruction at an address in a stub.
fn stub_instruction_of(functions: &IndexMap<Key, Stub>, pc: u32) -> Option<Option<Instr>>
    ensures value { result ≡ option_map instr_of (stub_word functions.now.entries pc) }
    ensures sound { IfSome result (λ r. IfSome r (λ i. IsSound i)) }
{
    let n = stub_at(pc)?;
    let (_, stub) = functions.get_index(n as usize)?;
    Some(half_of(stub, pc).instruction())
}

// The word of a stub that an address is of.
fn half_of(stub: &Stub, pc: u32) -> &Decoded
    ensures { result.now ≡ half pc stub.now }
{
    if pc % 8 == 0 {
        &stub.first
    } else {
        &stub.second
    }
}
