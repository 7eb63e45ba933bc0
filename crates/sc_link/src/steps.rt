// The steps of linking, each of which changes one kind of look-up of an image and takes no memory.
ghost use Rattle.std.specs.Prelude.{◌≡◌, ℕ, Some, ◌+◌, ◌^◌, ◌<◌, ◌≤◌, [], ◌∷◌, IsSome, length, reverse, slice_get};
ghost use Rattle.sc_isa_image.specs.Stubs.{jump_words};
ghost use Rattle.sc_isa_image.specs.Lookups.{function_room, functions_of, key_of, text_room, value_room, word_at};
ghost use Rattle.sc_link.specs.Steps.{AreFree, AreNew, AreStubs, PutsFunctions, PutsStatics, PutsTexts, SetsJumps, SetsStub};

use sc_base::{Items, Key};
use sc_isa_image::{Image, Text, jump_stub};

/// Gives keys the next function numbers, in their order. There is room for them.
pub fn put_functions(image: &mut Image, mut keys: Vec<Key>)
    requires room { length keys.items ≤ function_room image.old }
    requires few { length (functions_of image.old) + length keys.items ≤ 65536 }
    requires new { AreNew keys.items image.old }
    ensures { PutsFunctions keys.items image.old image.new }
{
    keys.reverse();
    put_functions_back(image, Items::from_vec(keys));
}

// Gives keys the next function numbers, from the last one on.
fn put_functions_back(image: &mut Image, mut keys: Items<Key>)
    requires room { length keys ≤ function_room image.old }
    requires few { length (functions_of image.old) + length keys ≤ 65536 }
    requires new { AreNew (reverse keys) image.old }
    ensures { PutsFunctions (reverse keys) image.old image.new }
{
    'putting: while let Some(key) = keys.pop() {
        put_function(image, key);
    }
}

// Gives a key the next function number.
fn put_function(image: &mut Image, key: Key)
    requires room { 0 < function_room image.old }
    requires few { length (functions_of image.old) < 65536 }
    requires new { AreNew (key ∷ []) image.old }
    ensures { PutsFunctions (key ∷ []) image.old image.new }
{
    image.put_fun(key);
}

/// Gives keys without a value the first place that a list has for them. There is room for them.
pub fn put_statics(image: &mut Image, mut statics: Vec<(Key, u32)>)
    requires room { length statics.items ≤ value_room image.old }
    ensures { PutsStatics statics.items image.old image.new }
{
    statics.reverse();
    put_statics_back(image, Items::from_vec(statics));
}

// Gives keys without a value the place that a list has for them, from the last one on.
fn put_statics_back(image: &mut Image, mut statics: Items<(Key, u32)>)
    requires room { length statics ≤ value_room image.old }
    ensures { PutsStatics (reverse statics) image.old image.new }
{
    'putting: while let Some(object) = statics.pop() {
        put_static(image, object);
    }
}

// Gives a key a place if it has no value.
fn put_static(image: &mut Image, object: (Key, u32))
    requires room { 0 < value_room image.old }
    ensures { PutsStatics (object ∷ []) image.old image.new }
{
    let (key, at) = object;
    match image.value(&key) {
        Some(_) => drop(key),
        None => image.put_value(key, at),
    }
}

/// Places texts. There is room for them.
pub fn put_texts(image: &mut Image, texts: Vec<Text>)
    requires room { length texts.items ≤ text_room image.old }
    requires free { AreFree texts.items image.old }
    ensures { PutsTexts texts.items image.old image.new }
{
    put_texts_back(image, Items::from_vec(texts));
}

// Places texts, from the last one on.
fn put_texts_back(image: &mut Image, mut texts: Items<Text>)
    requires room { length texts ≤ text_room image.old }
    requires free { AreFree texts image.old }
    ensures { PutsTexts texts image.old image.new }
{
    'putting: while let Some(text) = texts.pop() {
        put_text(image, text);
    }
}

// Places a text, if it has a word.
fn put_text(image: &mut Image, text: Text)
    requires room { 0 < text_room image.old }
    requires free { AreFree (text ∷ []) image.old }
    ensures { PutsTexts (text ∷ []) image.old image.new }
{
    if text.words.is_empty() {
        drop(text);
        return;
    }
    let Text { at, words } = text;
    image.put_text(at, words.into_vec());
}

/// Lets the stubs of functions lead to the first text that a list has for them.
pub fn set_jumps(image: &mut Image, jumps: Vec<(Key, u32)>)
    requires { AreStubs image.old }
    ensures { SetsJumps jumps.items image.old image.new }
{
    set_jumps_back(image, Items::from_vec(jumps));
}

// Lets the stubs of functions lead to texts, from the last one on.
fn set_jumps_back(image: &mut Image, mut jumps: Items<(Key, u32)>)
    requires { AreStubs image.old }
    ensures { SetsJumps jumps image.old image.new }
{
    'setting: while let Some(jump) = jumps.pop() {
        set_jump(image, jump);
    }
}

// Lets the stub of a function lead to a text.
fn set_jump(image: &mut Image, jump: (Key, u32))
    requires { AreStubs image.old }
    ensures { SetsJumps (jump ∷ []) image.old image.new }
{
    let (key, at) = jump;
    if image.is_function(&key) {
        set_function(image, &key, at);
    }
}

// Lets the stub of a key that is a function lead to a text.
fn set_function(image: &mut Image, key: &Key, at: u32)
    requires stubs { AreStubs image.old }
    requires known { (p : ℕ) × (key_of image.old p ≡ Some key.now) }
    ensures { SetsJumps ((key.now, at) ∷ []) image.old image.new }
{
    match image.value(key) {
        Some(stub) => set_stub(image, stub, at),
        None => {}
    }
}

// Puts the words of a stub that leads to a text.
fn set_stub(image: &mut Image, stub: u32, at: u32)
    requires first { IsSome (word_at image.old stub) }
    requires second { IsSome (word_at image.old (stub + 4)) }
    requires small { stub + 4 < 2 ^ 32 }
    ensures { SetsStub stub at image.old image.new }
{
    image.set_word(stub, first_word(at));
    image.set_word(stub + 4, second_word(at));
}

// The first word of a stub that leads to a text.
fn first_word(at: u32) -> u32
    ensures { Some result ≡ slice_get (jump_words at) 0 }
{
    let words = jump_stub(at);
    words[0]
}

// The second word of a stub that leads to a text.
fn second_word(at: u32) -> u32
    ensures { Some result ≡ slice_get (jump_words at) 1 }
{
    let words = jump_stub(at);
    words[1]
}
