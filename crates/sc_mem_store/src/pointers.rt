// Words as values, and values as words.
ghost use Rattle.std.specs.Prelude.{◌≡◌, ◌+◌, ◌*◌, ◌<◌, [], Some, None, slice_get, IfOk, IfSome, IsTrue, MatchOption};
ghost use Rattle.sc_meaning.specs.Beside as words;
ghost use Rattle.sc_meaning.specs.Values as spec;
ghost use Rattle.sc_mem_store.specs.Holding.{function_of, function_or, value_at, IsTag};
ghost use Rattle.sc_mem_store.specs.Living.{IsTagAt};

use sc_base::{Key, NoMemory, Shared, Word};
use sc_meaning_values::{Shape, Value};
use sc_mem::Memory;

/// Where the stubs of functions begin, each of eight bytes.
const STUBS: u32 = 0x0001_0000;

/// The stubs that there may be.
const MOST: u32 = 65536;

// The function whose stub begins at an address.
fn function_at(functions: &[Shared<Key>], address: u32) -> Option<&Shared<Key>>
    ensures { MatchOption result (function_of functions.now address ≡ None) (λ key. function_of functions.now address ≡ Some key.now) }
{
    if address < STUBS || address % 8 != 0 {
        return None;
    }
    functions.get((address - STUBS) as usize / 8)
}

/// The tag of what stands at an address: that of functions at a function's stub, else the number of the live object that has
/// the byte there or ends just in front of it.
pub fn tag_at(functions: &[Shared<Key>], memory: &Memory, address: u32) -> Option<u32>
    ensures { IsTagAt functions.now memory.now.flat.objects address result }
{
    match function_at(functions, address) {
        Some(_) => Some(Word::FUNCTION),
        None => memory.at(address),
    }
}

// The value of a word with the functions' tag.
fn function_value(functions: &[Shared<Key>], address: u32) -> Result<Value, NoMemory>
    ensures { IfOk result (λ v. v ≡ function_or (function_of functions.now address) address) }
{
    match function_at(functions, address) {
        None => Ok(Value::pointer(0, address)),
        Some(key) => Ok(Value::function(key.share()?)),
    }
}

/// The value of a word by its tag and address.
pub fn value_of(
    functions: &[Shared<Key>],
    memory: &Memory,
    tag: u32,
    address: u32,
) -> Result<Value, NoMemory>
    ensures { IfOk result (λ v. v ≡ value_at functions.now memory.now.flat.objects tag address) }
{
    if tag == 0 {
        return Ok(Value::number(address));
    }
    if tag == Word::FUNCTION {
        return function_value(functions, address);
    }
    match memory.find(tag) {
        None => Ok(Value::pointer(0, address)),
        Some(object) => Ok(Value::pointer(tag, address.wrapping_sub(object.base))),
    }
}

// Whether two keys are one.
#[tactic(auto, using(crate::proofs::Keys::same_key, crate::proofs::Keys::key_tests))]
fn is_same(a: &Key, b: &Key) -> bool
    ensures same { IsTrue result → a.now ≡ b.now }
    ensures test { result ≡ spec.same_key a.now b.now }
{
    *a == *b
}

// The number of a function.
#[tactic(auto, using(crate::proofs::Words::stub_on, crate::proofs::Words::stub_here))]
fn number_of(functions: &[Shared<Key>], key: &Key) -> Option<u32>
    ensures number { IfSome result (λ n. slice_get functions.now n ≡ Some key.now) }
    ensures few { IfSome result (λ n. n < 65536) }
    ensures stub { IfSome result (λ n. words.stub_from 65536 functions.now key.now ≡ 65536 + 8 * n) }
{
    let mut n = 0;
    while n < functions.len() && n < MOST as usize {
        if is_same(functions[n].get(), key) {
            return Some(n as u32);
        }
        n += 1;
    }
    None
}

// The word of a function.
#[tactic(auto, using(crate::proofs::Words::stub_word, crate::proofs::Words::stub_written))]
fn function_word(functions: &[Shared<Key>], key: &Shared<Key>) -> Result<Word, NoMemory>
    ensures stands { IfOk result (λ w. (w.tag ≡ Word.FUNCTION) × (function_of functions.now w.bits ≡ Some key.now)) }
    ensures word { IfOk result (λ w. w ≡ words.word_of functions.now [] (spec.FunctionAt key.now)) }
{
    match number_of(functions, key.get()) {
        None => Err(NoMemory),
        Some(number) => Ok(Word {
            bits: STUBS + 8 * number,
            tag: Word::FUNCTION,
        }),
    }
}

// The word of an address with the functions' tag, which is no stub of a function.
fn stray_word(functions: &[Shared<Key>], address: u32) -> Result<Word, NoMemory>
    ensures { IfOk result (λ w. (w.tag ≡ Word.FUNCTION) × (w.bits ≡ address) × (function_of functions.now w.bits ≡ None)) }
{
    match function_at(functions, address) {
        Some(_) => Err(NoMemory),
        None => Ok(Word {
            bits: address,
            tag: Word::FUNCTION,
        }),
    }
}

/// The word of a value.
///
/// # Errors
///
/// `NoMemory` also for a function without a number and for a place in an object that was not born, which no run has.
#[tactic(auto, using(crate::proofs::Words::number_stands, crate::proofs::Words::function_stands, crate::proofs::Words::stray_stands, crate::proofs::Words::stray_word))]
pub fn word_of(functions: &[Shared<Key>], memory: &Memory, v: &Value) -> Result<Word, NoMemory>
    ensures value { IfOk result (λ w. value_at functions.now memory.now.flat.objects w.tag w.bits ≡ v.now) }
    ensures tag { IfOk result (λ w. IsTag memory.now.flat.objects w.tag) }
    ensures word { IfOk result (λ w. w ≡ words.word_of functions.now memory.now.flat.objects v.now) }
{
    match &v.shape {
        Shape::Number(bits) => Ok(Word {
            bits: *bits,
            tag: 0,
        }),
        Shape::FunctionAt(key) => function_word(functions, key),
        Shape::Pointer(0, address) => stray_word(functions, *address),
        Shape::Pointer(o, i) => place_word(functions, memory, *o, *i),
    }
}

// The word of a place in an object.
#[tactic(auto, using(crate::proofs::Words::place_stands, crate::proofs::Words::place_written))]
fn place_word(
    functions: &[Shared<Key>],
    memory: &Memory,
    id: u32,
    offset: u32,
) -> Result<Word, NoMemory>
    ensures value { IfOk result (λ w. value_at functions.now memory.now.flat.objects w.tag w.bits ≡ spec.Pointer id offset) }
    ensures tag { IfOk result (λ w. IsTag memory.now.flat.objects w.tag) }
    ensures word { IfOk result (λ w. w ≡ words.word_of functions.now memory.now.flat.objects (spec.Pointer id offset)) }
{
    if id == 0 || id == Word::FUNCTION {
        return Err(NoMemory);
    }
    let Some(object) = memory.find(id) else {
        return Err(NoMemory);
    };
    Ok(Word {
        bits: object.base.wrapping_add(offset),
        tag: id,
    })
}
