// How values are shown: numbers, pointers and functions.
ghost use Rattle.std.specs.Prelude.{◌≡◌, ◌++◌, IfOk, codes, decimal};
ghost use Rattle.std.specs.Fmt.{signed_decimal};
ghost use Rattle.sc_meaning.specs.World.{object_at as at};
ghost use Rattle.sc_session_texts.specs.Places as spec;
ghost use Rattle.sc_session_texts.specs.Words.{key_text};

use crate::word::{put, put_decimal, put_key, put_signed};
use sc_base::{Int, Key, NoMemory};
use sc_interp_access::number_of;
use sc_interp_world::Store;
use sc_meaning_values::{Shape, Value};
use std::alloc::Global;

/// How a number is shown: as one of an integer type; as the 32 bits without a sign; or the same, and `null` for 0.
#[derive(Clone, Copy, Debug, PartialEq, Eq)]
pub enum Shown {
    Integer(Int),
    Bits,
    Address,
}

/// A number, as it is to be shown.
pub fn number_text(alloc: Global, how: Shown, n: u32) -> Result<Vec<u8>, NoMemory>
    ensures { IfOk result (λ text. text.items ≡ spec.number_text how n) }
{
    match how {
        Shown::Integer(i) => integer_text(alloc, number_of(i, n)),
        Shown::Bits => decimal_text(alloc, n),
        Shown::Address => address_text(alloc, n),
    }
}

fn integer_text(alloc: Global, n: i64) -> Result<Vec<u8>, NoMemory>
    ensures { IfOk result (λ text. text.items ≡ signed_decimal n) }
{
    let mut text = Vec::new(alloc);
    put_signed(&mut text, alloc, n)?;
    Ok(text)
}

fn decimal_text(alloc: Global, n: u32) -> Result<Vec<u8>, NoMemory>
    ensures { IfOk result (λ text. text.items ≡ decimal n) }
{
    let mut text = Vec::new(alloc);
    put_decimal(&mut text, alloc, n)?;
    Ok(text)
}

fn null_text(alloc: Global) -> Result<Vec<u8>, NoMemory>
    ensures { IfOk result (λ text. text.items ≡ codes "null") }
{
    let mut text = Vec::new(alloc);
    put(&mut text, b"null")?;
    Ok(text)
}

fn address_text(alloc: Global, n: u32) -> Result<Vec<u8>, NoMemory>
    ensures { IfOk result (λ text. text.items ≡ spec.number_text Shown.Address n) }
{
    if n == 0 {
        null_text(alloc)
    } else {
        decimal_text(alloc, n)
    }
}

// Nothing for an object that lives.
fn life_text(objects: &Store, id: u32) -> &'static [u8]
    ensures { result.now ≡ spec.life_text (at objects.now.objects id) }
{
    match objects.find(id) {
        Some(o) => { if o.live { b"" } else { b"dead " } }
        None => b"dead ",
    }
}

fn function_text(alloc: Global, key: &Key) -> Result<Vec<u8>, NoMemory>
    ensures { IfOk result (λ text. text.items ≡ codes "function " ++ key_text key.now) }
{
    let mut text = Vec::new(alloc);
    put(&mut text, b"function ")?;
    put_key(&mut text, alloc, key)?;
    Ok(text)
}

fn pointer_text(alloc: Global, objects: &Store, o: u32, i: u32) -> Result<Vec<u8>, NoMemory>
    ensures { IfOk result (λ text. text.items ≡ spec.pointer_text objects.now.objects o i) }
{
    let mut text = Vec::new(alloc);
    put(&mut text, life_text(objects, o))?;
    put(&mut text, b"object ")?;
    put_decimal(&mut text, alloc, o)?;
    put(&mut text, b" + ")?;
    put_decimal(&mut text, alloc, i)?;
    Ok(text)
}

/// A value.
pub fn value_text(
    alloc: Global,
    objects: &Store,
    how: Shown,
    v: &Value,
) -> Result<Vec<u8>, NoMemory>
    ensures { IfOk result (λ text. text.items ≡ spec.value_text objects.now.objects how v.now) }
{
    match &v.shape {
        Shape::Number(n) => number_text(alloc, how, *n),
        Shape::FunctionAt(key) => function_text(alloc, key.get()),
        Shape::Pointer(o, i) => pointer_text(alloc, objects, *o, *i),
    }
}

fn place_text(alloc: Global, o: u32, i: u32) -> Result<Vec<u8>, NoMemory>
    ensures { IfOk result (λ text. text.items ≡ codes "object " ++ decimal o ++ codes " offset " ++ decimal i) }
{
    let mut text = Vec::new(alloc);
    put(&mut text, b"object ")?;
    put_decimal(&mut text, alloc, o)?;
    put(&mut text, b" offset ")?;
    put_decimal(&mut text, alloc, i)?;
    Ok(text)
}

fn no_place_text(alloc: Global, n: u32) -> Result<Vec<u8>, NoMemory>
    ensures { IfOk result (λ text. text.items ≡ spec.no_place_text n) }
{
    if n == 0 {
        null_text(alloc)
    } else {
        numbered_text(alloc, n)
    }
}

fn numbered_text(alloc: Global, n: u32) -> Result<Vec<u8>, NoMemory>
    ensures { IfOk result (λ text. text.items ≡ codes "number " ++ decimal n) }
{
    let mut text = Vec::new(alloc);
    put(&mut text, b"number ")?;
    put_decimal(&mut text, alloc, n)?;
    Ok(text)
}

/// The place of an access.
pub fn access_text(alloc: Global, v: &Value) -> Result<Vec<u8>, NoMemory>
    ensures { IfOk result (λ text. text.items ≡ spec.access_text v.now) }
{
    match &v.shape {
        Shape::Number(n) => no_place_text(alloc, *n),
        Shape::FunctionAt(key) => function_text(alloc, key.get()),
        Shape::Pointer(o, i) => place_text(alloc, *o, *i),
    }
}
