// The files of the modules.
ghost use Rattle.std.specs.Prelude.{◌≡◌, ◌<◌, IfOk};
ghost use Rattle.sc_workload.specs.Made as spec;

use crate::text::{put, put_number, with_number};
use sc_base::{Bytes, NoMemory};
use std::alloc::Global;

/// The functions of each module.
const FUNCTIONS: u32 = 10;

// The one behind this one, of so many in a circle.
fn next_of(count: u32, at: u32) -> u32
    requires { at < count }
    ensures { result ≡ spec.next_of count at }
{
    (at + 1) % count
}

// A function's declaration.
fn declared(alloc: Global, index: u32, function: u32) -> Result<Vec<u8>, NoMemory>
    ensures { IfOk result (λ text. text.items ≡ spec.declared index function) }
{
    let mut text = with_number(alloc, b"int f", index)?;
    put(&mut text, b"_")?;
    put_number(&mut text, alloc, u64::from(function))?;
    put(&mut text, b"(int n);\n")?;
    Ok(text)
}

// The head of a function's definition, and its body up to the call of the next module.
fn defined_front(alloc: Global, index: u32, function: u32) -> Result<Vec<u8>, NoMemory>
    ensures { IfOk result (λ text. text.items ≡ spec.defined_front index function) }
{
    let mut text = with_number(alloc, b"int f", index)?;
    put(&mut text, b"_")?;
    put_number(&mut text, alloc, u64::from(function))?;
    put(
        &mut text,
        b"(int n) { int a[8], k; for (k = 0; k < 8; k++) a[k] = n + k; if (n == 0) return 0; ",
    )?;
    Ok(text)
}

// The call of the next module, and the end of the body.
fn defined_back(alloc: Global, next: u32, function: u32) -> Result<Vec<u8>, NoMemory>
    requires { function < 10 }
    ensures { IfOk result (λ text. text.items ≡ spec.defined_back next function) }
{
    let mut text = with_number(alloc, b"return a[1] - a[0] + f", next)?;
    put(&mut text, b"_")?;
    put_number(&mut text, alloc, u64::from(next_of(FUNCTIONS, function)))?;
    put(&mut text, b"(n - 1); }\n")?;
    Ok(text)
}

fn defined(alloc: Global, index: u32, next: u32, function: u32) -> Result<Vec<u8>, NoMemory>
    requires { function < 10 }
    ensures { IfOk result (λ text. text.items ≡ spec.defined index next function) }
{
    let mut text = defined_front(alloc, index, function)?;
    let back = defined_back(alloc, next, function)?;
    put(&mut text, back.as_slice())?;
    Ok(text)
}

// The declarations of a module's functions.
fn declarations(alloc: Global, index: u32) -> Result<Vec<u8>, NoMemory>
    ensures { IfOk result (λ text. text.items ≡ spec.texts (spec.declared index) 10) }
{
    let mut text = Vec::new(alloc);
    for function in 0..FUNCTIONS {
        let line = declared(alloc, index, function)?;
        put(&mut text, line.as_slice())?;
    }
    Ok(text)
}

fn definitions(alloc: Global, index: u32, next: u32) -> Result<Vec<u8>, NoMemory>
    ensures { IfOk result (λ text. text.items ≡ spec.texts (spec.defined index next) 10) }
{
    let mut text = Vec::new(alloc);
    for function in 0..FUNCTIONS {
        let line = defined(alloc, index, next, function)?;
        put(&mut text, line.as_slice())?;
    }
    Ok(text)
}

// What the first module begins with.
fn head(index: u32) -> &'static [u8]
    ensures { result.now ≡ spec.head index }
{
    if index == 0 {
        b"#include <stdio.h>\n"
    } else {
        b""
    }
}

// What the first module ends with.
fn main_function(index: u32) -> &'static [u8]
    ensures { result.now ≡ spec.main_function index }
{
    if index == 0 {
        b"int main(void) { printf(\"%d\\n\", f0_0(1000)); return 0; }\n"
    } else {
        b""
    }
}

/// The text of a module of so many. It has ten functions, each of which calls one of the next module; the first module also has `main`.
pub fn made_file(alloc: Global, count: u32, index: u32) -> Result<Bytes, NoMemory>
    requires { index < count }
    ensures { IfOk result (λ text. text ≡ spec.made_file count index) }
{
    let next = next_of(count, index);
    let mut text = Vec::from_slice(alloc, head(index))?;
    let front = declarations(alloc, next)?;
    put(&mut text, front.as_slice())?;
    let back = definitions(alloc, index, next)?;
    put(&mut text, back.as_slice())?;
    put(&mut text, main_function(index))?;
    Ok(Bytes::from_vec(text))
}
