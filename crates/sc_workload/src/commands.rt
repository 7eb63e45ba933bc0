// The commands that run the modules.
ghost use Rattle.std.specs.Prelude.{◌≡◌, IfOk};
ghost use Rattle.sc_workload.specs.Made as spec;

use crate::text::{put, put_number, with_number};
use sc_base::{Bytes, NoMemory};
use std::alloc::Global;

fn loaded(alloc: Global, index: u32) -> Result<Vec<u8>, NoMemory>
    ensures { IfOk result (λ text. text.items ≡ spec.loaded index) }
{
    let mut text = with_number(alloc, b"load g", index)?;
    put(&mut text, b"\n")?;
    Ok(text)
}

// A module is compiled, and the program runs with its object.
fn compiled(alloc: Global, index: u32) -> Result<Vec<u8>, NoMemory>
    ensures { IfOk result (λ text. text.items ≡ spec.compiled index) }
{
    let mut text = with_number(alloc, b"compile g", index)?;
    put(&mut text, b"\nswap g")?;
    put_number(&mut text, alloc, u64::from(index))?;
    put(&mut text, b" object\nrun\n")?;
    Ok(text)
}

// Each second module is interpreted again.
fn taken_back(alloc: Global, index: u32) -> Result<Vec<u8>, NoMemory>
    ensures { IfOk result (λ text. text.items ≡ spec.taken_back index) }
{
    if index % 2 != 0 {
        return Ok(Vec::new(alloc));
    }
    let mut text = with_number(alloc, b"swap g", index)?;
    put(&mut text, b" source\n")?;
    Ok(text)
}

fn all_loaded(alloc: Global, count: u32) -> Result<Vec<u8>, NoMemory>
    ensures { IfOk result (λ text. text.items ≡ spec.texts spec.loaded count) }
{
    let mut text = Vec::new(alloc);
    for index in 0..count {
        let line = loaded(alloc, index)?;
        put(&mut text, line.as_slice())?;
    }
    Ok(text)
}

fn all_compiled(alloc: Global, count: u32) -> Result<Vec<u8>, NoMemory>
    ensures { IfOk result (λ text. text.items ≡ spec.texts spec.compiled count) }
{
    let mut text = Vec::new(alloc);
    for index in 0..count {
        let lines = compiled(alloc, index)?;
        put(&mut text, lines.as_slice())?;
    }
    Ok(text)
}

fn some_taken_back(alloc: Global, count: u32) -> Result<Vec<u8>, NoMemory>
    ensures { IfOk result (λ text. text.items ≡ spec.texts spec.taken_back count) }
{
    let mut text = Vec::new(alloc);
    for index in 0..count {
        let line = taken_back(alloc, index)?;
        put(&mut text, line.as_slice())?;
    }
    Ok(text)
}

/// The commands that load so many modules and run them: interpreted, then with one more of them compiled each time, then with each
/// second one interpreted again.
pub fn made_commands(alloc: Global, count: u32) -> Result<Bytes, NoMemory>
    ensures { IfOk result (λ text. text ≡ spec.made_commands count) }
{
    let mut text = all_loaded(alloc, count)?;
    put(&mut text, b"run\n")?;
    let compiled = all_compiled(alloc, count)?;
    put(&mut text, compiled.as_slice())?;
    let back = some_taken_back(alloc, count)?;
    put(&mut text, back.as_slice())?;
    put(&mut text, b"run\nquit\n")?;
    Ok(Bytes::from_vec(text))
}
