// The modules and the functions that they define.
ghost use Rattle.std.specs.Prelude.{◌≡◌, ◌+◌, ◌++◌, ◌∷◌, [], IfOk, OnOk};
ghost use Rattle.sc_session_show.specs.Listings as spec;

use crate::frames::put_line;
use indexmap::IndexSet;
use sc_base::{Bytes, Duplicate, Key, Name, NoMemory, Shared};
use sc_core::Fun;
use sc_core_held::{Numbers, Text, insert_key};
use sc_session_texts::{put, put_decimal, put_key};
use std::alloc::Global;

/// The number of the first function behind those of the library.
const FIRST_NUMBER: u32 = 39;

/// A line for a module: its name, and the word for its form.
pub fn put_module(
    text: &mut Vec<u8>,
    alloc: Global,
    name: &Name,
    form: &[u8],
) -> Result<(), NoMemory>
    ensures { OnOk result (text.new.items ≡ text.old.items ++ spec.module_line name.now form.now) }
{
    let mut said = Vec::new(alloc);
    put(&mut said, b"module ")?;
    put(&mut said, name.as_slice())?;
    put(&mut said, b" ")?;
    put(&mut said, form)?;
    put_line(text, said.as_slice())
}

/// The key of a function that a module defines.
pub fn defined_key(alloc: Global, home: &Name, f: &Fun) -> Result<Key, NoMemory>
    ensures { IfOk result (λ key. key ≡ spec.defined_key home.now f.now) }
{
    let name = f.name.copy(alloc)?;
    if f.external {
        Ok(Key { module: None, name })
    } else {
        Ok(Key {
            module: Some(home.copy(alloc)?),
            name,
        })
    }
}

fn add_function(
    alloc: Global,
    keys: &mut IndexSet<Key>,
    home: &Name,
    f: &Fun,
) -> Result<(), NoMemory>
    ensures { OnOk result (keys.new.keys ≡ spec.with_functions home.now keys.old.keys (f.now ∷ [])) }
{
    let key = defined_key(alloc, home, f)?;
    insert_key(keys, key)
}

fn add_functions(
    alloc: Global,
    keys: &mut IndexSet<Key>,
    home: &Name,
    funs: &[Shared<Fun>],
) -> Result<(), NoMemory>
    ensures { OnOk result (keys.new.keys ≡ spec.with_functions home.now keys.old.keys funs.now) }
{
    for f in funs {
        add_function(alloc, keys, home, f.get())?;
    }
    Ok(())
}

fn defined_keys(alloc: Global, texts: &[Text]) -> Result<IndexSet<Key>, NoMemory>
    ensures { IfOk result (λ keys. keys.keys ≡ spec.defined_keys texts.now) }
{
    let mut keys = IndexSet::new(alloc);
    for t in texts {
        let core = t.core.get();
        add_functions(alloc, &mut keys, &core.name, core.funs.as_slice())?;
    }
    Ok(keys)
}

fn put_fun(
    text: &mut Vec<u8>,
    alloc: Global,
    defined: &IndexSet<Key>,
    n: u32,
    key: &Key,
) -> Result<(), NoMemory>
    ensures { OnOk result (text.new.items ≡ text.old.items ++ spec.fun_line defined.now.keys n key.now) }
{
    if !defined.contains(key) {
        return Ok(());
    }
    let mut said = Vec::new(alloc);
    put(&mut said, b"fun ")?;
    put_decimal(&mut said, alloc, n)?;
    put(&mut said, b" ")?;
    put_key(&mut said, alloc, key)?;
    put_line(text, said.as_slice())
}

fn next(n: u32) -> Result<u32, NoMemory>
    ensures { IfOk result (λ m. m ≡ n + 1) }
{
    match n.checked_add(1) {
        Some(m) => Ok(m),
        None => Err(NoMemory),
    }
}

// The lines of keys that are numbered from the first number on.
fn put_funs(
    text: &mut Vec<u8>,
    alloc: Global,
    defined: &IndexSet<Key>,
    keys: &[Key],
) -> Result<(), NoMemory>
    ensures { OnOk result (text.new.items ≡ text.old.items ++ spec.lines_from defined.now.keys 39 keys.now) }
{
    let mut n = FIRST_NUMBER;
    for key in keys {
        put_fun(text, alloc, defined, n, key)?;
        n = next(n)?;
    }
    Ok(())
}

/// A line for each function that a module defines, in the order of their numbers: its number and its key.
pub fn fun_lines(alloc: Global, texts: &[Text], numbers: &Numbers) -> Result<Bytes, NoMemory>
    ensures { IfOk result (λ text. text ≡ spec.fun_lines texts.now numbers.now) }
{
    let defined = defined_keys(alloc, texts)?;
    let mut text = Vec::new(alloc);
    put_funs(&mut text, alloc, &defined, numbers.as_slice())?;
    Ok(Bytes::from_vec(text))
}
