// The forms of a program's modules, and its functions by their numbers.
ghost use Rattle.std.specs.Prelude.{◌≡◌, ◌++◌, IfOk, OnOk, map};
ghost use Rattle.sc_interp_parts.specs.Layouts.{keys_of};
ghost use Rattle.sc_meaning.specs.Names.{library};
ghost use Rattle.sc_session_forms.specs.Forms as spec;

use sc_base::{Duplicate, Form, Items, Key, Name, NoMemory};
use sc_core_held::{NAMES, Numbers, Text};
use sc_meaning::LibFun;
use std::alloc::Global;

/// Whether calls of a module in this form are interpreted.
pub fn is_source(form: Form) -> bool
    ensures { result ≡ spec.is_source form }
{
    match form {
        Form::Source => true,
        Form::Object => false,
    }
}

/// Whether all modules are interpreted.
pub fn are_sources(texts: &[Text]) -> bool
    ensures { result ≡ spec.are_sources texts.now }
{
    texts.iter().all(|t| is_source(t.form))
}

// A function with external linkage.
fn external(alloc: Global, name: &[u8]) -> Result<Key, NoMemory>
    ensures { IfOk result (λ key. key ≡ record { «module» = None; name = name.now }) }
{
    let Ok(name) = Name::new(alloc, name) else {
        return Err(NoMemory);
    };
    Ok(Key { module: None, name })
}

fn put_library(
    keys: &mut Items<Key>,
    alloc: Global,
    funs: &[(&[u8], LibFun)],
) -> Result<(), NoMemory>
    ensures { OnOk result (keys.new ≡ keys.old ++ keys_of (map (λ f. (f.0.now, f.1)) funs.now)) }
{
    for f in funs {
        keys.push(external(alloc, f.0)?)?;
    }
    Ok(())
}

fn put_keys(keys: &mut Items<Key>, alloc: Global, more: &[Key]) -> Result<(), NoMemory>
    ensures { OnOk result (keys.new ≡ keys.old ++ more.now) }
{
    for key in more {
        keys.push(key.copy(alloc)?)?;
    }
    Ok(())
}

/// The functions by their numbers: the library's, and those that have one behind them.
pub fn functions_by(alloc: Global, numbers: &Numbers) -> Result<Items<Key>, NoMemory>
    ensures { IfOk result (λ keys. keys ≡ spec.functions_by numbers.now) }
{
    let mut keys = Items::new(alloc);
    put_library(&mut keys, alloc, &NAMES)?;
    put_keys(&mut keys, alloc, numbers.as_slice())?;
    Ok(keys)
}
