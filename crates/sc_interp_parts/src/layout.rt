// Where the functions and the static objects of a program stand in memory.
ghost use Rattle.std.specs.Prelude.{◌≡◌, [], map, None, IfOk};
ghost use Rattle.sc_meaning.specs.Names.{library};
ghost use Rattle.sc_interp_parts.specs.Layouts as spec;

use crate::statics::{births_of, static_size};
use sc_base::{Duplicate, Items, Key, Name, NoMemory, Shared};
use sc_core_held::{NAMES, Numbers, Text};
use sc_interp_world::{Layout, Names};
use sc_meaning::LibFun;
use sc_program::StaticId;
use std::alloc::Global;

/// Where the static area begins.
const STATIC: u32 = 0x0800_0000;

// A function with external linkage.
fn external(alloc: Global, name: &[u8]) -> Result<Shared<Key>, NoMemory>
    ensures { IfOk result (λ key. key ≡ record { «module» = None; name = name.now }) }
{
    let Ok(name) = Name::new(alloc, name) else {
        return Err(NoMemory);
    };
    Shared::new(alloc, Key { module: None, name })
}

// The functions of the library with these names.
fn keys_of(alloc: Global, funs: &[(&[u8], LibFun)]) -> Result<Items<Shared<Key>>, NoMemory>
    ensures { IfOk result (λ keys. keys ≡ spec.keys_of (map (λ f. (f.0.now, f.1)) funs.now)) }
{
    let mut keys = Items::new(alloc);
    for f in funs {
        keys.push(external(alloc, f.0)?)?;
    }
    Ok(keys)
}

// The library's functions, in the order of their numbers.
fn library_keys(alloc: Global) -> Result<Items<Shared<Key>>, NoMemory>
    ensures { IfOk result (λ keys. keys ≡ spec.keys_of library) }
{
    keys_of(alloc, &NAMES)
}

// The functions that have a number behind the library's.
fn numbered(alloc: Global, texts: &[Text]) -> Result<Numbers, NoMemory>
    ensures { IfOk result (λ numbers. numbers ≡ spec.numbered [] texts.now) }
{
    let mut numbers = Numbers::new(alloc);
    for t in texts {
        numbers.mention(alloc, t.core.get())?;
    }
    Ok(numbers)
}

// The functions by their numbers, the library's first.
fn functions_of(alloc: Global, texts: &[Text]) -> Result<Items<Shared<Key>>, NoMemory>
    ensures { IfOk result (λ keys. keys ≡ spec.functions_of texts.now) }
{
    let numbers = numbered(alloc, texts)?;
    let mut keys = library_keys(alloc)?;
    keys.append(shared(alloc, numbers.as_slice())?)?;
    Ok(keys)
}

// Keys to be shared.
fn shared(alloc: Global, keys: &[Key]) -> Result<Items<Shared<Key>>, NoMemory>
    ensures { IfOk result (λ all. all ≡ keys.now) }
{
    let mut all = Items::new(alloc);
    for key in keys {
        all.push(Shared::new(alloc, key.copy(alloc)?)?)?;
    }
    Ok(all)
}

// The first multiple of 4 behind an object, with a byte between.
fn behind(at: u32, size: u32) -> Result<u32, NoMemory>
    ensures { IfOk result (λ next. next ≡ spec.behind at size) }
{
    let next = u64::from(at) + (u64::from(size) / 4 + 1) * 4;
    match u32::try_from(next) {
        Ok(next) => Ok(next),
        Err(_) => Err(NoMemory),
    }
}

// Objects and literals stand in the static area in the order of their births, each at a multiple of 4 and a byte apart.
fn places(alloc: Global, texts: &[Text], ids: &[StaticId]) -> Result<Names, NoMemory>
    ensures { IfOk result (λ places. places ≡ spec.placed texts.now ids.now 0x08000000 []) }
{
    let mut places = Names::new(alloc);
    let mut at = STATIC;
    for id in ids {
        places.put(id.copy(alloc)?, at)?;
        at = behind(at, static_size(texts, id)?)?;
    }
    Ok(places)
}

/// Where a program of these texts stands in memory: the functions have their numbers, the library's first, and the static
/// objects and literals their addresses.
pub fn layout_of(alloc: Global, texts: &[Text]) -> Result<Layout, NoMemory>
    ensures functions { IfOk result (λ l. l.functions ≡ spec.functions_of texts.now) }
    ensures places { IfOk result (λ l. l.places ≡ spec.places_of texts.now) }
{
    let functions = functions_of(alloc, texts)?;
    let ids = births_of(alloc, texts)?;
    let places = places(alloc, texts, ids.as_slice())?;
    Ok(Layout { functions, places })
}
