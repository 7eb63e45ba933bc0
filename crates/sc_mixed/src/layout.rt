// Where a program stands in memory: where its image has it.

use sc_base::{Duplicate, Items, Key, NoMemory, Shared};
use sc_core_held::Text;
use sc_interp_parts::births_of;
use sc_interp_world::{Layout, Names};
use sc_isa_image::Image;
use sc_link::{LiteralAt, Placed, literals_in, statics_in};
use sc_program::StaticId;
use std::alloc::Global;

/// Where the stubs of functions begin, each of eight bytes.
const STUBS: u32 = 0x0001_0000;

/// The most functions that have stubs.
const MOST: u32 = 65_536;

// The functions by their numbers.
fn functions_of(alloc: Global, image: &Image) -> Result<Items<Shared<Key>>, NoMemory> {
    let mut keys = Items::new(alloc);
    for number in 0..MOST {
        match image.key_of(STUBS + 8 * number) {
            None => return Ok(keys),
            Some(key) => keys.push(Shared::new(alloc, key.copy(alloc)?)?)?,
        }
    }
    Ok(keys)
}

// The address of an object or a literal.
fn address_of(image: &Image, id: &StaticId) -> Option<u32> {
    match id {
        StaticId::Named(key) => image.value(key),
        StaticId::Literal(home, bytes) => image.literal(home, bytes.as_slice()),
    }
}

// The addresses of these objects and literals.
fn places_of(alloc: Global, image: &Image, ids: &[StaticId]) -> Result<Names, NoMemory> {
    let mut places = Names::new(alloc);
    for id in ids {
        if let Some(at) = address_of(image, id) {
            places.put(id.copy(alloc)?, at)?;
        }
    }
    Ok(places)
}

/// Where the functions and the static objects of these texts stand, by their image.
pub fn layout_of(alloc: Global, texts: &[Text], image: &Image) -> Result<Layout, NoMemory> {
    let functions = functions_of(alloc, image)?;
    let ids = births_of(alloc, texts)?;
    let places = places_of(alloc, image, ids.as_slice())?;
    Ok(Layout { functions, places })
}

// The objects among these, by their names.
fn add_statics(
    alloc: Global,
    all: &mut Vec<(StaticId, u32)>,
    statics: &[(Key, u32)],
) -> Result<(), NoMemory> {
    for (key, at) in statics {
        all.push((StaticId::Named(key.copy(alloc)?), *at))?;
    }
    Ok(())
}

// The literals.
fn add_literals(
    alloc: Global,
    all: &mut Vec<(StaticId, u32)>,
    literals: &[LiteralAt],
) -> Result<(), NoMemory> {
    for l in literals {
        let id = StaticId::Literal(l.module.copy(alloc)?, l.bytes.copy(alloc)?);
        all.push((id, l.at))?;
    }
    Ok(())
}

/// Where the objects and literals of a list of entries stand, by their names.
pub fn placed_ids(alloc: Global, placed: &[Placed]) -> Result<Vec<(StaticId, u32)>, NoMemory> {
    let mut all = Vec::new(alloc);
    let statics = statics_in(alloc, placed)?;
    add_statics(alloc, &mut all, statics.as_slice())?;
    let literals = literals_in(alloc, placed)?;
    add_literals(alloc, &mut all, literals.as_slice())?;
    Ok(all)
}

/// The same as names with addresses; of what stands twice the last.
pub fn names_of(alloc: Global, ids: &[(StaticId, u32)]) -> Result<Names, NoMemory> {
    let mut places = Names::new(alloc);
    for (id, at) in ids {
        places.put(id.copy(alloc)?, *at)?;
    }
    Ok(places)
}

/// Where the functions and what these entries place stand.
pub fn layout_placed(
    alloc: Global,
    placed: &[Placed],
    functions: &[Key],
) -> Result<Layout, NoMemory> {
    let ids = placed_ids(alloc, placed)?;
    let places = names_of(alloc, ids.as_slice())?;
    let functions = shared_behind(alloc, 0, functions)?;
    Ok(Layout { functions, places })
}

/// The functions behind the first ones of a list.
pub fn shared_behind(
    alloc: Global,
    first: usize,
    functions: &[Key],
) -> Result<Items<Shared<Key>>, NoMemory> {
    let mut keys = Items::new(alloc);
    let mut at = 0_usize;
    for key in functions {
        if first <= at {
            keys.push(Shared::new(alloc, key.copy(alloc)?)?)?;
        }
        at = at.saturating_add(1);
    }
    Ok(keys)
}
