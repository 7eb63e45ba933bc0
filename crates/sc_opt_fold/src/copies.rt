// Second ones of the parts of a module that are not folded.
ghost use Rattle.std.specs.Prelude.{◌≡◌, IfOk};

use sc_base::{Duplicate, Items, NoMemory};
use sc_core::{Auto, Declared, Init, StaticObj};
use std::alloc::Global;

fn auto_copied(alloc: Global, x: &Auto) -> Result<Auto, NoMemory>
    ensures { IfOk result (λ copy. copy ≡ x.now) }
{
    let name = x.name.copy(alloc)?;
    let of = x.of.copy(alloc)?;
    Ok(Auto {
        name,
        of,
        slot: x.slot,
    })
}

fn block_copied(alloc: Global, autos: &[Auto]) -> Result<Items<Auto>, NoMemory>
    ensures { IfOk result (λ copy. copy ≡ autos.now) }
{
    let mut all = Items::new(alloc);
    for x in autos {
        all.push(auto_copied(alloc, x)?)?;
    }
    Ok(all)
}

/// The objects of each block of a function.
pub(crate) fn blocks_copied(
    alloc: Global,
    blocks: &[Items<Auto>],
) -> Result<Items<Items<Auto>>, NoMemory>
    ensures { IfOk result (λ copy. copy ≡ blocks.now) }
{
    let mut all = Items::new(alloc);
    for autos in blocks {
        all.push(block_copied(alloc, autos.as_slice())?)?;
    }
    Ok(all)
}

fn init_copied(alloc: Global, piece: &Init) -> Result<Init, NoMemory>
    ensures { IfOk result (λ copy. copy ≡ piece.now) }
{
    match piece {
        Init::Byte(b) => Ok(Init::Byte(*b)),
        Init::Zeros(n) => Ok(Init::Zeros(*n)),
        Init::Address(what, n) => Ok(Init::Address(what.copy(alloc)?, *n)),
    }
}

fn contents_copied(alloc: Global, pieces: &[Init]) -> Result<Items<Init>, NoMemory>
    ensures { IfOk result (λ copy. copy ≡ pieces.now) }
{
    let mut all = Items::new(alloc);
    for piece in pieces {
        all.push(init_copied(alloc, piece)?)?;
    }
    Ok(all)
}

fn object_copied(alloc: Global, x: &StaticObj) -> Result<StaticObj, NoMemory>
    ensures { IfOk result (λ copy. copy ≡ x.now) }
{
    let key = x.key.copy(alloc)?;
    let of = x.of.copy(alloc)?;
    let init = contents_copied(alloc, x.init.as_slice())?;
    Ok(StaticObj {
        key,
        of,
        constant: x.constant,
        line: x.line,
        init,
    })
}

/// The objects of static storage duration.
pub(crate) fn objects_copied(
    alloc: Global,
    objects: &[StaticObj],
) -> Result<Items<StaticObj>, NoMemory>
    ensures { IfOk result (λ copy. copy ≡ objects.now) }
{
    let mut all = Items::new(alloc);
    for x in objects {
        all.push(object_copied(alloc, x)?)?;
    }
    Ok(all)
}

fn declaration_copied(alloc: Global, d: &Declared) -> Result<Declared, NoMemory>
    ensures { IfOk result (λ copy. copy ≡ d.now) }
{
    let key = d.key.copy(alloc)?;
    let of = d.of.copy(alloc)?;
    Ok(Declared {
        key,
        of,
        defined: d.defined,
        line: d.line,
    })
}

/// What a module declares.
pub(crate) fn declared_copied(alloc: Global, all: &[Declared]) -> Result<Items<Declared>, NoMemory>
    ensures { IfOk result (λ copy. copy ≡ all.now) }
{
    let mut copies = Items::new(alloc);
    for d in all {
        copies.push(declaration_copied(alloc, d)?)?;
    }
    Ok(copies)
}
