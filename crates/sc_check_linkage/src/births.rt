// The order in which a unit's objects and literals are born.
ghost use Rattle.std.specs.Prelude.{◌≡◌, IfOk, slice_get};
ghost use Rattle.sc_check_linkage.specs.Births as spec;

use crate::link::{Definition, Link};
use sc_base::{Bytes, Duplicate, Items, Key, Name, NoMemory};
use sc_program::StaticId;
use std::alloc::Global;

/// What a unit's text gives, in its order: the first appearance of a literal, by its place among the literals; a declarator
/// that defines an object with linkage, by its place among the names with linkage; an object of a block.
#[derive(Drop)]
pub enum Birth {
    Literal(u32),
    Object(u32),
    Block(Key),
}

fn is_born_at(n: usize, definition: Definition) -> bool
    ensures { result ≡ spec.is_born_at n definition }
{
    match definition {
        Definition::Missing | Definition::Body => false,
        Definition::Tentative(_, m) | Definition::Initialized(_, m) => m == n,
    }
}

fn named(alloc: Global, key: &Key) -> Result<Option<StaticId>, NoMemory>
    ensures { IfOk result (λ x. x ≡ spec.named key.now) }
{
    Ok(Some(StaticId::Named(key.copy(alloc)?)))
}

fn literal(alloc: Global, home: &Name, bytes: &Bytes) -> Result<Option<StaticId>, NoMemory>
    ensures { IfOk result (λ x. x ≡ spec.literal home.now bytes.now) }
{
    let home = home.copy(alloc)?;
    let bytes = bytes.copy(alloc)?;
    Ok(Some(StaticId::Literal(home, bytes)))
}

fn object_at(alloc: Global, n: usize, l: &Link) -> Result<Option<StaticId>, NoMemory>
    ensures { IfOk result (λ x. x ≡ spec.object_at n (Some l.now)) }
{
    if is_born_at(n, l.definition) {
        named(alloc, &l.key)
    } else {
        Ok(None)
    }
}

fn born_at(
    alloc: Global,
    home: &Name,
    literals: &[Bytes],
    links: &[Link],
    n: usize,
    x: &Birth,
) -> Result<Option<StaticId>, NoMemory>
    ensures { IfOk result (λ id. id ≡ spec.born_at home.now literals.now links.now n x.now) }
{
    match x {
        Birth::Literal(k) => match literals.get(*k as usize) {
            Some(bytes) => literal(alloc, home, bytes),
            None => Ok(None),
        },
        Birth::Object(k) => match links.get(*k as usize) {
            Some(l) => object_at(alloc, n, l),
            None => Ok(None),
        },
        Birth::Block(key) => named(alloc, key),
    }
}

/// The objects and literals of a unit in the order in which they are born: that of the first token of their definition, of an
/// object with linkage the declarator with the initialiser, else the first tentative one, and of the first appearance of a
/// literal. `noted` is what the text gives in its order, and the links' definitions hold places in it.
pub fn born(
    alloc: Global,
    home: &Name,
    literals: &[Bytes],
    links: &[Link],
    noted: &[Birth],
) -> Result<Items<StaticId>, NoMemory>
    ensures { IfOk result (λ ids. ids ≡ spec.born home.now literals.now links.now noted.now) }
{
    let mut ids = Items::new(alloc);
    for (n, x) in noted.iter().enumerate() {
        if let Some(id) = born_at(alloc, home, literals, links, n, x)? {
            ids.push(id)?;
        }
    }
    Ok(ids)
}
