// What has static storage duration (ANSI 3.1.2.4).
ghost use Rattle.std.specs.Prelude.{◌≡◌, IfOk};
ghost use Rattle.sc_program.specs.declared.storage.StaticId.TheVariants as id;

use sc_base::{Bytes, Duplicate, Key, Name, NoMemory};
use std::alloc::Global;

/// An object of static storage duration: a declared one by its key, a literal by its module and its bytes.
#[derive(Debug, Drop, PartialEq, Eq)]
pub enum StaticId {
    Named(Key),
    Literal(Name, Bytes),
}

impl Duplicate for StaticId {
    fn copy(&self, alloc: Global) -> Result<StaticId, NoMemory> {
        match self {
            StaticId::Named(key) => Ok(StaticId::Named(key.copy(alloc)?)),
            StaticId::Literal(home, bytes) => literal(alloc, home, bytes),
        }
    }
}

fn literal(alloc: Global, home: &Name, bytes: &Bytes) -> Result<StaticId, NoMemory>
    ensures { IfOk result (λ s. s ≡ id.Literal home.now bytes.now) }
{
    let home = home.copy(alloc)?;
    let bytes = bytes.copy(alloc)?;
    Ok(StaticId::Literal(home, bytes))
}
