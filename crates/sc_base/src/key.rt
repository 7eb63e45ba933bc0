// What names a function or a static object.
use crate::{Duplicate, Name, NoMemory};
use std::alloc::Global;

/// An external name alone, or a module and a name of internal linkage (ANSI 3.1.2.2).
#[derive(Debug, Drop, PartialEq, Eq, Hash)]
pub struct Key {
    pub module: Option<Name>,
    pub name: Name,
}

impl Duplicate for Key {
    fn copy(&self, alloc: Global) -> Result<Key, NoMemory> {
        let module = match &self.module {
            Some(module) => Some(module.copy(alloc)?),
            None => None,
        };
        let name = self.name.copy(alloc)?;
        Ok(Key { module, name })
    }
}
