// The addresses at which static objects and literals are born.
ghost use Rattle.std.specs.Prelude.{◌≡◌, []};

use crate::names::Names;
use std::alloc::Global;
use std::mem;

/// Addresses by names: those that contracts see, and those that they do not, of a run of interpreted modules.
#[derive(Drop)]
pub struct Places {
    pub seen: Names,
    pub unseen: Names,
}

impl Places {
    /// These are seen.
    pub fn seen(alloc: Global, places: Names) -> Places
        ensures { result.seen ≡ places }
    {
        Places {
            seen: places,
            unseen: Names::new(alloc),
        }
    }

    /// These are not seen.
    pub fn unseen(alloc: Global, places: Names) -> Places
        ensures { result.seen ≡ [] }
    {
        Places {
            seen: Names::new(alloc),
            unseen: places,
        }
    }

    /// Those that are not seen are seen from here on.
    pub fn reveal(&mut self, alloc: Global) {
        let places = mem::replace(&mut self.unseen, Names::new(alloc));
        drop(mem::replace(&mut self.seen, places));
    }
}
