// A probe that tells nothing.
ghost use Rattle.std.specs.Prelude.{◌≡◌, [], None, Some, IfOk, false};

use sc_base::{NoMemory, Note};
use sc_outside::{Noted, Probe};
use std::alloc::Global;

/// A probe whose report is empty. It does not listen, would answer `Kept` to every note, and takes no memory.
#[derive(Drop)]
pub struct Quiet {
    alloc: Global,
}

impl Quiet {
    /// It takes no memory.
    pub fn new(alloc: Global) -> Quiet {
        Quiet { alloc }
    }
}

impl Probe for Quiet {
    ghost notes = { λ q. None };

    ghost report = { λ q. Some [] };

    ghost faults = { λ q. 0 };

    fn listens(&self) -> bool
        ensures { result ≡ false }
    {
        false
    }

    fn note(&mut self, _: &Note) -> Noted
        ensures { result ≡ Noted.Kept }
    {
        Noted::Kept
    }

    fn text(&mut self) -> Result<Vec<u8>, NoMemory>
        ensures { IfOk result (λ text. text.items ≡ []) }
    {
        Ok(Vec::new(self.alloc))
    }
}
