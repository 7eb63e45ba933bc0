// How a checked write ends that writes nothing.
ghost use Rattle.std.specs.Prelude.{◌≡◌};

use sc_base::{NoMemory, Rule};

/// Why a checked store or copy did not take place: the first rule that it breaks, or, where it breaks none, want of
/// memory.
#[derive(Clone, Copy, Debug, PartialEq, Eq)]
pub enum StoreFault {
    Broken(Rule),
    NoMemory,
}

impl From<NoMemory> for StoreFault {
    ghost use Rattle.sc_mem.specs.declared.fault.StoreFault.TheVariants as f;

    ghost from_gives = { λ _ e. e ≡ f.NoMemory };

    fn from(_: NoMemory) -> StoreFault {
        StoreFault::NoMemory
    }
}
