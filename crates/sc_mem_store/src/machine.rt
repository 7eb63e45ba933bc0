// What code that runs over the memory itself finds there.
ghost use Rattle.std.specs.Prelude.{◌≡◌, ◌⊎◌, ◌+◌, ◌<◌, ◌≤◌, IsTrue, MatchOption};
ghost use Rattle.sc_objects.specs.Numbered.{IsObjectAt, object_of};
ghost use Rattle.sc_mem.specs.Safe.{IsSafe};
ghost use Rattle.sc_mem_store.specs.Holding.{IsTag};
ghost use Rattle.sc_mem_store.specs.Living.{IsBare, IsByteOf};

use sc_base::Word;
use sc_mem::Memory;
use sc_objects::Obj;

/// A byte of an object: the object's number, and how far behind the object's first byte it lies.
#[derive(Clone, Copy, Debug, PartialEq, Eq)]
pub struct Place {
    pub id: u32,
    pub offset: u32,
}

// Where the byte at an address lies in an object, if it is one of its bytes.
fn place_in(object: Obj, id: u32, address: u32) -> Option<Place>
    ensures { MatchOption result ((address < object.base) ⊎ (object.base + object.size ≤ address)) (λ p. (p.id ≡ id) × (p.offset < object.size) × (object.base + p.offset ≡ address)) }
{
    let Some(offset) = address.checked_sub(object.base) else {
        return None;
    };
    if offset < object.size {
        Some(Place { id, offset })
    } else {
        None
    }
}

// The same for the object with a number, which is the one at that address.
#[tactic(auto, using(crate::proofs::Living::bare_lost, crate::proofs::Living::bare_beside, crate::proofs::Living::byte_of))]
fn place_of(memory: &Memory, id: u32, address: u32) -> Option<Place>
    requires { IsObjectAt memory.now.flat.objects address (Some id) }
    ensures { MatchOption result (IsBare memory.now.flat.objects address) (λ p. IsByteOf memory.now.flat.objects p.id p.offset address) }
{
    match memory.find(id) {
        None => None,
        Some(object) => place_in(object, id, address),
    }
}

/// The byte of a live object that stands at an address: `None` exactly where the byte there belongs to no live object.
#[tactic(auto, using(crate::proofs::Living::bare_none))]
pub fn place_at(memory: &Memory, address: u32) -> Option<Place>
    ensures place { MatchOption result (IsBare memory.now.flat.objects address) (λ p. IsByteOf memory.now.flat.objects p.id p.offset address) }
    ensures safe { IsSafe memory.now }
{
    match memory.at(address) {
        None => None,
        Some(id) => place_of(memory, id, address),
    }
}

/// Whether a tag is one that there is: that of numbers, of functions, or of an object that was born.
pub fn is_tag(memory: &Memory, tag: u32) -> bool
    ensures { IsTrue result → IsTag memory.now.flat.objects tag }
{
    if tag == 0 || tag == Word::FUNCTION {
        return true;
    }
    match memory.find(tag) {
        None => false,
        Some(_) => true,
    }
}
