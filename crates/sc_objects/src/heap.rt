// The heap's blocks, by classes of sizes.
ghost use Rattle.std.specs.Prelude.{◌≡◌, ℕ, ◌+◌, ◌*◌, ◌^◌, ◌<◌, ◌≤◌, ◌++◌, ◌∷◌, [], length, replicate, IfOk, MatchResult, MatchOption, OnErr, Some, None, IfSome, IsSome};
ghost use Rattle.sc_objects.specs.Blocks.{block_size, IsClass};
ghost use Rattle.sc_objects.specs.Roomy.{Moves};

use sc_base::NoMemory;
use std::alloc::Global;
use std::collections::BTreeMap;
use std::marker::Model;

/// The classes of blocks: those of class k have `16 * 2^k` bytes, and the last has room for every request.
const CLASSES: usize = 29;

/// The blocks of a heap by their places, counted from 0. Blocks never overlap. A block that is given back serves the
/// next request of its class.
#[derive(Drop)]
pub struct Heap {
    bytes: u32,
    used: u32,
    taken: BTreeMap<u32, usize>,
    free: Vec<Vec<u32>>,
}

impl Model for Heap {
    ghost use Rattle.sc_objects.specs.Blocks.{Blocks};

    ghost Value = { Blocks };

    ghost use Rattle.sc_objects.specs.Roomy.{blocks_of, IsKept};

    ghost view = { λ h. blocks_of h.bytes h.used h.taken h.free.items };

    ghost invariant = { λ h. IsKept h.bytes h.used h.taken h.free.items };
}

impl Heap {
    ghost use Rattle.sc_objects.specs.Blocks.{Blocks, IsTiled, KeepsOthers, KeepsTaken, Takes, class_at, given};

    /// A heap of this many bytes, with no block.
    pub fn new(alloc: Global, bytes: u32) -> Result<Heap, NoMemory>
        ensures empty { IfOk result (λ heap. heap ≡ record { bytes = bytes; used = 0; taken = []; free = replicate 29 [] }) }
        ensures tiled { IfOk result (λ heap. IsTiled heap) }
    {
        let mut free = Vec::new(alloc);
        for _ in 0..CLASSES {
            free.push(Vec::new(alloc))?;
        }
        Ok(Heap {
            bytes,
            used: 0,
            taken: BTreeMap::new(alloc),
            free,
        })
    }

    /// The place of a block for `n` bytes, of the least class with room for one byte more: the one of its class that
    /// was freed last, else a fresh one. `None` exactly where the class has no free block and the bytes of all blocks
    /// made plus the class exceed the heap. Where memory runs out the heap is as before.
    pub fn take(&mut self, n: u32) -> Result<Option<u32>, NoMemory>
        requires { 0 < n }
        ensures taken { MatchResult result (λ got. (k : ℕ) × IsClass n k × Takes self.old k got self.new) (λ _. self.new ≡ self.old) }
        ensures found { IfOk result (λ got. IfSome got (λ base. IsSome (class_at self.new base))) }
        ensures class { IfOk result (λ got. IfSome got (λ base. (k : ℕ) × IsClass n k × (class_at self.new base ≡ Some k))) }
        ensures keeps { KeepsTaken self.old self.new }
        ensures tiled { IsTiled self.old × IsTiled self.new }
    {
        let k = class_of(n);
        let free = &mut self.free[k];
        take_block(&mut self.taken, free, &mut self.used, self.bytes, k)
    }

    /// Gives back the taken block at a place. It takes no memory: `take` made the room.
    pub fn give(&mut self, base: u32)
        requires { IsSome (class_at self.old base) }
        ensures given { (k : ℕ) × (class_at self.old base ≡ Some k) × (self.new ≡ given self.old base k) }
        ensures keeps { KeepsOthers self.old self.new base }
        ensures tiled { IsTiled self.old × IsTiled self.new }
    {
        if let Some(k) = self.taken.remove(&base) {
            self.free[k].push_reserved(base);
        }
    }
}

// The class of a request.
fn class_of(n: u32) -> usize
    ensures class { IsClass n result }
    ensures bound { result < 29 }
{
    for k in 0..CLASSES - 1 {
        if u64::from(n) < size_of_class(k) {
            return k;
        }
    }
    CLASSES - 1
}

// The bytes of a block.
fn size_of_class(k: usize) -> u64
    requires { k < 29 }
    ensures { result ≡ block_size k }
{
    16u64 << k
}

// Takes a block of a class, from its free ones or fresh.
fn take_block(
    taken: &mut BTreeMap<u32, usize>,
    free: &mut Vec<u32>,
    used: &mut u32,
    bytes: u32,
    k: usize,
) -> Result<Option<u32>, NoMemory>
    requires { k < 29 }
    ensures { Moves bytes k used.old free.old taken.old used.new free.new taken.new result }
{
    let Some(last) = free.last() else {
        return take_fresh(taken, free, used, bytes, k);
    };
    let base = *last;
    taken.insert(base, k)?;
    let _ = free.pop();
    Ok(Some(base))
}

// Takes a fresh block of a class that has no free one, and makes room for each taken block among the free ones.
fn take_fresh(
    taken: &mut BTreeMap<u32, usize>,
    free: &mut Vec<u32>,
    used: &mut u32,
    bytes: u32,
    k: usize,
) -> Result<Option<u32>, NoMemory>
    requires class { k < 29 }
    requires none { free.old.items ≡ [] }
    ensures { Moves bytes k used.old free.old taken.old used.new free.new taken.new result }
{
    let base = *used;
    let end = u64::from(base) + size_of_class(k);
    if end > u64::from(bytes) {
        return Ok(None);
    }
    free.reserve(taken.len() + 1)?;
    taken.insert(base, k)?;
    *used = end as u32;
    Ok(Some(base))
}
