// Stores of compiled code, which test no rule.
ghost use Rattle.std.specs.Prelude.{◌≡◌, ◌==◌, false, IfOk};
ghost use Rattle.sc_mem.specs.Words.{IsSize};
ghost use Rattle.sc_interp_world.specs.Putting.{PutsAll};
ghost use Rattle.sc_mem_store.specs.Living.{IsLiveAt};
ghost use Rattle.sc_meaning.specs.World.{object_at as object_in};
ghost use Rattle.sc_services.specs.Memory as spec;
ghost use Rattle.sc_services.specs.Memory.{StandsAt, size_in};
ghost use Rattle.sc_services.specs.Writing.{IsStoredBy, KeepsIfBeside, StoresAt, StoresIfThere};

use crate::bytes::{cells_of, load};
use sc_base::{Cell as Stored, NoMemory, Word};
use sc_interp_world::{Place, World};
use sc_meaning_values::Value;

// How many bytes an object has.
#[tactic(auto, using(crate::proofs::Reading::size_none, crate::proofs::Reading::size_some))]
fn size_of(id: u32, world: &World) -> u32
    ensures { result ≡ size_in (object_in world.now.objects id) }
{
    match world.objects().find(id) {
        None => 0,
        Some(object) => object.size,
    }
}

/// Whether so many bytes from a byte of an object on are all its own.
pub fn has_bytes(place: Place, n: u32, world: &World) -> bool
    ensures { result ≡ spec.has_bytes world.now.objects place.id place.offset n }
{
    u64::from(place.offset) + u64::from(n) <= u64::from(size_of(place.id, world))
}

// What a store of that many bytes of a word puts into an object.
fn stored(size: u8, word: Word, world: &World) -> Result<Value, NoMemory>
    ensures { IfOk result (λ v. IsStoredBy (size == 4) word world.now v) }
{
    if size == 4 {
        world.value(word)
    } else {
        Ok(Value::number(word.bits))
    }
}

// A word is stored as that many bytes of the object that has the byte at an address.
#[tactic(auto, using(crate::proofs::Writing::stored_inside))]
fn store_inside(
    at: u32,
    place: Place,
    size: u8,
    word: Word,
    world: &mut World,
) -> Result<(), NoMemory>
    requires { IsLiveAt world.old.objects place.id place.offset × StandsAt world.old place.id place.offset at }
    ensures { IfOk result (λ _. StoresAt at size word world.old world.new) }
{
    let v = stored(size, word, world)?;
    let many = u32::from(size);
    world.store(place.id, place.offset, many, &v)
}

/// Cells of memory are put one after another, from an address on: each into the live object that has the byte there, or beside all
/// objects.
#[tactic(auto, using(crate::proofs::Writing::puts_none, crate::proofs::Writing::puts_turn, crate::proofs::Writing::puts_done))]
pub fn put_cells(to: u32, cells: &[Stored], world: &mut World) -> Result<(), NoMemory>
    ensures { IfOk result (λ _. PutsAll to cells.now world.old world.new) }
{
    let mut at = to;
    for cell in cells {
        world.put_raw(at, *cell)?;
        let Some(next) = at.checked_add(1) else {
            return Err(NoMemory);
        };
        at = next;
    }
    Ok(())
}

// A word is written beside all objects, where it can be; else nothing is.
#[tactic(auto, using(crate::proofs::Writing::kept_beside))]
fn keep_some(at: u32, size: u8, word: Word, world: &mut World) -> Result<Option<()>, NoMemory>
    requires { IsSize size }
    ensures { IfOk result (λ done. KeepsIfBeside done at size word world.old world.new) }
{
    world.keep(at, size, word)
}

// A word is stored over the end of the object that has the byte at an address.
#[tactic(auto, using(crate::proofs::Writing::stored_over))]
fn store_over_end(
    at: u32,
    place: Place,
    size: u8,
    word: Word,
    world: &mut World,
) -> Result<(), NoMemory>
    requires size { IsSize size }
    requires place { StandsAt world.old place.id place.offset at × (spec.has_bytes world.old.objects place.id place.offset size ≡ false) }
    ensures { IfOk result (λ _. StoresAt at size word world.old world.new) }
{
    let cells = cells_of(world.alloc(), size, word)?;
    put_cells(at, cells.as_slice(), world)?;
    world.tell_stored(at, size, word)
}

// A word is stored where its first byte is a live object's.
fn store_over(at: u32, size: u8, word: Word, world: &mut World) -> Result<(), NoMemory>
    requires { IsSize size }
    ensures { IfOk result (λ _. StoresAt at size word world.old world.new) }
{
    let Some(place) = world.live_at(at) else {
        return Err(NoMemory);
    };
    if has_bytes(place, u32::from(size), world) {
        store_inside(at, place, size, word, world)
    } else {
        store_over_end(at, place, size, word, world)
    }
}

// The same, where a word is there.
fn store_there(at: u32, size: u8, word: Word, world: &mut World) -> Result<Option<()>, NoMemory>
    requires { IsSize size }
    ensures { IfOk result (λ done. StoresIfThere done at size word world.old world.new) }
{
    match load(at, size, world) {
        None => Ok(None),
        Some(_) => {
            store_over(at, size, word, world)?;
            Ok(Some(()))
        }
    }
}

/// The low `size` bytes of a word are stored at an address, a multiple of the size, into the live object there or beside all objects;
/// only a store of four bytes keeps the word's tag. `None` exactly where the address is outside the areas, or no multiple of the size.
#[tactic(auto, using(crate::proofs::Writing::stored_beside, crate::proofs::Writing::stored_behind))]
pub fn store_word(at: u32, size: u8, word: Word, world: &mut World) -> Result<Option<()>, NoMemory>
    requires { IsSize size }
    ensures { IfOk result (λ done. StoresIfThere done at size word world.old world.new) }
{
    // Most stores are of temporaries, so they are tried first.
    match keep_some(at, size, word, world)? {
        Some(()) => Ok(Some(())),
        None => store_there(at, size, word, world),
    }
}
