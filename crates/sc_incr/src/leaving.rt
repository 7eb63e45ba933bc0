// Entries that become former texts, and former texts that are gone.
ghost use Rattle.std.specs.Prelude.{◌≡◌, ℕ, ◌≤◌, ◌<◌, ◌++◌, ◌∷◌, length, List, IfOk, MatchOption, Option, vec_capacity, vec_len};
ghost use Rattle.sc_base.specs.declared.key.Key.{Key as Named};
ghost use Rattle.sc_isa_image.specs.declared.text.Text.{Text as Words};
ghost use Rattle.sc_isa_image.specs.Lookups.{Spends, literal_room};
ghost use Rattle.sc_link.specs.Entries.{texts_if};
ghost use Rattle.sc_link.specs.Steps.{AreStubs};
ghost use Rattle.sc_unlink.specs.Taking.{HasTexts, Lists};
ghost use Rattle.sc_incr.specs.Leaving.{HasWords, IsAbsent, IsAt, IsLeaving, IsPresentAt, MayDrop, Retires, TakesFormer};
ghost use Rattle.sc_incr.specs.Program as program;
ghost use Rattle.sc_incr.specs.Settled.{IsSettled};
ghost use Rattle.sc_incr.specs.Stands.{Under};

use crate::entry::Entry;
use crate::literals::take_literals;
use crate::parts::changed_keys;
use sc_base::{Key, Name, NoMemory};
use sc_isa_image::Image;
use sc_link::{LiteralAt, Placed, add_jumps, add_statics, put_literals};
use sc_unlink::{clear_jumps, take_texts, take_values};
use std::alloc::Global;

/// What a present entry defines: the functions whose stubs lead to its texts, its objects, and their keys.
#[derive(Drop)]
pub struct Leaving {
    pub jumps: Vec<(Key, u32)>,
    pub objects: Vec<(Key, u32)>,
    pub keys: Vec<Key>,
}

/// What an entry defines.
pub fn leaving_of(alloc: Global, entry: &Placed) -> Result<Leaving, NoMemory>
    ensures { IfOk result (IsLeaving entry.now) }
{
    let mut jumps = Vec::new(alloc);
    add_jumps(alloc, &mut jumps, entry)?;
    let mut objects = Vec::new(alloc);
    add_statics(alloc, &mut objects, entry)?;
    let keys = changed_keys(alloc, &[], objects.as_slice())?;
    Ok(Leaving {
        jumps,
        objects,
        keys,
    })
}

/// The position of the present entry of a module.
pub fn position(entries: &[Entry], name: &Name) -> Option<usize>
    ensures { MatchOption result (IsAbsent name.now entries.now) (IsPresentAt name.now entries.now) }
{
    for (at, entry) in entries.iter().enumerate() {
        if is_present(entry.placed(), name) {
            return Some(at);
        }
    }
    None
}

// Whether an entry is the present one of a module.
fn is_present(entry: &Placed, name: &Name) -> bool
    ensures { result ≡ program.is_present name.now entry.now }
{
    !entry.retired && entry.home.as_slice() == name.as_slice()
}

/// Takes the definitions of an entry out of an image: the stubs of its functions ask for the service, and its objects have
/// no value. It takes no memory.
pub fn retire(image: &mut Image, leaving: &Leaving)
    requires { AreStubs image.old }
    ensures { Retires leaving.now image.old image.new }
{
    clear_jumps(image, leaving.jumps.as_slice());
    take_values(image, leaving.objects.as_slice());
}

/// Takes a former text out of an image: its texts, and its literals that no other entry holds. It takes no memory.
pub fn take_former(image: &mut Image, rest: &[Entry], entry: &Placed)
    ensures { (ts : List Words) → HasTexts ts image.old → Lists ts (texts_if entry.now) → TakesFormer rest.now entry.now image.old image.new }
{
    take_texts(image, entry);
    take_literals(image, rest, entry);
}

/// Takes a former text out of a list and out of its image. Literals that another entry holds get the places that are given.
/// It takes no memory.
pub fn drop_at(entries: &mut Vec<Entry>, image: &mut Image, at: usize, moved: Vec<LiteralAt>)
    requires may { MayDrop entries.old.items at moved.items }
    requires words { HasWords entries.old.items image.old }
    requires room { length moved.items ≤ literal_room image.old }
    ensures entries { (e : IsAt entries.old.items at) → entries.new.items ≡ e.front ++ e.back }
    ensures image { (value : Named → Option ℕ) (funs : List Named) → IsSettled entries.old.items funs → Under value entries.old.items funs image.old → Under value entries.new.items funs image.new }
    ensures settled { (funs : List Named) → IsSettled entries.old.items funs → IsSettled entries.new.items funs }
    ensures spends { Spends image.old image.new 0 0 (length moved.items) 0 }
    ensures capacity { vec_len entries.old < vec_capacity entries.old → vec_len entries.new < vec_capacity entries.new }
{
    let entry = take_at(entries, at);
    take_former(image, entries.as_slice(), entry.placed());
    put_literals(image, moved);
}

/// Makes an entry of a list a former text.
pub fn retire_at(entries: &mut Vec<Entry>, at: usize)
    requires { at < length entries.old.items }
    ensures entries { (e : IsAt entries.old.items at) → entries.new.items ≡ e.front ++ program.retired e.entry ∷ e.back }
    ensures capacity { vec_len entries.old < vec_capacity entries.old → vec_len entries.new < vec_capacity entries.new }
{
    if let Some(entry) = entries.get_mut(at) {
        entry.retire();
    }
}

/// Takes an entry out of a list.
pub fn take_at(entries: &mut Vec<Entry>, at: usize) -> Entry
    requires { at < length entries.old.items }
    ensures entry { (e : IsAt entries.old.items at) → result ≡ e.entry }
    ensures left { (e : IsAt entries.old.items at) → entries.new.items ≡ e.front ++ e.back }
    ensures capacity { vec_len entries.old < vec_capacity entries.old → vec_len entries.new < vec_capacity entries.new }
{
    entries.remove(at)
}
