// What a change makes of the entries, the functions and the image. All memory is taken before the first word is written.
ghost use Rattle.std.specs.Prelude.{◌≡◌, ◌+◌, ◌<◌, ◌≤◌, ◌++◌, ◌∷◌, [], length, slice_get, List, vec_capacity, vec_len, IfOk, OnErr, OnOk, Some};
ghost use Rattle.sc_base.specs.declared.key.Key.{Key as Named};
ghost use Rattle.sc_isa_image.specs.Lookups.{Spends, literal_room};
ghost use Rattle.sc_link.specs.declared.placed.Placed.{Placed as Listed};
ghost use Rattle.sc_link.specs.Linked.{IsLinked};
ghost use Rattle.sc_incr.specs.Leaving.{IsAt, IsLeaving};
ghost use Rattle.sc_incr.specs.Literals as literals;
ghost use Rattle.sc_incr.specs.Parts.{ArePartsOf, HasRoom};
ghost use Rattle.sc_incr.specs.Program.{left, left_of};
ghost use Rattle.sc_incr.specs.Settled.{IsPatched, IsSettled, Joins};
ghost use Rattle.sc_incr.specs.Stands.{IsOpen};

use crate::entry::Entry;
use crate::leaving::{Leaving, drop_at, leaving_of, position, retire, retire_at};
use crate::literals::literals_at_home;
use crate::parts::{Parts, enter, parts_of};
use crate::patching::patch_keys;
use sc_base::{Key, Name, NoMemory};
use sc_isa_image::Image;
use sc_link::{LiteralAt, Placed, copies, patches_over};
use std::alloc::Global;

/// The present entry of a module goes, or stays as a former text, and an entry takes its place, behind all others, with
/// functions that get the next numbers.
pub fn exchange(
    alloc: Global,
    entries: &mut Vec<Entry>,
    funs: &mut Vec<Key>,
    image: &mut Image,
    name: &Name,
    keep_old: bool,
    placed: Placed,
    functions: Vec<Key>,
) -> Result<(), NoMemory>
    requires patched { IsPatched entries.old.items funs.old.items image.old }
    requires joins { Joins (left keep_old name.now entries.old.items) funs.old.items placed functions.items }
    ensures patched { IsPatched entries.new.items funs.new.items image.new }
    ensures entries { OnOk result (entries.new.items ≡ left keep_old name.now entries.old.items ++ placed ∷ []) }
    ensures funs { OnOk result (funs.new.items ≡ funs.old.items ++ functions.items) }
    ensures old_entries { OnErr result (entries.new.items ≡ entries.old.items) }
    ensures old_funs { OnErr result (funs.new.items ≡ funs.old.items) }
{
    match position(entries.as_slice(), name) {
        Some(at) => exchange_at(alloc, entries, funs, image, at, keep_old, placed, functions),
        None => enter_new(alloc, entries, funs, image, placed, functions),
    }
}

/// The entry at a position goes, or stays as a former text, and an entry takes its place.
pub fn exchange_at(
    alloc: Global,
    entries: &mut Vec<Entry>,
    funs: &mut Vec<Key>,
    image: &mut Image,
    at: usize,
    keep_old: bool,
    placed: Placed,
    functions: Vec<Key>,
) -> Result<(), NoMemory>
    requires patched { IsPatched entries.old.items funs.old.items image.old }
    requires at { IsAt entries.old.items at }
    requires joins { (e : IsAt entries.old.items at) → Joins (e.front ++ (left_of keep_old e.entry ++ e.back)) funs.old.items placed functions.items }
    ensures patched { IsPatched entries.new.items funs.new.items image.new }
    ensures entries { (e : IsAt entries.old.items at) → OnOk result (entries.new.items ≡ (e.front ++ (left_of keep_old e.entry ++ e.back)) ++ placed ∷ []) }
    ensures funs { OnOk result (funs.new.items ≡ funs.old.items ++ functions.items) }
    ensures old_entries { OnErr result (entries.new.items ≡ entries.old.items) }
    ensures old_funs { OnErr result (funs.new.items ≡ funs.old.items) }
{
    let leaving = leaving_at(alloc, entries.as_slice(), at)?;
    let moved = moved_at(alloc, entries.as_slice(), at)?;
    let parts = parts_of(alloc, &placed, functions, leaving.keys.as_slice())?;
    let numbers = copies(alloc, parts.functions.as_slice())?;
    let entry = Entry::new(alloc, placed)?;
    reserve(entries, funs, image, &parts, moved.len())?;
    leave(
        entries,
        funs.as_slice(),
        image,
        at,
        keep_old,
        &leaving,
        moved,
    );
    put(entries, funs, image, entry, numbers, parts);
    Ok(())
}

// An entry more.
fn enter_new(
    alloc: Global,
    entries: &mut Vec<Entry>,
    funs: &mut Vec<Key>,
    image: &mut Image,
    placed: Placed,
    functions: Vec<Key>,
) -> Result<(), NoMemory>
    requires patched { IsPatched entries.old.items funs.old.items image.old }
    requires joins { Joins entries.old.items funs.old.items placed functions.items }
    ensures patched { IsPatched entries.new.items funs.new.items image.new }
    ensures entries { OnOk result (entries.new.items ≡ entries.old.items ++ placed ∷ []) }
    ensures funs { OnOk result (funs.new.items ≡ funs.old.items ++ functions.items) }
    ensures old_entries { OnErr result (entries.new.items ≡ entries.old.items) }
    ensures old_funs { OnErr result (funs.new.items ≡ funs.old.items) }
{
    let parts = parts_of(alloc, &placed, functions, &[])?;
    let numbers = copies(alloc, parts.functions.as_slice())?;
    let entry = Entry::new(alloc, placed)?;
    reserve(entries, funs, image, &parts, 0)?;
    put(entries, funs, image, entry, numbers, parts);
    Ok(())
}

/// The entry at a position goes, or stays as a former text.
pub fn remove_at(
    alloc: Global,
    entries: &mut Vec<Entry>,
    funs: &[Key],
    image: &mut Image,
    at: usize,
    keep_old: bool,
) -> Result<(), NoMemory>
    requires patched { IsPatched entries.old.items funs.now image.old }
    requires at { IsAt entries.old.items at }
    ensures patched { IsPatched entries.new.items funs.now image.new }
    ensures ok { OnOk result ((e : IsAt entries.old.items at) → entries.new.items ≡ e.front ++ (left_of keep_old e.entry ++ e.back)) }
    ensures err { OnErr result (entries.new.items ≡ entries.old.items) }
{
    let leaving = leaving_at(alloc, entries.as_slice(), at)?;
    let moved = moved_at(alloc, entries.as_slice(), at)?;
    reserve_literals(image, &moved)?;
    leave(entries, funs, image, at, keep_old, &leaving, moved);
    settle(image, entries.as_slice(), funs, leaving.keys.as_slice());
    Ok(())
}

// What the entry at a position defines.
fn leaving_at(alloc: Global, entries: &[Entry], at: usize) -> Result<Leaving, NoMemory>
    requires { at < length entries.now }
    ensures { IfOk result (λ l. (e : Listed) → slice_get entries.now at ≡ Some e → IsLeaving e l) }
{
    leaving_of(alloc, entries[at].placed())
}

// The literals of the other entries of the module of the entry at a position.
fn moved_at(alloc: Global, entries: &[Entry], at: usize) -> Result<Vec<LiteralAt>, NoMemory>
    requires { at < length entries.now }
    ensures { IfOk result (λ moved. (e : IsAt entries.now at) → moved.items ≡ literals.literals_at_home e.entry.home (e.front ++ e.back)) }
{
    let home = &entries[at].placed().home;
    let mut moved = literals_at_home(alloc, &entries[..at], home)?;
    let mut more = literals_at_home(alloc, &entries[at + 1..], home)?;
    moved.append(&mut more)?;
    Ok(moved)
}

// Makes room in an image for literals.
fn reserve_literals(image: &mut Image, literals: &Vec<LiteralAt>) -> Result<(), NoMemory>
    ensures kept { (es : List Listed) (fs : List Named) → IsLinked es fs image.old → IsLinked es fs image.new }
    ensures room { OnOk result (length literals.now.items ≤ literal_room image.new) }
{
    image.make_room(0, 0, literals.len(), 0)
}

// The definitions of the entry at a position are gone, and the entry is, too, if no run goes on. It takes no memory.
fn leave(
    entries: &mut Vec<Entry>,
    funs: &[Key],
    image: &mut Image,
    at: usize,
    keep_old: bool,
    leaving: &Leaving,
    moved: Vec<LiteralAt>,
)
    requires patched { IsPatched entries.old.items funs.now image.old }
    requires at { IsAt entries.old.items at }
    requires leaving { (e : Listed) → slice_get entries.old.items at ≡ Some e → IsLeaving e leaving.now }
    requires moved { (e : IsAt entries.old.items at) → moved.items ≡ literals.literals_at_home e.entry.home (e.front ++ e.back) }
    requires room { length moved.items ≤ literal_room image.old }
    ensures entries { (e : IsAt entries.old.items at) → entries.new.items ≡ e.front ++ (left_of keep_old e.entry ++ e.back) }
    ensures left { IsOpen entries.new.items funs.now leaving.now.keys.items image.new }
    ensures settled { IsSettled entries.new.items funs.now }
    ensures spends { Spends image.old image.new 0 0 (length moved.items) 0 }
    ensures capacity { vec_len entries.old < vec_capacity entries.old → vec_len entries.new < vec_capacity entries.new }
{
    retire(image, leaving);
    retire_at(entries, at);
    if keep_old {
        drop(moved);
        return;
    }
    drop_at(entries, image, at, moved);
}

// Makes the relocations again that name one of these keys.
fn settle(image: &mut Image, entries: &[Entry], funs: &[Key], keys: &[Key])
    requires left { IsOpen entries.now funs.now keys.now image.old }
    requires settled { IsSettled entries.now funs.now }
    ensures { IsPatched entries.now funs.now image.new }
{
    patch_keys(image, entries, keys);
    patches_over();
}

// Makes room for an entry, for its functions and for its parts, and for some literals more.
fn reserve(
    entries: &mut Vec<Entry>,
    funs: &mut Vec<Key>,
    image: &mut Image,
    parts: &Parts,
    moved: usize,
) -> Result<(), NoMemory>
    ensures entries { entries.new.items ≡ entries.old.items }
    ensures funs { funs.new.items ≡ funs.old.items }
    ensures kept { (es : List Listed) (fs : List Named) → IsLinked es fs image.old → IsLinked es fs image.new }
    ensures room { OnOk result (HasRoom moved image.new parts.now) }
    ensures entry { OnOk result (vec_len entries.new < vec_capacity entries.new) }
    ensures numbers { OnOk result (vec_len funs.new + length parts.now.functions.items ≤ vec_capacity funs.new) }
{
    entries.reserve(1)?;
    funs.reserve(parts.functions.len())?;
    reserve_parts(image, parts, moved)?;
    Ok(())
}

// Makes room in an image for the parts of an entry, and for some literals more.
fn reserve_parts(image: &mut Image, parts: &Parts, moved: usize) -> Result<(), NoMemory>
    ensures kept { (es : List Listed) (fs : List Named) → IsLinked es fs image.old → IsLinked es fs image.new }
    ensures room { OnOk result (HasRoom moved image.new parts.now) }
{
    let literals = both(parts.literals.len(), moved)?;
    image.make_room(
        parts.texts.len(),
        parts.statics.len(),
        literals,
        parts.functions.len(),
    )
}

// How many two lists have.
fn both(one: usize, other: usize) -> Result<usize, NoMemory>
    ensures { IfOk result (λ n. n ≡ one + other) }
{
    match one.checked_add(other) {
        Some(n) => Ok(n),
        None => Err(NoMemory),
    }
}

// Puts an entry behind the others. There is room for it.
fn put(
    entries: &mut Vec<Entry>,
    funs: &mut Vec<Key>,
    image: &mut Image,
    entry: Entry,
    numbers: Vec<Key>,
    parts: Parts,
)
    requires left { IsOpen entries.old.items funs.old.items parts.changed.items image.old }
    requires settled { IsSettled entries.old.items funs.old.items }
    requires joins { Joins entries.old.items funs.old.items entry parts.functions.items }
    requires parts { ArePartsOf entry parts }
    requires numbers { numbers.items ≡ parts.functions.items }
    requires room { HasRoom 0 image.old parts }
    requires entry_room { vec_len entries.old < vec_capacity entries.old }
    requires number_room { vec_len funs.old + length parts.functions.items ≤ vec_capacity funs.old }
    ensures patched { IsPatched entries.new.items funs.new.items image.new }
    ensures entries { entries.new.items ≡ entries.old.items ++ entry ∷ [] }
    ensures funs { funs.new.items ≡ funs.old.items ++ numbers.items }
{
    enter(
        image,
        entries.as_slice(),
        funs.as_slice(),
        entry.placed(),
        parts,
    );
    push_within(entries, entry);
    append_within(funs, numbers);
}

// Appends an entry to a list that has room for it.
fn push_within(entries: &mut Vec<Entry>, entry: Entry)
    requires { vec_len entries.old < vec_capacity entries.old }
    ensures { entries.new.items ≡ entries.old.items ++ entry ∷ [] }
{
    let _ = entries.push(entry);
}

// Appends functions to a list that has room for them.
fn append_within(funs: &mut Vec<Key>, mut more: Vec<Key>)
    requires { vec_len funs.old + length more.items ≤ vec_capacity funs.old }
    ensures { funs.new.items ≡ funs.old.items ++ more.items }
{
    let _ = funs.append(&mut more);
}
