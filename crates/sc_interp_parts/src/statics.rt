// Objects of static storage duration and literals: their births and their first contents (ANSI 3.1.2.4, 3.5.7).
ghost use Rattle.std.specs.Prelude.{◌≡◌, ◌+◌, [], ◌∷◌, length, map, replicate, IfOk};
ghost use Rattle.sc_base.specs.declared.memory.Kind.TheVariants as kind;
ghost use Rattle.sc_meaning.specs.Changes as spec;
ghost use Rattle.sc_meaning.specs.Values as value;
ghost use Rattle.sc_meaning.specs.Versions as versions;
ghost use Rattle.sc_meaning.specs.World as worlds;
ghost use Rattle.sc_meaning.specs.declared.spot.Spot.TheVariants as spots;
ghost use Rattle.sc_interp_access.specs.Gives.{Gives};
ghost use Rattle.sc_interp_parts.specs.Layouts as layouts;

use crate::births::born;
use sc_base::{Bytes, Duplicate, Items, Key, Kind, NoMemory, Shared};
use sc_core::Init;
use sc_core_held::{Callee, Definition, Text, callee_of, object_in};
use sc_interp_access::{Stop, pieces, sum};
use sc_interp_world::{Cell, Store, World, unwritten};
use sc_meaning::Spot;
use sc_meaning_values::Value;
use sc_program::StaticId;
use std::alloc::Global;

fn piece_size(piece: &Init) -> u32
    ensures { result ≡ spec.piece_size piece.now }
{
    match piece {
        Init::Byte(_) => 1,
        Init::Zeros(n) => *n,
        Init::Address(_, _) => 4,
    }
}

fn contents_size(pieces: &[Init]) -> Result<u32, NoMemory>
    ensures { IfOk result (λ n. n ≡ spec.contents_size pieces.now) }
{
    let mut size = 0;
    for piece in pieces {
        size = sum(size, piece_size(piece))?;
    }
    Ok(size)
}

fn kind_of(constant: bool) -> Kind
    ensures { result ≡ spec.kind_of constant }
{
    if constant { Kind::Const } else { Kind::Static }
}

/// How many bytes the object or the literal with a name has; none where nothing defines it.
pub fn static_size(texts: &[Text], id: &StaticId) -> Result<u32, NoMemory>
    ensures { IfOk result (λ n. n ≡ layouts.static_size texts.now id.now) }
{
    match id {
        StaticId::Named(key) => match object_in(texts, key) {
            None => Ok(0),
            Some(d) => contents_size(d.object.init.as_slice()),
        },
        StaticId::Literal(_, bytes) => match u32::try_from(bytes.as_slice().len()) {
            Ok(n) => Ok(n),
            Err(_) => Err(NoMemory),
        },
    }
}

// The object of a key is born where it stands; where nothing defines it, it has no bytes.
fn born_named(texts: &[Text], id: &StaticId, key: &Key, world: &mut World) -> Result<u32, Stop>
    ensures { Gives (spec.born_as id.now (versions.object_in texts.now key.now) world.old) result world.new }
{
    let spot = Spot::Named(id.copy(world.alloc())?);
    match object_in(texts, key) {
        None => born(0, Kind::Static, &spot, world),
        Some(d) => {
            let size = contents_size(d.object.init.as_slice())?;
            born(size, kind_of(d.object.constant), &spot, world)
        }
    }
}

fn born_literal(id: &StaticId, bytes: &Bytes, world: &mut World) -> Result<u32, Stop>
    ensures { Gives (spec.born (length bytes.now) kind.Literal (spots.Named id.now) world.old) result world.new }
{
    let spot = Spot::Named(id.copy(world.alloc())?);
    let n = bytes.as_slice().len();
    if 4_294_967_295 < n {
        return Err(Stop::NoRoom);
    }
    born(n as u32, Kind::Literal, &spot, world)
}

fn born_static(texts: &[Text], id: &StaticId, world: &mut World) -> Result<u32, Stop>
    ensures { Gives (spec.born_static texts.now id.now world.old) result world.new }
{
    match id {
        StaticId::Named(key) => born_named(texts, id, key, world),
        StaticId::Literal(_, bytes) => born_literal(id, bytes, world),
    }
}

// It is born where it has no object yet.
fn born_unless(texts: &[Text], id: &StaticId, world: &mut World) -> Result<(), Stop>
    ensures { Gives (spec.born_unless texts.now id.now (worlds.named_in world.old.names id.now) world.old) result world.new }
{
    match world.named(id) {
        Some(_) => Ok(()),
        None => {
            let o = born_static(texts, id, world)?;
            world.name(id.copy(world.alloc())?, o)?;
            Ok(())
        }
    }
}

fn born_all(texts: &[Text], ids: &[StaticId], world: &mut World) -> Result<(), Stop>
    ensures { Gives (spec.born_all texts.now ids.now world.old) result world.new }
{
    for id in ids {
        born_unless(texts, id, world)?;
    }
    Ok(())
}

// The address of a place in an object, its end included.
fn address_in(objects: &Store, o: u32, at: u32) -> Option<Value>
    ensures { result ≡ spec.address_in (worlds.object_at objects.now.objects o) o at }
{
    match objects.find(o) {
        None => None,
        Some(object) => {
            if at <= object.size {
                Some(Value::pointer(o, at))
            } else {
                None
            }
        }
    }
}

fn function_at(key: &Key, alloc: Global) -> Result<Value, NoMemory>
    ensures { IfOk result (λ v. v ≡ value.FunctionAt key.now) }
{
    let key = key.copy(alloc)?;
    Ok(Value::function(Shared::new(alloc, key)?))
}

fn fun_address(texts: &[Text], key: &Key, alloc: Global) -> Result<Option<Value>, NoMemory>
    ensures { IfOk result (λ v. v ≡ spec.fun_address (versions.callee_of texts.now key.now) key.now) }
{
    match callee_of(texts, key) {
        Callee::Missing => Ok(None),
        Callee::InText(_, _) => Ok(Some(function_at(key, alloc)?)),
        Callee::InLibrary(_) => Ok(Some(function_at(key, alloc)?)),
    }
}

fn without_object(texts: &[Text], id: &StaticId, alloc: Global) -> Result<Option<Value>, NoMemory>
    ensures { IfOk result (λ v. v ≡ spec.without_object texts.now id.now) }
{
    match id {
        StaticId::Named(key) => fun_address(texts, key, alloc),
        StaticId::Literal(_, _) => Ok(None),
    }
}

fn address_of(
    texts: &[Text],
    id: &StaticId,
    at: u32,
    world: &World,
) -> Result<Option<Value>, NoMemory>
    ensures { IfOk result (λ v. v ≡ spec.address_of texts.now id.now (worlds.named_in world.now.names id.now) at world.now) }
{
    match world.named(id) {
        Some(o) => Ok(address_in(world.objects(), o, at)),
        None => without_object(texts, id, world.alloc()),
    }
}

// The four bytes of an address, unwritten where the name has no definition.
fn address_cells(v: Option<Value>, alloc: Global) -> Result<Items<Cell>, NoMemory>
    ensures { IfOk result (λ cells. cells ≡ spec.address_cells v) }
{
    match v {
        Some(v) => pieces(alloc, 4, &v),
        None => unwritten(alloc, 4),
    }
}

fn byte_cells(byte: u8, alloc: Global) -> Result<Items<Cell>, NoMemory>
    ensures { IfOk result (λ cells. cells ≡ value.Byte byte ∷ []) }
{
    let mut cells = Items::new(alloc);
    cells.push(Cell::byte(byte))?;
    Ok(cells)
}

// So many bytes that are zero.
fn zero_cells(n: u32, alloc: Global) -> Result<Items<Cell>, NoMemory>
    ensures { IfOk result (λ cells. cells ≡ replicate n (value.Byte 0)) }
{
    let mut cells = Items::new(alloc);
    for _ in 0..n {
        cells.push(Cell::byte(0))?;
    }
    Ok(cells)
}

fn piece_cells(texts: &[Text], world: &World, piece: &Init) -> Result<Items<Cell>, NoMemory>
    ensures { IfOk result (λ cells. cells ≡ spec.piece_cells texts.now world.now piece.now) }
{
    let alloc = world.alloc();
    match piece {
        Init::Byte(b) => byte_cells(*b, alloc),
        Init::Zeros(n) => zero_cells(*n, alloc),
        Init::Address(id, at) => address_cells(address_of(texts, id, *at, world)?, alloc),
    }
}

fn contents(texts: &[Text], world: &World, pieces: &[Init]) -> Result<Items<Cell>, NoMemory>
    ensures { IfOk result (λ cells. cells ≡ spec.contents texts.now world.now pieces.now) }
{
    let mut cells = Items::new(world.alloc());
    for piece in pieces {
        cells.append(piece_cells(texts, world, piece)?)?;
    }
    Ok(cells)
}

fn named_contents(texts: &[Text], world: &World, key: &Key) -> Result<Items<Cell>, NoMemory>
    ensures { IfOk result (λ cells. cells ≡ spec.defined_contents texts.now world.now (versions.object_in texts.now key.now)) }
{
    match object_in(texts, key) {
        None => Ok(Items::new(world.alloc())),
        Some(d) => contents(texts, world, d.object.init.as_slice()),
    }
}

fn literal_contents(bytes: &Bytes, alloc: Global) -> Result<Items<Cell>, NoMemory>
    ensures { IfOk result (λ cells. cells ≡ map value.Byte bytes.now) }
{
    let mut cells = Items::new(alloc);
    for b in bytes.as_slice() {
        cells.push(Cell::byte(*b))?;
    }
    Ok(cells)
}

fn static_contents(texts: &[Text], world: &World, id: &StaticId) -> Result<Items<Cell>, NoMemory>
    ensures { IfOk result (λ cells. cells ≡ spec.static_contents texts.now world.now id.now) }
{
    match id {
        StaticId::Named(key) => named_contents(texts, world, key),
        StaticId::Literal(_, bytes) => literal_contents(bytes, world.alloc()),
    }
}

fn filled(texts: &[Text], id: &StaticId, world: &mut World) -> Result<(), NoMemory>
    ensures { IfOk result (λ _. world.new ≡ spec.filled texts.now id.now (worlds.named_in world.old.names id.now) world.old) }
{
    match world.named(id) {
        None => Ok(()),
        Some(o) => {
            let cells = static_contents(texts, world, id)?;
            world.put(o, 0, cells)
        }
    }
}

fn filled_all(texts: &[Text], ids: &[StaticId], world: &mut World) -> Result<(), NoMemory>
    ensures { IfOk result (λ _. world.new ≡ spec.filled_all texts.now ids.now world.old) }
{
    for id in ids {
        filled(texts, id, world)?;
    }
    Ok(())
}

/// The objects and literals of some texts, in the order in which they are born.
pub fn births_of(alloc: Global, texts: &[Text]) -> Result<Items<StaticId>, NoMemory>
    ensures { IfOk result (λ ids. ids ≡ versions.births_of texts.now) }
{
    let mut ids = Items::new(alloc);
    for t in texts {
        ids.append(t.core.get().births.copy(alloc)?)?;
    }
    Ok(ids)
}

// The ones that have no object.
fn unnamed(world: &World, ids: &[StaticId]) -> Result<Items<StaticId>, NoMemory>
    ensures { IfOk result (λ rest. rest ≡ spec.unnamed world.now.names ids.now) }
{
    let alloc = world.alloc();
    let mut rest = Items::new(alloc);
    for id in ids {
        if world.named(id).is_none() {
            rest.push(id.copy(alloc)?)?;
        }
    }
    Ok(rest)
}

/// The objects and literals of some texts that are not there yet are born, in the order of the texts, and then get their
/// initial contents.
///
/// # Errors
///
/// `BirthLimit`.
pub fn statics_born(texts: &[Text], world: &mut World) -> Result<(), Stop>
    ensures { Gives (spec.statics_born texts.now world.old) result world.new }
{
    let births = births_of(world.alloc(), texts)?;
    let ids = unnamed(world, births.as_slice())?;
    born_all(texts, ids.as_slice(), world)?;
    filled_all(texts, ids.as_slice(), world)?;
    Ok(())
}
