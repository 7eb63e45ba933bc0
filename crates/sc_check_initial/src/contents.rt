// The contents of an object of static storage duration (ANSI 3.5.7): its bytes in order.
ghost use Rattle.std.specs.Prelude.{◌≡◌, ◌++◌, ◌-◌, IfOk, OnOk};
ghost use Rattle.sc_check_scope.specs.Steps.{Says, and_then};
ghost use Rattle.sc_check_initial.specs.Values.{Gives, behind};
ghost use Rattle.sc_check_initial.specs.Contents as spec;

use crate::fault::not_constant;
use sc_base::{Bytes, Duplicate, Items, Name, NoMemory};
use sc_check_operand::{Base, Located, address_constant, integer_constant, object_size};
use sc_check_scope::{CheckFault, Literals};
use sc_core::{AutoInit, CoreExpr, Init};
use sc_program::StaticId;
use sc_types::{CType, Structs, int_size};
use std::alloc::Global;

/// The bytes so far, and the offset behind the last of them.
#[derive(Drop)]
pub(crate) struct Contents {
    pub(crate) end: usize,
    pub(crate) items: Items<Init>,
}

fn put_zeros(count: usize, items: &mut Items<Init>) -> Result<(), NoMemory>
    ensures { OnOk result (items.new ≡ items.old ++ spec.zero_bytes count) }
{
    if count == 0 {
        return Ok(());
    }
    let Ok(count) = u32::try_from(count) else {
        return Err(NoMemory);
    };
    items.push(Init::Zeros(count))
}

fn put_bytes(bytes: &[u8], items: &mut Items<Init>) -> Result<(), NoMemory>
    ensures { OnOk result (items.new ≡ items.old ++ spec.bytes bytes.now) }
{
    for b in bytes {
        items.push(Init::Byte(*b))?;
    }
    Ok(())
}

/// The low bytes of a number, the lowest first.
fn put_number(size: u32, n: u32, items: &mut Items<Init>) -> Result<(), NoMemory>
    ensures { OnOk result (items.new ≡ items.old ++ spec.number size n) }
{
    let bytes = n.to_le_bytes();
    put_bytes(&bytes[..size.min(4) as usize], items)
}

fn literal(alloc: Global, name: &Name, bytes: &Bytes) -> Result<StaticId, NoMemory>
    ensures { IfOk result (λ x. x ≡ StaticId.Literal name.now bytes.now) }
{
    let name = name.copy(alloc)?;
    let bytes = bytes.copy(alloc)?;
    Ok(StaticId::Literal(name, bytes))
}

/// What an address is one of, `None` where it is null.
fn identity(
    alloc: Global,
    home: &Name,
    literals: &Literals,
    line: u32,
    base: &Base,
) -> Result<Option<StaticId>, CheckFault>
    ensures { Says (spec.identity home.now literals.now line base.now) result }
{
    match base {
        Base::Null => Ok(None),
        Base::Static(key) => Ok(Some(StaticId::Named(key.copy(alloc)?))),
        Base::Function(key) => Ok(Some(StaticId::Named(key.copy(alloc)?))),
        Base::Literal(n) => match literals.get(*n as usize) {
            Some(bytes) => Ok(Some(literal(alloc, home, bytes)?)),
            None => Err(not_constant(line)),
        },
    }
}

fn put_address(
    alloc: Global,
    home: &Name,
    literals: &Literals,
    line: u32,
    place: &Located,
    items: &mut Items<Init>,
) -> Result<(), CheckFault>
    ensures { Gives (behind items.old (spec.address home.now literals.now line place.now)) result items.new }
{
    match identity(alloc, home, literals, line, &place.base)? {
        Some(id) => items.push(Init::Address(id, place.offset))?,
        None => put_zeros(4, items)?,
    }
    Ok(())
}

fn scalar_size(of: &CType) -> u32
    ensures { result ≡ spec.scalar_size of.now }
{
    match of {
        CType::Int(kind, _) => int_size(*kind),
        _ => 4,
    }
}

/// A constant in the type of its place.
fn put_constant(
    alloc: Global,
    home: &Name,
    literals: &Literals,
    line: u32,
    of: &CType,
    e: &CoreExpr,
    items: &mut Items<Init>,
) -> Result<(), CheckFault>
    ensures { Gives (behind items.old (spec.constant home.now literals.now line of.now e.now)) result items.new }
{
    match of {
        CType::Int(kind, _) => {
            let value = integer_constant(line, e)?;
            put_number(int_size(*kind), value.0, items)?;
            Ok(())
        }
        _ => {
            let place = address_constant(alloc, line, e)?;
            put_address(alloc, home, literals, line, &place, items)
        }
    }
}

/// Zero bytes up to an offset.
fn pad(at: usize, done: &mut Contents) -> Result<(), NoMemory>
    ensures { OnOk result (done.new ≡ record done.old { items = done.old.items ++ spec.zero_bytes (at - done.old.end) }) }
{
    put_zeros(at.saturating_sub(done.end), &mut done.items)
}

fn put_piece(
    alloc: Global,
    home: &Name,
    literals: &Literals,
    line: u32,
    piece: &AutoInit,
    done: &mut Contents,
) -> Result<(), CheckFault>
    ensures { Gives (spec.one_piece home.now literals.now line piece.now done.old) result done.new }
{
    match piece {
        AutoInit::Value(at, of, e) => {
            pad(*at as usize, done)?;
            put_constant(alloc, home, literals, line, of, e.get(), &mut done.items)?;
            done.end = *at as usize + scalar_size(of) as usize;
            Ok(())
        }
        AutoInit::Text(at, bytes) => {
            pad(*at as usize, done)?;
            put_bytes(bytes.as_slice(), &mut done.items)?;
            done.end = *at as usize + bytes.as_slice().len();
            Ok(())
        }
        AutoInit::Zero(_, _) => Ok(()),
        AutoInit::Structure(_, _) => Err(not_constant(line)),
    }
}

/// The bytes of an object of this size with these pieces, which are in the order of offsets; the others are zero.
pub(crate) fn contents_of(
    alloc: Global,
    home: &Name,
    literals: &Literals,
    line: u32,
    size: u32,
    pieces: &[AutoInit],
) -> Result<Items<Init>, CheckFault>
    ensures { Says (spec.contents home.now literals.now line size pieces.now) result }
{
    let mut done = Contents {
        end: 0,
        items: Items::new(alloc),
    };
    for piece in pieces {
        put_piece(alloc, home, literals, line, piece, &mut done)?;
    }
    pad(size as usize, &mut done)?;
    let Contents { end: _, items } = done;
    Ok(items)
}

/// The contents of an object of static storage duration that has no initialiser (ANSI 3.5.7): as many zero bytes as it has bytes.
pub fn zeros(alloc: Global, structs: &Structs, of: &CType) -> Result<Items<Init>, NoMemory>
    ensures { IfOk result (λ all. all ≡ spec.zeros structs.now of.now) }
{
    let mut items = Items::new(alloc);
    if let Some(size) = object_size(structs, of) {
        put_zeros(size as usize, &mut items)?;
    }
    Ok(items)
}
