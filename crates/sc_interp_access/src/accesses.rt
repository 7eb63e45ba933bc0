// Loads, stores, copies, and operators: what each gives, or the rule that it breaks (ANSI 3.2.2.1, 3.3).
ghost use Rattle.std.specs.Prelude.{◌≡◌, ◌+◌, ◌*◌, ℕ, IfOk, MatchResult, None, Some, map, take};
ghost use Rattle.sc_meaning.specs.Accesses as spec;
ghost use Rattle.sc_meaning.specs.Values as value;
ghost use Rattle.sc_meaning.specs.World as world;
ghost use Rattle.sc_interp_access.specs.Gives.{Gives};

use crate::breaches::{access_breach, sum};
use crate::stop::Stop;
use crate::violations::{
    cells_read, load_rule, pointer_of, reach_rule, store_rule, whole, write_rule,
};
use sc_base::{Duplicate, Int, Items, NoMemory};
use sc_interp_world::{Cell, Content, World};
use sc_meaning_values::{Shape, Value};
use sc_ops::convert;
use sc_types::{CType, int_size};
use std::alloc::Global;

/// How many bytes a scalar of the type has; 0 where the type is no scalar.
pub fn scalar_size(t: &CType) -> u32
    ensures { result ≡ value.scalar_size t.now }
{
    match t {
        CType::Int(i, _) => int_size(*i),
        CType::Pointer(_, _) => 4,
        CType::Void(_) | CType::Array(_, _) | CType::Struct(_, _) | CType::Function(_) => 0,
    }
}

/// Whether the type is a pointer type.
pub fn is_pointer_type(t: &CType) -> bool
    ensures { result ≡ value.is_pointer_type t.now }
{
    match t {
        CType::Pointer(_, _) => true,
        CType::Int(_, _)
        | CType::Void(_)
        | CType::Array(_, _)
        | CType::Struct(_, _)
        | CType::Function(_) => false,
    }
}

/// The integer type that a type is.
pub fn int_of(t: &CType) -> Int
    ensures { result ≡ value.int_of t.now }
{
    match t {
        CType::Int(i, _) => *i,
        CType::Pointer(_, _)
        | CType::Void(_)
        | CType::Array(_, _)
        | CType::Struct(_, _)
        | CType::Function(_) => Int::UInt,
    }
}

fn byte_of(c: &Cell) -> u32
    ensures { result ≡ value.byte_of c.now }
{
    match &c.content {
        Content::Unwritten => 0,
        Content::Byte(b) => u32::from(*b),
        Content::Piece(_, _) => 0,
    }
}

/// The number of some bytes, the lowest first.
pub fn number_of_cells(cells: &[Cell]) -> Result<u32, NoMemory>
    ensures { IfOk result (λ n. n ≡ value.number_of_cells cells.now) }
{
    match cells {
        [] => Ok(0),
        [c, rest @ ..] => {
            let high = number_of_cells(rest)?;
            let Some(high) = high.checked_mul(256) else {
                return Err(NoMemory)
            };
            sum(byte_of(c), high)
        }
    }
}

/// The value of some bytes.
pub fn value_of_cells(alloc: Global, cells: &[Cell]) -> Result<Value, NoMemory>
    ensures { IfOk result (λ v. v ≡ value.value_of_cells cells.now) }
{
    match pointer_of(cells) {
        Some(p) => p.copy(alloc),
        None => Ok(Value::number(number_of_cells(cells)?)),
    }
}

/// A number as a value of an integer type.
pub fn converted_value(i: Int, v: Value) -> Value
    ensures { result ≡ spec.converted_value i v }
{
    match v.shape {
        Shape::Number(n) => Value::number(convert(n, i)),
        Shape::FunctionAt(k) => Value::function(k),
        Shape::Pointer(o, at) => Value::pointer(o, at),
    }
}

/// A value as one of a scalar type.
pub fn as_type(t: &CType, v: Value) -> Value
    ensures { result ≡ spec.as_type t.now v }
{
    if is_pointer_type(t) {
        v
    } else {
        converted_value(int_of(t), v)
    }
}

/// The value of a scalar type that stands `further` bytes from where `p` points (3.2.2.1).
///
/// # Errors
///
/// The rule that the load breaks.
pub fn loaded(t: &CType, p: &Value, further: u32, world: &World) -> Result<Value, Stop>
    ensures { Gives (spec.loaded t.now p.now further world.now) result world.now }
{
    let n = scalar_size(t);
    match whole(world.objects(), p, further, n, is_pointer_type(t))? {
        Some(found) => Ok(as_type(t, found)),
        None => loaded_slowly(t, p, further, world),
    }
}

// The same byte by byte.
#[inline(never)]
fn loaded_slowly(t: &CType, p: &Value, further: u32, world: &World) -> Result<Value, Stop>
    ensures { Gives (spec.loaded t.now p.now further world.now) result world.now }
{
    let n = scalar_size(t);
    if let Some(rule) = load_rule(world.objects(), p, further, n, is_pointer_type(t))? {
        let told = access_breach(p, further, n, world, rule)?;
        return Err(Stop::Undefined(told));
    }
    let cells = cells_read(world.objects(), p, further, n)?;
    let found = value_of_cells(world.alloc(), cells.as_slice())?;
    Ok(as_type(t, found))
}

/// The first `n` pieces of a pointer.
pub fn pieces(alloc: Global, n: u32, v: &Value) -> Result<Items<Cell>, NoMemory>
    ensures { IfOk result (λ cells. cells ≡ take n (value.pieces_of v.now)) }
{
    let mut cells = Items::new(alloc);
    cells.push(Cell::piece(v.copy(alloc)?, 0))?;
    cells.push(Cell::piece(v.copy(alloc)?, 1))?;
    cells.push(Cell::piece(v.copy(alloc)?, 2))?;
    cells.push(Cell::piece(v.copy(alloc)?, 3))?;
    cells.truncate(n as usize);
    Ok(cells)
}

/// Writes a value of `n` bytes without a test.
pub fn set_at(p: &Value, further: u32, n: u32, v: &Value, world: &mut World) -> Result<(), NoMemory>
    ensures { IfOk result (λ _. world.new ≡ spec.set_at p.now further n v.now world.old) }
{
    match &p.shape {
        Shape::Number(_) => Ok(()),
        Shape::FunctionAt(_) => Ok(()),
        Shape::Pointer(o, at) => world.store(*o, sum(*at, further)?, n, v),
    }
}

/// A value of a scalar type is stored.
///
/// # Errors
///
/// The rule that the store breaks.
pub fn stored(
    t: &CType,
    p: &Value,
    further: u32,
    v: Value,
    world: &mut World,
) -> Result<Value, Stop>
    ensures { Gives (spec.stored t.now p.now further v world.old) result world.new }
{
    let n = scalar_size(t);
    if let Some(rule) = store_rule(world.objects(), p, further, n) {
        let told = access_breach(p, further, n, world, rule)?;
        return Err(Stop::Undefined(told));
    }
    set_at(p, further, n, &v, world)?;
    Ok(v)
}

/// Copies `n` bytes without a test.
pub fn copy_at(
    to: &Value,
    further: u32,
    from: &Value,
    beyond: u32,
    n: u32,
    world: &mut World,
) -> Result<(), NoMemory>
    ensures { IfOk result (λ _. world.new ≡ spec.copy_at to.now further from.now beyond n world.old) }
{
    match (&to.shape, &from.shape) {
        (Shape::Pointer(o, at), Shape::Pointer(p, off)) => world.copy(
            *o,
            sum(*at, further)?,
            *p,
            sum(*off, beyond)?,
            n,
        ),
        _ => Ok(()),
    }
}

/// `n` bytes are copied as they are: first the source is tested, then the target.
///
/// # Errors
///
/// The rule that the source or the target breaks.
pub fn copied(
    to: &Value,
    further: u32,
    from: &Value,
    beyond: u32,
    n: u32,
    world: &mut World,
) -> Result<(), Stop>
    ensures { Gives (spec.copied to.now further from.now beyond n world.old) result world.new }
{
    if let Some(rule) = reach_rule(world.objects(), from, beyond, n) {
        let told = access_breach(from, beyond, n, world, rule)?;
        return Err(Stop::Undefined(told));
    }
    if let Some(rule) = write_rule(world.objects(), to, further, n) {
        let told = access_breach(to, further, n, world, rule)?;
        return Err(Stop::Undefined(told));
    }
    copy_at(to, further, from, beyond, n, world)?;
    Ok(())
}
