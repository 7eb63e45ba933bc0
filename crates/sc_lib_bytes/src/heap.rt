// The heap (ANSI 4.10.3).
ghost use Rattle.std.specs.Prelude.{◌≡◌, ◌+◌, ◌*◌, ◌<◌, not, nat_lt, replicate, IfOk};
ghost use Rattle.sc_meaning.specs.Classes as classes;
ghost use Rattle.sc_meaning.specs.Functions as functions;
ghost use Rattle.sc_meaning.specs.Library as spec;
ghost use Rattle.sc_meaning.specs.Outcomes as outcome;
ghost use Rattle.sc_meaning.specs.Values as value;
ghost use Rattle.sc_interp_access.specs.Gives.{Gives};

use crate::bytes::{block_size_at, twice};
use sc_base::{Duplicate, Items, Kind, NoMemory, Rule, Shared};
use sc_interp_access::{Breach, Stop, breach, copy_at, free_rule, is_null};
use sc_interp_parts::born;
use sc_interp_world::{Cell, World};
use sc_meaning::Spot;
use sc_meaning_values::{Answer, Shape, Value};
use std::alloc::Global;

// The bytes of the blocks of a class.
fn block_size(k: u32) -> u64
    requires { k < 30 }
    ensures { result ≡ classes.block_size k }
{
    16u64 << k
}

// The class of a request of n bytes.
fn class_of(n: u32) -> u32
    ensures class { result ≡ classes.class_of n }
    ensures bound { result < 30 }
{
    for k in 0..29 {
        if u64::from(n) + 1 <= block_size(k) {
            return k;
        }
    }
    29
}

fn allocated(n: u32, world: &mut World) -> Result<Option<u32>, Stop>
    ensures { Gives (spec.allocated n world.old) result world.new }
{
    let o = born(n, Kind::Heap, &Spot::Block, world)?;
    Ok(Some(o))
}

// Whether the heap has room for one more block of this size.
fn has_room(size: u64, world: &World) -> Result<bool, NoMemory>
    ensures { IfOk result (λ yes. yes ≡ not (nat_lt world.now.heap (world.now.made + size))) }
{
    let Some(made) = world.made().checked_add(size) else {
        return Err(NoMemory)
    };
    Ok(made <= world.heap())
}

/// A new object of `n` bytes in a block of its class, where the heap has one free or room for one more.
///
/// # Errors
///
/// `BirthLimit`.
pub fn taken(n: u32, world: &mut World) -> Result<Option<u32>, Stop>
    ensures { Gives (spec.taken n world.old) result world.new }
{
    let k = class_of(n);
    if world.free_of(k) != 0 {
        world.take_free(k)?;
        return allocated(n, world);
    }
    let size = block_size(k);
    if !has_room(size, world)? {
        return Ok(None);
    }
    world.take_new(size)?;
    allocated(n, world)
}

fn address_or_null(o: Option<u32>) -> Value
    ensures { result ≡ spec.address_or_null o }
{
    match o {
        None => Value::null(),
        Some(o) => Value::pointer(o, 0),
    }
}

/// `malloc`.
///
/// # Errors
///
/// `BirthLimit`.
pub fn malloc(n: u32, world: &mut World) -> Result<Answer, Stop>
    ensures { Gives (functions.malloc n world.old) result world.new }
{
    if n == 0 {
        return Ok(Answer::plain(Value::null()));
    }
    let o = taken(n, world)?;
    Ok(Answer::plain(address_or_null(o)))
}

/// As many bytes of a number.
pub fn bytes_of(alloc: Global, n: u32, byte: u8) -> Result<Items<Cell>, NoMemory>
    ensures { IfOk result (λ cells. cells ≡ replicate n (value.Byte byte)) }
{
    let mut cells = Items::new(alloc);
    for _ in 0..n {
        cells.push(Cell::byte(byte))?;
    }
    Ok(cells)
}

fn zeroed(n: u32, o: Option<u32>, world: &mut World) -> Result<Answer, Stop>
    ensures { Gives (functions.zeroed n o world.old) result world.new }
{
    match o {
        None => Ok(Answer::plain(Value::null())),
        Some(o) => {
            let cells = bytes_of(world.alloc(), n, 0)?;
            world.put(o, 0, cells)?;
            world.work(n)?;
            Ok(Answer::plain(Value::pointer(o, 0)))
        }
    }
}

// A request of n bytes, which are set to zero.
fn zeros_taken(n: u32, world: &mut World) -> Result<Answer, Stop>
    ensures { Gives (outcome.and_then (spec.taken n world.old) (functions.zeroed n)) result world.new }
{
    let o = taken(n, world)?;
    zeroed(n, o, world)
}

/// `calloc`.
///
/// # Errors
///
/// `BirthLimit`.
pub fn calloc(n: u32, m: u32, world: &mut World) -> Result<Answer, Stop>
    ensures { Gives (functions.calloc n m world.old) result world.new }
{
    let size = u64::from(n) * u64::from(m);
    if size == 0 || 4_294_967_296 <= size {
        return Ok(Answer::plain(Value::null()));
    }
    zeros_taken(size as u32, world)
}

fn block_breach(p: &Value, world: &World, rule: Rule) -> Result<Shared<Breach>, NoMemory>
    ensures { IfOk result (λ b. b ≡ spec.block_breach p.now world.now rule) }
{
    let mut told = breach(rule, world)?;
    told.left = p.copy(world.alloc())?;
    Shared::new(world.alloc(), told)
}

// Only null and the start of a live block can be given back.
fn block_tested(p: &Value, world: &World) -> Result<(), Stop>
    ensures { Gives (spec.block_tested p.now world.now) result world.now }
{
    if let Some(rule) = free_rule(world.objects(), p) {
        let told = block_breach(p, world, rule)?;
        return Err(Stop::Undefined(told));
    }
    Ok(())
}

fn given_back(p: &Value, world: &mut World) -> Result<(), NoMemory>
    ensures { IfOk result (λ _. world.new ≡ spec.given_back p.now world.old) }
{
    let size = block_size_at(world, p);
    match &p.shape {
        Shape::Number(_) => Ok(()),
        Shape::FunctionAt(_) => Ok(()),
        Shape::Pointer(o, _) => {
            world.death(*o)?;
            world.give(class_of(size))
        }
    }
}

/// `free`.
///
/// # Errors
///
/// `U14` where it is no start of a live block.
pub fn free(p: &Value, world: &mut World) -> Result<Answer, Stop>
    ensures { Gives (functions.free p.now world.old) result world.new }
{
    if is_null(p) {
        return Ok(Answer::nothing());
    }
    block_tested(p, world)?;
    given_back(p, world)?;
    Ok(Answer::nothing())
}

// The bytes that both have are copied, and the old block is given back.
fn enlarged(p: &Value, n: u32, o: Option<u32>, world: &mut World) -> Result<Answer, Stop>
    ensures { Gives (functions.enlarged p.now n o world.old) result world.new }
{
    match o {
        None => Ok(Answer::plain(Value::null())),
        Some(o) => {
            let both = n.min(block_size_at(world, p));
            copy_at(&Value::pointer(o, 0), 0, p, 0, both, world)?;
            world.work(twice(both)?)?;
            given_back(p, world)?;
            Ok(Answer::plain(Value::pointer(o, 0)))
        }
    }
}

fn reallocated(p: &Value, n: u32, world: &mut World) -> Result<Answer, Stop>
    ensures { Gives (functions.reallocated p.now n world.old) result world.new }
{
    if n == 0 {
        given_back(p, world)?;
        return Ok(Answer::plain(Value::null()));
    }
    let o = taken(n, world)?;
    enlarged(p, n, o, world)
}

/// `realloc`.
///
/// # Errors
///
/// `U14` where it is no start of a live block; `BirthLimit`.
pub fn realloc(p: &Value, n: u32, world: &mut World) -> Result<Answer, Stop>
    ensures { Gives (functions.realloc p.now n world.old) result world.new }
{
    if is_null(p) {
        return malloc(n, world);
    }
    block_tested(p, world)?;
    reallocated(p, n, world)
}
