// Births and deaths of objects, and what sets their first bytes (ANSI 3.1.2.4, 3.5.7, 3.6.2).
ghost use Rattle.std.specs.Prelude.{◌≡◌, ◌+◌, [], ◌∷◌, replicate, IfOk};
ghost use Rattle.sc_meaning.specs.Calls as calls;
ghost use Rattle.sc_meaning.specs.Changes as changes;
ghost use Rattle.sc_meaning.specs.Outcomes as outcome;
ghost use Rattle.sc_meaning.specs.Statements as spec;
ghost use Rattle.sc_meaning.specs.Values as value;
ghost use Rattle.sc_meaning.specs.declared.spot.Spot.TheVariants as spot;
ghost use Rattle.sc_meaning.specs.Accesses as access;
ghost use Rattle.sc_meaning.specs.World as worlds;
ghost use Rattle.sc_interp_access.specs.Gives.{Gives};

use sc_base::{Items, Kind, NoMemory};
use sc_core::Auto;
use sc_interp_access::{Stop, access_breach, copy_at, reach_rule, set_at, sum};
use sc_interp_world::{Cell, World};
use sc_meaning::Spot;
use sc_meaning_values::{Answer, Shape, Value};

/// An object of `size` bytes is born in its place, and gets the next number.
///
/// # Errors
///
/// `BirthLimit` where a run has as many as it may have.
pub fn born(size: u32, kind: Kind, spot: &Spot, world: &mut World) -> Result<u32, Stop>
    ensures { Gives (changes.born size kind spot.now world.old) result world.new }
{
    let n = world.objects().len();
    if 4_000_000_000 <= n {
        return Err(Stop::BirthLimit);
    }
    world.birth(size, kind, spot)?;
    Ok(n + 1)
}

fn auto_kind(constant: bool) -> Kind
    ensures { result ≡ spec.auto_kind constant }
{
    if constant { Kind::Const } else { Kind::Auto }
}

// An object of automatic storage duration is born in its slot.
fn born_auto(a: &Auto, world: &mut World) -> Result<u32, Stop>
    ensures { Gives (changes.born a.now.slot.size (spec.auto_kind a.now.slot.constant) (spot.Slot a.now.slot.offset) world.old) result world.new }
{
    let spot = Spot::Slot(a.slot.offset);
    born(a.slot.size, auto_kind(a.slot.constant), &spot, world)
}

/// The objects of a block are born, in order of declaration; their numbers.
///
/// # Errors
///
/// `BirthLimit`.
pub fn born_autos(autos: &[Auto], world: &mut World) -> Result<Items<u32>, Stop>
    ensures { Gives (spec.born_autos autos.now [] world.old) result world.new }
{
    let mut ids = Items::new(world.alloc());
    for a in autos {
        let id = born_auto(a, world)?;
        ids.push(id)?;
    }
    Ok(ids)
}

/// Objects die, the last born first.
#[tactic(auto, using(crate::proofs::Turns::dead_more))]
pub fn all_dead(ids: &[u32], world: &mut World) -> Result<(), NoMemory>
    ensures { IfOk result (λ _. world.new ≡ spec.all_dead ids.now world.old) }
{
    let mut k = ids.len();
    while k > 0 {
        k -= 1;
        world.death(ids[k])?;
    }
    Ok(())
}

// A parameter is born and set.
fn parameter(a: &Auto, v: &Value, world: &mut World) -> Result<u32, Stop>
    ensures { Gives (outcome.and_then (changes.born a.now.slot.size (spec.auto_kind a.now.slot.constant) (spot.Slot a.now.slot.offset) world.old) (λ id w. outcome.Done id (access.set_at (value.Pointer id 0) 0 a.now.slot.size v.now w))) result world.new }
{
    let id = born_auto(a, world)?;
    set_at(&Value::pointer(id, 0), 0, a.slot.size, v, world)?;
    Ok(id)
}

/// Parameters are born and set to the arguments, in their order; their numbers.
///
/// # Errors
///
/// `BirthLimit`.
pub fn parameters(autos: &[Auto], vs: &[Value], world: &mut World) -> Result<Items<u32>, Stop>
    ensures { Gives (calls.parameters autos.now vs.now [] world.old) result world.new }
{
    let mut ids = Items::new(world.alloc());
    let mut rest = vs;
    for a in autos {
        let [v, more @ ..] = rest else { return Ok(ids) };
        let id = parameter(a, v, world)?;
        ids.push(id)?;
        rest = more;
    }
    Ok(ids)
}

// One byte of an object is set, which is work.
fn set_byte(id: u32, at: u32, byte: u8, world: &mut World) -> Result<(), NoMemory>
    ensures { IfOk result (λ _. world.new ≡ worlds.tick (worlds.pass (worlds.Put id at (value.Byte byte ∷ [])) world.old)) }
{
    let mut cells = Items::new(world.alloc());
    cells.push(Cell::byte(byte))?;
    world.put(id, at, cells)?;
    world.tick()
}

/// Bytes are set one by one, from an offset on, each of which is work.
pub fn set_bytes(id: u32, at: u32, bytes: &[u8], world: &mut World) -> Result<(), NoMemory>
    ensures { IfOk result (λ _. world.new ≡ spec.set_bytes id at bytes.now world.old) }
{
    let mut next = at;
    for byte in bytes {
        set_byte(id, next, *byte, world)?;
        next = sum(next, 1)?;
    }
    Ok(())
}

/// As many bytes are set to 0, one by one.
#[tactic(auto, using(crate::proofs::Turns::zeros_more))]
pub fn set_zeros(id: u32, at: u32, n: u32, world: &mut World) -> Result<(), NoMemory>
    ensures { IfOk result (λ _. world.new ≡ spec.set_bytes id at (replicate n 0) world.old) }
{
    let mut next = at;
    let mut left = n;
    while left > 0 {
        set_byte(id, next, 0, world)?;
        next = sum(next, 1)?;
        left -= 1;
    }
    Ok(())
}

/// The number of the object into which a pointer points, 0 for what is none.
pub fn id_of(p: &Value) -> u32
    ensures { result ≡ spec.id_of p.now }
{
    match &p.shape {
        Shape::Number(_) => 0,
        Shape::FunctionAt(_) => 0,
        Shape::Pointer(o, _) => *o,
    }
}

/// A structure of `size` bytes is copied into a new object; its source is tested (3.5.7).
///
/// # Errors
///
/// The rule that the source breaks.
pub fn initial_structure(p: &Value, size: u32, a: Answer, world: &mut World) -> Result<(), Stop>
    ensures { Gives (spec.initial_structure p.now size a world.old) result world.new }
{
    let beyond = a.further();
    let from = a.base();
    if let Some(rule) = reach_rule(world.objects(), &from, beyond, size) {
        let told = access_breach(&from, beyond, size, world, rule)?;
        return Err(Stop::Undefined(told));
    }
    copy_at(p, 0, &from, beyond, size, world)?;
    world.work(size)?;
    Ok(())
}
