// Bytes of objects, read and written one by one, and texts (ANSI 4.1.1, 4.11).
ghost use Rattle.std.specs.Prelude.{◌≡◌, ◌*◌, ◌<◌, [], length, IfOk};
ghost use Rattle.sc_meaning.specs.Library as spec;
ghost use Rattle.sc_meaning.specs.Violations as violation;
ghost use Rattle.sc_meaning.specs.World as worlds;
ghost use Rattle.sc_interp_access.specs.Gives.{Gives};

use sc_base::{Duplicate, Items, Key, NoMemory, Rule, Shared};
use sc_interp_access::{
    Breach, Stop, access_breach, bits, breach, cells_read, load_rule, number_of_cells, object_of,
    set_at, store_rule, sum,
};
use sc_interp_world::{Event, World};
use sc_meaning_values::{Answer, Shape, Value};

// A number that has room in a byte.
fn byte(n: u32) -> Result<u8, NoMemory>
    ensures { IfOk result (λ b. b ≡ n) }
{
    if n < 256 { Ok(n as u8) } else { Err(NoMemory) }
}

/// The byte at a place is read.
///
/// # Errors
///
/// The rule that the load breaks.
pub fn byte_read(p: &Value, i: u32, world: &mut World) -> Result<u8, Stop>
    ensures { Gives (spec.byte_read p.now i world.old) result world.new }
{
    if let Some(rule) = load_rule(world.objects(), p, i, 1, false)? {
        let told = access_breach(p, i, 1, world, rule)?;
        return Err(Stop::Undefined(told));
    }
    let cells = cells_read(world.objects(), p, i, 1)?;
    let found = byte(number_of_cells(cells.as_slice())?)?;
    world.tick()?;
    Ok(found)
}

/// How many bytes the object of a pointer has, 0 where it has none.
#[tactic(auto, using(crate::proofs::Sizes::size_so, crate::proofs::Sizes::none_so))]
pub fn block_size_at(world: &World, p: &Value) -> u32
    ensures { result ≡ spec.block_size_at world.now p.now }
{
    match object_of(world.objects(), p) {
        None => 0,
        Some(o) => o.size,
    }
}

/// A number of bytes behind which no byte of the pointer's object is.
pub fn past(world: &World, p: &Value) -> u64
    ensures { result ≡ spec.past world.now p.now }
{
    u64::from(block_size_at(world, p)) + 1
}

/// The bytes before the first zero byte, of at most `n` that are read.
///
/// # Errors
///
/// The rule that a load breaks.
#[tactic(auto, using(crate::proofs::Mores::text_more, crate::proofs::Prefixes::put_again))]
pub fn text_upto(n: u64, p: &Value, world: &mut World) -> Result<Items<u8>, Stop>
    ensures { Gives (spec.text_upto n p.now 0 world.old) result world.new }
{
    let mut text = Items::new(world.alloc());
    let mut i = 0;
    let mut left = n;
    while left > 0 {
        let b = byte_read(p, i, world)?;
        if b == 0 {
            return Ok(text);
        }
        text.push(b)?;
        i = sum(i, 1)?;
        left -= 1;
    }
    Ok(text)
}

/// A text: the bytes before the first zero byte.
///
/// # Errors
///
/// The rule that a load breaks.
pub fn text_at(p: &Value, world: &mut World) -> Result<Items<u8>, Stop>
    ensures { Gives (spec.text_at p.now world.old) result world.new }
{
    let n = past(world, p);
    text_upto(n, p, world)
}

/// Twice a number, where it has room in 32 bits.
pub fn twice(n: u32) -> Result<u32, NoMemory>
    ensures { IfOk result (λ m. m ≡ 2 * n) }
{
    let Some(m) = n.checked_mul(2) else {
        return Err(NoMemory)
    };
    Ok(m)
}

/// A length that has room in 32 bits.
pub fn length_of(bytes: &[u8]) -> Result<u32, NoMemory>
    ensures { IfOk result (λ n. n ≡ length bytes.now) }
{
    let n = bytes.len();
    if n <= 4_294_967_295 {
        Ok(n as u32)
    } else {
        Err(NoMemory)
    }
}

// Whether n bytes can be written one by one, from a place on.
#[tactic(auto, using(crate::proofs::Mores::writable_more))]
fn writable(n: u32, p: &Value, at: u32, world: &World) -> Result<(), Stop>
    ensures { Gives (spec.writable n p.now at world.now) result world.now }
{
    let mut i = at;
    let mut left = n;
    while left > 0 {
        if let Some(rule) = store_rule(world.objects(), p, i, 1) {
            let told = access_breach(p, i, 1, world, rule)?;
            return Err(Stop::Undefined(told));
        }
        i = sum(i, 1)?;
        left -= 1;
    }
    Ok(())
}

// Bytes are written one by one, without a test.
fn bytes_set(p: &Value, at: u32, bytes: &[u8], world: &mut World) -> Result<(), NoMemory>
    ensures { IfOk result (λ _. world.new ≡ spec.bytes_set p.now at bytes.now world.old) }
{
    let mut i = at;
    for b in bytes {
        set_at(p, i, 1, &Value::number(u32::from(*b)), world)?;
        world.tick()?;
        i = sum(i, 1)?;
    }
    Ok(())
}

/// Bytes are written: the whole target is tested before the first one is.
///
/// # Errors
///
/// The rule that the first store that is not allowed breaks.
pub fn bytes_written(p: &Value, at: u32, bytes: &[u8], world: &mut World) -> Result<(), Stop>
    ensures { Gives (spec.bytes_written p.now at bytes.now world.old) result world.new }
{
    writable(length_of(bytes)?, p, at, world)?;
    bytes_set(p, at, bytes, world)?;
    Ok(())
}

fn is_overlapping(to: &Value, n: u32, from: &Value, m: u32) -> bool
    ensures { result ≡ violation.is_overlapping to.now n from.now m }
{
    match (&to.shape, &from.shape) {
        (Shape::Pointer(o, i), Shape::Pointer(p, j)) => {
            let end = (u64::from(*i) + u64::from(n)).min(u64::from(*j) + u64::from(m));
            *o == *p && u64::from((*i).max(*j)) < end
        }
        _ => false,
    }
}

fn overlap_breach(
    to: &Value,
    n: u32,
    from: &Value,
    world: &World,
) -> Result<Shared<Breach>, NoMemory>
    ensures { IfOk result (λ b. b ≡ spec.overlap_breach to.now n from.now world.now) }
{
    let mut told = breach(Rule::U18, world)?;
    told.at = to.copy(world.alloc())?;
    told.size = n;
    told.left = from.copy(world.alloc())?;
    Shared::new(world.alloc(), told)
}

/// `n` bytes that are written at a place do not meet `m` bytes that are read.
///
/// # Errors
///
/// `U18` where they do.
pub fn apart(to: &Value, n: u32, from: &Value, m: u32, world: &World) -> Result<(), Stop>
    ensures { Gives (spec.apart to.now n from.now m world.now) result world.now }
{
    if is_overlapping(to, n, from, m) {
        let told = overlap_breach(to, n, from, world)?;
        return Err(Stop::Undefined(told));
    }
    Ok(())
}

/// Bytes go to the output, each as an event; in a run that has no further version.
pub fn shown(bytes: &[u8], world: &mut World) -> Result<(), Stop>
    ensures { Gives (spec.shown [] bytes.now world.old) result world.new }
{
    for b in bytes {
        world.tick()?;
        world.happens(Event::out(*b))?;
    }
    Ok(())
}

/// An argument, counted from 0; null where there is none.
#[tactic(auto, using(crate::proofs::Arguments::stands_there, crate::proofs::Arguments::stands_nowhere))]
pub fn value_at(vs: &[Value], i: usize, world: &World) -> Result<Value, NoMemory>
    ensures { IfOk result (λ v. v ≡ spec.value_at vs.now i) }
{
    match vs.get(i) {
        None => Ok(Value::null()),
        Some(v) => v.copy(world.alloc()),
    }
}

/// The number of an argument, counted from 0; 0 for what is none.
#[tactic(auto, using(crate::proofs::Arguments::stands_there, crate::proofs::Arguments::stands_nowhere))]
pub fn bits_at(vs: &[Value], i: usize) -> u32
    ensures { result ≡ violation.bits (spec.value_at vs.now i) }
{
    match vs.get(i) {
        None => 0,
        Some(v) => bits(v),
    }
}

/// What is said of an argument, counted from 1, that is outside its range.
pub fn argument_breach(key: &Key, vs: &[Value], i: u32, world: &World) -> Result<Breach, NoMemory>
    requires { 0 < i }
    ensures { IfOk result (λ b. b ≡ spec.argument_breach key.now vs.now i world.now) }
{
    let mut told = breach(Rule::U16, world)?;
    told.left = value_at(vs, i as usize - 1, world)?;
    told.right = Value::number(count_of(vs)?);
    told.name = Some(key.copy(world.alloc())?);
    told.argument = i;
    Ok(told)
}

fn count_of(vs: &[Value]) -> Result<u32, NoMemory>
    ensures { IfOk result (λ n. n ≡ length vs.now) }
{
    let n = vs.len();
    if n <= 4_294_967_295 {
        Ok(n as u32)
    } else {
        Err(NoMemory)
    }
}

/// A result.
pub fn gives(v: Value) -> Result<Answer, Stop>
    ensures { (w : worlds.World) → Gives (spec.gives v w) result w }
{
    Ok(Answer::plain(v))
}
