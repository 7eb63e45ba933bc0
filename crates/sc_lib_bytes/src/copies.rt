// Functions on bytes and on texts (ANSI 4.11.2 to 4.11.6).
ghost use Rattle.std.specs.Prelude.{◌≡◌, ◌-◌, ◌++◌, length, replicate, IfOk};
ghost use Rattle.sc_meaning.specs.Functions as spec;
ghost use Rattle.sc_meaning.specs.Outcomes as outcome;
ghost use Rattle.sc_meaning.specs.Library as library;
ghost use Rattle.sc_interp_access.specs.Gives.{Gives};

use crate::bytes::{apart, bytes_written, length_of, text_at, text_upto, twice};
use crate::heap::bytes_of;
use sc_base::{Duplicate, Items, NoMemory};
use sc_interp_access::{Stop, access_breach, copy_at, moved, reach_rule, sum, write_rule};
use sc_interp_world::World;
use sc_meaning_values::{Answer, Shape, Value};
use std::alloc::Global;

// The target's whole range is tested, and the bytes are copied.
fn copied_bytes(to: &Value, from: &Value, n: u32, world: &mut World) -> Result<Answer, Stop>
    ensures { Gives (spec.copied_bytes to.now from.now n world.old) result world.new }
{
    if let Some(rule) = write_rule(world.objects(), to, 0, n) {
        let told = access_breach(to, 0, n, world, rule)?;
        return Err(Stop::Undefined(told));
    }
    copy_at(to, 0, from, 0, n, world)?;
    world.work(twice(n)?)?;
    Ok(Answer::plain(to.copy(world.alloc())?))
}

/// `memmove`.
///
/// # Errors
///
/// The rule that the source or the target breaks.
pub fn memmove(to: &Value, from: &Value, n: u32, world: &mut World) -> Result<Answer, Stop>
    ensures { Gives (spec.memmove to.now from.now n world.old) result world.new }
{
    if n == 0 {
        return Ok(Answer::plain(to.copy(world.alloc())?));
    }
    if let Some(rule) = reach_rule(world.objects(), from, 0, n) {
        let told = access_breach(from, 0, n, world, rule)?;
        return Err(Stop::Undefined(told));
    }
    copied_bytes(to, from, n, world)
}

/// `memcpy`.
///
/// # Errors
///
/// The rule that the source breaks, `U18` where the two overlap, else the rule that the target breaks.
pub fn memcpy(to: &Value, from: &Value, n: u32, world: &mut World) -> Result<Answer, Stop>
    ensures { Gives (spec.memcpy to.now from.now n world.old) result world.new }
{
    if n == 0 {
        return Ok(Answer::plain(to.copy(world.alloc())?));
    }
    if let Some(rule) = reach_rule(world.objects(), from, 0, n) {
        let told = access_breach(from, 0, n, world, rule)?;
        return Err(Stop::Undefined(told));
    }
    apart(to, n, from, n, world)?;
    copied_bytes(to, from, n, world)
}

fn set_all(p: &Value, c: u32, n: u32, world: &mut World) -> Result<(), NoMemory>
    ensures { IfOk result (λ _. world.new ≡ spec.set_all p.now c n world.old) }
{
    match &p.shape {
        Shape::Number(_) => Ok(()),
        Shape::FunctionAt(_) => Ok(()),
        Shape::Pointer(o, i) => {
            let cells = bytes_of(world.alloc(), n, (c % 256) as u8)?;
            world.put(*o, *i, cells)?;
            world.work(n)
        }
    }
}

/// `memset`.
///
/// # Errors
///
/// The rule that the target breaks.
pub fn memset(p: &Value, c: u32, n: u32, world: &mut World) -> Result<Answer, Stop>
    ensures { Gives (spec.memset p.now c n world.old) result world.new }
{
    if n == 0 {
        return Ok(Answer::plain(p.copy(world.alloc())?));
    }
    if let Some(rule) = write_rule(world.objects(), p, 0, n) {
        let told = access_breach(p, 0, n, world, rule)?;
        return Err(Stop::Undefined(told));
    }
    set_all(p, c, n, world)?;
    Ok(Answer::plain(p.copy(world.alloc())?))
}

// Bytes are written where they do not meet those that are read.
fn text_written(
    to: &Value,
    at: u32,
    from: &Value,
    bytes: &[u8],
    world: &mut World,
) -> Result<Answer, Stop>
    ensures { Gives (spec.text_written to.now at from.now bytes.now world.old) result world.new }
{
    let n = length_of(bytes)?;
    apart(&moved(to, at, world.alloc())?, n, from, n, world)?;
    bytes_written(to, at, bytes, world)?;
    Ok(Answer::plain(to.copy(world.alloc())?))
}

/// `strcpy`.
///
/// # Errors
///
/// The rule that a load breaks, `U18` where the two overlap, else the rule that a store breaks.
pub fn strcpy(to: &Value, from: &Value, world: &mut World) -> Result<Answer, Stop>
    ensures { Gives (spec.strcpy to.now from.now world.old) result world.new }
{
    let mut text = text_at(from, world)?;
    text.push(0)?;
    text_written(to, 0, from, text.as_slice(), world)
}

/// `strcat`.
///
/// # Errors
///
/// The rule that a load breaks, `U18` where the two overlap, else the rule that a store breaks.
pub fn strcat(to: &Value, from: &Value, world: &mut World) -> Result<Answer, Stop>
    ensures { Gives (spec.strcat to.now from.now world.old) result world.new }
{
    let mut text = text_at(from, world)?;
    let old = text_at(to, world)?;
    text.push(0)?;
    text_written(to, length_of(old.as_slice())?, from, text.as_slice(), world)
}

// How many bytes `strncpy` reads: the zero byte too, where it comes.
fn read_count(n: u32, text: &[u8]) -> Result<u32, NoMemory>
    ensures { IfOk result (λ count. count ≡ spec.read_count n text.now) }
{
    Ok(n.min(sum(length_of(text)?, 1)?))
}

// As many zero bytes.
fn zeros(alloc: Global, n: usize) -> Result<Items<u8>, NoMemory>
    ensures { IfOk result (λ bytes. bytes ≡ replicate n 0) }
{
    Ok(Items::from_vec(Vec::from_elem(alloc, 0, n)?))
}

// Bytes, and zero bytes behind them up to n.
fn filled_up(alloc: Global, text: &[u8], n: u32) -> Result<Items<u8>, NoMemory>
    ensures { IfOk result (λ bytes. bytes ≡ text.now ++ replicate (n - length text.now) 0) }
{
    let gap = (n as usize).saturating_sub(text.len());
    let mut bytes = Items::from_vec(Vec::from_slice(alloc, text)?);
    bytes.append(zeros(alloc, gap)?)?;
    Ok(bytes)
}

// What `strncpy` writes, as its text was read.
fn counted_written(
    to: &Value,
    from: &Value,
    n: u32,
    text: &[u8],
    world: &mut World,
) -> Result<Answer, Stop>
    ensures { Gives (outcome.and_then (library.apart to.now n from.now (spec.read_count n text.now) world.old) (λ _ w. outcome.and_then (library.bytes_written to.now 0 (text.now ++ replicate (n - length text.now) 0) w) (λ _ w. library.gives to.now w))) result world.new }
{
    apart(to, n, from, read_count(n, text)?, world)?;
    let bytes = filled_up(world.alloc(), text, n)?;
    bytes_written(to, 0, bytes.as_slice(), world)?;
    Ok(Answer::plain(to.copy(world.alloc())?))
}

// `strncpy` of at least one byte.
fn counted_copied(to: &Value, from: &Value, n: u32, world: &mut World) -> Result<Answer, Stop>
    ensures { Gives (outcome.and_then (library.text_upto n from.now 0 world.old) (λ text w. outcome.and_then (library.apart to.now n from.now (spec.read_count n text) w) (λ _ w. outcome.and_then (library.bytes_written to.now 0 (text ++ replicate (n - length text) 0) w) (λ _ w. library.gives to.now w)))) result world.new }
{
    let text = text_upto(u64::from(n), from, world)?;
    counted_written(to, from, n, text.as_slice(), world)
}

/// `strncpy`.
///
/// # Errors
///
/// The rule that a load breaks, `U18` where the two overlap, else the rule that a store breaks.
pub fn strncpy(to: &Value, from: &Value, n: u32, world: &mut World) -> Result<Answer, Stop>
    ensures { Gives (spec.strncpy to.now from.now n world.old) result world.new }
{
    if n == 0 {
        return Ok(Answer::plain(to.copy(world.alloc())?));
    }
    counted_copied(to, from, n, world)
}

/// `strlen`.
///
/// # Errors
///
/// The rule that a load breaks.
pub fn strlen(p: &Value, world: &mut World) -> Result<Answer, Stop>
    ensures { Gives (spec.strlen p.now world.old) result world.new }
{
    let text = text_at(p, world)?;
    let n = length_of(text.as_slice())?;
    Ok(Answer::plain(Value::number(n)))
}
