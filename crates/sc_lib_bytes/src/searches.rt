// Comparisons and searches, byte by byte (ANSI 4.11.4, 4.11.5).
ghost use Rattle.std.specs.Prelude.{◌≡◌, ◌%◌, ◌==◌, if◌then◌else◌, IfOk};
ghost use Rattle.sc_meaning.specs.Functions as spec;
ghost use Rattle.sc_meaning.specs.Library as library;
ghost use Rattle.sc_meaning.specs.Outcomes as outcome;
ghost use Rattle.sc_meaning.specs.Values as value;
ghost use Rattle.sc_interp_access.specs.Gives.{Gives};

use crate::bytes::{byte_read, past};
use sc_base::NoMemory;
use sc_interp_access::{Stop, moved, sum};
use sc_interp_world::World;
use sc_meaning_values::{Answer, Value};

// -1, as `getchar` gives it at the end of the input.
const END_OF_FILE: u32 = 4_294_967_295;

fn order_of(a: u8, b: u8) -> Value
    ensures { result ≡ spec.order_of a b }
{
    if a < b {
        Value::number(END_OF_FILE)
    } else {
        Value::number(if b < a { 1 } else { 0 })
    }
}

// At most `n` bytes are compared, the first argument's before the second's, up to the first difference, or to the zero
// byte where this is asked for.
#[tactic(auto, using(crate::proofs::Mores::compared_more))]
fn compared_upto(
    n: u64,
    to_zero: bool,
    p: &Value,
    q: &Value,
    world: &mut World,
) -> Result<Answer, Stop>
    ensures { Gives (spec.bytes_compared n to_zero p.now q.now 0 world.old) result world.new }
{
    let mut i = 0;
    let mut left = n;
    while left > 0 {
        let a = byte_read(p, i, world)?;
        let b = byte_read(q, i, world)?;
        if a != b || to_zero && a == 0 {
            return Ok(Answer::plain(order_of(a, b)));
        }
        i = sum(i, 1)?;
        left -= 1;
    }
    Ok(Answer::plain(Value::null()))
}

/// `memcmp` and `strncmp`: at most `n` bytes are compared, where this is asked for up to the zero byte.
///
/// # Errors
///
/// The rule that a load breaks.
pub fn bytes_compared(
    n: u32,
    to_zero: bool,
    p: &Value,
    q: &Value,
    world: &mut World,
) -> Result<Answer, Stop>
    ensures { Gives (spec.bytes_compared n to_zero p.now q.now 0 world.old) result world.new }
{
    compared_upto(u64::from(n), to_zero, p, q, world)
}

/// `strcmp`.
///
/// # Errors
///
/// The rule that a load breaks.
pub fn strcmp(p: &Value, q: &Value, world: &mut World) -> Result<Answer, Stop>
    ensures { Gives (spec.strcmp p.now q.now world.old) result world.new }
{
    let n = past(world, p);
    compared_upto(n, true, p, q, world)
}

// The first byte equal to `c`, up to the zero byte, of at most `n`.
#[tactic(auto, using(crate::proofs::Mores::first_more))]
fn first_found(n: u64, p: &Value, c: u32, world: &mut World) -> Result<Answer, Stop>
    ensures { Gives (spec.first_found n p.now c 0 world.old) result world.new }
{
    let mut i = 0;
    let mut left = n;
    while left > 0 {
        let b = byte_read(p, i, world)?;
        if u32::from(b) == c {
            return Ok(Answer::plain(moved(p, i, world.alloc())?));
        }
        if b == 0 {
            return Ok(Answer::plain(Value::null()));
        }
        i = sum(i, 1)?;
        left -= 1;
    }
    Ok(Answer::plain(Value::null()))
}

// The place of a byte where it is the one that is looked for, else the one that was found before.
fn found_now(
    b: u8,
    c: u32,
    p: &Value,
    i: u32,
    found: Value,
    world: &World,
) -> Result<Value, NoMemory>
    ensures { IfOk result (λ v. v ≡ (if b == c then outcome.moved p.now i else found)) }
{
    if u32::from(b) == c {
        moved(p, i, world.alloc())
    } else {
        Ok(found)
    }
}

// The last byte equal to `c`, up to the zero byte, of at most `n`.
#[tactic(auto, using(crate::proofs::Mores::last_more))]
fn last_found(n: u64, p: &Value, c: u32, world: &mut World) -> Result<Answer, Stop>
    ensures { Gives (spec.last_found n p.now c 0 value.null world.old) result world.new }
{
    let mut i = 0;
    let mut found = Value::null();
    let mut left = n;
    while left > 0 {
        let b = byte_read(p, i, world)?;
        found = found_now(b, c, p, i, found, world)?;
        if b == 0 {
            return Ok(Answer::plain(found));
        }
        i = sum(i, 1)?;
        left -= 1;
    }
    Ok(Answer::plain(found))
}

/// `strchr`: the first byte of a text, its zero byte included, that is equal to `c` as a byte.
///
/// # Errors
///
/// The rule that a load breaks.
pub fn strchr(p: &Value, c: u32, world: &mut World) -> Result<Answer, Stop>
    ensures { Gives (spec.first_found (library.past world.old p.now) p.now (c % 256) 0 world.old) result world.new }
{
    first_found(past(world, p), p, c % 256, world)
}

/// `strrchr`: the last such byte.
///
/// # Errors
///
/// The rule that a load breaks.
pub fn strrchr(p: &Value, c: u32, world: &mut World) -> Result<Answer, Stop>
    ensures { Gives (spec.last_found (library.past world.old p.now) p.now (c % 256) 0 value.null world.old) result world.new }
{
    last_found(past(world, p), p, c % 256, world)
}
