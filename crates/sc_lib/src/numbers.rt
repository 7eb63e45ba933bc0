// Numbers that stand in texts, and absolute values (ANSI 4.10.1.2, 4.10.6.1).
ghost use Rattle.std.specs.Prelude.{◌≡◌, ◌+◌, ◌-◌, ◌*◌, ◌≤◌, ◌^◌, min, pos, neg_ℤ};
ghost use Rattle.sc_base.specs.declared.integer.Int.TheVariants.{Int as PlainInt};
ghost use Rattle.sc_meaning.specs.Functions as spec;
ghost use Rattle.sc_meaning.specs.Outcomes as outcome;
ghost use Rattle.sc_ops.specs.Numbers as numbers;
ghost use Rattle.sc_interp_access.specs.Gives.{Gives};
ghost use Rattle.sc_lib.specs.Sums.{cut};

use crate::characters::{is_digit, is_space, out_of_range};
use sc_base::{Int, Key};
use sc_interp_access::{Stop, number_of, sum};
use sc_interp_world::World;
use sc_lib_bytes::{byte_read, past};
use sc_meaning_values::{Answer, Value};
use std::marker::Model;

/// The sum at which the digits of a text are counted no further.
const ENOUGH: u64 = 4_294_967_296;

/// A place in a text, and the byte that stands there.
#[derive(Drop)]
pub struct Seen {
    pub at: u32,
    pub byte: u8,
}

impl Model for Seen {
    ghost use Rattle.sc_meaning.specs.Functions as spec;

    ghost Value = { spec.Seen };

    ghost view = { λ s. record { at = s.at; byte = s.byte } };
}

// The first byte of a text that is no white space, of at most `n` that are read.
#[tactic(auto, using(crate::proofs::Spaces::space_more))]
fn after_space(n: u64, p: &Value, world: &mut World) -> Result<Seen, Stop>
    ensures { Gives (spec.after_space n p.now 0 world.old) result world.new }
{
    let mut i = 0;
    let mut left = n;
    while left > 0 {
        let b = byte_read(p, i, world)?;
        if !is_space(u32::from(b)) {
            return Ok(Seen { at: i, byte: b });
        }
        i = sum(i, 1)?;
        left -= 1;
    }
    Ok(Seen { at: i, byte: 0 })
}

// A sum of digits with one digit more.
fn with_digit(sum: u64, b: u8) -> u64
    requires { sum ≤ 2 ^ 32 }
    ensures { result ≡ min (sum * 10 + (b - 48)) (2 ^ 32) }
{
    (sum * 10 + u64::from(b.saturating_sub(48))).min(ENOUGH)
}

// The number of the digits that stand from a place on, of which the first was read; at most `n` are.
#[tactic(auto, using(crate::proofs::Sums::digits_more))]
fn digits_from(n: u64, p: &Value, at: u32, first: u8, world: &mut World) -> Result<u64, Stop>
    ensures { Gives (outcome.and_then (spec.digits_from n p.now at first 0 world.old) cut) result world.new }
{
    let mut i = at;
    let mut b = first;
    let mut total = 0;
    let mut left = n;
    while left > 0 {
        if !is_digit(u32::from(b)) {
            return Ok(total);
        }
        i = sum(i, 1)?;
        total = with_digit(total, b);
        b = byte_read(p, i, world)?;
        left -= 1;
    }
    Ok(total)
}

// A number as a result, where it is an `int`.
fn natural(key: &Key, vs: &[Value], n: u64, world: &World) -> Result<Answer, Stop>
    ensures { Gives (spec.in_range key.now vs.now (pos n) world.now) result world.now }
{
    if n < 2_147_483_648 {
        Ok(Answer::plain(Value::number(n as u32)))
    } else {
        out_of_range(key, vs, 1, world)
    }
}

// A negative number as a result, where it is an `int`.
#[tactic(auto, using(crate::proofs::Sums::negative_bits, crate::proofs::Sums::negative_range))]
fn negative(key: &Key, vs: &[Value], n: u64, world: &World) -> Result<Answer, Stop>
    ensures { Gives (spec.in_range key.now vs.now (neg_ℤ (pos n)) world.now) result world.now }
{
    if n <= 2_147_483_648 {
        Ok(Answer::plain(Value::number(((ENOUGH - n) % ENOUGH) as u32)))
    } else {
        out_of_range(key, vs, 1, world)
    }
}

fn with_sign(key: &Key, vs: &[Value], sign: u8, n: u64, world: &World) -> Result<Answer, Stop>
    ensures { Gives (spec.in_range key.now vs.now (spec.signed_value sign n) world.now) result world.now }
{
    if sign == b'-' {
        negative(key, vs, n, world)
    } else {
        natural(key, vs, n, world)
    }
}

// The number whose first digit was read.
#[tactic(auto, using(crate::proofs::Sums::unsigned_cut))]
fn unsigned_from(
    key: &Key,
    vs: &[Value],
    p: &Value,
    s: Seen,
    world: &mut World,
) -> Result<Answer, Stop>
    ensures { Gives (spec.unsigned_from key.now vs.now p.now s world.old) result world.new }
{
    let n = digits_from(past(world, p), p, s.at, s.byte, world)?;
    natural(key, vs, n, world)
}

// The number behind a sign that was read.
#[tactic(auto, using(crate::proofs::Sums::signed_cut))]
fn signed_from(
    key: &Key,
    vs: &[Value],
    p: &Value,
    s: Seen,
    world: &mut World,
) -> Result<Answer, Stop>
    ensures { Gives (spec.signed_from key.now vs.now p.now s world.old) result world.new }
{
    let at = sum(s.at, 1)?;
    let b = byte_read(p, at, world)?;
    let n = digits_from(past(world, p), p, at, b, world)?;
    with_sign(key, vs, s.byte, n, world)
}

fn is_sign(b: u8) -> bool
    ensures { result ≡ spec.is_sign b }
{
    b == b'+' || b == b'-'
}

/// `atoi`.
///
/// # Errors
///
/// The rule that a load breaks; `U16` where the number is no `int`.
pub fn atoi(key: &Key, vs: &[Value], p: &Value, world: &mut World) -> Result<Answer, Stop>
    ensures { Gives (spec.atoi key.now vs.now p.now world.old) result world.new }
{
    let s = after_space(past(world, p), p, world)?;
    if is_sign(s.byte) {
        signed_from(key, vs, p, s, world)
    } else {
        unsigned_from(key, vs, p, s, world)
    }
}

/// `abs` of the `int` that these bits stand for.
///
/// # Errors
///
/// `U16` where the magnitude is no `int`.
pub fn abs(key: &Key, vs: &[Value], v: u32, world: &World) -> Result<Answer, Stop>
    ensures { Gives (spec.abs key.now vs.now (numbers.number_of PlainInt v) world.now) result world.now }
{
    natural(key, vs, number_of(Int::Int, v).unsigned_abs(), world)
}
