// `printf` (ANSI 4.9.6.1).
ghost use Rattle.std.specs.Prelude.{◌≡◌, ◌+◌, ◌%◌, ◌≤◌, ◌≤ℤ◌, ◌∷◌, [], pos, true, false, nat_lt, length, drop, take, replicate, nat_abs, IfOk, Some};
ghost use Rattle.sc_fmt.specs.declared.conversion.Count.TheVariants.{Star};
ghost use Rattle.sc_fmt.specs.declared.conversion.Piece.TheVariants as piece;
ghost use Rattle.sc_fmt.specs.Format.{piece_of};
ghost use Rattle.sc_fmt.specs.Numbers as numbers;
ghost use Rattle.sc_meaning.specs.Expressions.{either};
ghost use Rattle.sc_meaning.specs.Outcomes as outcome;
ghost use Rattle.sc_meaning.specs.Violations as violation;
ghost use Rattle.sc_meaning.specs.Printf as spec;
ghost use Rattle.sc_interp_access.specs.Gives.{Gives};
ghost use Rattle.sc_interp_access.specs.declared.stop.Stop.TheVariants as stop;
ghost use Rattle.sc_lib.specs.Turns.{turn_of};

use sc_base::{Duplicate, Int, Items, Key, NoMemory, Shared};
use sc_fmt::{Conv, Count, Piece, number, piece};
use sc_interp_access::{Stop, bits, is_number, is_pointer, number_of, sum};
use sc_interp_world::World;
use sc_lib_bytes::{argument_breach, length_of, shown, text_at, text_upto, value_at};
use sc_meaning_values::{Answer, Value};
use std::alloc::Global;
use std::marker::Model;

/// The greatest width and precision.
const GREATEST: u32 = 65535;

/// The call: its key, and the arguments, of which the first is the format.
#[derive(Drop)]
pub struct Printed<'a> {
    pub key: &'a Key,
    pub args: &'a [Value],
}

impl<'a> Model for Printed<'a> {
    ghost use Rattle.sc_meaning.specs.Printf as spec;

    ghost Value = { spec.Printed };

    ghost view = { λ g. record { key = g.key.now; args = g.args.now } };
}

/// A conversion without `*`, and how many arguments were taken.
#[derive(Drop)]
pub struct Fitted {
    pub conv: Conv,
    pub used: u32,
}

impl Model for Fitted {
    ghost use Rattle.sc_meaning.specs.Printf as spec;

    ghost Value = { spec.Fitted };

    ghost view = { λ f. record { conv = f.conv; used = f.used } };
}

/// What is written, and how many arguments were taken.
#[derive(Drop)]
pub struct Written {
    pub text: Items<u8>,
    pub used: u32,
}

impl Model for Written {
    ghost use Rattle.sc_meaning.specs.Printf as spec;

    ghost Value = { spec.Written };

    ghost view = { λ t. record { text = t.text; used = t.used } };
}

/// What a piece writes, how many arguments were taken behind it, and what is left of the format.
#[derive(Drop)]
pub struct Turn<'a> {
    pub text: Items<u8>,
    pub used: u32,
    pub rest: &'a [u8],
}

impl<'a> Model for Turn<'a> {
    ghost use Rattle.sc_lib.specs.Turns as turns;

    ghost Value = { turns.Turn };

    ghost view = { λ t. record { text = t.text; used = t.used; rest = t.rest.now } };
}

// The end of the run at an argument, counted from 1, that does not do.
fn refusal(g: &Printed, i: u32, world: &World) -> Result<Stop, NoMemory>
    ensures { IfOk result (λ s. s ≡ stop.Undefined (spec.printf_breach g.now i world.now)) }
{
    if i == 0 {
        return Err(NoMemory);
    }
    let mut told = argument_breach(g.key, g.args, i, world)?;
    told.at = value_at(g.args, 0, world)?;
    Ok(Stop::Undefined(Shared::new(world.alloc(), told)?))
}

fn is_wrong(pointer: bool, v: &Value) -> bool
    ensures { result ≡ spec.is_wrong pointer v.now }
{
    if pointer { is_number(v) } else { is_pointer(v) }
}

// The next argument, where k were taken: a pointer or a number.
fn argument(g: &Printed, k: u32, pointer: bool, world: &World) -> Result<Value, Stop>
    ensures { Gives (spec.argument g.now k pointer world.now) result world.now }
{
    match g.args.get(k as usize) {
        None => Err(refusal(g, sum(k, 1)?, world)?),
        Some(v) => {
            if is_wrong(pointer, v) {
                return Err(refusal(g, sum(k, 1)?, world)?);
            }
            Ok(v.copy(world.alloc())?)
        }
    }
}

fn signed(v: &Value) -> i64
    ensures { result ≡ spec.signed v.now }
{
    number_of(Int::Int, bits(v))
}

// A negative width stands for the flag `-` and its magnitude.
fn with_width(c: Conv, n: i64) -> Conv
    requires { nat_abs n ≤ 65535 }
    ensures { result ≡ spec.with_width c n }
{
    let width = Some(Count::Fixed(n.unsigned_abs() as u32));
    if n < 0 {
        Conv {
            minus: true,
            width,
            ..c
        }
    } else {
        Conv { width, ..c }
    }
}

// A negative precision stands for none.
fn with_precision(c: Conv, n: i64) -> Conv
    requires { n ≤ℤ pos 65535 }
    ensures { result ≡ spec.with_precision c n }
{
    if n < 0 {
        Conv {
            precision: None,
            ..c
        }
    } else {
        Conv {
            precision: Some(Count::Fixed(n.unsigned_abs() as u32)),
            ..c
        }
    }
}

fn starred_width(g: &Printed, c: Conv, k: u32, world: &World) -> Result<Fitted, Stop>
    ensures { Gives (spec.width_of g.now c k (Some Star) world.now) result world.now }
{
    let v = argument(g, k, false, world)?;
    let n = signed(&v);
    let used = sum(k, 1)?;
    if u64::from(GREATEST) < n.unsigned_abs() {
        return Err(refusal(g, used, world)?);
    }
    Ok(Fitted {
        conv: with_width(c, n),
        used,
    })
}

fn starred_precision(g: &Printed, c: Conv, k: u32, world: &World) -> Result<Fitted, Stop>
    ensures { Gives (spec.precision_of g.now c k (Some Star) world.now) result world.now }
{
    let v = argument(g, k, false, world)?;
    let n = signed(&v);
    let used = sum(k, 1)?;
    if i64::from(GREATEST) < n {
        return Err(refusal(g, used, world)?);
    }
    Ok(Fitted {
        conv: with_precision(c, n),
        used,
    })
}

fn fixed(g: &Printed, c: Conv, k: u32, n: u32, world: &World) -> Result<Fitted, Stop>
    ensures { Gives (either (nat_lt spec.greatest n) (spec.refused g.now 1) (spec.fitted c k) world.now) result world.now }
{
    if GREATEST < n {
        return Err(refusal(g, 1, world)?);
    }
    Ok(Fitted { conv: c, used: k })
}

fn width_of(g: &Printed, c: Conv, k: u32, world: &World) -> Result<Fitted, Stop>
    ensures { Gives (spec.width_of g.now c k c.width world.now) result world.now }
{
    match c.width {
        None => Ok(Fitted { conv: c, used: k }),
        Some(Count::Fixed(n)) => fixed(g, c, k, n, world),
        Some(Count::Star) => starred_width(g, c, k, world),
    }
}

fn precision_of(g: &Printed, c: Conv, k: u32, world: &World) -> Result<Fitted, Stop>
    ensures { Gives (spec.precision_of g.now c k c.precision world.now) result world.now }
{
    match c.precision {
        None => Ok(Fitted { conv: c, used: k }),
        Some(Count::Fixed(n)) => fixed(g, c, k, n, world),
        Some(Count::Star) => starred_precision(g, c, k, world),
    }
}

// Width, then precision.
fn counts_of(g: &Printed, c: Conv, k: u32, world: &World) -> Result<Fitted, Stop>
    ensures { Gives (spec.counts_of g.now c k world.now) result world.now }
{
    let f = width_of(g, c, k, world)?;
    precision_of(g, f.conv, f.used, world)
}

fn number_or_zero(count: Option<Count>) -> usize
    ensures { result ≡ numbers.number_or 0 count }
{
    match count {
        Some(Count::Fixed(n)) => n as usize,
        Some(Count::Star) => 0,
        None => 0,
    }
}

fn spaces(alloc: Global, n: usize) -> Result<Items<u8>, NoMemory>
    ensures { IfOk result (λ bytes. bytes ≡ replicate n 32) }
{
    Ok(Items::from_vec(Vec::from_elem(alloc, 32, n)?))
}

// A text in a field of the width, with spaces.
fn padded(alloc: Global, c: &Conv, text: Items<u8>) -> Result<Items<u8>, NoMemory>
    ensures { IfOk result (λ bytes. bytes ≡ spec.padded c.now text) }
{
    let gap = number_or_zero(c.width).saturating_sub(text.len());
    let mut gap = spaces(alloc, gap)?;
    if c.minus {
        let mut text = text;
        text.append(gap)?;
        Ok(text)
    } else {
        gap.append(text)?;
        Ok(gap)
    }
}

// The text of `%s`, of which a precision reads at most so many bytes.
fn text_of(precision: Option<Count>, p: &Value, world: &mut World) -> Result<Items<u8>, Stop>
    ensures { Gives (spec.text_of precision p.now world.old) result world.new }
{
    match precision {
        None => text_at(p, world),
        Some(Count::Fixed(n)) => text_upto(u64::from(n), p, world),
        Some(Count::Star) => text_at(p, world),
    }
}

fn one_byte(alloc: Global, byte: u8) -> Result<Items<u8>, NoMemory>
    ensures { IfOk result (λ bytes. bytes ≡ byte ∷ []) }
{
    let mut bytes = Items::new(alloc);
    bytes.push(byte)?;
    Ok(bytes)
}

// `%c`.
fn character(g: &Printed, c: &Conv, k: u32, world: &World) -> Result<Written, Stop>
    ensures { Gives (outcome.and_then (spec.argument g.now k false world.now) (λ v w. spec.written (spec.padded c.now (violation.bits v % 256 ∷ [])) (k + 1) w)) result world.now }
{
    let v = argument(g, k, false, world)?;
    let text = one_byte(world.alloc(), (bits(&v) % 256) as u8)?;
    Ok(Written {
        text: padded(world.alloc(), c, text)?,
        used: sum(k, 1)?,
    })
}

// `%s`.
fn string(g: &Printed, c: &Conv, k: u32, world: &mut World) -> Result<Written, Stop>
    ensures { Gives (outcome.and_then (spec.argument g.now k true world.old) (λ p w. outcome.and_then (spec.text_of c.now.precision p w) (λ bs w. spec.written (spec.padded c.now bs) (k + 1) w))) result world.new }
{
    let p = argument(g, k, true, world)?;
    let text = text_of(c.precision, &p, world)?;
    Ok(Written {
        text: padded(world.alloc(), c, text)?,
        used: sum(k, 1)?,
    })
}

fn digits(alloc: Global, c: &Conv, n: u32) -> Result<Items<u8>, NoMemory>
    ensures { IfOk result (λ bytes. bytes ≡ numbers.number_text c.now n) }
{
    if !c.is_number() {
        return Err(NoMemory);
    }
    Ok(Items::from_vec(number(alloc, c, n)?.into_vec()))
}

// A number. No other conversion is there.
fn numeral(g: &Printed, c: &Conv, k: u32, world: &World) -> Result<Written, Stop>
    ensures { Gives (outcome.and_then (spec.argument g.now k false world.now) (λ v w. spec.written (numbers.number_text c.now (violation.bits v)) (k + 1) w)) result world.now }
{
    let v = argument(g, k, false, world)?;
    Ok(Written {
        text: digits(world.alloc(), c, bits(&v))?,
        used: sum(k, 1)?,
    })
}

fn conversion_text(g: &Printed, c: &Conv, k: u32, world: &mut World) -> Result<Written, Stop>
    ensures { Gives (spec.conversion_text g.now c.now k world.old) result world.new }
{
    if c.kind == b'%' {
        return Ok(Written {
            text: one_byte(world.alloc(), b'%')?,
            used: k,
        });
    }
    if c.kind == b'c' {
        return character(g, c, k, world);
    }
    if c.kind == b's' {
        return string(g, c, k, world);
    }
    numeral(g, c, k, world)
}

fn converted(g: &Printed, c: Conv, k: u32, world: &mut World) -> Result<Written, Stop>
    ensures { Gives (spec.converted g.now c k world.old) result world.new }
{
    let f = counts_of(g, c, k, world)?;
    conversion_text(g, &f.conv, f.used, world)
}

fn front(bytes: &[u8], n: usize) -> &[u8]
    ensures { result.now ≡ take n bytes.now }
{
    if n < bytes.len() { &bytes[..n] } else { bytes }
}

fn back(bytes: &[u8], n: usize) -> &[u8]
    ensures { result.now ≡ drop n bytes.now }
{
    if n < bytes.len() { &bytes[n..] } else { &[] }
}

fn copy_bytes(alloc: Global, bytes: &[u8]) -> Result<Items<u8>, NoMemory>
    ensures { IfOk result (λ copy. copy ≡ bytes.now) }
{
    Ok(Items::from_vec(Vec::from_slice(alloc, bytes)?))
}

// A text piece.
fn text_turn<'a>(k: u32, rest: &'a [u8], n: usize, alloc: Global) -> Result<Turn<'a>, NoMemory>
    ensures { IfOk result (λ t. t ≡ record { text = take n rest.now; used = k; rest = drop n rest.now }) }
{
    let text = copy_bytes(alloc, front(rest, n))?;
    Ok(Turn {
        text,
        used: k,
        rest: back(rest, n),
    })
}

// A conversion.
fn conversion_turn<'a>(
    g: &Printed,
    k: u32,
    rest: &'a [u8],
    c: Conv,
    n: usize,
    world: &mut World,
) -> Result<Option<Turn<'a>>, Stop>
    ensures { Gives (turn_of g.now k rest.now (piece.Conv c n) world.old) result world.new }
{
    let t = converted(g, c, k, world)?;
    Ok(Some(Turn {
        text: t.text,
        used: t.used,
        rest: back(rest, n),
    }))
}

// The piece that stands at the head of what is left; none at the end.
fn next_turn<'a>(
    g: &Printed,
    k: u32,
    rest: &'a [u8],
    world: &mut World,
) -> Result<Option<Turn<'a>>, Stop>
    ensures { Gives (turn_of g.now k rest.now (piece_of rest.now) world.old) result world.new }
{
    match piece(rest, 0) {
        Piece::Text(n) => Ok(Some(text_turn(k, rest, n, world.alloc())?)),
        Piece::Conv(c, n) => conversion_turn(g, k, rest, c, n, world),
        Piece::End => Ok(None),
        Piece::Wrong => Err(refusal(g, 1, world)?),
    }
}

// All pieces in order.
#[tactic(auto, using(crate::proofs::Formats::formatted_turn, crate::proofs::Prefixes::in_front_again))]
fn formatted(g: &Printed, format: &[u8], world: &mut World) -> Result<Items<u8>, Stop>
    ensures { Gives (spec.formatted (length format.now + 1) g.now 1 format.now world.old) result world.new }
{
    let mut text = Items::new(world.alloc());
    let mut used = 1;
    let mut rest = format;
    let mut left = format.len() + 1;
    while left > 0 {
        let Some(next) = next_turn(g, used, rest, world)? else {
            return Ok(text)
        };
        text.append(next.text)?;
        used = next.used;
        rest = next.rest;
        left -= 1;
    }
    Ok(text)
}

/// `printf`: nothing is written before all arguments are taken.
///
/// # Errors
///
/// The rule that a load breaks; `U16` at a format or an argument that does not do.
pub fn printf(key: &Key, vs: &[Value], world: &mut World) -> Result<Answer, Stop>
    ensures { Gives (spec.printf [] key.now vs.now world.old) result world.new }
{
    let format = text_at(&value_at(vs, 0, world)?, world)?;
    let g = Printed { key, args: vs };
    let text = formatted(&g, format.as_slice(), world)?;
    let n = length_of(text.as_slice())?;
    shown(text.as_slice(), world)?;
    Ok(Answer::plain(Value::number(n)))
}
