// What is said of an undefined step.
ghost use Rattle.std.specs.Prelude.{◌≡◌, ◌++◌, codes, IfOk};
ghost use Rattle.sc_session_texts.specs.Breaches as spec;
ghost use Rattle.sc_session_texts.specs.Places.{value_text};

use crate::place::{Shown, access_text, value_text};
use crate::word::{key_text, put, put_decimal, put_key, rule_text};
use sc_base::{Int, Key, NoMemory, Op, Rule};
use sc_interp_access::Breach;
use sc_interp_world::{Store, World};
use sc_meaning_values::Value;
use std::alloc::Global;

// An operand of an operator on a pointer.
fn beside_pointer(i: Int) -> Shown
    ensures { result ≡ spec.beside_pointer i }
{
    match i {
        Int::UInt => Shown::Address,
        Int::Char => Shown::Integer(i),
        Int::SChar => Shown::Integer(i),
        Int::UChar => Shown::Integer(i),
        Int::Short => Shown::Integer(i),
        Int::UShort => Shown::Integer(i),
        Int::Int => Shown::Integer(i),
        Int::Long => Shown::Integer(i),
        Int::ULong => Shown::Integer(i),
    }
}

// An operand beside a pointer into a dead object.
fn beside_dead(op: Op, i: Int) -> Shown
    ensures { result ≡ spec.operand Rule.U3 op i }
{
    match op {
        Op::Add => Shown::Integer(i),
        _ => beside_pointer(i),
    }
}

// How an operand is shown.
fn operand(rule: Rule, op: Op, i: Int) -> Shown
    ensures { result ≡ spec.operand rule op i }
{
    match rule {
        Rule::U15 => Shown::Bits,
        Rule::U3 => beside_dead(op, i),
        Rule::U5 => beside_pointer(i),
        Rule::U6 => beside_pointer(i),
        _ => Shown::Integer(i),
    }
}

fn operands_text(alloc: Global, b: &Breach, objects: &Store) -> Result<Vec<u8>, NoMemory>
    ensures { IfOk result (λ text. text.items ≡ spec.operands_text b.now objects.now.objects) }
{
    let left = value_text(alloc, objects, operand(b.rule, b.op, b.int), &b.left)?;
    let right = value_text(alloc, objects, operand(b.rule, b.op, b.right_int), &b.right)?;
    let mut text = Vec::new(alloc);
    put(&mut text, b" left ")?;
    put(&mut text, left.as_slice())?;
    put(&mut text, b" right ")?;
    put(&mut text, right.as_slice())?;
    Ok(text)
}

fn access_or_operands(alloc: Global, b: &Breach, objects: &Store) -> Result<Vec<u8>, NoMemory>
    ensures { IfOk result (λ text. text.items ≡ spec.access_or_operands b.now objects.now.objects) }
{
    if b.size == 0 {
        return operands_text(alloc, b, objects);
    }
    let place = access_text(alloc, &b.at)?;
    let mut text = Vec::new(alloc);
    put(&mut text, b" ")?;
    put(&mut text, place.as_slice())?;
    put(&mut text, b" size ")?;
    put_decimal(&mut text, alloc, b.size)?;
    Ok(text)
}

fn name_text(alloc: Global, name: &Option<Key>) -> Result<Vec<u8>, NoMemory>
    ensures { IfOk result (λ text. text.items ≡ spec.name_text name.now) }
{
    match name {
        Some(key) => key_text(alloc, key),
        None => Ok(Vec::new(alloc)),
    }
}

fn value_tail(alloc: Global, v: &Value, objects: &Store) -> Result<Vec<u8>, NoMemory>
    ensures { IfOk result (λ text. text.items ≡ codes " value " ++ value_text objects.now.objects Shown.Address v.now) }
{
    let value = value_text(alloc, objects, Shown::Address, v)?;
    let mut text = Vec::new(alloc);
    put(&mut text, b" value ")?;
    put(&mut text, value.as_slice())?;
    Ok(text)
}

fn call_tail(alloc: Global, b: &Breach) -> Result<Vec<u8>, NoMemory>
    ensures { IfOk result (λ text. text.items ≡ spec.call_text b.now) }
{
    let name = name_text(alloc, &b.name)?;
    let mut text = Vec::new(alloc);
    put(&mut text, b" call ")?;
    put(&mut text, name.as_slice())?;
    put(&mut text, b" argument ")?;
    put_decimal(&mut text, alloc, b.argument)?;
    Ok(text)
}

fn name_tail(alloc: Global, b: &Breach) -> Result<Vec<u8>, NoMemory>
    ensures { IfOk result (λ text. text.items ≡ codes " name " ++ spec.name_text b.now.name) }
{
    let name = name_text(alloc, &b.name)?;
    let mut text = Vec::new(alloc);
    put(&mut text, b" name ")?;
    put(&mut text, name.as_slice())?;
    Ok(text)
}

// What is said of an undefined step behind its place.
fn tail_text(alloc: Global, b: &Breach, objects: &Store) -> Result<Vec<u8>, NoMemory>
    ensures { IfOk result (λ text. text.items ≡ spec.tail_text b.now.rule b.now objects.now.objects) }
{
    match b.rule {
        Rule::U12 => value_tail(alloc, &b.left, objects),
        Rule::U13 => Ok(Vec::new(alloc)),
        Rule::U14 => value_tail(alloc, &b.left, objects),
        Rule::U16 => call_tail(alloc, b),
        Rule::U17 => name_tail(alloc, b),
        _ => access_or_operands(alloc, b, objects),
    }
}

// The module of the innermost call.
fn home_of(world: &World) -> &[u8]
    ensures { result.now ≡ spec.home_of world.now.frames }
{
    match world.innermost() {
        Some(frame) => frame.home.as_slice(),
        None => &[],
    }
}

/// An undefined step, with its place.
pub fn breach_text(alloc: Global, b: &Breach, world: &World) -> Result<Vec<u8>, NoMemory>
    ensures { IfOk result (λ text. text.items ≡ spec.breach_text b.now world.now) }
{
    let tail = tail_text(alloc, b, world.objects())?;
    let mut text = Vec::new(alloc);
    put(&mut text, b"violation ")?;
    put(&mut text, rule_text(b.rule))?;
    put(&mut text, b" in ")?;
    put_key(&mut text, alloc, &b.fun)?;
    put(&mut text, b" at ")?;
    put(&mut text, home_of(world))?;
    put(&mut text, b":")?;
    put_decimal(&mut text, alloc, b.line)?;
    put(&mut text, tail.as_slice())?;
    Ok(text)
}
