// Operators on integers and on pointers: what each gives, or the rule that it breaks (ANSI 3.3).
ghost use Rattle.std.specs.Prelude.{◌≡◌, ◌+◌, ◌-◌, ◌*◌, ◌^◌, ◌<◌, ◌≤◌, ℕ, nat_le, pos, negsuc, neg_ℤ, if◌then◌else◌, IfOk, MatchResult, None, Some};
ghost use Rattle.sc_meaning.specs.Accesses as spec;
ghost use Rattle.sc_meaning.specs.Values as value;
ghost use Rattle.sc_interp_access.specs.Gives.{Gives};
ghost use Rattle.sc_ops.specs.Operators as operators;
ghost use Rattle.sc_ops.specs.Numbers as numbers;

use crate::accesses::{int_of, is_pointer_type};
use crate::breaches::operand_breach;
use crate::stop::{Breach, Stop};
use crate::violations::{
    bits, equality_rule, is_pointer, offset_of, order_rule, place_of, shift_rule, truth_rule,
};
use sc_base::{Duplicate, Int, NoMemory, Op, Rule, Shared};
use sc_interp_world::World;
use sc_meaning_values::{Shape, Value};
use sc_ops::arith;
use sc_types::CType;
use std::alloc::Global;

/// The integral promotion (3.2.1.1).
pub fn promoted(i: Int) -> Int
    ensures { result ≡ numbers.promoted i }
{
    match i {
        Int::UInt => Int::UInt,
        Int::Long => Int::Long,
        Int::ULong => Int::ULong,
        Int::Char | Int::SChar | Int::UChar | Int::Short | Int::UShort | Int::Int => Int::Int,
    }
}

// The value of an operator, or the rule that its numbers break.
fn operated(op: Op, i: Int, a: u32, b: u32) -> Result<u32, Rule>
    ensures { MatchResult result (λ n. (operators.rule_of op i a b ≡ None) × (operators.value_of op i a b ≡ n)) (λ rule. operators.rule_of op i a b ≡ Some rule) }
{
    arith(op, i, a, b)
}

/// An operator on two integers, which works in the type i.
///
/// # Errors
///
/// `U15` where an operand is a pointer, else the rule of the numbers.
pub fn computed(op: Op, i: Int, x: &Value, j: Int, y: &Value, world: &World) -> Result<Value, Stop>
    ensures { Gives (spec.computed op i x.now j y.now world.now) result world.now }
{
    if is_pointer(x) || is_pointer(y) {
        let told = operand_breach(op, promoted(i), x, promoted(j), y, world, Rule::U15)?;
        return Err(Stop::Undefined(told));
    }
    match operated(op, i, bits(x), bits(y)) {
        Ok(n) => Ok(Value::number(n)),
        Err(rule) => {
            let told = operand_breach(op, promoted(i), x, promoted(j), y, world, rule)?;
            Err(Stop::Undefined(told))
        }
    }
}

// The number of the low bits of which the top one counts down.
fn signed(low: u32, half: u32) -> i64
    requires low { low < 2 * half }
    requires half { half ≤ 2 ^ 15 }
    ensures { result ≡ (if nat_le half low then negsuc (2 * half - 1 - low) else pos low) }
{
    if low < half {
        i64::from(low)
    } else {
        i64::from(low) - i64::from(2 * half)
    }
}

/// The number of a type that these bits stand for.
pub fn number_of(i: Int, v: u32) -> i64
    ensures { result ≡ numbers.number_of i v }
{
    match i {
        Int::Char | Int::UChar => i64::from(v % 256),
        Int::UShort => i64::from(v % 65536),
        Int::SChar => signed(v % 256, 128),
        Int::Short => signed(v % 65536, 32768),
        Int::Int | Int::Long => i64::from(v.cast_signed()),
        Int::UInt | Int::ULong => i64::from(v),
    }
}

fn negative(n: i64) -> Result<i64, NoMemory>
    ensures { IfOk result (λ m. m ≡ neg_ℤ n) }
{
    let Some(m) = n.checked_neg() else {
        return Err(NoMemory)
    };
    Ok(m)
}

/// The number that an integer adds to a pointer: its own, or with `-` and `--` its negative.
pub fn steps_of(op: Op, i: Int, x: &Value) -> Result<i64, NoMemory>
    ensures { IfOk result (λ n. n ≡ spec.steps_of op i x.now) }
{
    let n = number_of(i, bits(x));
    match op {
        Op::Sub | Op::Dec => negative(n),
        Op::Add
        | Op::Mul
        | Op::Div
        | Op::Rem
        | Op::Shl
        | Op::Shr
        | Op::And
        | Op::Or
        | Op::Xor
        | Op::Lt
        | Op::Gt
        | Op::Le
        | Op::Ge
        | Op::Eq
        | Op::Ne
        | Op::Neg
        | Op::Not
        | Op::Truth
        | Op::Inc => Ok(n),
    }
}

// An offset of 32 bits; what is below 0 is 0.
fn natural(at: i64) -> Result<u32, NoMemory>
    ensures { IfOk result (λ n. n ≡ value.natural at) }
{
    if at < 0 {
        return Ok(0);
    }
    if i64::from(u32::MAX) < at {
        return Err(NoMemory);
    }
    Ok(at as u32)
}

/// A place in the same object; null and functions have one alone.
pub fn placed(p: &Value, at: i64, alloc: Global) -> Result<Value, NoMemory>
    ensures { IfOk result (λ v. v ≡ spec.placed p.now at) }
{
    match &p.shape {
        Shape::Number(n) => Ok(Value::number(*n)),
        Shape::FunctionAt(k) => Ok(Value::function(k.share()?)),
        Shape::Pointer(o, _) => Ok(Value::pointer(*o, natural(at)?)),
    }
}

fn order_breach(
    first: bool,
    op: Op,
    p: &Value,
    i: Int,
    x: &Value,
    world: &World,
    rule: Rule,
) -> Result<Shared<Breach>, NoMemory>
    ensures { IfOk result (λ b. b ≡ spec.order_breach first op p.now i x.now world.now rule) }
{
    if first {
        return operand_breach(op, Int::UInt, p, promoted(i), x, world, rule);
    }
    operand_breach(op, promoted(i), x, Int::UInt, p, world, rule)
}

/// A pointer and an integer of type i, for elements of this size; whether the pointer stands on the left.
///
/// # Errors
///
/// The rule that the sum breaks.
pub fn shifted(
    first: bool,
    op: Op,
    p: &Value,
    i: Int,
    x: &Value,
    size: u32,
    world: &World,
) -> Result<Value, Stop>
    ensures { Gives (spec.shifted first op p.now i x.now size world.now) result world.now }
{
    let n = steps_of(op, i, x)?;
    let at = place_of(p, n, size)?;
    if let Some(rule) = shift_rule(world.objects(), p, x, n, at, size) {
        let told = order_breach(first, op, p, i, x, world, rule)?;
        return Err(Stop::Undefined(told));
    }
    Ok(placed(p, at, world.alloc())?)
}

/// The address of what stands `n` bytes into the structure at `p`.
pub fn member_address(p: &Value, n: u32, world: &World) -> Result<Value, Stop>
    ensures { Gives (spec.member_address p.now n world.now) result world.now }
{
    shifted(true, Op::Add, p, Int::UInt, &Value::number(n), 1, world)
}

fn is_equality(op: Op) -> bool
    ensures { result ≡ spec.is_equality op }
{
    match op {
        Op::Eq | Op::Ne => true,
        Op::Add
        | Op::Sub
        | Op::Mul
        | Op::Div
        | Op::Rem
        | Op::Shl
        | Op::Shr
        | Op::And
        | Op::Or
        | Op::Xor
        | Op::Lt
        | Op::Gt
        | Op::Le
        | Op::Ge
        | Op::Neg
        | Op::Not
        | Op::Truth
        | Op::Inc
        | Op::Dec => false,
    }
}

fn compare_rule(op: Op, world: &World, p: &Value, q: &Value) -> Option<Rule>
    ensures { result ≡ spec.compare_rule op world.now p.now q.now }
{
    if is_equality(op) {
        equality_rule(world.objects(), p, q)
    } else {
        order_rule(world.objects(), p, q)
    }
}

fn pointer_test(op: Op, p: &Value, q: &Value) -> bool
    ensures { result ≡ spec.pointer_test op p.now q.now }
{
    match op {
        Op::Eq => p.same(q),
        Op::Ne => !p.same(q),
        Op::Lt => offset_of(p) < offset_of(q),
        Op::Gt => offset_of(q) < offset_of(p),
        Op::Le => offset_of(p) <= offset_of(q),
        Op::Ge => offset_of(q) <= offset_of(p),
        Op::Add
        | Op::Sub
        | Op::Mul
        | Op::Div
        | Op::Rem
        | Op::Shl
        | Op::Shr
        | Op::And
        | Op::Or
        | Op::Xor
        | Op::Neg
        | Op::Not
        | Op::Truth
        | Op::Inc
        | Op::Dec => false,
    }
}

/// A comparison of two pointers.
///
/// # Errors
///
/// The rule that the comparison breaks.
pub fn compared(op: Op, p: &Value, q: &Value, world: &World) -> Result<Value, Stop>
    ensures { Gives (spec.compared op p.now q.now world.now) result world.now }
{
    if let Some(rule) = compare_rule(op, world, p, q) {
        let told = operand_breach(op, Int::UInt, p, Int::UInt, q, world, rule)?;
        return Err(Stop::Undefined(told));
    }
    Ok(truth_number(pointer_test(op, p, q)))
}

/// 1 for what is true, 0 for what is not.
pub fn truth_number(yes: bool) -> Value
    ensures { result ≡ value.Number (operators.truth_of yes) }
{
    Value::number(if yes { 1 } else { 0 })
}

fn is_true(v: &Value) -> bool
    ensures { result ≡ spec.is_true v.now }
{
    match &v.shape {
        Shape::Number(n) => *n != 0,
        Shape::FunctionAt(_) => true,
        Shape::Pointer(_, _) => true,
    }
}

/// Whether a scalar of this type is not 0 (3.3.13, 3.6.4.1).
///
/// # Errors
///
/// The rule that the test breaks.
pub fn tested(t: &CType, v: &Value, world: &World) -> Result<bool, Stop>
    ensures { Gives (spec.tested t.now v.now world.now) result world.now }
{
    if let Some(rule) = truth_rule(world.objects(), is_pointer_type(t), v) {
        let told = operand_breach(
            Op::Truth,
            promoted(int_of(t)),
            v,
            Int::Int,
            &Value::null(),
            world,
            rule,
        )?;
        return Err(Stop::Undefined(told));
    }
    Ok(is_true(v))
}
