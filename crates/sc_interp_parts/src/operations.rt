// Operators on values and on places: steps, unary operators, sums and differences of pointers, assignments (ANSI
// 3.3.2.4, 3.3.3, 3.3.6, 3.3.16).
ghost use Rattle.std.specs.Prelude.{◌≡◌, ◌<◌, ◌-ℤ◌, pos, int_div, IfOk};
ghost use Rattle.sc_ops.specs.Numbers as numbers;
ghost use Rattle.sc_meaning.specs.Accesses as access;
ghost use Rattle.sc_meaning.specs.Violations as violation;
ghost use Rattle.sc_meaning.specs.Expressions as spec;
ghost use Rattle.sc_core.specs.declared.expression.UnaryOperator.TheVariants as operator;
ghost use Rattle.sc_interp_access.specs.Gives.{Gives};

use crate::answers::finished;
use sc_base::{Duplicate, Int, NoMemory, Op};
use sc_core::{Step, UnaryOperator};
use sc_interp_access::{
    Stop, as_type, computed, converted_value, copied, difference_rule, distance, int_of,
    is_pointer_type, loaded, operand_breach, shifted, stored, tested, truth_number,
};
use sc_interp_world::World;
use sc_meaning_values::{Answer, Value};
use sc_types::CType;

/// A pointer and an integer, in either order, for elements of `size` bytes (3.3.6).
///
/// # Errors
///
/// The rule that the sum breaks.
pub fn offset_by(
    o: Op,
    size: u32,
    s: &CType,
    t: &CType,
    x: &Value,
    y: &Value,
    world: &World,
) -> Result<Value, Stop>
    ensures { Gives (spec.offset_by o size s.now t.now x.now y.now world.now) result world.now }
{
    if is_pointer_type(s) {
        shifted(true, o, x, int_of(t), y, size, world)
    } else {
        shifted(false, o, y, int_of(s), x, size, world)
    }
}

fn operator_of(s: Step) -> Op
    ensures { result ≡ spec.operator_of s }
{
    match s {
        Step::IncrementFirst => Op::Inc,
        Step::DecrementFirst => Op::Dec,
        Step::IncrementAfter => Op::Inc,
        Step::DecrementAfter => Op::Dec,
    }
}

fn old_or_new(s: Step, old: Value, new: Value) -> Value
    ensures { result ≡ spec.old_or_new s old new }
{
    match s {
        Step::IncrementFirst => new,
        Step::DecrementFirst => new,
        Step::IncrementAfter => old,
        Step::DecrementAfter => old,
    }
}

// One more or one less: of an integer in its promoted type (3.3.2.4).
fn next_value(o: Op, size: u32, t: &CType, v: &Value, world: &World) -> Result<Value, Stop>
    ensures { Gives (spec.next_value o size t.now v.now world.now) result world.now }
{
    if is_pointer_type(t) {
        return shifted(true, o, v, Int::Int, &Value::number(1), size, world);
    }
    let n = computed(o, int_of(t), v, Int::Int, &Value::number(1), world)?;
    Ok(as_type(t, n))
}

/// `++` and `--`: the place is read, and then written (3.3.2.4, 3.3.3.1). `size` is that of what a pointer points to.
///
/// # Errors
///
/// The rule that the load, the sum or the store breaks.
pub fn stepped(s: Step, size: u32, t: &CType, a: Answer, world: &mut World) -> Result<Value, Stop>
    ensures { Gives (spec.stepped s size t.now a world.old) result world.new }
{
    let further = a.further();
    let p = a.base();
    let old = loaded(t, &p, further, world)?;
    let new = next_value(operator_of(s), size, t, &old, world)?;
    let v = stored(t, &p, further, new, world)?;
    Ok(old_or_new(s, old, v))
}

fn negation(t: &CType, v: &Value, world: &World) -> Result<Value, Stop>
    ensures { Gives (spec.unary operator.Not t.now v.now world.now) result world.now }
{
    let yes = tested(t, v, world)?;
    Ok(truth_number(!yes))
}

/// `+ - ~ !` (3.3.3.3).
///
/// # Errors
///
/// The rule that the operator or the test breaks.
pub fn unary(o: UnaryOperator, t: &CType, v: Value, world: &World) -> Result<Value, Stop>
    ensures { Gives (spec.unary o t.now v world.now) result world.now }
{
    let i = int_of(t);
    match o {
        UnaryOperator::Plus => Ok(v),
        UnaryOperator::Minus => computed(Op::Neg, i, &Value::null(), i, &v, world),
        UnaryOperator::Complement => computed(Op::Not, i, &Value::null(), i, &v, world),
        UnaryOperator::Not => negation(t, &v, world),
    }
}

/// `=` on structures: `size` bytes are copied as they are (3.3.16.1).
///
/// # Errors
///
/// The rule that the source or the target breaks.
pub fn assigned_structure(
    size: u32,
    a: Answer,
    b: Answer,
    world: &mut World,
) -> Result<Answer, Stop>
    ensures { Gives (spec.assigned_structure size a b world.old) result world.new }
{
    let further = a.further();
    let beyond = b.further();
    let to = a.copy(world.alloc())?.base();
    copied(&to, further, &b.base(), beyond, size, world)?;
    world.work(size)?;
    finished(a, world)
}

/// A compound assignment on integers, which works in the type `i` (3.3.16.2): the left side is read behind the right one.
///
/// # Errors
///
/// The rule that the load, the operator or the store breaks.
pub fn compounded(
    o: Op,
    i: Int,
    t: &CType,
    s: &CType,
    a: Answer,
    y: &Value,
    world: &mut World,
) -> Result<Value, Stop>
    ensures { Gives (spec.compounded o i t.now s.now a y.now world.old) result world.new }
{
    let further = a.further();
    let p = a.base();
    let old = loaded(t, &p, further, world)?;
    let new = computed(o, i, &converted_value(i, old), int_of(s), y, world)?;
    stored(t, &p, further, as_type(t, new), world)
}

/// `+=` and `-=` on a pointer, for elements of `size` bytes (3.3.16.2).
///
/// # Errors
///
/// The rule that the load, the sum or the store breaks.
pub fn moved_by(
    o: Op,
    size: u32,
    t: &CType,
    s: &CType,
    a: Answer,
    y: &Value,
    world: &mut World,
) -> Result<Value, Stop>
    ensures { Gives (spec.moved_by o size t.now s.now a y.now world.old) result world.new }
{
    let further = a.further();
    let p = a.base();
    let old = loaded(t, &p, further, world)?;
    let new = shifted(true, o, &old, int_of(s), y, size, world)?;
    stored(t, &p, further, new, world)
}

// The 32 bits that stand for a number.
fn bits_of(z: i64) -> Result<u32, NoMemory>
    ensures { IfOk result (λ n. n ≡ numbers.bits_of z) }
{
    if z < 0 {
        let up = z + 4294967296;
        if up < 0 {
            return Err(NoMemory);
        }
        Ok(up as u32)
    } else if z < 4294967296 {
        Ok(z as u32)
    } else {
        Err(NoMemory)
    }
}

// How many elements of this size one pointer's offset is above another's.
fn elements(p: &Value, q: &Value, size: u32) -> Result<u32, NoMemory>
    requires { 0 < size }
    ensures { IfOk result (λ n. n ≡ numbers.bits_of (int_div (pos (violation.offset_of p.now) -ℤ pos (violation.offset_of q.now)) (pos size))) }
{
    let d = distance(p, q);
    bits_of(d / i64::from(size))
}

/// The difference of two pointers, in elements of `size` bytes (3.3.6). No element has 0 bytes: there is no room for an
/// answer then.
///
/// # Errors
///
/// The rule that the difference breaks.
pub fn difference(p: &Value, q: &Value, size: u32, world: &World) -> Result<Value, Stop>
    ensures { Gives (access.difference p.now q.now size world.now) result world.now }
{
    if size == 0 {
        return Err(Stop::NoRoom);
    }
    if let Some(rule) = difference_rule(world.objects(), p, q, size) {
        let told = operand_breach(Op::Sub, Int::UInt, p, Int::UInt, q, world, rule)?;
        return Err(Stop::Undefined(told));
    }
    Ok(Value::number(elements(p, q, size)?))
}
