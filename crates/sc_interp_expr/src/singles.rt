// What is done with the answer of an only operand, or of the last one (ANSI 3.2, 3.3.2, 3.3.3, 3.3.4, 3.3.13, 3.3.14).
ghost use Rattle.sc_interp_machine.specs.Machine as machine;
ghost use Rattle.sc_interp_machine.specs.declared.pending.Single.TheVariants as kind;
ghost use Rattle.sc_interp_expr.specs.Advances.{Answers};

use crate::next::{ends_at, ends_plain, finishes, put, taken};
use sc_core::{Step, UnaryOperator};
use sc_interp_access::{Stop, tested, truth_number};
use sc_interp_parts::{address, cast, conversion, part_of, stepped, unary, used};
use sc_interp_world::World;
use sc_meaning_values::Answer;
use sc_types::CType;

/// A value is tested alone, and is 1 or 0.
///
/// # Errors
///
/// The rule that the test breaks.
#[inline(never)]
pub fn truth_of(t: &CType, answer: &mut Answer, world: &mut World) -> Result<(), Stop>
    ensures { Answers (machine.single_of (kind.Truth t.now) answer.old world.old) result answer.new world.new }
{
    let v = used(taken(answer), world)?;
    let yes = tested(t, &v, world)?;
    ends_plain(truth_number(yes), answer, world)
}

/// `structure.member`.
///
/// # Errors
///
/// `NoRoom` alone.
#[inline(never)]
pub fn member(n: u32, answer: &mut Answer, world: &mut World) -> Result<(), Stop>
    ensures { Answers (machine.single_of (kind.Member n) answer.old world.old) result answer.new world.new }
{
    let part = part_of(taken(answer), n)?;
    put(answer, part);
    finishes(answer, world)
}

/// `pointer->member`.
///
/// # Errors
///
/// `U13` where there is no value.
#[inline(never)]
pub fn arrow(n: u32, answer: &mut Answer, world: &mut World) -> Result<(), Stop>
    ensures { Answers (machine.single_of (kind.Arrow n) answer.old world.old) result answer.new world.new }
{
    let p = used(taken(answer), world)?;
    put(answer, Answer::part(p, n));
    finishes(answer, world)
}

/// `++` and `--`.
///
/// # Errors
///
/// The rule that the load, the sum or the store breaks.
#[inline(never)]
pub fn increment(
    s: Step,
    n: u32,
    t: &CType,
    answer: &mut Answer,
    world: &mut World,
) -> Result<(), Stop>
    ensures { Answers (machine.single_of (kind.Increment s n t.now) answer.old world.old) result answer.new world.new }
{
    let v = stepped(s, n, t, taken(answer), world)?;
    ends_plain(v, answer, world)
}

/// `&operand`.
///
/// # Errors
///
/// `U13` where there is no place, else the rule that the arithmetic breaks.
#[inline(never)]
pub fn address_of(answer: &mut Answer, world: &mut World) -> Result<(), Stop>
    ensures { Answers (machine.single_of kind.Address answer.old world.old) result answer.new world.new }
{
    let v = address(taken(answer), world)?;
    ends_plain(v, answer, world)
}

/// `*operand`.
///
/// # Errors
///
/// `U13` where there is no value.
pub fn indirection(answer: &mut Answer, world: &mut World) -> Result<(), Stop>
    ensures { Answers (machine.single_of kind.Indirection answer.old world.old) result answer.new world.new }
{
    let p = used(taken(answer), world)?;
    ends_at(p, answer, world)
}

/// `+ - ~ !`.
///
/// # Errors
///
/// The rule that the operator or the test breaks.
#[inline(never)]
pub fn unary_of(
    o: UnaryOperator,
    t: &CType,
    answer: &mut Answer,
    world: &mut World,
) -> Result<(), Stop>
    ensures { Answers (machine.single_of (kind.Unary o t.now) answer.old world.old) result answer.new world.new }
{
    let x = used(taken(answer), world)?;
    let v = unary(o, t, x, world)?;
    ends_plain(v, answer, world)
}

/// A cast that is written.
///
/// # Errors
///
/// `U13` where a value is wanted and there is none.
#[inline(never)]
pub fn cast_to(t: &CType, answer: &mut Answer, world: &mut World) -> Result<(), Stop>
    ensures { Answers (machine.single_of (kind.Cast t.now) answer.old world.old) result answer.new world.new }
{
    let a = cast(t, taken(answer), world)?;
    put(answer, a);
    Ok(())
}

/// What C converts by itself.
///
/// # Errors
///
/// The rule that a read of the place, or the arithmetic of its address, breaks.
pub fn converts(
    from: &CType,
    to: &CType,
    answer: &mut Answer,
    world: &mut World,
) -> Result<(), Stop>
    ensures { Answers (machine.single_of (kind.Convert from.now to.now) answer.old world.old) result answer.new world.new }
{
    let a = conversion(from, to, taken(answer), world)?;
    put(answer, a);
    Ok(())
}

/// A call came back.
///
/// # Errors
///
/// `NoRoom` alone.
#[inline(never)]
pub fn back(answer: &mut Answer, world: &mut World) -> Result<(), Stop>
    ensures { Answers (machine.single_of kind.Back answer.old world.old) result answer.new world.new }
{
    world.comes_back()?;
    finishes(answer, world)
}
