// What is done with two values, and with a place and a value (ANSI 3.3.2.1, 3.3.5 to 3.3.9, 3.3.16). The left value is what was
// held, the right one the answer, which the answer of the whole replaces.
ghost use Rattle.std.specs.Prelude.{List};
ghost use Rattle.sc_meaning.specs.Expressions as spec;
ghost use Rattle.sc_interp_machine.specs.Machine as machine;
ghost use Rattle.sc_interp_machine.specs.declared.pending.Item.{Item};
ghost use Rattle.sc_interp_machine.specs.declared.pending.Item.TheVariants as item;
ghost use Rattle.sc_interp_machine.specs.declared.pending.Pair.TheVariants as kind;
ghost use Rattle.sc_interp_machine.specs.declared.pending.Store.TheVariants as store_kind;
ghost use Rattle.sc_interp_expr.specs.Advances.{Goes};

use crate::next::{ends_at, ends_plain, put, taken};
use sc_base::{Int, Op};
use sc_interp_access::{Stop, compared, computed, int_of, stored};
use sc_interp_parts::{assigned_structure, compounded, difference, moved_by, offset_by, used};
use sc_interp_world::World;
use sc_meaning_values::Answer;
use sc_types::CType;

/// `a[b]`.
///
/// # Errors
///
/// The rule that the sum breaks.
pub fn index(
    size: u32,
    s: &CType,
    t: &CType,
    held: Answer,
    answer: &mut Answer,
    world: &mut World,
) -> Result<(), Stop>
    ensures { (is : List Item) → Goes (machine.item_next (item.Now (kind.Index size s.now t.now) (spec.base_of held)) answer.old is world.old) result answer.new is world.new }
{
    let x = held.base();
    let y = used(taken(answer), world)?;
    let p = offset_by(Op::Add, size, s, t, &x, &y, world)?;
    ends_at(p, answer, world)
}

/// An operator on two integers.
///
/// # Errors
///
/// The rule that the operator breaks.
pub fn binary(
    o: Op,
    s: &CType,
    t: &CType,
    held: Answer,
    answer: &mut Answer,
    world: &mut World,
) -> Result<(), Stop>
    ensures { (is : List Item) → Goes (machine.item_next (item.Now (kind.Binary o s.now t.now) (spec.base_of held)) answer.old is world.old) result answer.new is world.new }
{
    let x = held.base();
    let y = used(taken(answer), world)?;
    let v = computed(o, int_of(s), &x, int_of(t), &y, world)?;
    ends_plain(v, answer, world)
}

/// A pointer and an integer.
///
/// # Errors
///
/// The rule that the sum breaks.
#[inline(never)]
pub fn offset(
    o: Op,
    size: u32,
    s: &CType,
    t: &CType,
    held: Answer,
    answer: &mut Answer,
    world: &mut World,
) -> Result<(), Stop>
    ensures { (is : List Item) → Goes (machine.item_next (item.Now (kind.Offset o size s.now t.now) (spec.base_of held)) answer.old is world.old) result answer.new is world.new }
{
    let x = held.base();
    let y = used(taken(answer), world)?;
    let p = offset_by(o, size, s, t, &x, &y, world)?;
    ends_plain(p, answer, world)
}

/// The difference of two pointers.
///
/// # Errors
///
/// The rule that the difference breaks.
#[inline(never)]
pub fn distance(size: u32, held: Answer, answer: &mut Answer, world: &mut World) -> Result<(), Stop>
    ensures { (is : List Item) → Goes (machine.item_next (item.Now (kind.Difference size) (spec.base_of held)) answer.old is world.old) result answer.new is world.new }
{
    let x = held.base();
    let y = used(taken(answer), world)?;
    let v = difference(&x, &y, size, world)?;
    ends_plain(v, answer, world)
}

/// A comparison of two pointers.
///
/// # Errors
///
/// The rule that the comparison breaks.
#[inline(never)]
pub fn comparison(o: Op, held: Answer, answer: &mut Answer, world: &mut World) -> Result<(), Stop>
    ensures { (is : List Item) → Goes (machine.item_next (item.Now (kind.Compare o) (spec.base_of held)) answer.old is world.old) result answer.new is world.new }
{
    let x = held.base();
    let y = used(taken(answer), world)?;
    let v = compared(o, &x, &y, world)?;
    ends_plain(v, answer, world)
}

/// `=` on scalars.
///
/// # Errors
///
/// The rule that the store breaks.
pub fn assigned(t: &CType, held: Answer, answer: &mut Answer, world: &mut World) -> Result<(), Stop>
    ensures { (is : List Item) → Goes (machine.item_next (item.StoreNow (store_kind.Assign t.now) held) answer.old is world.old) result answer.new is world.new }
{
    let v = used(taken(answer), world)?;
    let further = held.further();
    let v = stored(t, &held.base(), further, v, world)?;
    ends_plain(v, answer, world)
}

/// A compound assignment on integers.
///
/// # Errors
///
/// The rule that the load, the operator or the store breaks.
#[inline(never)]
pub fn compound(
    o: Op,
    i: Int,
    t: &CType,
    s: &CType,
    held: Answer,
    answer: &mut Answer,
    world: &mut World,
) -> Result<(), Stop>
    ensures { (is : List Item) → Goes (machine.item_next (item.StoreNow (store_kind.Compound o i t.now s.now) held) answer.old is world.old) result answer.new is world.new }
{
    let v = used(taken(answer), world)?;
    let v = compounded(o, i, t, s, held, &v, world)?;
    ends_plain(v, answer, world)
}

/// `+=` and `-=` on a pointer.
///
/// # Errors
///
/// The rule that the load, the sum or the store breaks.
#[inline(never)]
pub fn moved(
    o: Op,
    size: u32,
    t: &CType,
    s: &CType,
    held: Answer,
    answer: &mut Answer,
    world: &mut World,
) -> Result<(), Stop>
    ensures { (is : List Item) → Goes (machine.item_next (item.StoreNow (store_kind.Move o size t.now s.now) held) answer.old is world.old) result answer.new is world.new }
{
    let v = used(taken(answer), world)?;
    let v = moved_by(o, size, t, s, held, &v, world)?;
    ends_plain(v, answer, world)
}

/// `=` on structures.
///
/// # Errors
///
/// The rule that the source or the target breaks.
#[inline(never)]
pub fn structure(
    size: u32,
    held: Answer,
    answer: &mut Answer,
    world: &mut World,
) -> Result<(), Stop>
    ensures { (is : List Item) → Goes (machine.item_next (item.StructureNow size held) answer.old is world.old) result answer.new is world.new }
{
    let a = assigned_structure(size, held, taken(answer), world)?;
    put(answer, a);
    Ok(())
}
