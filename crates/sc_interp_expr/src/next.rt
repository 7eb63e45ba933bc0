// What a step came to, and the next part of an expression (ANSI 3.3).
ghost use Rattle.std.specs.Prelude.{◌≡◌, ◌∷◌};
ghost use Rattle.sc_core.specs.declared.expression.CoreExpr.{out-CoreExpr};
ghost use Rattle.sc_meaning.specs.Expressions as spec;
ghost use Rattle.sc_meaning.specs.World as worlds;
ghost use Rattle.sc_interp_machine.specs.Machine as machine;
ghost use Rattle.sc_interp_machine.specs.Slots as slot;
ghost use Rattle.sc_interp_machine.specs.declared.pending.Mode.TheVariants as mode;
ghost use Rattle.sc_interp_expr.specs.Advances.{Advances, Answers, EndsAt};

use sc_base::{Shared, Stack};
use sc_core::CoreExpr;
use sc_interp_access::Stop;
use sc_interp_machine::{Focus, Slot, Stage};
use sc_interp_parts::used;
use sc_interp_world::World;
use sc_meaning_values::{Answer, Value};
use std::mem;

/// What a step came to.
#[derive(Clone, Copy)]
pub enum Went {
    /// The expression goes on.
    On,
    /// A call goes out: the item on top has its function and all arguments.
    Calls,
    /// The answer that is given is that of the whole.
    Ends,
}

/// The answer is taken, and none is left in its place.
#[inline(always)]
pub fn taken(answer: &mut Answer) -> Answer
    ensures { result ≡ answer.old }
{
    mem::replace(answer, Answer::nothing())
}

/// An answer is put in place of the former one.
#[inline(always)]
pub fn put(answer: &mut Answer, a: Answer)
    ensures { answer.new ≡ a }
{
    drop(mem::replace(answer, a));
}

/// The answer of the whole expression, which is taken.
#[inline(always)]
pub fn ended(focus: &mut Focus) -> Answer
    ensures { (step : machine.Advanced) (w : worlds.World) → EndsAt step focus.old w → step ≡ machine.Gives result w }
{
    taken(&mut focus.answer)
}

/// The expression ends with the answer as it is.
#[inline(always)]
pub fn finishes(answer: &mut Answer, world: &mut World) -> Result<(), Stop>
    ensures { Answers (spec.finished answer.old world.old) result answer.new world.new }
{
    world.tick()?;
    Ok(())
}

/// The expression ends with a value.
#[inline(always)]
pub fn ends_plain(v: Value, answer: &mut Answer, world: &mut World) -> Result<(), Stop>
    ensures { Answers (spec.plain v world.old) result answer.new world.new }
{
    world.tick()?;
    put(answer, Answer::plain(v));
    Ok(())
}

/// The expression ends with a place.
#[inline(always)]
pub fn ends_at(p: Value, answer: &mut Answer, world: &mut World) -> Result<(), Stop>
    ensures { Answers (spec.at_place p world.old) result answer.new world.new }
{
    world.tick()?;
    put(answer, Answer::place(p));
    Ok(())
}

/// The first operand of the node is evaluated next, and the node awaits its answer.
///
/// # Errors
///
/// `NoRoom` alone.
#[inline(always)]
pub fn descends(
    first: Shared<CoreExpr>,
    at: &mut Shared<CoreExpr>,
    slots: &mut Stack<Slot>,
    world: &World,
) -> Result<Went, Stop>
    ensures { Advances (machine.evals first (slot.first_of (out-CoreExpr at.old) ∷ slots.old) world.now) result (mode.Eval at.new) slots.new world.now }
{
    let node = mem::replace(at, first);
    slots.push(Slot {
        node,
        stage: Stage::First,
    })?;
    Ok(Went::On)
}

// A later operand is evaluated next, and the node awaits its answer behind this one.
#[inline(always)]
fn goes_on(
    next: Shared<CoreExpr>,
    node: Shared<CoreExpr>,
    held: Answer,
    at: &mut Shared<CoreExpr>,
    gives: &mut bool,
    slots: &mut Stack<Slot>,
    world: &World,
) -> Result<Went, Stop>
    ensures { (a : spec.Answer) → Advances (machine.evals next (slot.second_of (out-CoreExpr node) held ∷ slots.old) world.now) result (slot.mode_of gives.new at.new a) slots.new world.now }
{
    slots.push(Slot {
        node,
        stage: Stage::Second(held),
    })?;
    drop(mem::replace(at, next));
    *gives = false;
    Ok(Went::On)
}

/// The right operand is evaluated next, and the node awaits its answer behind the value on the left.
///
/// # Errors
///
/// `U13` where there is none.
pub fn keeps_value(
    next: Shared<CoreExpr>,
    node: Shared<CoreExpr>,
    at: &mut Shared<CoreExpr>,
    gives: &mut bool,
    answer: &mut Answer,
    slots: &mut Stack<Slot>,
    world: &World,
) -> Result<Went, Stop>
    ensures { Advances (machine.then_goes (spec.used answer.old world.now) (λ x w. machine.evals next (slot.second_of (out-CoreExpr node) (spec.Plain x) ∷ slots.old) w)) result (slot.mode_of gives.new at.new answer.new) slots.new world.now }
{
    let x = used(taken(answer), world)?;
    goes_on(next, node, Answer::plain(x), at, gives, slots, world)
}

/// The right operand is evaluated next, and the node awaits its answer behind what is on the left.
///
/// # Errors
///
/// `NoRoom` alone.
pub fn keeps_answer(
    next: Shared<CoreExpr>,
    node: Shared<CoreExpr>,
    at: &mut Shared<CoreExpr>,
    gives: &mut bool,
    answer: &mut Answer,
    slots: &mut Stack<Slot>,
    world: &World,
) -> Result<Went, Stop>
    ensures { Advances (machine.evals next (slot.second_of (out-CoreExpr node) answer.old ∷ slots.old) world.now) result (slot.mode_of gives.new at.new answer.new) slots.new world.now }
{
    goes_on(next, node, taken(answer), at, gives, slots, world)
}

/// Another operand is evaluated next, and the node awaits its answer alone.
///
/// # Errors
///
/// `NoRoom` alone.
#[inline(never)]
pub fn keeps_none(
    next: Shared<CoreExpr>,
    node: Shared<CoreExpr>,
    at: &mut Shared<CoreExpr>,
    gives: &mut bool,
    slots: &mut Stack<Slot>,
    world: &World,
) -> Result<Went, Stop>
    ensures { (a : spec.Answer) → Advances (machine.evals next (slot.second_of (out-CoreExpr node) spec.Nothing ∷ slots.old) world.now) result (slot.mode_of gives.new at.new a) slots.new world.now }
{
    goes_on(next, node, Answer::nothing(), at, gives, slots, world)
}
