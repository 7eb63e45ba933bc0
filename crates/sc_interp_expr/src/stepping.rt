// One step on an expression, in place (ANSI 3.3).
ghost use Rattle.std.specs.Prelude.{◌≡◌, ◌∷◌, true, false};
ghost use Rattle.sc_core.specs.declared.expression.CoreExpr.{out-CoreExpr};
ghost use Rattle.sc_meaning.specs.Accesses as access;
ghost use Rattle.sc_meaning.specs.Expressions as spec;
ghost use Rattle.sc_meaning.specs.Values as value;
ghost use Rattle.sc_interp_machine.specs.Machine as machine;
ghost use Rattle.sc_interp_machine.specs.Slots.{first_of, mode_of, second_of};
ghost use Rattle.sc_interp_expr.specs.Advances.{Advances, Goes};

use crate::arguments::{argument_next, callee_next};
use crate::begin::{begun, expr_next};
use crate::env::Env;
use crate::next::{Went, ends_plain, finishes, keeps_answer, keeps_none, keeps_value, taken};
use crate::pairs::{
    assigned, binary, comparison, compound, distance, index, moved, offset, structure,
};
use crate::singles::{
    address_of, arrow, back, cast_to, converts, increment, indirection, member, truth_of, unary_of,
};
use sc_base::{Shared, Stack};
use sc_core::{CoreExpr, type_of};
use sc_interp_access::{Stop, tested};
use sc_interp_machine::{Focus, Slot, Stage};
use sc_interp_parts::used;
use sc_interp_world::World;
use sc_meaning_values::{Answer, Value};
use sc_types::CType;

// The left side of `&&` is there (3.3.13).
#[inline(never)]
fn and_next(
    s: &CType,
    b: &Shared<CoreExpr>,
    node: &Shared<CoreExpr>,
    at: &mut Shared<CoreExpr>,
    gives: &mut bool,
    answer: &mut Answer,
    slots: &mut Stack<Slot>,
    world: &mut World,
) -> Result<Went, Stop>
    requires { gives.old ≡ true }
    ensures { Advances (machine.then_goes (spec.used answer.old world.old) (λ x w. machine.then_goes (access.tested s.now x w) (λ yes w. machine.whether yes (machine.evals b.now (second_of (out-CoreExpr node.now) spec.Nothing ∷ slots.old)) (λ w. machine.gives slots.old (spec.plain (value.Number 0) w)) w))) result (mode_of gives.new at.new answer.new) slots.new world.new }
{
    let x = used(taken(answer), world)?;
    if tested(s, &x, world)? {
        keeps_none(b.share()?, node.share()?, at, gives, slots, world)
    } else {
        ends_plain(Value::number(0), answer, world)?;
        Ok(Went::On)
    }
}

// The left side of `||` is there (3.3.14).
#[inline(never)]
fn or_next(
    s: &CType,
    b: &Shared<CoreExpr>,
    node: &Shared<CoreExpr>,
    at: &mut Shared<CoreExpr>,
    gives: &mut bool,
    answer: &mut Answer,
    slots: &mut Stack<Slot>,
    world: &mut World,
) -> Result<Went, Stop>
    requires { gives.old ≡ true }
    ensures { Advances (machine.then_goes (spec.used answer.old world.old) (λ x w. machine.then_goes (access.tested s.now x w) (λ yes w. machine.whether yes (λ w. machine.gives slots.old (spec.plain (value.Number 1) w)) (machine.evals b.now (second_of (out-CoreExpr node.now) spec.Nothing ∷ slots.old)) w))) result (mode_of gives.new at.new answer.new) slots.new world.new }
{
    let x = used(taken(answer), world)?;
    if tested(s, &x, world)? {
        ends_plain(Value::number(1), answer, world)?;
        Ok(Went::On)
    } else {
        keeps_none(b.share()?, node.share()?, at, gives, slots, world)
    }
}

// The condition of `?:` is there (3.3.15).
#[inline(never)]
fn choice_next(
    t: &CType,
    b: &Shared<CoreExpr>,
    c: &Shared<CoreExpr>,
    node: &Shared<CoreExpr>,
    at: &mut Shared<CoreExpr>,
    gives: &mut bool,
    answer: &mut Answer,
    slots: &mut Stack<Slot>,
    world: &World,
) -> Result<Went, Stop>
    ensures { Advances (machine.then_goes (spec.used answer.old world.now) (λ x w. machine.then_goes (access.tested t.now x w) (λ yes w. machine.whether yes (machine.evals b.now (second_of (out-CoreExpr node.now) spec.Nothing ∷ slots.old)) (machine.evals c.now (second_of (out-CoreExpr node.now) spec.Nothing ∷ slots.old)) w))) result (mode_of gives.new at.new answer.new) slots.new world.now }
{
    let x = used(taken(answer), world)?;
    if tested(t, &x, world)? {
        keeps_none(b.share()?, node.share()?, at, gives, slots, world)
    } else {
        keeps_none(c.share()?, node.share()?, at, gives, slots, world)
    }
}

// The answer of the first operand, or of the only one, is there.
fn first_next(
    node: Shared<CoreExpr>,
    at: &mut Shared<CoreExpr>,
    gives: &mut bool,
    answer: &mut Answer,
    slots: &mut Stack<Slot>,
    world: &mut World,
) -> Result<Went, Stop>
    requires { gives.old ≡ true }
    ensures { Advances (machine.item_next (first_of (out-CoreExpr node)) answer.old slots.old world.old) result (mode_of gives.new at.new answer.new) slots.new world.new }
{
    match node.get() {
        CoreExpr::Convert(_, t, a) => {
            converts(type_of(a.get()), t, answer, world)?;
            Ok(Went::On)
        }
        CoreExpr::Index(_, _, _, _, b) => keeps_value(
            b.share()?,
            node,
            at,
            gives,
            answer,
            slots,
            world,
        ),
        CoreExpr::Binary(_, _, _, _, b) => keeps_value(
            b.share()?,
            node,
            at,
            gives,
            answer,
            slots,
            world,
        ),
        CoreExpr::Offset(_, _, _, _, _, b) => keeps_value(
            b.share()?,
            node,
            at,
            gives,
            answer,
            slots,
            world,
        ),
        CoreExpr::Difference(_, _, _, _, b) => keeps_value(
            b.share()?,
            node,
            at,
            gives,
            answer,
            slots,
            world,
        ),
        CoreExpr::Compare(_, _, _, _, b) => keeps_value(
            b.share()?,
            node,
            at,
            gives,
            answer,
            slots,
            world,
        ),
        CoreExpr::Assign(_, _, _, b) => keeps_answer(
            b.share()?,
            node,
            at,
            gives,
            answer,
            slots,
            world,
        ),
        CoreExpr::AssignStructure(_, _, _, _, b) => keeps_answer(
            b.share()?,
            node,
            at,
            gives,
            answer,
            slots,
            world,
        ),
        CoreExpr::Compound(_, _, _, _, _, b) => keeps_answer(
            b.share()?,
            node,
            at,
            gives,
            answer,
            slots,
            world,
        ),
        CoreExpr::CompoundOffset(_, _, _, _, _, b) => keeps_answer(
            b.share()?,
            node,
            at,
            gives,
            answer,
            slots,
            world,
        ),
        CoreExpr::Comma(_, _, _, b) => keeps_none(b.share()?, node, at, gives, slots, world),
        CoreExpr::Call(_, _, _, _) => {
            *gives = false;
            callee_next(node, at, answer, slots, world)
        }
        CoreExpr::And(_, _, a, b) => and_next(
            type_of(a.get()),
            b,
            &node,
            at,
            gives,
            answer,
            slots,
            world,
        ),
        CoreExpr::Or(_, _, a, b) => or_next(
            type_of(a.get()),
            b,
            &node,
            at,
            gives,
            answer,
            slots,
            world,
        ),
        CoreExpr::Conditional(_, _, a, b, c) => choice_next(
            type_of(a.get()),
            b,
            c,
            &node,
            at,
            gives,
            answer,
            slots,
            world,
        ),
        CoreExpr::Member(_, _, n, _) => {
            member(*n, answer, world)?;
            Ok(Went::On)
        }
        CoreExpr::Arrow(_, _, n, _) => {
            arrow(*n, answer, world)?;
            Ok(Went::On)
        }
        CoreExpr::Step(_, _, s, n, a) => {
            increment(*s, *n, type_of(a.get()), answer, world)?;
            Ok(Went::On)
        }
        CoreExpr::Address(_, _, _) => {
            address_of(answer, world)?;
            Ok(Went::On)
        }
        CoreExpr::Indirection(_, _, _) => {
            indirection(answer, world)?;
            Ok(Went::On)
        }
        CoreExpr::Unary(_, _, o, a) => {
            unary_of(*o, type_of(a.get()), answer, world)?;
            Ok(Went::On)
        }
        CoreExpr::Cast(_, t, _) => {
            cast_to(t, answer, world)?;
            Ok(Went::On)
        }
        _ => {
            finishes(answer, world)?;
            Ok(Went::On)
        }
    }
}

// The answer of the last operand is there.
fn second_next(
    e: &CoreExpr,
    held: Answer,
    answer: &mut Answer,
    slots: &Stack<Slot>,
    world: &mut World,
) -> Result<(), Stop>
    ensures { Goes (machine.item_next (second_of (out-CoreExpr e.now) held) answer.old slots.now world.old) result answer.new slots.now world.new }
{
    match e {
        CoreExpr::Index(_, _, n, a, b) => index(
            *n,
            type_of(a.get()),
            type_of(b.get()),
            held,
            answer,
            world,
        ),
        CoreExpr::Binary(_, _, o, a, b) => binary(
            *o,
            type_of(a.get()),
            type_of(b.get()),
            held,
            answer,
            world,
        ),
        CoreExpr::Offset(_, _, o, n, a, b) => offset(
            *o,
            *n,
            type_of(a.get()),
            type_of(b.get()),
            held,
            answer,
            world,
        ),
        CoreExpr::Difference(_, _, n, _, _) => distance(*n, held, answer, world),
        CoreExpr::Compare(_, _, o, _, _) => comparison(*o, held, answer, world),
        CoreExpr::Assign(_, _, a, _) => assigned(type_of(a.get()), held, answer, world),
        CoreExpr::AssignStructure(_, _, n, _, _) => structure(*n, held, answer, world),
        CoreExpr::Compound(_, _, o, i, a, b) => compound(
            *o,
            *i,
            type_of(a.get()),
            type_of(b.get()),
            held,
            answer,
            world,
        ),
        CoreExpr::CompoundOffset(_, _, o, n, a, b) => moved(
            *o,
            *n,
            type_of(a.get()),
            type_of(b.get()),
            held,
            answer,
            world,
        ),
        CoreExpr::And(_, _, _, b) => {
            drop(held);
            truth_of(type_of(b.get()), answer, world)
        }
        CoreExpr::Or(_, _, _, b) => {
            drop(held);
            truth_of(type_of(b.get()), answer, world)
        }
        _ => {
            drop(held);
            finishes(answer, world)
        }
    }
}

// What is done with the answer by the innermost item, which is taken off.
#[inline(always)]
fn item_next(
    slot: Slot,
    at: &mut Shared<CoreExpr>,
    gives: &mut bool,
    answer: &mut Answer,
    slots: &mut Stack<Slot>,
    world: &mut World,
) -> Result<Went, Stop>
    requires { gives.old ≡ true }
    ensures { Advances (machine.item_next slot answer.old slots.old world.old) result (mode_of gives.new at.new answer.new) slots.new world.new }
{
    let Slot { node, stage } = slot;
    match stage {
        Stage::First => first_next(node, at, gives, answer, slots, world),
        Stage::Second(held) => {
            second_next(node.get(), held, answer, slots, world)?;
            drop(node);
            Ok(Went::On)
        }
        Stage::Argument(v, vs) => {
            *gives = false;
            argument_next(node, v, vs, at, answer, slots, world)
        }
        Stage::Back => {
            drop(node);
            back(answer, world)?;
            Ok(Went::On)
        }
    }
}

// What is done with the answer.
#[inline(always)]
fn give(
    at: &mut Shared<CoreExpr>,
    gives: &mut bool,
    answer: &mut Answer,
    slots: &mut Stack<Slot>,
    world: &mut World,
) -> Result<Went, Stop>
    requires { gives.old ≡ true }
    ensures { Advances (machine.answer_next slots.old answer.old world.old) result (mode_of gives.new at.new answer.new) slots.new world.new }
{
    match slots.pop() {
        None => Ok(Went::Ends),
        Some(slot) => item_next(slot, at, gives, answer, slots, world),
    }
}

// An expression begins.
#[inline(always)]
fn eval(
    env: &Env,
    at: &mut Shared<CoreExpr>,
    gives: &mut bool,
    answer: &mut Answer,
    slots: &mut Stack<Slot>,
    world: &mut World,
) -> Result<Went, Stop>
    requires { gives.old ≡ false }
    ensures { Advances (machine.expr_next env.now (out-CoreExpr at.old) slots.old (spec.begun (out-CoreExpr at.old) world.old)) result (mode_of gives.new at.new answer.new) slots.new world.new }
{
    begun(at.get(), world)?;
    expr_next(env, at, gives, answer, slots, world)
}

/// One step on an expression, in place: exactly the machine's.
///
/// # Errors
///
/// How the run ends in it.
pub fn step(
    env: &Env,
    focus: &mut Focus,
    slots: &mut Stack<Slot>,
    world: &mut World,
) -> Result<Went, Stop>
    ensures { Advances (machine.advance env.now focus.old slots.old world.old) result focus.new slots.new world.new }
{
    if focus.gives {
        give(
            &mut focus.at,
            &mut focus.gives,
            &mut focus.answer,
            slots,
            world,
        )
    } else {
        eval(
            env,
            &mut focus.at,
            &mut focus.gives,
            &mut focus.answer,
            slots,
            world,
        )
    }
}
