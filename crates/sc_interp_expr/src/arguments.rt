// The arguments of a call, from left to right, and the call as it goes out (ANSI 3.3.2.2).
ghost use Rattle.std.specs.Prelude.{◌≡◌, drop, length, IfOk};
ghost use Rattle.sc_core.specs.declared.expression.CoreExpr.{out-CoreExpr};
ghost use Rattle.sc_meaning.specs.World as worlds;
ghost use Rattle.sc_interp_machine.specs.Machine as machine;
ghost use Rattle.sc_interp_machine.specs.Rests.{arguments_in};
ghost use Rattle.sc_interp_machine.specs.Slots.{called_type, item_of};
ghost use Rattle.sc_interp_machine.specs.declared.pending.Item.TheVariants as kind;
ghost use Rattle.sc_interp_machine.specs.declared.pending.Mode.TheVariants as mode;
ghost use Rattle.sc_interp_machine.specs.declared.slot.Stage.TheVariants as stage;
ghost use Rattle.sc_interp_expr.specs.Advances.{Advances, CallsFrom};

use crate::next::{Went, taken};
use sc_base::{Duplicate, Items, NoMemory, Shared, Stack};
use sc_core::{CoreExpr, type_of};
use sc_interp_access::Stop;
use sc_interp_machine::{Arguments, Slot, Stage};
use sc_interp_parts::used;
use sc_interp_world::World;
use sc_meaning_values::{Answer, Value};
use sc_types::CType;
use std::alloc::Global;
use std::mem;

// The type of what a call calls.
fn type_called(e: &CoreExpr) -> &CType
    ensures { result.now ≡ called_type e.now (out-CoreExpr e.now) }
{
    match e {
        CoreExpr::Call(_, _, f, _) => type_of(f.get()),
        _ => type_of(e),
    }
}

// Behind these arguments the next one is evaluated, or the call goes out, which is work.
fn sends(
    node: Shared<CoreExpr>,
    v: Value,
    vs: Items<Value>,
    at: &mut Shared<CoreExpr>,
    slots: &mut Stack<Slot>,
    world: &mut World,
) -> Result<Went, Stop>
    ensures { Advances (machine.args_next (called_type node (out-CoreExpr node)) v (drop (length vs) (arguments_in (out-CoreExpr node))) vs slots.old world.old) result (mode.Eval at.new) slots.new world.new }
{
    let mut rest = Arguments::from(node.share()?, vs.len());
    match rest.next()? {
        None => {
            world.goes_out()?;
            slots.push(Slot {
                node,
                stage: Stage::Argument(v, vs),
            })?;
            Ok(Went::Calls)
        }
        Some(e) => {
            slots.push(Slot {
                node,
                stage: Stage::Argument(v, vs),
            })?;
            drop(mem::replace(at, e));
            Ok(Went::On)
        }
    }
}

/// The function that is called is there.
///
/// # Errors
///
/// `U13` where a call gave no value.
#[inline(never)]
pub fn callee_next(
    node: Shared<CoreExpr>,
    at: &mut Shared<CoreExpr>,
    answer: &mut Answer,
    slots: &mut Stack<Slot>,
    world: &mut World,
) -> Result<Went, Stop>
    ensures { Advances (machine.item_next (kind.Callee (called_type node (out-CoreExpr node)) (arguments_in (out-CoreExpr node))) answer.old slots.old world.old) result (mode.Eval at.new) slots.new world.new }
{
    let v = used(taken(answer), world)?;
    let none = Items::new(world.alloc());
    sends(node, v, none, at, slots, world)
}

/// One more argument is there.
///
/// # Errors
///
/// `U13` where a call gave no value.
#[inline(never)]
#[tactic(auto, using(crate::proofs::Seams::one_more))]
pub fn argument_next(
    node: Shared<CoreExpr>,
    v: Value,
    vs: Items<Value>,
    at: &mut Shared<CoreExpr>,
    answer: &mut Answer,
    slots: &mut Stack<Slot>,
    world: &mut World,
) -> Result<Went, Stop>
    ensures { Advances (machine.item_next (item_of node (out-CoreExpr node) (stage.Argument v vs)) answer.old slots.old world.old) result (mode.Eval at.new) slots.new world.new }
{
    let y = used(taken(answer), world)?;
    let mut vs = vs;
    vs.push(y)?;
    sends(node, v, vs, at, slots, world)
}

/// A call that goes out: the type of what is called, its value, and the arguments.
#[derive(Drop)]
pub struct Call {
    pub of: CType,
    pub callee: Value,
    pub arguments: Items<Value>,
}

/// The call that the item on top sends out, which awaits the call's answer from now on.
///
/// # Errors
///
/// `NoMemory` alone.
pub fn call_out(slots: &mut Stack<Slot>, alloc: Global) -> Result<Call, NoMemory>
    ensures { IfOk result (λ c. (step : machine.Advanced) (w : worlds.World) → CallsFrom step slots.old w → step ≡ machine.CallsOut c.of c.callee c.arguments slots.new w) }
{
    let Some(Slot { node, stage }) = slots.pop() else {
        return Err(NoMemory)
    };
    let Stage::Argument(callee, arguments) = stage else {
        return Err(NoMemory)
    };
    let of = type_called(node.get()).copy(alloc)?;
    slots.push(Slot {
        node,
        stage: Stage::Back,
    })?;
    Ok(Call {
        of,
        callee,
        arguments,
    })
}
