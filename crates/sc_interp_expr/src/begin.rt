// An expression begins: a name or a constant is answered at once, of another one the first part is evaluated (ANSI 3.3).
ghost use Rattle.std.specs.Prelude.{◌≡◌, false, slice_get, IfOk};
ghost use Rattle.sc_core.specs.declared.expression.CoreExpr.{out-CoreExpr};
ghost use Rattle.sc_meaning.specs.Expressions as spec;
ghost use Rattle.sc_meaning.specs.Values as value;
ghost use Rattle.sc_meaning.specs.World as worlds;
ghost use Rattle.sc_interp_machine.specs.Machine as machine;
ghost use Rattle.sc_interp_machine.specs.Slots.{mode_of};
ghost use Rattle.sc_program.specs.declared.storage.StaticId.TheVariants as id;
ghost use Rattle.sc_interp_expr.specs.Advances.{Advances, Answers};

use crate::env::Env;
use crate::next::{Went, descends, ends_at, ends_plain, put};
use sc_base::{Duplicate, Key, NoMemory, Shared, Stack};
use sc_core::CoreExpr;
use sc_core_held::Text;
use sc_interp_access::Stop;
use sc_interp_machine::Slot;
use sc_interp_parts::{automatic_in, literal_of, static_place};
use sc_interp_world::{Born, World};
use sc_meaning_values::{Answer, Value};

/// An expression begins, which is work where it is no conversion.
pub fn begun(e: &CoreExpr, world: &mut World) -> Result<(), NoMemory>
    ensures { IfOk result (λ _. world.new ≡ spec.begun (out-CoreExpr e.now) world.old) }
{
    match e {
        CoreExpr::Convert(_, _, _) => Ok(()),
        _ => world.tick(),
    }
}

// A constant.
fn number(n: u32, answer: &mut Answer, world: &mut World) -> Result<(), Stop>
    ensures { Answers (spec.plain (value.Number n) world.old) result answer.new world.new }
{
    ends_plain(Value::number(n), answer, world)
}

// A literal.
#[inline(never)]
fn literal(t: &Text, i: u32, answer: &mut Answer, world: &mut World) -> Result<(), Stop>
    ensures { Answers (spec.at_place (spec.literal_of t.now (slice_get t.now.core.literals i) world.old) world.old) result answer.new world.new }
{
    let p = literal_of(t, i, world);
    ends_at(p, answer, world)
}

// A parameter, or an automatic object.
fn automatic(
    blocks: &[Born],
    b: u32,
    i: u32,
    answer: &mut Answer,
    world: &mut World,
) -> Result<(), Stop>
    ensures { Answers (spec.at_place (spec.automatic_in blocks.now b i) world.old) result answer.new world.new }
{
    ends_at(automatic_in(blocks, b, i), answer, world)
}

// An object of static storage duration.
#[inline(never)]
fn named(key: &Key, answer: &mut Answer, world: &mut World) -> Result<(), Stop>
    ensures { Answers (spec.static_at key.now (worlds.named_in world.old.names (id.Named key.now)) world.old) result answer.new world.new }
{
    let a = static_place(key, world)?;
    put(answer, a);
    Ok(())
}

// A function.
#[inline(never)]
fn function(key: &Key, answer: &mut Answer, world: &mut World) -> Result<(), Stop>
    ensures { Answers (spec.at_place (value.FunctionAt key.now) world.old) result answer.new world.new }
{
    let key = key.copy(world.alloc())?;
    let key = Shared::new(world.alloc(), key)?;
    ends_at(Value::function(key), answer, world)
}

/// An expression has begun.
///
/// # Errors
///
/// `U17` where it names an object that has no definition.
pub fn expr_next(
    env: &Env,
    at: &mut Shared<CoreExpr>,
    gives: &mut bool,
    answer: &mut Answer,
    slots: &mut Stack<Slot>,
    world: &mut World,
) -> Result<Went, Stop>
    requires { gives.old ≡ false }
    ensures { Advances (machine.expr_next env.now (out-CoreExpr at.old) slots.old world.old) result (mode_of gives.new at.new answer.new) slots.new world.new }
{
    match at.get() {
        CoreExpr::Number(_, _, n) => {
            number(*n, answer, world)?;
            *gives = true;
            Ok(Went::On)
        }
        CoreExpr::Literal(_, _, i) => {
            literal(&env.text, *i, answer, world)?;
            *gives = true;
            Ok(Went::On)
        }
        CoreExpr::Automatic(_, _, b, i) => {
            automatic(env.blocks.as_slice(), *b, *i, answer, world)?;
            *gives = true;
            Ok(Went::On)
        }
        CoreExpr::Static(_, _, key) => {
            named(key, answer, world)?;
            *gives = true;
            Ok(Went::On)
        }
        CoreExpr::Function(_, _, key) => {
            function(key, answer, world)?;
            *gives = true;
            Ok(Went::On)
        }
        CoreExpr::Call(_, _, a, _) => descends(a.share()?, at, slots, world),
        CoreExpr::Index(_, _, _, a, _) => descends(a.share()?, at, slots, world),
        CoreExpr::Member(_, _, _, a) => descends(a.share()?, at, slots, world),
        CoreExpr::Arrow(_, _, _, a) => descends(a.share()?, at, slots, world),
        CoreExpr::Step(_, _, _, _, a) => descends(a.share()?, at, slots, world),
        CoreExpr::Address(_, _, a) => descends(a.share()?, at, slots, world),
        CoreExpr::Indirection(_, _, a) => descends(a.share()?, at, slots, world),
        CoreExpr::Unary(_, _, _, a) => descends(a.share()?, at, slots, world),
        CoreExpr::Cast(_, _, a) => descends(a.share()?, at, slots, world),
        CoreExpr::Binary(_, _, _, a, _) => descends(a.share()?, at, slots, world),
        CoreExpr::Offset(_, _, _, _, a, _) => descends(a.share()?, at, slots, world),
        CoreExpr::Difference(_, _, _, a, _) => descends(a.share()?, at, slots, world),
        CoreExpr::Compare(_, _, _, a, _) => descends(a.share()?, at, slots, world),
        CoreExpr::And(_, _, a, _) => descends(a.share()?, at, slots, world),
        CoreExpr::Or(_, _, a, _) => descends(a.share()?, at, slots, world),
        CoreExpr::Conditional(_, _, a, _, _) => descends(a.share()?, at, slots, world),
        CoreExpr::Assign(_, _, a, _) => descends(a.share()?, at, slots, world),
        CoreExpr::AssignStructure(_, _, _, a, _) => descends(a.share()?, at, slots, world),
        CoreExpr::Compound(_, _, _, _, a, _) => descends(a.share()?, at, slots, world),
        CoreExpr::CompoundOffset(_, _, _, _, a, _) => descends(a.share()?, at, slots, world),
        CoreExpr::Comma(_, _, a, _) => descends(a.share()?, at, slots, world),
        CoreExpr::Convert(_, _, a) => descends(a.share()?, at, slots, world),
    }
}
