// Calls are made, and left (ANSI 3.3.2.2, 3.7.1).
ghost use Rattle.std.specs.Prelude.{◌≡◌, ◌∷◌, ◌+◌, [], nat_lt, slice_index_or, IfOk};
ghost use Rattle.sc_meaning.specs.Calls as spec;
ghost use Rattle.sc_meaning.specs.Changes as changes;
ghost use Rattle.sc_meaning.specs.Expressions as expressions;
ghost use Rattle.sc_meaning.specs.Versions as versions;
ghost use Rattle.sc_meaning.specs.World as worlds;
ghost use Rattle.sc_lib.specs.Quiet.{IsQuiet};
ghost use Rattle.sc_core_held.specs.Found.{callee_found};
ghost use Rattle.sc_interp.specs.Steady as steady;
ghost use Rattle.sc_interp.specs.Steps.{Steps};

use crate::going::{Active, Caller, Going};
use sc_base::{Duplicate, Items, Key, NoMemory, Rule, Shared, Stack};
use sc_core::{Auto, Fun};
use sc_core_held::{Callee, Text, callee_of};
use sc_interp_access::Stop;
use sc_interp_expr::Env;
use sc_interp_machine::Doing;
use sc_interp_parts::{all_dead, call_breach, parameters, undefined_name, value_rule};
use sc_interp_world::{Born, Event, Frame, World};
use sc_lib::library_call;
use sc_meaning::LibFun;
use sc_meaning_values::{Answer, Exit, Shape, Value, Way};
use sc_types::CType;

// The line of an event, in the innermost call.
fn line_event(l: u32, world: &World) -> Result<Event, NoMemory>
    ensures { IfOk result (λ e. e ≡ changes.at_line world.now.frames l) }
{
    let alloc = world.alloc();
    match world.innermost() {
        Some(frame) => Ok(Event::at(frame.home.copy(alloc)?, l, frame.enter)),
        None => Err(NoMemory),
    }
}

/// A line is reached.
pub fn reach(l: u32, world: &mut World) -> Result<(), NoMemory>
    ensures { IfOk result (λ _. world.new ≡ steady.on_line l world.old) }
{
    let event = line_event(l, world)?;
    world.happens(event)
}

/// The answer of a call that is left in this way.
pub fn answer_of(way: Way) -> Answer
    ensures { result ≡ spec.answer_of way }
{
    match way.exit {
        Exit::Normal => Answer::nothing(),
        Exit::Broke => Answer::nothing(),
        Exit::Continued => Answer::nothing(),
        Exit::Jumped(_) => Answer::nothing(),
        Exit::Returned(a) => a,
    }
}

/// A call ends: its parameters die, the last one first, and its frame is left.
pub fn leave(active: &Active, world: &mut World) -> Result<(), NoMemory>
    ensures { IfOk result (λ _. world.new ≡ steady.without_call active.now.ids active.now.cost world.old) }
{
    let used = world.used().saturating_sub(u64::from(active.cost));
    all_dead(active.ids.as_slice(), world)?;
    world.pop()?;
    world.use_stack(used)?;
    world.happens(Event::leave())
}

// The frame of a call.
fn frame_of(key: &Key, t: &Text, world: &World) -> Result<Frame, NoMemory>
    ensures { IfOk result (λ f. f ≡ spec.frame_of key.now t.now world.now) }
{
    let alloc = world.alloc();
    let key = key.copy(alloc)?;
    let home = t.core.get().name.copy(alloc)?;
    let Some(enter) = world.enters().checked_add(1) else {
        return Err(NoMemory)
    };
    Ok(Frame {
        key,
        text: t.number,
        home,
        form: t.form,
        enter,
        line: 0,
        blocks: Items::new(alloc),
        cost: 0,
        start: 0,
    })
}

// The frame of a call is pushed, and takes its room on the stack.
fn push_frame(key: &Key, t: &Text, f: &Fun, used: u64, world: &mut World) -> Result<(), NoMemory>
    requires { used ≡ world.old.used + f.now.cost }
    ensures { IfOk result (λ _. world.new ≡ steady.with_frame key.now t.now f.now world.old) }
{
    let frame = frame_of(key, t, world)?;
    world.use_stack(used)?;
    world.push(frame)
}

// The objects that the parameters have.
fn parameters_of(f: &Fun) -> &[Auto]
    ensures { result.now ≡ slice_index_or f.now.blocks 0 [] }
{
    match f.blocks.as_slice().get(0) {
        Some(autos) => autos.as_slice(),
        None => &[],
    }
}

// The event of a call.
fn enter_event(key: &Key, t: &Text, world: &World) -> Result<Event, NoMemory>
    ensures { IfOk result (λ e. e ≡ worlds.Enter key.now t.now.core.name) }
{
    let alloc = world.alloc();
    let key = key.copy(alloc)?;
    let home = t.core.get().name.copy(alloc)?;
    Ok(Event::enter(key, home))
}

// The parameters are there, and the body begins behind the event of its call.
fn begins(
    key: &Key,
    t: &Text,
    f: &Shared<Fun>,
    callers: &Stack<Caller>,
    ids: Items<u32>,
    world: &mut World,
) -> Result<Going, Stop>
    ensures { Steps (steady.begins key.now t.now f.now callers.now ids world.old) result callers.now world.new }
{
    let alloc = world.alloc();
    let born = Born { block: 0, ids };
    let mut blocks = Items::new(alloc);
    blocks.push(born.copy(alloc)?)?;
    let active = Active {
        ids: born.copy(alloc)?.ids,
        cost: f.get().cost,
    };
    world.open_block(born)?;
    let event = enter_event(key, t, world)?;
    world.happens(event)?;
    let env = Env {
        text: t.copy(alloc)?,
        fun: f.share()?,
        blocks,
    };
    Ok(Going::Runs(
        Doing::Exec(f.get().body.share()?),
        Stack::new(alloc),
        env,
        active,
    ))
}

// A function of a text is called, where the stack has room for it.
fn enters(
    key: Key,
    t: &Text,
    f: &Shared<Fun>,
    vs: &[Value],
    callers: &Stack<Caller>,
    world: &mut World,
) -> Result<Going, Stop>
    ensures { Steps (steady.enters (nat_lt world.old.stack (world.old.used + f.now.cost)) key t.now f.now vs.now callers.now world.old) result callers.now world.new }
{
    let Some(used) = world.used().checked_add(u64::from(f.get().cost)) else {
        return Err(Stop::NoRoom)
    };
    if world.stack() < used {
        return Err(Stop::StackFull(Shared::new(world.alloc(), key)?));
    }
    push_frame(&key, t, f.get(), used, world)?;
    let ids = parameters(parameters_of(f.get()), vs, world)?;
    begins(&key, t, f, callers, ids, world)
}

// A function of the library is called.
fn library_next(
    f: LibFun,
    key: &Key,
    vs: &[Value],
    callers: &Stack<Caller>,
    world: &mut World,
) -> Result<Going, Stop>
    ensures { (h : versions.History) → IsQuiet h → Steps (steady.callee_next h key.now vs.now (versions.InLibrary f) callers.now world.old) result callers.now world.new }
{
    world.record_library(key)?;
    let a = library_call(f, key, vs, world)?;
    Ok(Going::Answers(a))
}

/// A call of a key goes on with what the key names.
///
/// # Errors
///
/// `U17` where it names nothing, `StackFull`, `BirthLimit`, and what a function of the library ends with.
pub fn key_next(
    texts: &[Text],
    key: Key,
    vs: &[Value],
    callers: &Stack<Caller>,
    world: &mut World,
) -> Result<Going, Stop>
    ensures { (h : versions.History) → IsQuiet h → Steps (steady.callee_next h key vs.now (versions.callee_of texts.now key) callers.now world.old) result callers.now world.new }
{
    match callee_of(texts, &key) {
        Callee::Missing => {
            let told = undefined_name(&key, world)?;
            Err(Stop::Undefined(told))
        }
        Callee::InLibrary(f) => library_next(f, &key, vs, callers, world),
        Callee::InText(t, f) => enters(key, t, f, vs, callers, world),
    }
}

/// A call of a key from compiled code: where the key names nothing, it breaks off as a call from interpreted code does.
///
/// # Errors
///
/// `U17` where it names nothing, `StackFull`, `BirthLimit`, and what a function of the library ends with.
pub fn key_called(
    texts: &[Text],
    key: Key,
    vs: &[Value],
    callers: &Stack<Caller>,
    world: &mut World,
) -> Result<Going, Stop>
    ensures { (h : versions.History) → IsQuiet h → Steps (steady.called_next h key vs.now (versions.callee_of texts.now key) callers.now world.old) result callers.now world.new }
{
    match callee_of(texts, &key) {
        Callee::Missing => {
            let v = Value::function(Shared::new(world.alloc(), key)?);
            let told = call_breach(&v, world, Rule::U17)?;
            Err(Stop::Undefined(told))
        }
        Callee::InLibrary(f) => library_next(f, &key, vs, callers, world),
        Callee::InText(t, f) => enters(key, t, f, vs, callers, world),
    }
}

// A call of a value that may be called.
fn value_next(
    texts: &[Text],
    v: Value,
    vs: &[Value],
    callers: &Stack<Caller>,
    world: &mut World,
) -> Result<Going, Stop>
    ensures { (h : versions.History) → IsQuiet h → Steps (steady.value_next h texts.now v vs.now callers.now world.old) result callers.now world.new }
{
    match v.shape {
        Shape::FunctionAt(key) => {
            let key = key.get().copy(world.alloc())?;
            key_next(texts, key, vs, callers, world)
        }
        Shape::Number(_) => Ok(Going::Answers(Answer::nothing())),
        Shape::Pointer(_, _) => Ok(Going::Answers(Answer::nothing())),
    }
}

/// A call is tested, and then made.
///
/// # Errors
///
/// `U12` where the value is no function of its type, `U17` where its key names nothing, `StackFull`, `BirthLimit`.
pub fn makes(
    texts: &[Text],
    t: &CType,
    v: Value,
    vs: &[Value],
    caller: Caller,
    callers: &mut Stack<Caller>,
    world: &mut World,
) -> Result<Going, Stop>
    ensures { (h : versions.History) → IsQuiet h → Steps (steady.made_unless (expressions.value_rule texts.now caller.env.text t.now v) h texts.now v vs.now (caller ∷ callers.old) world.old) result callers.new world.new }
{
    let rule = value_rule(world.alloc(), texts, &caller.env.text, t, &v);
    callers.push(caller)?;
    match rule? {
        Some(rule) => {
            let told = call_breach(&v, world, rule)?;
            Err(Stop::Undefined(told))
        }
        None => value_next(texts, v, vs, callers, world),
    }
}
