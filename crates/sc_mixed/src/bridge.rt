// From interpreted calls to compiled code, and back.
ghost use Rattle.std.specs.Prelude.{◌≡◌, IfOk};
ghost use Rattle.sc_emu.specs.declared.outcome.Crash.TheVariants as crashes;
ghost use Rattle.sc_meaning.specs.Versions as versions;
ghost use Rattle.sc_mixed.specs.Bridge as spec;
ghost use Rattle.sc_mixed.specs.Machine as machine;
ghost use Rattle.sc_mixed.specs.declared.broken.Break.TheVariants as broken;

use crate::broken::Break;
use crate::calls::{Calls, Lower, Next};
use sc_base::{Form, Items, Key, NoMemory, Stack, Word};
use sc_core_held::{Callee, Text, callee_of};
use sc_emu::{Crash, Regs};
use sc_interp::{Caller, Going};
use sc_interp_parts::value_rule;
use sc_interp_world::World;
use sc_isa_image::Image;
use sc_meaning_values::{Answer, Shape, Value};
use sc_services::{put_arguments, result_word, stack_top};
use sc_types::CType;
use std::alloc::Global;
use std::mem;

/// Where calls of compiled code from outside return to.
pub const RETURN: u32 = 0xf000;

/// The registers of a return address, of the stack pointer, and of a result.
const RA: u8 = 1;

const SP: u8 = 2;

const RESULT: u8 = 10;

/// Whether a key names a function of compiled code.
pub fn is_in_code(texts: &[Text], key: &Key) -> bool
    ensures { result ≡ spec.is_code (versions.callee_of texts.now key.now) }
{
    match callee_of(texts, key) {
        Callee::Missing => false,
        Callee::InLibrary(_) => false,
        Callee::InText(t, _) => match t.form {
            Form::Source => false,
            Form::Object => true,
        },
    }
}

/// Whether a call that breaks no rule goes to compiled code.
pub fn goes_to_code(
    alloc: Global,
    texts: &[Text],
    t: &CType,
    v: &Value,
    caller: &Caller,
) -> Result<bool, NoMemory>
    ensures { IfOk result (λ goes. goes ≡ spec.goes_to_code texts.now caller.now.env.text t.now v.now) }
{
    let Shape::FunctionAt(key) = &v.shape else {
        return Ok(false);
    };
    if !is_in_code(texts, key.get()) {
        return Ok(false);
    }
    let rule = value_rule(alloc, texts, &caller.env.text, t, v)?;
    Ok(rule.is_none())
}

// Compiled code is called, whose arguments are where it finds them.
fn enter_code(stub: u32, calls: &mut Calls, world: &World) -> Result<(), NoMemory>
    ensures { IfOk result (λ _. calls.new ≡ spec.calling_code stub world.now calls.old) }
{
    let sp = stack_top(world);
    let depth = world.frames().len();
    let callers = mem::replace(&mut calls.callers, Stack::new(world.alloc()));
    calls.lower.push(Lower::InBodies { callers, sp, depth })?;
    drop(mem::replace(&mut calls.given, None));
    calls.regs.set(SP, Word { bits: sp, tag: 0 });
    let back = Word {
        bits: RETURN,
        tag: 0,
    };
    calls.regs.set(RA, back);
    calls.regs.set_pc(stub);
    Ok(())
}

// Compiled code is called: its arguments are where it finds them, and the next instruction is that of the function's stub. The
// interpreted callers wait for it.
fn call_stub(
    key: &Key,
    vs: &[Value],
    image: &Image,
    calls: &mut Calls,
    world: &mut World,
) -> Result<Next, NoMemory>
    ensures { IfOk result (λ next. spec.Calling image.now key.now vs.now calls.old world.old next calls.new world.new) }
{
    let Some(stub) = image.value(key) else {
        return Err(NoMemory);
    };
    put_arguments(vs, &mut calls.regs, world)?;
    enter_code(stub, calls, world)?;
    Ok(Next::Executes)
}

/// Compiled code is called, which is told with the registers that it finds.
pub fn call_code(
    key: &Key,
    vs: &[Value],
    image: &Image,
    calls: &mut Calls,
    world: &mut World,
) -> Result<Next, NoMemory>
    ensures { IfOk result (λ next. spec.Calling image.now key.now vs.now calls.old world.old next calls.new world.new) }
{
    let next = call_stub(key, vs, image, calls, world)?;
    world.enter_code(key, calls.regs.pc(), calls.regs.words())?;
    Ok(next)
}

// A call of this value goes to compiled code.
fn call_value(
    v: &Value,
    vs: &[Value],
    image: &Image,
    calls: &mut Calls,
    world: &mut World,
) -> Result<Next, NoMemory>
    ensures { IfOk result (λ next. machine.CallsValue image.now v.now vs.now calls.old world.old next calls.new world.new) }
{
    match &v.shape {
        Shape::FunctionAt(key) => call_code(key.get(), vs, image, calls, world),
        Shape::Number(_) => Err(NoMemory),
        Shape::Pointer(_, _) => Err(NoMemory),
    }
}

// The caller of such a call waits for it.
fn call_from(
    v: &Value,
    vs: &[Value],
    caller: Caller,
    image: &Image,
    calls: &mut Calls,
    world: &mut World,
) -> Result<Next, NoMemory>
    ensures { IfOk result (λ next. machine.CallsValue image.now v.now vs.now (machine.with_caller caller calls.old) world.old next calls.new world.new) }
{
    calls.callers.push(caller)?;
    call_value(v, vs, image, calls, world)
}

/// The call that is to be made goes to compiled code.
pub fn make_in_code(
    going: Going,
    image: &Image,
    calls: &mut Calls,
    world: &mut World,
) -> Result<Next, NoMemory>
    ensures { IfOk result (λ next. machine.CallsCode image.now going calls.old world.old next calls.new world.new) }
{
    match going {
        Going::Makes(t, v, vs, caller) => {
            drop(t);
            call_from(&v, vs.as_slice(), caller, image, calls, world)
        }
        Going::Runs(doing, stmts, env, active) => {
            drop(doing);
            drop(stmts);
            drop(env);
            drop(active);
            Err(NoMemory)
        }
        Going::Answers(a) => {
            drop(a);
            Err(NoMemory)
        }
    }
}

// Compiled code goes on behind its call: all of its registers are as it called, but a0 holds the result.
fn resume_code(
    a: &Answer,
    regs: Regs,
    given: Option<Answer>,
    calls: &mut Calls,
    world: &mut World,
) -> Result<Next, NoMemory>
    ensures resumes { IfOk result (λ next. spec.Resumes world.old a.now regs given calls.old.lower calls.old next calls.new) }
    ensures stays { world.new ≡ world.old }
{
    let word = result_word(a, world)?;
    let back = regs.get(RA).bits;
    drop(mem::replace(&mut calls.regs, regs));
    drop(mem::replace(&mut calls.given, given));
    calls.regs.set(RESULT, word);
    calls.regs.set_pc(back);
    world.return_to_code(calls.regs.pc(), calls.regs.words())?;
    Ok(Next::Executes)
}

/// The answer of the last interpreted call goes to what waits below. Where nothing does it is the run's.
pub fn give_back(a: Answer, calls: &mut Calls, world: &mut World) -> Result<Next, NoMemory>
    ensures gives { IfOk result (λ next. spec.GivesBack world.old a calls.old.lower calls.old next calls.new) }
    ensures stays { world.new ≡ world.old }
{
    match calls.lower.pop() {
        None => Ok(Next::Steps(Going::Answers(a))),
        Some(Lower::InBodies { callers, .. }) => {
            drop(mem::replace(&mut calls.callers, callers));
            Ok(Next::Steps(Going::Answers(a)))
        }
        Some(Lower::InCode { regs, given }) => resume_code(&a, regs, given, calls, world),
    }
}

// A return at which the test fails.
fn unreturned() -> Break
    ensures { result ≡ broken.Crashed 0xf000 crashes.Service }
{
    Break::Crashed(RETURN, Crash::Service)
}

// Compiled code returns to interpreted calls: its call has left, and the stack is as it was.
fn return_to(
    a: Answer,
    callers: Stack<Caller>,
    sp: u32,
    depth: usize,
    calls: &mut Calls,
    world: &World,
) -> Result<Next, Break>
    ensures { spec.ReturnsTo (spec.is_as_called sp depth calls.old.regs world.now) a callers calls.old result calls.new }
{
    if calls.regs.get(SP).bits != sp || world.frames().len() != depth {
        drop(a);
        drop(callers);
        return Err(unreturned());
    }
    drop(mem::replace(&mut calls.callers, callers));
    Ok(Next::Steps(Going::Answers(a)))
}

/// Compiled code returns to where its caller stands.
pub fn return_code(calls: &mut Calls, world: &World) -> Result<Next, Break>
    ensures { spec.Returns calls.old.given calls.old.lower calls.old world.now result calls.new }
{
    let Some(a) = calls.given.take() else {
        return Err(unreturned());
    };
    match calls.lower.pop() {
        Some(Lower::InBodies { callers, sp, depth }) => {
            return_to(a, callers, sp, depth, calls, world)
        }
        other => {
            drop(other);
            drop(a);
            Err(unreturned())
        }
    }
}
