// Service 2: a call of compiled code is entered, or a block of it.
ghost use Rattle.std.specs.Prelude.{◌≡◌, ◌+◌, IfOk};
ghost use Rattle.sc_interp_access.specs.Gives.{Gives};
ghost use Rattle.sc_meaning.specs.World as worlds;
ghost use Rattle.sc_services.specs.Blocks as spec;
ghost use Rattle.sc_services.specs.Entering as entering;
ghost use Rattle.sc_isa_image.specs.Lookups.{target_of};
ghost use Rattle.sc_meaning.specs.Versions as versions;
ghost use Rattle.sc_services.specs.declared.entering.Entered.TheVariants.{Block};

use crate::arguments::arguments;
use crate::blocks::{enter_block, set_slots, slots_of};
use crate::frames::{is_call_at, is_on_stack, is_open};
use sc_base::{Duplicate, Items, Key, NoMemory, Shared};
use sc_core_held::{Callee, Text, callee_of};
use sc_emu::Regs;
use sc_interp_access::Stop;
use sc_interp_world::{Born, Event, Frame, World};
use sc_isa_image::{Image, TextAt};
use sc_meaning_values::Value;

/// What service 2 comes to: a call is entered, or another block; or its test failed, and nothing was done.
#[derive(Clone, Copy, Debug, PartialEq, Eq)]
pub enum Entered {
    Call,
    Block,
    Refused,
}

/// The register that holds the number of a block.
const BLOCK: u8 = 6;

// The frame of a call of this text.
fn frame_at(at: &TextAt, t: &Text, world: &World) -> Result<Frame, NoMemory>
    ensures { IfOk result (λ f. f ≡ spec.frame_at at.now t.now world.now) }
{
    let alloc = world.alloc();
    let key = at.fun.copy(alloc)?;
    let home = t.core.get().name.copy(alloc)?;
    let Some(enter) = world.enters().checked_add(1) else {
        return Err(NoMemory)
    };
    Ok(Frame {
        key,
        text: t.number,
        home,
        form: t.form,
        enter,
        line: 0,
        blocks: Items::new(alloc),
        cost: at.frame.cost,
        start: at.start,
    })
}

// The event of a call.
fn enter_event(key: &Key, t: &Text, world: &World) -> Result<Event, NoMemory>
    ensures { IfOk result (λ e. e ≡ worlds.Enter key.now t.now.core.name) }
{
    let alloc = world.alloc();
    let key = key.copy(alloc)?;
    let home = t.core.get().name.copy(alloc)?;
    Ok(Event::enter(key, home))
}

// The frame of a call is pushed, and takes its room on the stack.
fn push_frame(at: &TextAt, t: &Text, used: u64, world: &mut World) -> Result<(), NoMemory>
    ensures { IfOk result (λ _. world.new ≡ worlds.pass (worlds.Push (spec.frame_at at.now t.now world.old)) (worlds.pass (worlds.Stack used) world.old)) }
{
    let frame = frame_at(at, t, world)?;
    world.use_stack(used)?;
    world.push(frame)
}

// A call is entered for which the stack has room.
fn enter_call(at: &TextAt, t: &Text, used: u64, vs: &[Value], world: &mut World) -> Result<(), Stop>
    requires { used ≡ world.old.used + at.now.frame.cost }
    ensures { Gives (spec.call_entered at.now t.now vs.now world.old) result world.new }
{
    push_frame(at, t, used, world)?;
    let ids = set_slots(slots_of(&at.frame, 0), vs, world)?;
    world.open_block(Born { block: 0, ids })?;
    let event = enter_event(&at.fun, t, world)?;
    world.happens(event)?;
    Ok(())
}

// The call that a text begins with is entered, where the stack has room for it.
fn enter_if_room(at: &TextAt, t: &Text, vs: &[Value], world: &mut World) -> Result<(), Stop>
    ensures { Gives (spec.call_entered_if_room at.now t.now vs.now world.old) result world.new }
{
    let Some(used) = world.used().checked_add(u64::from(at.frame.cost)) else {
        return Err(Stop::NoRoom)
    };
    if world.stack() < used {
        let key = at.fun.copy(world.alloc())?;
        return Err(Stop::StackFull(Shared::new(world.alloc(), key)?));
    }
    enter_call(at, t, used, vs, world)
}

// Whether the stub of a function leads to an address.
fn leads_to(image: &Image, key: &Key, start: u32) -> bool
    ensures { result ≡ entering.leads_to (target_of image.now key.now) start }
{
    match image.target(key) {
        None => false,
        Some(at) => at == start,
    }
}

// Whether the call of a service ends here with the third word of a text to which its function's stub leads.
fn is_first(regs: &Regs, image: &Image, at: &TextAt) -> bool
    ensures { result ≡ entering.is_first image.now regs.now at.now }
{
    u64::from(at.start) + 12 == u64::from(regs.pc()) && leads_to(image, &at.fun, at.start)
}

// A call is entered with these arguments.
fn enter_with(at: &TextAt, t: &Text, vs: &[Value], world: &mut World) -> Result<Entered, Stop>
    ensures { entering.EntersWith at.now t.now vs.now world.old result world.new }
{
    match enter_if_room(at, t, vs, world) {
        Ok(()) => Ok(Entered::Call),
        Err(stop) => Err(stop),
    }
}

// A call of this text is entered with the arguments that are there.
#[tactic(auto, using(crate::proofs::Slots::entered_with))]
fn enter_here(at: &TextAt, t: &Text, regs: &Regs, world: &mut World) -> Result<Entered, Stop>
    ensures { entering.EntersCall at.now t.now regs.now world.old result world.new }
{
    let Ok(count) = u32::try_from(slots_of(&at.frame, 0).len()) else {
        return Err(Stop::NoRoom);
    };
    match arguments(count, regs, world) {
        Ok(None) => Ok(Entered::Refused),
        Ok(Some(vs)) => enter_with(at, t, vs.as_slice(), world),
        Err(_) => Err(Stop::NoRoom),
    }
}

// The call of a function of a text begins, where the `ecall` begins it.
fn enter_first(
    t: &Text,
    at: &TextAt,
    regs: &Regs,
    image: &Image,
    world: &mut World,
) -> Result<Entered, Stop>
    ensures { entering.EntersFirst (entering.is_first image.now regs.now at.now) at.now t.now regs.now world.old result world.new }
{
    if is_first(regs, image, at) {
        enter_here(at, t, regs, world)
    } else {
        Ok(Entered::Refused)
    }
}

// The block of the parameters: a call begins.
fn enter_text(
    texts: &[Text],
    at: &TextAt,
    regs: &Regs,
    image: &Image,
    world: &mut World,
) -> Result<Entered, Stop>
    ensures { entering.EntersText (versions.callee_of texts.now at.now.fun) image.now at.now regs.now world.old result world.new }
{
    match callee_of(texts, &at.fun) {
        Callee::Missing => Ok(Entered::Refused),
        Callee::InLibrary(_) => Ok(Entered::Refused),
        Callee::InText(t, _) => enter_first(t, at, regs, image, world),
    }
}

// Whether a block of a text may be entered: it is in the text's table, the innermost call is of this text, and the block is not open.
fn may_enter(block: u32, at: &TextAt, world: &World) -> bool
    ensures { result ≡ entering.may_enter block at.now world.now.frames }
{
    let is_there = (block as usize) < at.frame.blocks.len();
    is_there && is_call_at(at.start, world) && !is_open(block, world)
}

// Another block of the innermost call.
fn enter_inner(block: u32, at: &TextAt, world: &mut World) -> Result<Entered, Stop>
    ensures { entering.Enters (entering.may_enter block at.now world.old.frames) (spec.block_entered block at.now.frame world.old) Block world.old result world.new }
{
    if !may_enter(block, at, world) {
        return Ok(Entered::Refused);
    }
    enter_block(block, &at.frame, world)?;
    Ok(Entered::Block)
}

/// Service 2, for the block in t1. Block 0 begins a call: the stack is tested, the parameters are born and set to the arguments,
/// and the call is entered. Another block's objects are born. The registers stand behind the `ecall`.
///
/// It is refused where the stack pointer is not at the low end of the stack that is used; for block 0 where the `ecall` is not the
/// third word of a text that its function's stub leads to, or an argument is outside the stack; else where the text is not the
/// innermost call's, or the block not in its table, or open.
///
/// # Errors
///
/// `StackFull` and `BirthLimit`.
pub fn enter(texts: &[Text], regs: &Regs, image: &Image, world: &mut World) -> Result<Entered, Stop>
    ensures { entering.EntersAt texts.now image.now regs.now world.old result world.new }
{
    if !is_on_stack(regs, world) {
        return Ok(Entered::Refused);
    }
    let Some(at) = image.text_at(regs.pc().wrapping_sub(4)) else {
        return Ok(Entered::Refused);
    };
    let block = regs.get(BLOCK).bits;
    if block == 0 {
        enter_text(texts, at, regs, image, world)
    } else {
        enter_inner(block, at, world)
    }
}
