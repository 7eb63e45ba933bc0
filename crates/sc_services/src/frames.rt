// The innermost frame as compiled code sees it.
ghost use Rattle.std.specs.Prelude.{◌≡◌, ◌-◌};
ghost use Rattle.sc_services.specs.Frames as spec;

use sc_base::Form;
use sc_emu::Regs;
use sc_interp_world::{Born, Frame, World};

/// Where the stack ends.
const STACK_END: u32 = 0x2000_0000;

/// The number of the register that holds the low end of the innermost frame.
const SP: u8 = 2;

/// The low end of the stack that is used.
pub fn stack_top(world: &World) -> u32
    ensures { result ≡ spec.stack_top world.now }
{
    u64::from(STACK_END).saturating_sub(world.used()) as u32
}

/// Whether the stack pointer is at the low end of the stack that is used.
pub fn is_on_stack(regs: &Regs, world: &World) -> bool
    ensures { result ≡ spec.is_on_stack regs.now world.now }
{
    regs.get(SP).bits == stack_top(world)
}

// Whether a form is that of compiled code.
fn is_object(form: Form) -> bool
    ensures { result ≡ spec.is_object form }
{
    match form {
        Form::Source => false,
        Form::Object => true,
    }
}

/// Whether the innermost call is of compiled code.
pub fn is_in_code(world: &World) -> bool
    ensures { result ≡ spec.is_in_code world.now.frames }
{
    match world.innermost() {
        None => false,
        Some(frame) => is_object(frame.form),
    }
}

/// Whether the innermost call is of compiled code, and of the text that begins at this address.
pub fn is_call_at(start: u32, world: &World) -> bool
    ensures { result ≡ spec.is_call_at start world.now.frames }
{
    match world.innermost() {
        None => false,
        Some(frame) => is_object(frame.form) && frame.start == start,
    }
}

// Whether a block is one of those that were entered.
fn is_among(block: u32, blocks: &[Born]) -> bool
    ensures { result ≡ spec.is_open block blocks.now }
{
    for born in blocks {
        if born.block == block {
            return true;
        }
    }
    false
}

fn is_open_in(block: u32, frame: &Frame) -> bool
    ensures { result ≡ spec.is_open block frame.now.blocks }
{
    is_among(block, frame.blocks.as_slice())
}

/// Whether a block is open in the innermost call.
pub fn is_open(block: u32, world: &World) -> bool
    ensures { result ≡ spec.is_open_here block world.now.frames }
{
    match world.innermost() {
        None => false,
        Some(frame) => is_open_in(block, frame),
    }
}
