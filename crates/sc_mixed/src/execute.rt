// An instruction over the world.
ghost use Rattle.std.specs.Prelude.{◌≡◌, ◌<◌, IfOk};
ghost use Rattle.sc_emu.specs.Operations.{load_size as bytes_of, loaded, sum};
ghost use Rattle.sc_emu.specs.Registers.{with_word};
ghost use Rattle.sc_mem.specs.Words.{IsSize};
ghost use Rattle.sc_services.specs.Memory.{read_at};
ghost use Rattle.sc_mixed.specs.Instructions as spec;

use sc_base::{NoMemory, Note, Word};
use sc_emu::{Crash, Need, Regs, Step, begin, load_size, pass, take};
use sc_interp_world::World;
use sc_isa::LoadOp;
use sc_isa_image::Image;
use sc_services::{load as load_at, store_word};

/// What an instruction came to: it was carried out; it asks for a service; it stands where calls from outside return to; there is no
/// next state, for this cause; or memory ran out. It is small, so that handing it on costs nothing.
#[derive(Clone, Copy)]
pub enum Went {
    On,
    Asks(u32),
    Returned,
    Stopped(Crash),
    NoRoom,
}

fn told(step: Step) -> Went
    ensures { result ≡ spec.told step }
{
    match step {
        Step::Went => Went::On,
        Step::Service(n) => Went::Asks(n),
        Step::AtReturn => Went::Returned,
        Step::Stopped(crash) => Went::Stopped(crash),
        Step::NoMemory => Went::NoRoom,
    }
}

#[tactic(auto, using(crate::proofs::Running::loads_none, crate::proofs::Running::loads_some))]
#[inline(always)]
fn load(op: LoadOp, rd: u8, at: u32, regs: &mut Regs, world: &World) -> Went
    requires { rd < 32 }
    ensures { spec.Loads result (read_at world.now at (bytes_of op)) (λ x. record { pc = sum regs.old.pc 4; words = with_word regs.old.words rd (loaded op x) }) regs.old regs.new world.now world.now }
{
    match load_at(at, load_size(op), world) {
        None => Went::Stopped(Crash::Outside),
        Some(word) => {
            take(regs, op, rd, word);
            Went::On
        }
    }
}

fn store(size: u8, at: u32, word: Word, regs: &mut Regs, world: &mut World) -> Went
    requires { IsSize size }
    ensures { spec.Stores result at size word regs.old regs.new world.old world.new }
{
    match store_word(at, size, word, world) {
        Ok(None) => Went::Stopped(Crash::Outside),
        Ok(Some(())) => {
            pass(regs);
            Went::On
        }
        Err(_) => Went::NoRoom,
    }
}

// The instruction at the next address is carried out.
#[tactic(auto, using(crate::proofs::Running::instruction_done, crate::proofs::Running::instruction_loads, crate::proofs::Running::instruction_stores))]
#[inline(always)]
fn execute(image: &Image, regs: &mut Regs, world: &mut World) -> Went
    ensures { spec.Instruction image.now regs.old world.old result regs.new world.new }
{
    match begin(regs, image) {
        Need::Done(step) => told(step),
        Need::Load { op, rd, at } => load(op, rd, at, regs, world),
        Need::Store { size, at, word } => store(size, at, word, regs, world),
    }
}

/// What instructions came to: how many were carried out, and what the last one came to.
#[derive(Clone, Copy)]
pub struct Executed {
    pub count: u64,
    pub went: Went,
}

// Instructions one after another, so many at most, up to the first that does not simply go on. The loop is tight, since nothing that
// they do halts a run.
#[tactic(auto, using(crate::proofs::Running::none_yet, crate::proofs::Running::one_more, crate::proofs::Running::went_all, crate::proofs::Running::went_last))]
fn execute_some(image: &Image, most: u64, regs: &mut Regs, world: &mut World) -> Executed
    ensures { spec.RanUpto image.now most regs.old world.old result.count result.went regs.new world.new }
{
    for k in 0..most {
        match execute(image, regs, world) {
            Went::On => (),
            other => return Executed {
                count: k + 1,
                went: other,
            },
        }
    }
    Executed {
        count: most,
        went: Went::On,
    }
}

// An instruction that was carried out is told, the asking `ecall` too.
fn tell(pc: u32, went: Went, image: &Image, world: &mut World) -> Result<(), NoMemory>
    ensures { world.new ≡ world.old }
{
    let Some(word) = image.word(pc) else {
        return Ok(());
    };
    match went {
        Went::On | Went::Asks(_) => world.record(Note::Exec { pc, word }),
        Went::Returned | Went::Stopped(_) | Went::NoRoom => Ok(()),
    }
}

// The next instruction alone, where somebody listens. Its note tells what it stores, too. It is the loop's, so that the instruction
// stands in the program once, in that loop.
fn execute_told(image: &Image, regs: &mut Regs, world: &mut World) -> Result<Went, NoMemory>
    ensures { IfOk result (λ went. spec.Instruction image.now regs.old world.old went regs.new world.new) }
{
    let pc = regs.pc();
    world.hush(true);
    let done = execute_some(image, 1, regs, world);
    world.hush(false);
    tell(pc, done.went, image, world)?;
    Ok(done.went)
}

// Instructions one after another, each of which is told.
#[tactic(auto, using(crate::proofs::Running::none_yet, crate::proofs::Running::one_more, crate::proofs::Running::went_all, crate::proofs::Running::went_last))]
fn execute_heard(
    image: &Image,
    most: u64,
    regs: &mut Regs,
    world: &mut World,
) -> Result<Executed, NoMemory>
    ensures { IfOk result (λ done. spec.RanUpto image.now most regs.old world.old done.count done.went regs.new world.new) }
{
    for k in 0..most {
        let went = execute_told(image, regs, world)?;
        match went {
            Went::On => (),
            other => return Ok(Executed {
                count: k + 1,
                went: other,
            }),
        }
    }
    Ok(Executed {
        count: most,
        went: Went::On,
    })
}

// The same in the loop that serves.
fn execute_either(
    image: &Image,
    most: u64,
    regs: &mut Regs,
    world: &mut World,
) -> Result<Executed, NoMemory>
    ensures { IfOk result (λ done. spec.RanUpto image.now most regs.old world.old done.count done.went regs.new world.new) }
{
    if world.is_recorded() {
        execute_heard(image, most, regs, world)
    } else {
        Ok(execute_some(image, most, regs, world))
    }
}

// How many of the instructions were carried out: the last one is not where it has no next state, or stands where calls from
// outside return to.
fn carried_out(done: Executed) -> u64 {
    match done.went {
        Went::On | Went::Asks(_) => done.count,
        Went::Returned | Went::Stopped(_) | Went::NoRoom => done.count.saturating_sub(1),
    }
}

/// Instructions one after another, so many at most, up to the first that does not simply go on. Where somebody listens each one that
/// was carried out is told.
///
/// # Errors
///
/// `NoMemory` where the record has no room. Nothing is known of the registers and the world then.
pub fn execute_counted(
    image: &Image,
    most: u64,
    regs: &mut Regs,
    world: &mut World,
) -> Result<Executed, NoMemory>
    ensures { IfOk result (λ done. spec.RanUpto image.now most regs.old world.old done.count done.went regs.new world.new) }
{
    let done = execute_either(image, most, regs, world)?;
    world.executed(carried_out(done));
    Ok(done)
}
