// Arguments and results as words: eight in registers, the others on the stack.
ghost use Rattle.std.specs.Prelude.{◌≡◌, ◌+◌, ◌-◌, ◌*◌, ◌<◌, ◌≤◌, IfOk, IfSome, Some, length, true};
ghost use Rattle.sc_services.specs.Arguments as spec;
ghost use Rattle.sc_services.specs.Frames.{stack_top as top};
ghost use Rattle.sc_services.specs.Memory.{read_at};
ghost use Rattle.sc_services.specs.Passing.{StoresArguments, StoresOne};
ghost use Rattle.sc_services.specs.Writing.{StoresAt};

use crate::bytes::load_word;
use crate::frames::stack_top;
use crate::store::store_word;
use sc_base::{Items, NoMemory, Word};
use sc_emu::Regs;
use sc_interp_world::World;
use sc_meaning_values::{Answer, Held, Shape, Value};

/// The register of the first argument and of the result.
pub const FIRST: u8 = 10;

/// The number of arguments that registers hold.
pub const IN_REGISTERS: u32 = 8;

/// Where the stack ends.
const STACK_END: u64 = 0x2000_0000;

// Whether a word stands for a value, as far as tags tell.
fn stands(x: Word, v: &Value) -> bool
    ensures { result ≡ spec.stands x v.now }
{
    match &v.shape {
        Shape::Number(n) => x.tag == 0 && x.bits == *n,
        Shape::FunctionAt(_) => x.tag == Word::FUNCTION,
        Shape::Pointer(o, _) => if *o == 0 { x.tag != 0 } else { x.tag == *o },
    }
}

/// The value that a word stands for.
pub fn value_of(x: Word, world: &World) -> Result<Value, NoMemory>
    ensures { IfOk result (λ v. spec.IsValueOf world.now x v) }
{
    let v = world.value(x)?;
    if stands(x, &v) { Ok(v) } else { Err(NoMemory) }
}

// The word that stands for a value.
#[tactic(auto, using(crate::proofs::Reading::word_is))]
fn word_of(v: &Value, world: &World) -> Result<Word, NoMemory>
    ensures { IfOk result (λ x. spec.IsWordOf world.now v.now x) }
{
    let x = world.word(v)?;
    if stands(x, v) { Ok(x) } else { Err(NoMemory) }
}

// The address of an argument past those in registers.
fn address_of(k: u32, world: &World) -> Option<u32>
    ensures { IfSome result (λ at. (8 ≤ k) × (at ≡ top world.now + 4 * (k - 8))) }
{
    if k < IN_REGISTERS {
        return None;
    }
    let at = u64::from(stack_top(world)) + 4 * u64::from(k - IN_REGISTERS);
    match u32::try_from(at) {
        Ok(at) => Some(at),
        Err(_) => None,
    }
}

// An argument past those in registers, where it is inside the stack.
#[tactic(auto, using(crate::proofs::Reading::found_there))]
fn argument_beyond(k: u32, world: &World) -> Option<Word>
    ensures { IfSome result (λ x. read_at world.now (top world.now + 4 * (k - 8)) 4 ≡ Some x) }
{
    match address_of(k, world) {
        None => None,
        Some(at) => load_word(world, at),
    }
}

// The word of argument k, where it is there.
#[tactic(auto, using(crate::proofs::Reading::in_register, crate::proofs::Reading::on_stack))]
fn argument(k: u32, regs: &Regs, world: &World) -> Option<Word>
    ensures { IfSome result (λ x. spec.argument_word k regs.now world.now ≡ Some x) }
{
    if k < IN_REGISTERS {
        return Some(regs.get(FIRST + k as u8));
    }
    argument_beyond(k, world)
}

// Whether so many arguments are in registers or inside the stack.
fn are_inside(count: u32, world: &World) -> bool
    ensures { result ≡ spec.are_inside count world.now }
{
    let beyond = u64::from(count.saturating_sub(IN_REGISTERS));
    beyond == 0 || u64::from(stack_top(world)) + 4 * beyond <= STACK_END
}

/// So many arguments of the call that goes out: the first eight in a0 to a7, the others from the stack pointer up. `None` where one
/// of them is not inside the stack.
pub fn arguments(count: u32, regs: &Regs, world: &World) -> Result<Option<Items<Value>>, NoMemory>
    ensures { IfOk result (λ found. spec.GivesArguments count regs.now world.now found) }
{
    if !are_inside(count, world) {
        return Ok(None);
    }
    let mut values = Items::new(world.alloc());
    for k in 0..count {
        let Some(word) = argument(k, regs, world) else {
            return Err(NoMemory);
        };
        let v = value_of(word, world)?;
        values.push(v)?;
    }
    Ok(Some(values))
}

// A word goes to the place on the stack of an argument past those in registers.
fn put_beyond(k: u32, word: Word, world: &mut World) -> Result<(), NoMemory>
    ensures { IfOk result (λ _. (8 ≤ k) × StoresAt (top world.old + 4 * (k - 8)) 4 word world.old world.new) }
{
    let Some(at) = address_of(k, world) else {
        return Err(NoMemory);
    };
    match store_word(at, 4, word, world)? {
        Some(()) => Ok(()),
        None => Err(NoMemory),
    }
}

// Argument k goes to its register, or to its place on the stack.
#[tactic(auto, using(crate::proofs::Passing::in_register))]
fn put_argument(k: u32, v: &Value, regs: &mut Regs, world: &mut World) -> Result<(), NoMemory>
    ensures puts { IfOk result (λ _. spec.PutsOne world.old k v.now regs.old regs.new) }
    ensures stores { IfOk result (λ _. StoresOne k v.now world.old world.new) }
{
    let word = word_of(v, world)?;
    if k < IN_REGISTERS {
        regs.set(FIRST + k as u8, word);
        return Ok(());
    }
    put_beyond(k, word, world)?;
    Ok(())
}

/// The arguments of a call that goes to compiled code are put where it finds them.
pub fn put_arguments(vs: &[Value], regs: &mut Regs, world: &mut World) -> Result<(), NoMemory>
    ensures puts { IfOk result (λ _. spec.PutsArguments world.old 0 vs.now regs.old regs.new) }
    ensures stores { IfOk result (λ _. StoresArguments 0 vs.now world.old world.new) }
{
    for (i, v) in vs.iter().enumerate() {
        let Ok(k) = u32::try_from(i) else {
            return Err(NoMemory);
        };
        put_argument(k, v, regs, world)?;
    }
    Ok(())
}

/// The word of what a call gave: 0 where it gave no value.
pub fn result_word(a: &Answer, world: &World) -> Result<Word, NoMemory>
    ensures { IfOk result (λ x. spec.IsResult world.now a.now x) }
{
    match &a.held {
        Held::Plain(v) => word_of(v, world),
        Held::Place(_) => Ok(Word { bits: 0, tag: 0 }),
        Held::Part(_, _) => Ok(Word { bits: 0, tag: 0 }),
        Held::Nothing => Ok(Word { bits: 0, tag: 0 }),
    }
}
