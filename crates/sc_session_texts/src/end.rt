// What is said of the end of a run.
ghost use Rattle.std.specs.Prelude.{◌≡◌, ◌++◌, Some, codes, decimal, IfOk};
ghost use Rattle.std.specs.Fmt.{signed_decimal};
ghost use Rattle.sc_base.specs.declared.integer.Int.TheVariants.{Int as PlainInt};
ghost use Rattle.sc_ops.specs.Numbers.{number_of};
ghost use Rattle.sc_session_texts.specs.Words as words;
ghost use Rattle.sc_session_texts.specs.Ends as spec;

use crate::breach::breach_text;
use crate::word::{put, put_key, put_signed};
use sc_base::{Int, Key, NoMemory};
use sc_interp_access::{Ended, number_of};
use sc_interp_world::World;
use std::alloc::Global;

fn exit_text(alloc: Global, status: u32) -> Result<Vec<u8>, NoMemory>
    ensures { IfOk result (λ text. text.items ≡ codes "exit " ++ signed_decimal (number_of PlainInt status)) }
{
    let mut text = Vec::new(alloc);
    put(&mut text, b"exit ")?;
    put_signed(&mut text, alloc, number_of(Int::Int, status))?;
    Ok(text)
}

fn full_text(alloc: Global, key: &Key) -> Result<Vec<u8>, NoMemory>
    ensures { IfOk result (λ text. text.items ≡ codes "stack full entering " ++ words.key_text key.now) }
{
    let mut text = Vec::new(alloc);
    put(&mut text, b"stack full entering ")?;
    put_key(&mut text, alloc, key)?;
    Ok(text)
}

fn paused_text(alloc: Global, turns: u64) -> Result<Vec<u8>, NoMemory>
    ensures { IfOk result (λ text. text.items ≡ codes "paused after " ++ decimal turns ++ codes " turns") }
{
    let digits = turns.to_string(alloc)?;
    let mut text = Vec::new(alloc);
    put(&mut text, b"paused after ")?;
    put(&mut text, digits.as_bytes())?;
    put(&mut text, b" turns")?;
    Ok(text)
}

/// Words as they are.
pub(crate) fn words(alloc: Global, bytes: &[u8]) -> Result<Vec<u8>, NoMemory>
    ensures { IfOk result (λ text. text.items ≡ bytes.now) }
{
    let text = Vec::from_slice(alloc, bytes)?;
    Ok(text)
}

/// How a run ended that was given so many turns.
///
/// # Errors
///
/// `NoMemory`, also where the run found no room.
pub fn stop_text(
    alloc: Global,
    turns: u64,
    ended: &Ended,
    world: &World,
) -> Result<Vec<u8>, NoMemory>
    ensures { IfOk result (λ text. Some text.items ≡ spec.stop_text turns ended.now world.now) }
{
    match ended {
        Ended::Exit(status) => exit_text(alloc, *status),
        Ended::Undefined(breach) => breach_text(alloc, breach.get(), world),
        Ended::StackFull(key) => full_text(alloc, key.get()),
        Ended::BirthLimit => words(alloc, b"birth limit"),
        Ended::OutOfSteps => paused_text(alloc, turns),
        Ended::NoRoom => Err(NoMemory),
    }
}

// A line that is not ended yet is ended before an answer.
fn line_end_after(bytes: &[u8]) -> &'static [u8]
    ensures { result.now ≡ spec.line_end_after bytes.now }
{
    match bytes.last() {
        None => b"",
        Some(b) => { if *b == 10 { b"" } else { b"\n" } }
    }
}

/// An answer's line behind bytes that a program wrote: it begins on a line of its own.
pub fn on_new_line(alloc: Global, bytes: &[u8], said: &[u8]) -> Result<Vec<u8>, NoMemory>
    ensures { IfOk result (λ text. text.items ≡ spec.on_new_line bytes.now said.now) }
{
    let mut text = Vec::from_slice(alloc, bytes)?;
    put(&mut text, line_end_after(bytes))?;
    put(&mut text, b"> ")?;
    put(&mut text, said)?;
    put(&mut text, b"\n")?;
    Ok(text)
}
