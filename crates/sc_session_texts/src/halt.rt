// What is said of where a run halted.
ghost use Rattle.std.specs.Prelude.{◌≡◌, ◌++◌, Some, codes, decimal, IfOk};
ghost use Rattle.sc_session_texts.specs.Ends as spec;
ghost use Rattle.sc_session_texts.specs.Words.{key_text};

use crate::end::{stop_text, words};
use crate::word::{put, put_decimal, put_key};
use sc_base::NoMemory;
use sc_interp_access::Ended;
use sc_interp_world::{Frame, World};
use std::alloc::Global;

fn entered(alloc: Global, f: &Frame) -> Result<Vec<u8>, NoMemory>
    ensures { IfOk result (λ text. text.items ≡ codes "entered " ++ key_text f.now.key) }
{
    let mut text = Vec::new(alloc);
    put(&mut text, b"entered ")?;
    put_key(&mut text, alloc, &f.key)?;
    Ok(text)
}

fn at_line(alloc: Global, f: &Frame) -> Result<Vec<u8>, NoMemory>
    ensures { IfOk result (λ text. text.items ≡ codes "at " ++ f.now.home ++ codes ":" ++ decimal f.now.line) }
{
    let mut text = Vec::new(alloc);
    put(&mut text, b"at ")?;
    put(&mut text, f.home.as_slice())?;
    put(&mut text, b":")?;
    put_decimal(&mut text, alloc, f.line)?;
    Ok(text)
}

/// The function that was entered.
pub fn entered_text(alloc: Global, world: &World) -> Result<Vec<u8>, NoMemory>
    ensures { IfOk result (λ text. text.items ≡ spec.entered_text world.now.frames) }
{
    match world.innermost() {
        Some(f) => entered(alloc, f),
        None => words(alloc, b"entered "),
    }
}

/// The line that was reached.
pub fn line_text(alloc: Global, world: &World) -> Result<Vec<u8>, NoMemory>
    ensures { IfOk result (λ text. text.items ≡ spec.line_text world.now.frames) }
{
    match world.innermost() {
        Some(f) => at_line(alloc, f),
        None => words(alloc, b"at "),
    }
}

/// How a run ended.
///
/// # Errors
///
/// `NoMemory`, also where the run found no room or has not ended.
pub fn end_text(alloc: Global, ended: &Ended, world: &World) -> Result<Vec<u8>, NoMemory>
    ensures { IfOk result (λ text. Some text.items ≡ spec.end_text ended.now world.now) }
{
    match ended {
        Ended::OutOfSteps => Err(NoMemory),
        Ended::NoRoom => Err(NoMemory),
        Ended::Exit(_) => stop_text(alloc, 0, ended, world),
        Ended::Undefined(_) => stop_text(alloc, 0, ended, world),
        Ended::StackFull(_) => stop_text(alloc, 0, ended, world),
        Ended::BirthLimit => stop_text(alloc, 0, ended, world),
    }
}
