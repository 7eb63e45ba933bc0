// What is said of a step of one instruction.
ghost use Rattle.std.specs.Prelude.{◌≡◌, IfOk};
ghost use Rattle.sc_session_forms.specs.Stepped as spec;

use crate::halts::{put_hexadecimal, said};
use sc_base::{Bytes, NoMemory};
use sc_core_held::Text;
use sc_mixed::MixedRun;
use sc_session_texts::{on_new_line, put};
use sc_words::StopAt;
use sc_world::{Halt, behind};
use std::alloc::Global;

/// A step of one instruction: what is told of it, what halted the run, if anything did, and the run.
#[derive(Drop)]
pub struct StepTold {
    pub text: Bytes,
    pub halt: Option<Halt>,
    pub run: MixedRun,
}

fn pc_text(alloc: Global, pc: u32) -> Result<Vec<u8>, NoMemory>
    ensures { IfOk result (λ text. text.items ≡ spec.pc_text pc) }
{
    let mut text = Vec::new(alloc);
    put(&mut text, b"pc ")?;
    put_hexadecimal(&mut text, pc)?;
    Ok(text)
}

// Where the run is behind a step.
fn step_said(
    alloc: Global,
    valued: bool,
    halt: Option<Halt>,
    run: &MixedRun,
) -> Result<Vec<u8>, NoMemory>
    ensures { IfOk result (λ text. spec.StepSays valued halt run.now text.items) }
{
    match halt {
        Some(halt) => said(alloc, valued, halt, run),
        None => pc_text(alloc, run.pc()),
    }
}

// The text on a step: so many bytes had been written before it.
fn step_text(
    alloc: Global,
    valued: bool,
    before: usize,
    halt: Option<Halt>,
    run: &MixedRun,
) -> Result<Bytes, NoMemory>
    ensures { IfOk result (λ text. spec.StepTells valued before halt run.now text) }
{
    let said = step_said(alloc, valued, halt, run)?;
    let shown = behind(run.output(), before);
    let text = on_new_line(alloc, shown, said.as_slice())?;
    Ok(Bytes::from_vec(text))
}

/// One step of a run of both forms, which is an evaluation or not, by one instruction: what the program wrote in it, and where it is then.
///
/// # Errors
///
/// `NoMemory`, also where the run found no room; the run is let go then.
pub fn step_gone(
    alloc: Global,
    texts: &[Text],
    stops: &[StopAt],
    valued: bool,
    mut run: MixedRun,
) -> Result<StepTold, NoMemory>
    ensures { IfOk result (λ g. spec.StepGone texts.now stops.now valued run g.halt g.run g.text) }
{
    let before = run.output().len();
    let halt = run.step_one(texts, stops);
    match step_text(alloc, valued, before, halt, &run) {
        Ok(text) => Ok(StepTold { text, halt, run }),
        Err(_) => {
            drop(run);
            Err(NoMemory)
        }
    }
}
