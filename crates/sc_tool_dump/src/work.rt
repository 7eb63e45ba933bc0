// How a unit runs as a program of one module.
use crate::checked::{core_of, unit_of};
use crate::output::put_line;
use sc_base::{Form, Items, NoMemory};
use sc_core::Core;
use sc_core_held::Text;
use sc_interp::{Finished, Limits, main_key, run};
use sc_interp_access::Ended;
use std::alloc::Global;

/// The exit status of a run, if it has one, and its units of work.
#[derive(Clone, Copy)]
struct Outcome {
    status: Option<u32>,
    work: u64,
}

/// How the program in a file ends, and its work.
pub fn put_work(
    rt: &HostRuntime,
    alloc: Global,
    text: &mut Vec<u8>,
    name: &str,
) -> Result<(), NoMemory> {
    text.extend_from_slice(name.as_bytes())?;
    let Some(core) = module_of(rt, alloc, name) else {
        return put_line(text, b" is no module");
    };
    let outcome = outcome_of(alloc, core)?;
    match outcome.status {
        Some(status) => put_number(alloc, text, b" exit ", u64::from(status))?,
        None => text.extend_from_slice(b" ends otherwise,")?,
    }
    put_number(alloc, text, b" work ", outcome.work)?;
    put_line(text, b"")
}

/// The module in a file, where its text is not refused.
fn module_of(rt: &HostRuntime, alloc: Global, name: &str) -> Option<Core> {
    match unit_of(rt, alloc, name) {
        Ok(unit) => {
            let module = core_of(alloc, name, &unit);
            drop(unit);
            module.ok()
        }
        Err(why) => {
            drop(why);
            None
        }
    }
}

/// What comes of the whole run of a module, without input.
fn outcome_of(alloc: Global, core: Core) -> Result<Outcome, NoMemory> {
    let finished = finished(alloc, core)?;
    let status = match &finished.ended {
        Ended::Exit(status) => Some(*status),
        _ => None,
    };
    let work = finished.world.work_done();
    drop(finished);
    Ok(Outcome { status, work })
}

fn finished(alloc: Global, core: Core) -> Result<Finished, NoMemory> {
    let text = Text::new(alloc, 0, Form::Source, core)?;
    let texts = vec![in alloc; text]?;
    let limits = Limits {
        stack: 4096,
        heap: 0,
        steps: 100_000,
    };
    let key = main_key(alloc)?;
    run(alloc, texts.as_slice(), &key, limits, Items::new(alloc))
}

fn put_number(
    alloc: Global,
    text: &mut Vec<u8>,
    words: &[u8],
    number: u64,
) -> Result<(), NoMemory> {
    let digits = number.to_string(alloc)?;
    text.extend_from_slice(words)?;
    text.extend_from_slice(digits.as_bytes())?;
    Ok(())
}
