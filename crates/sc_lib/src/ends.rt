// Functions that end the run (ANSI 4.2.1.1, 4.10.4.3).
ghost use Rattle.std.specs.Prelude.{◌≡◌, [], IfOk, decimal};
ghost use Rattle.sc_meaning.specs.Functions as spec;
ghost use Rattle.sc_meaning.specs.Library as library;
ghost use Rattle.sc_meaning.specs.Outcomes as outcome;
ghost use Rattle.sc_interp_access.specs.Gives.{Gives};

use sc_base::{Int, Items, NoMemory};
use sc_interp_access::{Stop, number_of};
use sc_interp_world::World;
use sc_lib_bytes::{shown, text_at};
use sc_meaning_values::{Answer, Value};
use std::alloc::Global;

/// The status with which a failed assertion ends the run.
const ASSERTION: u32 = 134;

/// `exit`: all statements that have begun end.
///
/// # Errors
///
/// `Exit`, with the status.
pub fn exit(status: u32, world: &mut World) -> Result<Answer, Stop>
    ensures { Gives (spec.exit status world.old) result world.new }
{
    let begun = world.begun();
    if 4_294_967_295 < begun {
        return Err(Stop::NoRoom);
    }
    world.work(begun as u32)?;
    Err(Stop::Exit(status))
}

fn digits(alloc: Global, n: u64) -> Result<Vec<u8>, NoMemory>
    ensures { IfOk result (λ bytes. bytes.items ≡ decimal n) }
{
    let text = n.to_string(alloc)?;
    Ok(Vec::from_slice(alloc, text.as_bytes())?)
}

fn signed_text(alloc: Global, z: i64) -> Result<Vec<u8>, NoMemory>
    ensures { IfOk result (λ bytes. bytes.items ≡ spec.signed_text z) }
{
    let digits = digits(alloc, z.unsigned_abs())?;
    if 0 <= z {
        return Ok(digits);
    }
    let mut text = Vec::from_slice(alloc, b"-")?;
    text.extend_from_slice(digits.as_slice())?;
    Ok(text)
}

// What a failed assertion writes.
fn assertion_text(alloc: Global, text: &[u8], file: &[u8], line: i64) -> Result<Items<u8>, NoMemory>
    ensures { IfOk result (λ bytes. bytes ≡ spec.assertion_text text.now file.now line) }
{
    let line = signed_text(alloc, line)?;
    let mut bytes = Vec::from_slice(alloc, b"assertion failed: ")?;
    bytes.extend_from_slice(text)?;
    bytes.extend_from_slice(b", file ")?;
    bytes.extend_from_slice(file)?;
    bytes.extend_from_slice(b", line ")?;
    bytes.extend_from_slice(line.as_slice())?;
    bytes.push(b'\n')?;
    Ok(Items::from_vec(bytes))
}

// The text and the file of a failed assertion were read.
fn assertion_shown(text: &[u8], file: &[u8], line: i64, world: &mut World) -> Result<Answer, Stop>
    ensures { Gives (outcome.and_then (library.shown [] (spec.assertion_text text.now file.now line) world.old) (λ _ w. spec.exit 134 w)) result world.new }
{
    let bytes = assertion_text(world.alloc(), text, file, line)?;
    shown(bytes.as_slice(), world)?;
    exit(ASSERTION, world)
}

/// What `assert` calls where its expression is 0; in a run that has no further version.
///
/// # Errors
///
/// The rule that a load breaks, else `Exit`.
pub fn assert_fail(text: &Value, file: &Value, line: u32, world: &mut World) -> Result<Answer, Stop>
    ensures { Gives (spec.assert_fail [] text.now file.now line world.old) result world.new }
{
    let text = text_at(text, world)?;
    let file = text_at(file, world)?;
    assertion_shown(
        text.as_slice(),
        file.as_slice(),
        number_of(Int::Int, line),
        world,
    )
}
