// Service 1: compiled code calls interpreted code, or the library.
ghost use Rattle.std.specs.Prelude.{◌≡◌, IfOk};
ghost use Rattle.sc_core_held.specs.Found.{callee_found};
ghost use Rattle.sc_meaning.specs.Versions.{callee_of as named};
ghost use Rattle.sc_services.specs.Arguments as counts;
ghost use Rattle.sc_services.specs.Calling as spec;

use crate::arguments::arguments;
use crate::frames::{is_in_code, is_on_stack};
use sc_base::{Duplicate, Form, Items, Key, NoMemory};
use sc_core::Fun;
use sc_core_held::{Callee, Text, callee_of};
use sc_emu::Regs;
use sc_interp_world::World;
use sc_isa_image::Image;
use sc_meaning::LibFun;
use sc_meaning_values::Value;

/// The register that holds the number of `printf`'s arguments.
const COUNT: u8 = 7;

/// What compiled code calls: a function, with its arguments; or its test failed.
#[derive(Drop)]
pub enum Asked {
    Call(Key, Items<Value>),
    Refused,
}

// How many arguments a function of the library takes.
fn arity(f: LibFun, regs: &Regs) -> u32
    ensures { result ≡ counts.arity f regs.now }
{
    match f {
        LibFun::Printf => regs.get(COUNT).bits,
        LibFun::Getchar | LibFun::Rand => 0,
        LibFun::Calloc
        | LibFun::Realloc
        | LibFun::Strcpy
        | LibFun::Strcat
        | LibFun::Strcmp
        | LibFun::Strchr
        | LibFun::Strrchr => 2,
        LibFun::Memcpy
        | LibFun::Memmove
        | LibFun::Memset
        | LibFun::Memcmp
        | LibFun::Strncpy
        | LibFun::Strncmp
        | LibFun::AssertFail => 3,
        LibFun::Putchar
        | LibFun::Puts
        | LibFun::Malloc
        | LibFun::Free
        | LibFun::Strlen
        | LibFun::Atoi
        | LibFun::Abs
        | LibFun::Srand
        | LibFun::Exit
        | LibFun::Isalnum
        | LibFun::Isalpha
        | LibFun::Iscntrl
        | LibFun::Isdigit
        | LibFun::Isgraph
        | LibFun::Islower
        | LibFun::Isprint
        | LibFun::Ispunct
        | LibFun::Isspace
        | LibFun::Isupper
        | LibFun::Isxdigit
        | LibFun::Tolower
        | LibFun::Toupper => 1,
    }
}

// How many parameters a function has.
fn parameter_count(f: &Fun) -> Result<u32, NoMemory>
    ensures { IfOk result (λ n. n ≡ counts.parameter_count f.now) }
{
    let Some(autos) = f.blocks.as_slice().get(0) else {
        return Ok(0);
    };
    match u32::try_from(autos.as_slice().len()) {
        Ok(n) => Ok(n),
        Err(_) => Err(NoMemory),
    }
}

// How many arguments go to what is called: none to what is missing, which has no answer; `None` for compiled code, which is not called so.
fn argument_count(callee: Callee, regs: &Regs) -> Result<Option<u32>, NoMemory>
    ensures { IfOk result (λ count. count ≡ counts.argument_count regs.now (callee_found callee.entry)) }
{
    match callee {
        Callee::Missing => Ok(Some(0)),
        Callee::InLibrary(f) => Ok(Some(arity(f, regs))),
        Callee::InText(t, f) => match t.form {
            Form::Source => {
                let n = parameter_count(f.get())?;
                Ok(Some(n))
            }
            Form::Object => Ok(None),
        },
    }
}

// A function is called with so many arguments.
fn called_with(key: &Key, count: u32, regs: &Regs, world: &World) -> Result<Asked, NoMemory>
    ensures { IfOk result (λ asked. spec.CallsWith key.now count regs.now world.now asked) }
{
    match arguments(count, regs, world)? {
        None => Ok(Asked::Refused),
        Some(values) => {
            let key = key.copy(world.alloc())?;
            Ok(Asked::Call(key, values))
        }
    }
}

// A function is called, where it may be.
fn called_by(key: &Key, texts: &[Text], regs: &Regs, world: &World) -> Result<Asked, NoMemory>
    ensures { IfOk result (λ asked. spec.CallsBy key.now (counts.argument_count regs.now (named texts.now key.now)) regs.now world.now asked) }
{
    match argument_count(callee_of(texts, key), regs)? {
        None => Ok(Asked::Refused),
        Some(count) => called_with(key, count, regs, world),
    }
}

/// Service 1: what is called. The registers stand behind the `ecall`, which is the second word of the stub of the function.
///
/// It is refused where no function's stub is there, or a compiled function's; where the innermost call is not of compiled code; where the stack pointer is not at the low
/// end of the stack that is used; and where an argument is outside the stack.
pub fn called(texts: &[Text], regs: &Regs, image: &Image, world: &World) -> Result<Asked, NoMemory>
    ensures { IfOk result (λ asked. spec.AsksFor image.now texts.now regs.now world.now asked) }
{
    let Some(key) = image.key_of(regs.pc().wrapping_sub(8)) else {
        return Ok(Asked::Refused);
    };
    if is_in_code(world) && is_on_stack(regs, world) {
        called_by(key, texts, regs, world)
    } else {
        Ok(Asked::Refused)
    }
}
