// The objects of a module, and the limits of objects.
ghost use Rattle.std.specs.Prelude.{codes};
ghost use Rattle.sc_build.specs.Compiled.{Compiles, IsLimit, Makes, MakesFast, MakesPlain};
ghost use Rattle.sc_build.specs.Saying.{HasLong, IsOfCore, IsOverBy, IsOverLong, IsShared};

use crate::building::{BuildFault, Built, Names};
use sc_base::{Bytes, Name, Refusal, Shared, X};
use sc_core::Core;
use sc_gen::{GenFault, generate};
use sc_object::Object;
use sc_opt::generate_fast;
use std::alloc::Global;

// A limit is passed on a line of the module's own file.
fn limit(alloc: Global, file: &str, word: &[u8], line: u32) -> BuildFault
    ensures { IsLimit file.now word.now line result }
{
    let Ok(word) = Bytes::from_slice(alloc, word) else {
        return BuildFault::NoMemory;
    };
    match Bytes::from_slice(alloc, file.as_bytes()) {
        Ok(file) => BuildFault::Refused(Refusal {
            kind: X::X10(word),
            file,
            line,
        }),
        Err(_) => BuildFault::NoMemory,
    }
}

// The text of the function with this name is too long.
fn long_text(alloc: Global, file: &str, core: &Core, name: &Name) -> BuildFault
    requires { HasLong core.now name.now }
    ensures { IsOverLong file.now core.now name.now result }
{
    match core.fun(name) {
        Some(f) => limit(alloc, file, b"text", f.line),
        None => unreachable!(),
    }
}

// Why a module lacks an object, by what its compiler says.
fn over(alloc: Global, file: &str, core: &Core, fault: GenFault) -> BuildFault
    requires { IsOfCore core.now fault }
    ensures { IsOverBy file.now core.now fault result }
{
    match fault {
        GenFault::Text(name) => long_text(alloc, file, core, &name),
        GenFault::Object => limit(alloc, file, b"object", 1),
        GenFault::NoMemory => BuildFault::NoMemory,
    }
}

/// The objects of a module: that of the plain compiler, and the faster one.
#[derive(Drop)]
pub struct Objects {
    pub plain: Shared<Object>,
    pub fast: Shared<Object>,
}

fn plain_object(alloc: Global, file: &str, core: &Core) -> Result<Shared<Object>, BuildFault>
    ensures { MakesPlain file.now core.now result }
{
    match generate(alloc, core) {
        Ok(object) => shared(alloc, object),
        Err(fault) => Err(over(alloc, file, core, fault)),
    }
}

fn fast_object(alloc: Global, file: &str, core: &Core) -> Result<Shared<Object>, BuildFault>
    ensures { MakesFast file.now core.now result }
{
    match generate_fast(alloc, core) {
        Ok(object) => shared(alloc, object),
        Err(fault) => Err(over(alloc, file, core, fault)),
    }
}

fn shared(alloc: Global, object: Object) -> Result<Shared<Object>, BuildFault>
    ensures { IsShared object result }
{
    match Shared::new(alloc, object) {
        Ok(object) => Ok(object),
        Err(_) => Err(BuildFault::NoMemory),
    }
}

// The objects of a module.
fn objects_of(alloc: Global, file: &str, core: &Core) -> Result<Objects, BuildFault>
    ensures { Makes file.now core.now result }
{
    let plain = match plain_object(alloc, file, core) {
        Ok(plain) => plain,
        Err(fault) => return Err(fault),
    };
    match fast_object(alloc, file, core) {
        Ok(fast) => Ok(Objects { plain, fast }),
        Err(fault) => {
            drop(plain);
            Err(fault)
        }
    }
}

/// A module with its names and its objects.
pub fn compiled(alloc: Global, file: &str, core: Core, names: Names) -> Result<Built, BuildFault>
    ensures { Compiles file.now core names result }
{
    match objects_of(alloc, file, &core) {
        Ok(objects) => {
            let Names {
                scopes,
                places,
                kept,
            } = names;
            let Objects { plain, fast } = objects;
            Ok(Built {
                core,
                scopes,
                places,
                kept,
                object: plain,
                fast,
            })
        }
        Err(fault) => {
            drop(names);
            drop(core);
            Err(fault)
        }
    }
}
