// The files of modules' texts.
ghost use Rattle.std.specs.Prelude.{◌≡◌, ℕ, List, Option, true, Err, IfOk, string_bytes};
ghost use Rattle.sc_build.specs.Builds.{Answers};
ghost use Rattle.sc_outside.specs.Stored.{FileMap};
ghost use Rattle.sc_words.specs.Parts.{is_module_name};
ghost use Rattle.sc_session.specs.Loading as loading;
ghost use Rattle.sc_session.specs.Transcript as spec;

use crate::input::name_text;
use sc_base::{Bytes, Name, NoMemory};
use sc_build::BuildFault;
use sc_words::Denied;
use std::alloc::Global;

/// The file of a module.
pub fn file_of(alloc: Global, name: &Name) -> Result<String, NoMemory>
    requires { is_module_name name.now ≡ true }
    ensures { IfOk result (λ file. string_bytes file ≡ loading.file_of name.now) }
{
    let text = name_text(name);
    match format!(in alloc; "{text}.c") {
        Ok(file) => Ok(file),
        Err(_) => Err(NoMemory),
    }
}

/// Why there is no module; none where no memory was left.
pub fn unbuilt(alloc: Global, file: &str, fault: BuildFault) -> Option<Denied>
    ensures { (held : Option FileMap) (before now : ℕ) (name : List ℕ) → Answers held before now file.now name (Err fault) → spec.Unbuilt held before now file.now name result }
{
    match fault {
        BuildFault::Refused(refusal) => Some(Denied::Translation(refusal)),
        BuildFault::Missing => match Bytes::from_slice(alloc, file.as_bytes()) {
            Ok(file) => Some(Denied::NoFile(file)),
            Err(_) => None,
        },
        BuildFault::TooLong => match Bytes::from_slice(alloc, file.as_bytes()) {
            Ok(file) => Some(Denied::TooLong(file)),
            Err(_) => None,
        },
        BuildFault::File(name) => Some(Denied::FileFault(name)),
        BuildFault::NoMemory => None,
    }
}
