// The file of a module's object beside the object that is kept.
ghost use Rattle.std.specs.Prelude.{◌≡◌, ◌≤◌, ℕ, Option, true, IfOk};
ghost use Rattle.sc_outside.specs.Causes.{Rose};
ghost use Rattle.sc_outside.specs.Stored.{FileMap, FindsTold};
ghost use Rattle.sc_outside.specs.declared.files.FileGot.TheVariants as got;
ghost use Rattle.sc_words.specs.Parts.{is_module_name};
ghost use Rattle.sc_session.specs.Compiling.{object_file as file_of_object};
ghost use Rattle.sc_session.specs.Swapping as spec;

use crate::choice::Choice;
use crate::compiling::object_file;
use sc_base::{Bytes, Name, NoMemory};
use sc_elf_read::version;
use sc_elf_write::write_object;
use sc_object::Object;
use sc_outside::{FileGot, Files};
use sc_session_forms::difference;
use sc_words::Denied;
use std::alloc::Global;

/// What the file of a module's object is: the kept object; or why it is not.
#[derive(Drop)]
pub enum Compared {
    Same,
    Denied(Denied),
    NoMemory,
}

// Whether bytes are an object's file of the first version.
fn is_first(alloc: Global, bytes: &[u8]) -> Result<bool, NoMemory>
    ensures { IfOk result (λ first. spec.IsFirst bytes.now first) }
{
    match version(alloc, bytes) {
        Ok(Some(v)) => Ok(v == 1),
        Ok(None) => Ok(false),
        Err(e) => Err(e),
    }
}

// Bytes that differ from the object's file at a place.
fn not_ours(alloc: Global, at: usize, bytes: &[u8]) -> Compared
    ensures { spec.NotOursSaid bytes.now at result }
{
    let Ok(at) = u32::try_from(at) else {
        return Compared::NoMemory;
    };
    match is_first(alloc, bytes) {
        Ok(first) => Compared::Denied(Denied::NotOurs(at, first)),
        Err(_) => Compared::NoMemory,
    }
}

// Bytes beside an object's file.
fn compared_bytes(alloc: Global, bytes: &[u8], object: &Object) -> Compared
    ensures { spec.ComparesBytes bytes.now object.now result }
{
    let Ok(kept) = write_object(alloc, object) else {
        return Compared::NoMemory;
    };
    match difference(bytes, kept.as_slice()) {
        None => Compared::Same,
        Some(at) => not_ours(alloc, at, bytes),
    }
}

fn copied(alloc: Global, file: &str) -> Result<Bytes, NoMemory>
    ensures { IfOk result (λ bytes. bytes ≡ file.now) }
{
    Bytes::from_slice(alloc, file.as_bytes())
}

// What was read beside an object's file.
fn compared_got(alloc: Global, file: &str, read: FileGot, object: &Object) -> Compared
    ensures { (held : Option FileMap) (before now : ℕ) → FindsTold held file.now read → (read ≡ got.Failed → Rose before now) → spec.Compares held file.now object.now before now result }
{
    match read {
        FileGot::Bytes(bytes) => compared_bytes(alloc, bytes.as_slice(), object),
        FileGot::Missing => match copied(alloc, file) {
            Ok(file) => Compared::Denied(Denied::NoFile(file)),
            Err(_) => Compared::NoMemory,
        },
        FileGot::TooLong => match copied(alloc, file) {
            Ok(file) => Compared::Denied(Denied::TooLong(file)),
            Err(_) => Compared::NoMemory,
        },
        FileGot::Failed => match copied(alloc, file) {
            Ok(file) => Compared::Denied(Denied::FileFault(file)),
            Err(_) => Compared::NoMemory,
        },
        FileGot::NoMemory => Compared::NoMemory,
    }
}

/// The file of that object of a module beside the object that is kept.
pub fn compare_file<F: Files>(
    alloc: Global,
    name: &Name,
    choice: Choice,
    object: &Object,
    files: &mut F,
) -> Compared
    requires { is_module_name name.now ≡ true }
    ensures compares { spec.Compares (F.held files.old) (file_of_object name.now choice) object.now (F.faults files.old) (F.faults files.new) result }
    ensures later { F.faults files.old ≤ F.faults files.new }
    ensures held { F.held files.new ≡ F.held files.old }
{
    match object_file(alloc, name, choice) {
        Ok(file) => {
            let read = files.read(file.as_str());
            compared_got(alloc, file.as_str(), read, object)
        }
        Err(_) => Compared::NoMemory,
    }
}
