// The object of a module is written to its file.
ghost use Rattle.std.specs.Prelude.{◌≡◌, ◌≤◌, ◌++◌, true, IfOk, codes, string_bytes};
ghost use Rattle.sc_words.specs.Parts.{is_module_name};
ghost use Rattle.sc_session.specs.Compiling as spec;

use crate::choice::Choice;
use crate::input::name_text;
use sc_base::{Bytes, Name, NoMemory};
use sc_elf_write::write_object;
use sc_object::Object;
use sc_outside::{FilePut, Files};
use sc_words::{Answer, Denied};
use std::alloc::Global;

// The file of the plain object, and that of the faster one.
fn plain_file(alloc: Global, text: &str) -> Result<String, NoMemory>
    ensures { IfOk result (λ file. string_bytes file ≡ text.now ++ codes ".o") }
{
    match format!(in alloc; "{text}.o") {
        Ok(file) => Ok(file),
        Err(_) => Err(NoMemory),
    }
}

fn fast_file(alloc: Global, text: &str) -> Result<String, NoMemory>
    ensures { IfOk result (λ file. string_bytes file ≡ text.now ++ codes ".fast.o") }
{
    match format!(in alloc; "{text}.fast.o") {
        Ok(file) => Ok(file),
        Err(_) => Err(NoMemory),
    }
}

/// The file of that object of a module.
pub fn object_file(alloc: Global, name: &Name, choice: Choice) -> Result<String, NoMemory>
    requires { is_module_name name.now ≡ true }
    ensures { IfOk result (λ file. string_bytes file ≡ spec.object_file name.now choice) }
{
    match choice {
        Choice::Plain => plain_file(alloc, name_text(name)),
        Choice::Fast => fast_file(alloc, name_text(name)),
    }
}

fn compiled(name: Name, choice: Choice) -> Answer
    ensures { result ≡ spec.compiled_said name choice }
{
    match choice {
        Choice::Plain => Answer::Compiled(name),
        Choice::Fast => Answer::CompiledFast(name),
    }
}

// The answer behind a write of the file.
fn written(alloc: Global, name: Name, choice: Choice, file: &str, put: FilePut) -> Answer
    ensures { spec.Tells name choice file.now put result }
{
    match put {
        FilePut::Done => compiled(name, choice),
        FilePut::Failed => {
            drop(name);
            match Bytes::from_slice(alloc, file.as_bytes()) {
                Ok(file) => Answer::Refused(Denied::FileFault(file)),
                Err(_) => Answer::NoMemory,
            }
        }
        FilePut::NoMemory => {
            drop(name);
            Answer::NoMemory
        }
    }
}

// Writes an object to a file.
fn put_object<F: Files>(
    alloc: Global,
    name: Name,
    choice: Choice,
    file: &str,
    object: &Object,
    files: &mut F,
) -> Answer
    requires { file.now ≡ spec.object_file name choice }
    ensures writes { spec.Writes (F.held files.old) (F.faults files.old) name choice object.now result (F.held files.new) (F.faults files.new) }
    ensures later { F.faults files.old ≤ F.faults files.new }
{
    match write_object(alloc, object) {
        Ok(bytes) => {
            let put = files.write(file, bytes.as_slice());
            written(alloc, name, choice, file, put)
        }
        Err(_) => {
            drop(name);
            Answer::NoMemory
        }
    }
}

/// Writes that object of the module with this name to its file.
pub fn write_compiled<F: Files>(
    alloc: Global,
    name: Name,
    choice: Choice,
    object: &Object,
    files: &mut F,
) -> Answer
    requires { is_module_name name ≡ true }
    ensures writes { spec.Writes (F.held files.old) (F.faults files.old) name choice object.now result (F.held files.new) (F.faults files.new) }
    ensures later { F.faults files.old ≤ F.faults files.new }
{
    match object_file(alloc, &name, choice) {
        Ok(file) => put_object(alloc, name, choice, file.as_str(), object, files),
        Err(_) => {
            drop(name);
            Answer::NoMemory
        }
    }
}
