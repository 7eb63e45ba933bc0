// The input of a run.
ghost use Rattle.std.specs.Prelude.{◌≡◌, ◌≤◌, Some, true, IfOk};
ghost use Rattle.sc_words.specs.Commands.{IsFile};
ghost use Rattle.sc_words.specs.Parts.{is_file_name, is_module_name};
ghost use Rattle.sc_session.specs.Going as spec;

use sc_base::{Bytes, Items, Name, NoMemory};
use sc_outside::{FileGot, Files};
use sc_words::Denied;
use std::alloc::Global;

/// The bytes of a file, or why there are none.
#[derive(Drop)]
pub enum Input {
    Bytes(Items<u8>),
    Denied(Denied),
    NoMemory,
}

/// A file's name as text: its bytes are letters, digits, underscores, periods and hyphens.
pub fn file_text(name: &Name) -> &str
    requires { is_file_name name.now ≡ true }
    ensures { result.now ≡ name.now }
{
    match std::str::from_utf8(name.as_slice()) {
        Ok(text) => text,
        Err(_) => unreachable!(),
    }
}

/// A module's name as text: its bytes are letters, digits and underscores.
pub fn name_text(name: &Name) -> &str
    requires { is_module_name name.now ≡ true }
    ensures { result.now ≡ name.now }
{
    match std::str::from_utf8(name.as_slice()) {
        Ok(text) => text,
        Err(_) => unreachable!(),
    }
}

fn copied(alloc: Global, name: &Name) -> Result<Bytes, NoMemory>
    ensures { IfOk result (λ bytes. bytes ≡ name.now) }
{
    Bytes::from_slice(alloc, name.as_slice())
}

// The input that is read from a file.
fn read_input<F: Files>(alloc: Global, name: &Name, files: &mut F) -> Input
    requires { is_file_name name.now ≡ true }
    ensures finds { spec.Finds (F.held files.old) (Some name.now) (F.faults files.old) (F.faults files.new) result }
    ensures later { F.faults files.old ≤ F.faults files.new }
    ensures held { F.held files.new ≡ F.held files.old }
{
    match files.read(file_text(name)) {
        FileGot::Bytes(bytes) => Input::Bytes(Items::from_vec(bytes)),
        FileGot::Missing => match copied(alloc, name) {
            Ok(file) => Input::Denied(Denied::NoFile(file)),
            Err(_) => Input::NoMemory,
        },
        FileGot::TooLong => match copied(alloc, name) {
            Ok(file) => Input::Denied(Denied::TooLong(file)),
            Err(_) => Input::NoMemory,
        },
        FileGot::Failed => match copied(alloc, name) {
            Ok(file) => Input::Denied(Denied::FileFault(file)),
            Err(_) => Input::NoMemory,
        },
        FileGot::NoMemory => Input::NoMemory,
    }
}

/// The input of a run: the bytes of a file, or none where none is named.
pub fn input_of<F: Files>(alloc: Global, file: &Option<Name>, files: &mut F) -> Input
    requires { IsFile file.now }
    ensures finds { spec.Finds (F.held files.old) file.now (F.faults files.old) (F.faults files.new) result }
    ensures later { F.faults files.old ≤ F.faults files.new }
    ensures held { F.held files.new ≡ F.held files.old }
{
    match file {
        Some(name) => read_input(alloc, name, files),
        None => Input::Bytes(Items::new(alloc)),
    }
}
