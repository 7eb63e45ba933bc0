// Why preprocessing does not go on, and the refusals that name a file.
ghost use Rattle.std.specs.Prelude.{◌≡◌};
ghost use Rattle.sc_pp.specs.Outcomes as spec;
ghost use Rattle.sc_pp.specs.Outcomes.{Tells, Refuses, refusal, IsNoRefusal, NamesFile};
ghost use Rattle.sc_base.specs.declared.refusal.X.TheVariants as x;

use sc_base::{Bytes, Duplicate, Fault, Refusal, X};
use std::alloc::Global;

/// A refusal, a file that could not be read, or want of memory.
#[derive(Drop)]
pub enum Failure {
    Refused(Refusal),
    File(Bytes),
    NoMemory,
}

/// A fault as a failure.
pub fn raised(fault: Fault) -> Failure
    ensures { result ≡ spec.raised fault }
{
    match fault {
        Fault::Refused(refusal) => Failure::Refused(refusal),
        Fault::NoMemory => Failure::NoMemory,
    }
}

/// A file that could not be read.
pub fn unread(alloc: Global, name: &[u8]) -> Failure
    ensures kind { IsNoRefusal result }
    ensures names { NamesFile name.now result }
{
    match Bytes::from_slice(alloc, name) {
        Ok(name) => Failure::File(name),
        Err(_) => Failure::NoMemory,
    }
}

/// A refusal at a line of a file.
pub fn refused(alloc: Global, kind: X, file: &Bytes, line: u32) -> Fault
    ensures { Refuses (refusal kind file.now line) result }
{
    match file.copy(alloc) {
        Ok(file) => Fault::Refused(Refusal { kind, file, line }),
        Err(_) => Fault::NoMemory,
    }
}

/// A refusal because of a limit, with its word.
pub fn beyond(alloc: Global, word: &[u8], file: &Bytes, line: u32) -> Fault
    ensures { Refuses (refusal (x.X10 word.now) file.now line) result }
{
    match Bytes::from_slice(alloc, word) {
        Ok(word) => refused(alloc, X::X10(word), file, line),
        Err(_) => Fault::NoMemory,
    }
}

/// A refusal because of what is left out, with its word.
pub fn left_out(alloc: Global, word: &[u8], file: &Bytes, line: u32) -> Fault
    ensures { Refuses (refusal (x.X9 word.now) file.now line) result }
{
    match Bytes::from_slice(alloc, word) {
        Ok(word) => refused(alloc, X::X9(word), file, line),
        Err(_) => Fault::NoMemory,
    }
}

/// A fault of a lower layer, with the file in which it stands.
pub fn told(alloc: Global, file: &Bytes, fault: Fault) -> Fault
    ensures { Tells file.now fault result }
{
    match fault {
        Fault::NoMemory => Fault::NoMemory,
        Fault::Refused(refusal) => refused(alloc, refusal.kind, file, refusal.line),
    }
}
