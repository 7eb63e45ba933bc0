// An object as the bytes of a file (ELF gABI; RISC-V psABI).
ghost use Rattle.std.specs.Prelude.{◌≡◌, IfOk};
ghost use Rattle.sc_object.specs.Spelling.{spelled, spelled_as};

use crate::layout::file_of_parts;
use crate::parts::parts;
use sc_base::NoMemory;
use sc_object::Object;
use std::alloc::Global;

/// The file of an object, with frame tables of a version.
pub fn write_as(alloc: Global, version: usize, o: &Object) -> Result<Vec<u8>, NoMemory>
    ensures { IfOk result (λ file. file.items ≡ spelled_as version o.now) }
{
    let parts = parts(alloc, version, o)?;
    file_of_parts(alloc, parts.as_slice())
}

/// The file of an object.
pub fn write_object(alloc: Global, o: &Object) -> Result<Vec<u8>, NoMemory>
    ensures { IfOk result (λ file. file.items ≡ spelled o.now) }
{
    write_as(alloc, 2, o)
}
