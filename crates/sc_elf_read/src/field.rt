// What a reading refuses.
ghost use Rattle.std.specs.Prelude.{◌≡◌};
ghost use Rattle.sc_elf_read.specs.Tests.{fixed_before, fixed_behind, has, wrong_of};

use crate::bytes::{behind, front};
use sc_base::NoMemory;

/// A field of a file: of its header (gABI, "ELF Header"), the last field of the last section header, and the bytes
/// behind that.
#[derive(Clone, Copy, Debug, PartialEq, Eq)]
pub enum Field {
    Ident,
    Type,
    Machine,
    Version,
    Entry,
    ProgramHeaders,
    Flags,
    HeaderSize,
    ProgramEntrySize,
    ProgramCount,
    SectionEntrySize,
    SectionEntry,
    End,
}

/// Why bytes are no file of an object: they end too early, at this length; a field at this place has a value with which
/// no file begins; an entry of relocations at this place has one; no memory was left.
#[derive(Clone, Copy, Debug, PartialEq, Eq)]
pub enum ElfFault {
    Truncated(u32),
    BadField(Field, u32),
    BadReloc(u32),
    NoMemory,
}

impl From<NoMemory> for ElfFault {
    ghost use Rattle.sc_elf_read.specs.declared.field.ElfFault.TheVariants as faults;

    ghost from_gives = { λ _ fault. fault ≡ faults.NoMemory };

    fn from(_: NoMemory) -> ElfFault {
        ElfFault::NoMemory
    }
}

// Whether these bytes stand at a place.
fn has(bytes: &[u8], at: usize, expected: &[u8]) -> bool
    ensures { result ≡ has bytes.now at expected.now }
{
    front(behind(bytes, at), expected.len()) == expected
}

/// The first field before the place of the section headers that is not as in each file.
pub fn wrong_before(bytes: &[u8]) -> Option<(Field, u32)>
    ensures { result ≡ wrong_of fixed_before bytes.now }
{
    if !has(
        bytes,
        0,
        b"\x7fELF\x01\x01\x01\x00\x00\x00\x00\x00\x00\x00\x00\x00",
    ) {
        Some((Field::Ident, 0))
    } else if !has(bytes, 16, b"\x01\x00") {
        Some((Field::Type, 16))
    } else if !has(bytes, 18, b"\xf3\x00") {
        Some((Field::Machine, 18))
    } else if !has(bytes, 20, b"\x01\x00\x00\x00") {
        Some((Field::Version, 20))
    } else if !has(bytes, 24, b"\x00\x00\x00\x00") {
        Some((Field::Entry, 24))
    } else if !has(bytes, 28, b"\x00\x00\x00\x00") {
        Some((Field::ProgramHeaders, 28))
    } else {
        None
    }
}

/// The first field behind it that is not.
pub fn wrong_behind(bytes: &[u8]) -> Option<(Field, u32)>
    ensures { result ≡ wrong_of fixed_behind bytes.now }
{
    if !has(bytes, 36, b"\x00\x00\x00\x00") {
        Some((Field::Flags, 36))
    } else if !has(bytes, 40, b"\x34\x00") {
        Some((Field::HeaderSize, 40))
    } else if !has(bytes, 42, b"\x00\x00") {
        Some((Field::ProgramEntrySize, 42))
    } else if !has(bytes, 44, b"\x00\x00") {
        Some((Field::ProgramCount, 44))
    } else if !has(bytes, 46, b"\x28\x00") {
        Some((Field::SectionEntrySize, 46))
    } else {
        None
    }
}
