// The sections of an object as parts of its file.
ghost use Rattle.std.specs.Prelude.{◌≡◌, ◌++◌, IfOk, map};
ghost use Rattle.sc_object.specs.Parts.{prefix, type_of, flags_of, section_part};

use sc_base::{Bytes, Duplicate, Items, NoMemory};
use sc_object::{Part, Section, SectionKind};
use std::alloc::Global;

/// What stands before the name of a section.
pub fn prefix(kind: SectionKind) -> &'static [u8]
    ensures { result.now ≡ prefix kind }
{
    match kind {
        SectionKind::Text => b".text.",
        SectionKind::Data => b".data.",
        SectionKind::Rodata => b".rodata.",
        SectionKind::Bss => b".bss.",
    }
}

fn type_of(kind: SectionKind) -> usize
    ensures { result ≡ type_of kind }
{
    match kind {
        SectionKind::Text | SectionKind::Data | SectionKind::Rodata => 1,
        SectionKind::Bss => 8,
    }
}

fn flags_of(kind: SectionKind) -> usize
    ensures { result ≡ flags_of kind }
{
    match kind {
        SectionKind::Text => 6,
        SectionKind::Data | SectionKind::Bss => 3,
        SectionKind::Rodata => 2,
    }
}

/// Two texts, one behind the other.
pub fn joined(alloc: Global, left: &[u8], right: &[u8]) -> Result<Bytes, NoMemory>
    ensures { IfOk result (λ text. text ≡ left.now ++ right.now) }
{
    let mut text = Vec::from_slice(alloc, left)?;
    text.extend_from_slice(right)?;
    Ok(Bytes::from_vec(text))
}

fn section_part(alloc: Global, s: &Section) -> Result<Part, NoMemory>
    ensures { IfOk result (λ p. p ≡ section_part s.now) }
{
    let name = joined(alloc, prefix(s.kind), s.name.as_slice())?;
    let bytes = s.bytes.copy(alloc)?;
    Ok(Part {
        name,
        kind: type_of(s.kind),
        flags: flags_of(s.kind),
        bytes,
        size: s.size as usize,
        link: 0,
        info: 0,
        align: 4,
        entry: 0,
    })
}

/// A part for each section.
pub fn section_parts(alloc: Global, sections: &[Section]) -> Result<Items<Part>, NoMemory>
    ensures { IfOk result (λ ps. ps ≡ map section_part sections.now) }
{
    let mut all = Items::new(alloc);
    for section in sections {
        all.push(section_part(alloc, section)?)?;
    }
    Ok(all)
}
