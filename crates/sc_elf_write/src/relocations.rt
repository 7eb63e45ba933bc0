// The relocations of an object as parts of its file (gABI, "Relocation").
ghost use Rattle.std.specs.Prelude.{◌≡◌, ◌≤◌, ◌<◌, ◌^◌, ◌+◌, ◌++◌, IfOk, OnOk, length, take, drop};
ghost use Rattle.std.specs.Int.{w32, cast_unsigned};
ghost use Rattle.sc_object.specs.Words.{word};
ghost use Rattle.sc_object.specs.Parts.{reloc_info, entry_of, entries, is_of, group_len, rela_of, with_group, relas, all_relas, rela_part};

use crate::sections::{joined, prefix};
use crate::word::put_word;
use sc_base::{Bytes, Duplicate, Items, NoMemory};
use sc_object::{Object, Part, Rela, Reloc, Section};
use std::alloc::Global;

fn put_addend(bytes: &mut Vec<u8>, r: &Reloc) -> Result<(), NoMemory>
    ensures { OnOk result (bytes.new.items ≡ bytes.old.items ++ word (cast_unsigned w32 r.now.addend)) }
{
    let unsigned = r.addend.cast_unsigned();
    put_word(bytes, unsigned as usize)
}

// The symbol's number in the file, and the type.
fn info_of(r: &Reloc) -> usize
    ensures { result ≡ reloc_info r.now }
{
    (r.symbol as usize + 1) * 256 + usize::from(r.kind)
}

fn put_entry(bytes: &mut Vec<u8>, r: &Reloc) -> Result<(), NoMemory>
    ensures { OnOk result (bytes.new.items ≡ bytes.old.items ++ entry_of r.now) }
{
    put_word(bytes, r.at as usize)?;
    put_word(bytes, info_of(r))?;
    put_addend(bytes, r)?;
    Ok(())
}

fn entries(alloc: Global, relocs: &[Reloc]) -> Result<Vec<u8>, NoMemory>
    ensures { IfOk result (λ bytes. bytes.items ≡ entries relocs.now) }
{
    let mut bytes = Vec::new(alloc);
    for reloc in relocs {
        put_entry(&mut bytes, reloc)?;
    }
    Ok(bytes)
}

// How many relocations from the front on are of a section.
fn group_len(n: usize, relocs: &[Reloc]) -> usize
    ensures len { result ≡ group_len n relocs.now }
    ensures bound { result ≤ length relocs.now }
{
    relocs
        .iter()
        .take_while(|r| r.section as usize == n)
        .count()
}

fn rela_of(alloc: Global, s: &Section, number: usize, group: &[Reloc]) -> Result<Rela, NoMemory>
    ensures { IfOk result (λ r. r ≡ rela_of s.now number group.now) }
{
    let whole = joined(alloc, prefix(s.kind), s.name.as_slice())?;
    let name = joined(alloc, b".rela", whole.as_slice())?;
    let bytes = entries(alloc, group)?;
    Ok(Rela {
        name,
        number,
        bytes: Bytes::from_vec(bytes),
    })
}

fn with_group(
    alloc: Global,
    all: Items<Rela>,
    s: &Section,
    n: usize,
    group: &[Reloc],
) -> Result<Items<Rela>, NoMemory>
    requires { n < 2 ^ 63 }
    ensures { IfOk result (λ more. more ≡ with_group all s.now n group.now) }
{
    let mut all = all;
    if !group.is_empty() {
        all.push(rela_of(alloc, s, n + 1, group)?)?;
    }
    Ok(all)
}

/// The relocations of each section that has any.
pub fn relas(alloc: Global, o: &Object) -> Result<Items<Rela>, NoMemory>
    ensures { IfOk result (λ all. all ≡ all_relas o.now) }
{
    let mut all = Items::new(alloc);
    let mut rest = o.relocs.as_slice();
    for (n, section) in o.sections.as_slice().iter().enumerate() {
        let (group, behind) = rest.split_at(group_len(n, rest));
        all = with_group(alloc, all, section, n, group)?;
        rest = behind;
    }
    Ok(all)
}

/// The part of a section's relocations, where the table of symbols has this number.
pub fn rela_part(alloc: Global, symbols: usize, r: &Rela) -> Result<Part, NoMemory>
    ensures { IfOk result (λ p. p ≡ rela_part symbols r.now) }
{
    let name = r.name.copy(alloc)?;
    let bytes = r.bytes.copy(alloc)?;
    let size = bytes.as_slice().len();
    Ok(Part {
        name,
        kind: 4,
        flags: 0x40,
        bytes,
        size,
        link: symbols,
        info: r.number,
        align: 4,
        entry: 12,
    })
}
