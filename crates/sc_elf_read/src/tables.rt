// The sections, symbols and relocations of a file, from its tables.
ghost use Rattle.std.specs.Prelude.{◌≡◌, ◌+◌, ◌/◌, ◌++◌, [], length, drop, IfOk, OnOk};
ghost use Rattle.sc_elf_read.specs.Tables.{rows, kind_of, section_in, named, sections_in, reloc_in, relocs_of, relocs_in, section_at, symbol_in, symbols_in};

use crate::bytes::{behind, behind_text, byte_at, half_at, text, word_at};
use crate::piece::Piece;
use sc_base::{Bytes, Duplicate, Items, NoMemory};
use sc_elf_write::prefix;
use sc_object::{Reloc, Section, SectionKind, Symbol};
use std::alloc::Global;

fn kind_of(kind: u32, flags: u32) -> Option<SectionKind>
    ensures { result ≡ kind_of kind flags }
{
    if kind == 1 && flags == 6 {
        Some(SectionKind::Text)
    } else if kind == 1 && flags == 3 {
        Some(SectionKind::Data)
    } else if kind == 1 && flags == 2 {
        Some(SectionKind::Rodata)
    } else if kind == 8 && flags == 3 {
        Some(SectionKind::Bss)
    } else {
        None
    }
}

fn section_in(
    alloc: Global,
    kind: SectionKind,
    piece: &Piece,
    name: &[u8],
) -> Result<Section, NoMemory>
    ensures { IfOk result (λ s. s ≡ section_in kind piece.now name.now) }
{
    Ok(Section {
        name: Bytes::from_slice(alloc, name)?,
        kind,
        bytes: piece.bytes.copy(alloc)?,
        size: piece.size,
    })
}

// The names from the front of a section's own on.
fn named(kind: SectionKind, names: &[u8]) -> &[u8]
    ensures { result.now ≡ named kind names.now }
{
    behind(names, prefix(kind).len())
}

/// The sections that stand among those of a file, with their names from the front of these.
#[tactic(auto, using(crate::proofs::Loops::sections_some, crate::proofs::Loops::sections_none))]
pub fn sections_in(
    alloc: Global,
    pieces: &[Piece],
    names: &[u8],
) -> Result<Items<Section>, NoMemory>
    ensures { IfOk result (λ ss. ss ≡ sections_in [] pieces.now names.now) }
{
    let mut all = Items::new(alloc);
    let mut rest = names;
    for piece in pieces {
        if let Some(kind) = kind_of(piece.kind, piece.flags) {
            let own = named(kind, rest);
            all.push(section_in(alloc, kind, piece, text(own))?)?;
            rest = behind_text(own);
        }
    }
    Ok(all)
}

fn reloc_in(section: u32, bytes: &[u8]) -> Reloc
    ensures { result ≡ reloc_in section bytes.now }
{
    let info = word_at(bytes, 4);
    Reloc {
        section,
        at: word_at(bytes, 0),
        kind: (info % 256) as u8,
        symbol: (info / 256).saturating_sub(1),
        addend: word_at(bytes, 8).cast_signed(),
    }
}

#[tactic(auto, using(crate::proofs::Loops::rows_step, crate::proofs::Loops::rows_end))]
fn push_rows(all: &mut Items<Reloc>, section: u32, bytes: &[u8]) -> Result<(), NoMemory>
    ensures { OnOk result (all.new ≡ all.old ++ rows (reloc_in section) 12 (length bytes.now / 12) bytes.now) }
{
    let mut rest = bytes;
    for turn in 0..bytes.len() / 12 {
        all.push(reloc_in(section, rest))?;
        rest = behind(rest, 12);
    }
    Ok(())
}

fn push_relocs(all: &mut Items<Reloc>, piece: &Piece) -> Result<(), NoMemory>
    ensures { OnOk result (all.new ≡ all.old ++ relocs_of piece.now) }
{
    if piece.kind == 4 {
        push_rows(all, piece.info.saturating_sub(1), piece.bytes.as_slice())?;
    }
    Ok(())
}

/// The relocations that stand among the sections of a file.
pub fn relocs_in(alloc: Global, pieces: &[Piece]) -> Result<Items<Reloc>, NoMemory>
    ensures { IfOk result (λ rs. rs ≡ relocs_in pieces.now) }
{
    let mut all = Items::new(alloc);
    for piece in pieces {
        push_relocs(&mut all, piece)?;
    }
    Ok(all)
}

fn section_at(n: u32) -> Option<u32>
    ensures { result ≡ section_at n }
{
    if n == 0 { None } else { Some(n - 1) }
}

fn symbol_in(alloc: Global, bytes: &[u8], name: &[u8]) -> Result<Symbol, NoMemory>
    ensures { IfOk result (λ s. s ≡ symbol_in bytes.now name.now) }
{
    let info = byte_at(bytes, 12);
    Ok(Symbol {
        name: Bytes::from_slice(alloc, name)?,
        section: section_at(half_at(bytes, 14)),
        global: 16 <= info,
        kind: info % 16,
        size: word_at(bytes, 8),
    })
}

/// So many symbols, with their names from the front of these.
#[tactic(auto, using(crate::proofs::Loops::symbols_step, crate::proofs::Loops::symbols_end))]
pub fn symbols_in(
    alloc: Global,
    count: usize,
    bytes: &[u8],
    names: &[u8],
) -> Result<Items<Symbol>, NoMemory>
    ensures { IfOk result (λ ss. ss ≡ symbols_in count bytes.now names.now) }
{
    let mut all = Items::new(alloc);
    let mut rest = bytes;
    let mut names_left = names;
    for turn in 0..count {
        all.push(symbol_in(alloc, rest, text(names_left))?)?;
        rest = behind(rest, 16);
        names_left = behind_text(names_left);
    }
    Ok(all)
}
