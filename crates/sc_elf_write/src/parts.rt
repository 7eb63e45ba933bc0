// The sections of a file, in its order, but for the last one.
ghost use Rattle.std.specs.Prelude.{◌≡◌, ◌<◌, ◌^◌, ◌+◌, ◌++◌, IfOk, length, filter, map, codes};
ghost use Rattle.sc_object.specs.Parts.{plain_part, saber_words, saber_part, is_local, symbols_part, strings_part, symbol_parts, rela_part, tables, parts};

use crate::frames::saber;
use crate::relocations::{rela_part, relas};
use crate::sections::section_parts;
use crate::symbols::{local_count, symbol_table};
use sc_base::{Bytes, Items, NoMemory};
use sc_object::{FrameTable, Object, Part, Rela, Symbol, SymbolTable};
use std::alloc::Global;

/// A part that points to no other.
pub fn plain_part(name: Bytes, kind: usize, bytes: Bytes, align: usize) -> Part
    ensures { result ≡ plain_part name kind 0 bytes (length bytes) align }
{
    let size = bytes.as_slice().len();
    Part {
        name,
        kind,
        flags: 0,
        bytes,
        size,
        link: 0,
        info: 0,
        align,
        entry: 0,
    }
}

fn symbols_part(
    alloc: Global,
    strings: usize,
    locals: usize,
    bytes: Bytes,
) -> Result<Part, NoMemory>
    requires { locals < 2 ^ 63 }
    ensures { IfOk result (λ p. p ≡ symbols_part strings locals bytes) }
{
    let size = bytes.as_slice().len();
    Ok(Part {
        name: Bytes::from_slice(alloc, b".symtab")?,
        kind: 2,
        flags: 0,
        bytes,
        size,
        link: strings,
        info: locals + 1,
        align: 4,
        entry: 16,
    })
}

fn with_relas(
    alloc: Global,
    all: Items<Part>,
    symbols: usize,
    relas: &[Rela],
) -> Result<Items<Part>, NoMemory>
    ensures { IfOk result (λ ps. ps ≡ all ++ map (rela_part symbols) relas.now) }
{
    let mut all = all;
    for rela in relas {
        all.push(rela_part(alloc, symbols, rela)?)?;
    }
    Ok(all)
}

fn saber_part(alloc: Global, version: usize, frames: &[FrameTable]) -> Result<Part, NoMemory>
    ensures { IfOk result (λ p. p ≡ saber_part (saber_words version frames.now)) }
{
    let bytes = Bytes::from_vec(saber(alloc, version, frames)?);
    let name = Bytes::from_slice(alloc, b".saber")?;
    Ok(plain_part(name, 1, bytes, 4))
}

fn symtab_part(
    alloc: Global,
    strings: usize,
    symbols: &[Symbol],
    entries: Bytes,
) -> Result<Part, NoMemory>
    ensures { IfOk result (λ p. p ≡ symbols_part strings (length (filter is_local symbols.now)) entries) }
{
    let locals = local_count(symbols);
    symbols_part(alloc, strings, locals, entries)
}

fn strtab_part(alloc: Global, names: Bytes) -> Result<Part, NoMemory>
    ensures { IfOk result (λ p. p ≡ strings_part (codes ".strtab") names) }
{
    let name = Bytes::from_slice(alloc, b".strtab")?;
    Ok(plain_part(name, 3, names, 1))
}

fn with_symbols(
    alloc: Global,
    all: Items<Part>,
    strings: usize,
    symbols: &[Symbol],
) -> Result<Items<Part>, NoMemory>
    ensures { IfOk result (λ ps. ps ≡ all ++ symbol_parts strings symbols.now) }
{
    let mut all = all;
    let SymbolTable { entries, names } = symbol_table(alloc, symbols)?;
    all.push(symtab_part(alloc, strings, symbols, entries)?)?;
    all.push(strtab_part(alloc, names)?)?;
    Ok(all)
}

fn with_tables(
    alloc: Global,
    all: Items<Part>,
    version: usize,
    symbols: usize,
    o: &Object,
) -> Result<Items<Part>, NoMemory>
    requires { symbols < 2 ^ 63 }
    ensures { IfOk result (λ ps. ps ≡ all ++ tables version symbols o.now) }
{
    let mut all = all;
    all.push(saber_part(alloc, version, o.frames.as_slice())?)?;
    with_symbols(alloc, all, symbols + 1, o.symbols.as_slice())
}

/// The parts of an object's file but for the last, with frame tables of a version.
pub fn parts(alloc: Global, version: usize, o: &Object) -> Result<Items<Part>, NoMemory>
    ensures { IfOk result (λ ps. ps ≡ parts version o.now) }
{
    let relas = relas(alloc, o)?;
    let symbols = o.sections.as_slice().len() + relas.as_slice().len() + 2;
    let sections = section_parts(alloc, o.sections.as_slice())?;
    let all = with_relas(alloc, sections, symbols, relas.as_slice())?;
    with_tables(alloc, all, version, symbols, o)
}
