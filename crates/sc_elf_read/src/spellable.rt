// Which objects have a file.
ghost use Rattle.std.specs.Prelude.{◌≡◌, ◌≤◌, ◌+◌, length, IfOk};
ghost use Rattle.std.specs.List.{list_all, prefix_len};
ghost use Rattle.sc_object.specs.Parts.{is_local, all_relas};
ghost use Rattle.sc_object.specs.Reading.{is_name, held, is_word, is_section, is_below, is_symbol, is_global, locals_first, is_addend, is_reloc, by_sections, is_slot, line_fits, is_block, is_frame, fits, is_spellable_in};

use sc_base::NoMemory;
use sc_elf_write::relas;
use sc_object::{
    BlockTable, FrameTable, Object, Rela, Reloc, Section, SectionKind, Symbol, is_kind,
};
use sc_program::Slot;
use std::alloc::Global;

fn is_name(name: &[u8]) -> bool
    ensures { result ≡ is_name name.now }
{
    name.iter().all(|b| !(*b == 0))
}

fn is_word(n: usize) -> bool
    ensures { result ≡ is_word n }
{
    n < 4294967296
}

fn held(kind: SectionKind, size: u32) -> usize
    ensures { result ≡ held kind size }
{
    match kind {
        SectionKind::Text | SectionKind::Data | SectionKind::Rodata => size as usize,
        SectionKind::Bss => 0,
    }
}

fn is_section(s: &Section) -> bool
    ensures { result ≡ is_section s.now }
{
    is_name(s.name.as_slice())
        && s.bytes.as_slice().len() == held(s.kind, s.size)
        && is_word(s.size as usize)
}

fn is_below(n: usize, section: Option<u32>) -> bool
    ensures { result ≡ is_below n section }
{
    match section {
        None => true,
        Some(k) => (k as usize) < n,
    }
}

fn is_symbol(sections: usize, s: &Symbol) -> bool
    ensures { result ≡ is_symbol sections s.now }
{
    is_name(s.name.as_slice())
        && is_below(sections, s.section)
        && s.kind < 3
        && is_word(s.size as usize)
}

fn locals(symbols: &[Symbol]) -> usize
    ensures len { result ≡ prefix_len is_local symbols.now }
    ensures bound { result ≤ length symbols.now }
{
    symbols.iter().take_while(|s| !s.global).count()
}

fn all_global(symbols: &[Symbol]) -> bool
    ensures { result ≡ list_all is_global symbols.now }
{
    symbols.iter().all(|s| s.global)
}

fn locals_first(symbols: &[Symbol]) -> bool
    ensures { result ≡ locals_first symbols.now }
{
    let (_, rest) = symbols.split_at(locals(symbols));
    all_global(rest)
}

fn is_addend(addend: i32) -> bool
    ensures { result ≡ is_addend addend }
{
    addend.cast_unsigned().cast_signed() == addend
}

fn is_reloc(sections: usize, symbols: usize, r: &Reloc) -> bool
    ensures { result ≡ is_reloc sections symbols r.now }
{
    (r.section as usize) < sections
        && is_word(r.at as usize)
        && is_kind(r.kind)
        && (r.symbol as usize) < symbols
        && is_addend(r.addend)
}

#[tactic(auto, using(crate::proofs::Loops::sorted_stop, crate::proofs::Loops::sorted_end))]
fn by_sections(relocs: &[Reloc]) -> bool
    ensures { result ≡ by_sections 0 relocs.now }
{
    let mut least = 0;
    for reloc in relocs {
        if reloc.section < least {
            return false;
        }
        least = reloc.section;
    }
    true
}

fn is_slot(s: &Slot) -> bool
    ensures { result ≡ is_slot s.now }
{
    is_word(s.offset as usize) && is_word(s.size as usize)
}

fn all_slots(slots: &[Slot]) -> bool
    ensures { result ≡ list_all is_slot slots.now }
{
    slots.iter().all(|s| is_slot(s))
}

fn line_fits(version: u32, line: u32) -> bool
    ensures { result ≡ line_fits version line }
{
    !(version == 1) || line == 0
}

fn is_block(version: u32, b: &BlockTable) -> bool
    ensures { result ≡ is_block version b.now }
{
    line_fits(version, b.line)
        && is_word(b.line as usize)
        && is_word(b.slots.len())
        && all_slots(b.slots.as_slice())
}

fn all_blocks(version: u32, blocks: &[BlockTable]) -> bool
    ensures { result ≡ list_all (is_block version) blocks.now }
{
    blocks.iter().all(|b| is_block(version, b))
}

fn is_frame(version: u32, symbols: usize, f: &FrameTable) -> bool
    ensures { result ≡ is_frame version symbols f.now }
{
    (f.symbol as usize) < symbols
        && is_word(f.cost as usize)
        && is_word(f.blocks.len())
        && all_blocks(version, f.blocks.as_slice())
}

fn fits(o: &Object, relas: &[Rela], len: usize) -> bool
    requires { relas.now ≡ all_relas o.now }
    ensures { result ≡ fits o.now len }
{
    let sections = o.sections.as_slice().len() + relas.len();
    let symbols = o.symbols.as_slice().len();
    sections + 5 < 65280 && symbols + 1 < 16777216 && is_word(o.frames.len()) && is_word(len)
}

fn all_sections(sections: &[Section]) -> bool
    ensures { result ≡ list_all is_section sections.now }
{
    sections.iter().all(|s| is_section(s))
}

fn all_symbols(sections: usize, symbols: &[Symbol]) -> bool
    ensures { result ≡ list_all (is_symbol sections) symbols.now }
{
    symbols.iter().all(|s| is_symbol(sections, s))
}

fn all_relocs(sections: usize, symbols: usize, relocs: &[Reloc]) -> bool
    ensures { result ≡ list_all (is_reloc sections symbols) relocs.now }
{
    relocs.iter().all(|r| is_reloc(sections, symbols, r))
}

fn all_frames(version: u32, symbols: usize, frames: &[FrameTable]) -> bool
    ensures { result ≡ list_all (is_frame version symbols) frames.now }
{
    frames.iter().all(|f| is_frame(version, symbols, f))
}

/// Whether an object has a file with frame tables of a version, where that file has so many bytes.
pub fn is_spellable_in(
    alloc: Global,
    version: u32,
    o: &Object,
    len: usize,
) -> Result<bool, NoMemory>
    ensures { IfOk result (λ b. b ≡ is_spellable_in version o.now len) }
{
    let relas = relas(alloc, o)?;
    let sections = o.sections.len();
    let symbols = o.symbols.len();
    Ok(
        all_sections(o.sections.as_slice())
            && all_symbols(sections, o.symbols.as_slice())
            && locals_first(o.symbols.as_slice())
            && all_relocs(sections, symbols, o.relocs.as_slice())
            && by_sections(o.relocs.as_slice())
            && all_frames(version, symbols, o.frames.as_slice())
            && fits(o, relas.as_slice(), len),
    )
}
