// The parts of a file one behind another (gABI, "ELF Header", "Sections").
ghost use Rattle.std.specs.Prelude.{◌≡◌, ◌++◌, IfOk, OnOk, fold};
ghost use Rattle.sc_object.specs.Spelling.{ident, before_shoff, behind_shoff, header, padded, header_front, header_back, section_header, with_part, nothing_laid, with_names, file_of, file_of_parts};

use crate::parts::plain_part;
use crate::word::{put_half, put_word};
use sc_base::{Bytes, Duplicate, NoMemory};
use sc_object::{Laid, Part};
use std::alloc::Global;

// The first five words of a section header: the name, the type, the flags, no address, and the place.
fn put_header_front(
    bytes: &mut Vec<u8>,
    p: &Part,
    name: usize,
    place: usize,
) -> Result<(), NoMemory>
    ensures { OnOk result (bytes.new.items ≡ bytes.old.items ++ header_front p.now name place) }
{
    put_word(bytes, name)?;
    put_word(bytes, p.kind)?;
    put_word(bytes, p.flags)?;
    put_word(bytes, 0)?;
    put_word(bytes, place)
}

// The last five.
fn put_header_back(bytes: &mut Vec<u8>, p: &Part) -> Result<(), NoMemory>
    ensures { OnOk result (bytes.new.items ≡ bytes.old.items ++ header_back p.now) }
{
    put_word(bytes, p.size)?;
    put_word(bytes, p.link)?;
    put_word(bytes, p.info)?;
    put_word(bytes, p.align)?;
    put_word(bytes, p.entry)?;
    Ok(())
}

fn put_section_header(
    bytes: &mut Vec<u8>,
    p: &Part,
    name: usize,
    place: usize,
) -> Result<(), NoMemory>
    ensures { OnOk result (bytes.new.items ≡ bytes.old.items ++ section_header p.now name place) }
{
    put_header_front(bytes, p, name, place)?;
    put_header_back(bytes, p)
}

// Zero bytes up to the next multiple of 4.
fn pad(bytes: &mut Vec<u8>) -> Result<(), NoMemory>
    ensures { OnOk result (bytes.new.items ≡ padded bytes.old.items) }
{
    let zeros = [0; 3];
    bytes.extend_from_slice(&zeros[..(4 - bytes.len() % 4) % 4])?;
    Ok(())
}

fn with_part(laid: Laid, p: &Part) -> Result<Laid, NoMemory>
    ensures { IfOk result (λ l. l ≡ with_part laid p.now) }
{
    let Laid {
        contents,
        headers,
        names,
    } = laid;
    let mut contents = contents.into_vec();
    let mut headers = headers.into_vec();
    let mut names = names.into_vec();
    pad(&mut contents)?;
    put_section_header(&mut headers, p, names.len(), contents.len() + 52)?;
    contents.extend_from_slice(p.bytes.as_slice())?;
    names.extend_from_slice(p.name.as_slice())?;
    names.push(0)?;
    Ok(Laid {
        contents: Bytes::from_vec(contents),
        headers: Bytes::from_vec(headers),
        names: Bytes::from_vec(names),
    })
}

fn with_names(alloc: Global, laid: Laid) -> Result<Laid, NoMemory>
    ensures { IfOk result (λ l. l ≡ with_names laid) }
{
    let mut names = laid.names.copy(alloc)?.into_vec();
    names.extend_from_slice(b".shstrtab")?;
    names.push(0)?;
    let part = plain_part(
        Bytes::from_slice(alloc, b".shstrtab")?,
        3,
        Bytes::from_vec(names),
        1,
    );
    with_part(laid, &part)
}

// The fields before the place of the section headers: the mark, 32 bits, lowest byte first, version 1; relocatable,
// RISC-V, version 1, no entry, no program headers.
fn put_before(file: &mut Vec<u8>) -> Result<(), NoMemory>
    ensures { OnOk result (file.new.items ≡ file.old.items ++ (ident ++ before_shoff)) }
{
    file.extend_from_slice(
        b"\x7fELF\x01\x01\x01\x00\x00\x00\x00\x00\x00\x00\x00\x00\x01\x00\xf3\x00\x01\x00\x00\x00\x00\x00\x00\x00\x00\x00\x00\x00",
    )?;
    Ok(())
}

// The fields behind it: no flags, a header of 52 bytes, no program headers, section headers of 40 bytes.
fn put_behind(file: &mut Vec<u8>) -> Result<(), NoMemory>
    ensures { OnOk result (file.new.items ≡ file.old.items ++ behind_shoff) }
{
    file.extend_from_slice(b"\x00\x00\x00\x00\x34\x00\x00\x00\x00\x00\x28\x00")?;
    Ok(())
}

fn put_header(file: &mut Vec<u8>, shoff: usize, shnum: usize) -> Result<(), NoMemory>
    ensures { OnOk result (file.new.items ≡ file.old.items ++ header shoff shnum) }
{
    put_before(file)?;
    put_word(file, shoff)?;
    put_behind(file)?;
    put_half(file, shnum)?;
    put_half(file, shnum.saturating_sub(1))?;
    Ok(())
}

fn file_of(alloc: Global, count: usize, laid: Laid) -> Result<Vec<u8>, NoMemory>
    ensures { IfOk result (λ file. file.items ≡ file_of count laid) }
{
    let Laid {
        contents,
        headers,
        names: _,
    } = laid;
    let mut contents = contents.into_vec();
    pad(&mut contents)?;
    let mut file = Vec::new(alloc);
    put_header(&mut file, contents.len() + 52, count)?;
    file.extend_from_slice(contents.as_slice())?;
    file.extend_from_slice(headers.as_slice())?;
    Ok(file)
}

fn nothing_laid(alloc: Global) -> Result<Laid, NoMemory>
    ensures { IfOk result (λ l. l ≡ nothing_laid) }
{
    Ok(Laid {
        contents: Bytes::from_slice(alloc, [].as_slice())?,
        headers: Bytes::from_slice(alloc, [0; 40].as_slice())?,
        names: Bytes::from_slice(alloc, [0].as_slice())?,
    })
}

// The parts one behind another.
fn laid_of(alloc: Global, parts: &[Part]) -> Result<Laid, NoMemory>
    ensures { IfOk result (λ l. l ≡ fold with_part nothing_laid parts.now) }
{
    let mut laid = nothing_laid(alloc)?;
    for part in parts {
        laid = with_part(laid, part)?;
    }
    Ok(laid)
}

/// The file of parts, with the null section and that of the names.
pub fn file_of_parts(alloc: Global, parts: &[Part]) -> Result<Vec<u8>, NoMemory>
    ensures { IfOk result (λ file. file.items ≡ file_of_parts parts.now) }
{
    let laid = laid_of(alloc, parts)?;
    let whole = with_names(alloc, laid)?;
    let file = file_of(alloc, parts.len() + 2, whole)?;
    Ok(file)
}
