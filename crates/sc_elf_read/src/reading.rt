// The object of a file.
ghost use Rattle.std.specs.Prelude.{◌≡◌, ◌≢◌, ◌⊎◌, ◌↔◌, ◌<◌, ◌≤◌, ◌^◌, ℕ, true, length, MatchResult, IfOk, IfErr, IfSome};
ghost use Rattle.std.specs.Str.{bytes_eq};
ghost use Rattle.sc_object.specs.Reading.{IsFileOf, IsShort, end_of};
ghost use Rattle.sc_elf_read.specs.Parsed.{object_of, object_in, object_from, parsed};
ghost use Rattle.sc_elf_read.specs.Fields.{IsWrong};
ghost use Rattle.sc_elf_read.specs.Tests.{wrong_field, wrong_header, wrong_rest};
ghost use Rattle.sc_elf_read.specs.declared.field.ElfFault.TheVariants as fault;

use crate::bytes::{behind, half_at, word_at};
use crate::field::{ElfFault, Field, wrong_before, wrong_behind};
use crate::piece::{Piece, file_pieces};
use crate::saber::frames_in;
use crate::spellable::is_spellable_in;
use crate::tables::{relocs_in, sections_in, symbols_in};
use sc_base::{Items, NoMemory};
use sc_elf_write::write_as;
use sc_object::{FrameTable, Object};
use std::alloc::Global;

fn object_of(
    alloc: Global,
    front: &[Piece],
    symbols: &Piece,
    strings: &Piece,
    names: &Piece,
    frames: Items<FrameTable>,
) -> Result<Object, NoMemory>
    ensures { IfOk result (λ o. o ≡ object_of front.now symbols.now strings.now names.now frames) }
{
    let entries = behind(symbols.bytes.as_slice(), 16);
    Ok(Object {
        sections: sections_in(alloc, front, behind(names.bytes.as_slice(), 1))?,
        symbols: symbols_in(
            alloc,
            entries.len() / 16,
            entries,
            behind(strings.bytes.as_slice(), 1),
        )?,
        relocs: relocs_in(alloc, front)?,
        frames,
    })
}

fn object_in(
    alloc: Global,
    version: u32,
    front: &[Piece],
    saber: &Piece,
    symbols: &Piece,
    strings: &Piece,
    names: &Piece,
) -> Result<Option<Object>, NoMemory>
    ensures { IfOk result (λ r. r ≡ object_in version front.now saber.now symbols.now strings.now names.now) }
{
    match frames_in(alloc, version, saber.bytes.as_slice())? {
        Some(frames) => Ok(Some(object_of(alloc, front, symbols, strings, names, frames)?)),
        None => Ok(None),
    }
}

fn object_from(
    alloc: Global,
    version: u32,
    front: &[Piece],
    last: &[Piece],
) -> Result<Option<Object>, NoMemory>
    ensures { IfOk result (λ r. r ≡ object_from version front.now last.now) }
{
    match last {
        [saber, symbols, strings, names] => object_in(
            alloc, version, front, saber, symbols, strings, names,
        ),
        _ => Ok(None),
    }
}

// What the bytes say, without a test that they are its file.
fn parsed(alloc: Global, version: u32, bytes: &[u8]) -> Result<Option<Object>, NoMemory>
    ensures { IfOk result (λ r. r ≡ parsed version bytes.now) }
{
    let pieces = file_pieces(alloc, bytes)?;
    let all = pieces.as_slice();
    let (front, last) = all.split_at(all.len().saturating_sub(4));
    object_from(alloc, version, front, last)
}

fn is_same(a: &[u8], b: &[u8]) -> bool
    ensures { result ≡ bytes_eq a.now b.now }
{
    a == b
}

// Whether the bytes are the file of an object.
fn is_file_of(alloc: Global, version: u32, o: &Object, bytes: &[u8]) -> Result<bool, NoMemory>
    ensures { IfOk result (λ b. (b ≡ true) ↔ IsFileOf version o.now bytes.now) }
{
    let again = write_as(alloc, version as usize, o)?;
    let same = is_same(again.as_slice(), bytes);
    if same {
        return is_spellable_in(alloc, version, o, again.len());
    }
    Ok(false)
}

// The object that the bytes say, if they are its file.
fn if_file(alloc: Global, version: u32, bytes: &[u8], o: Object) -> Result<Option<Object>, NoMemory>
    requires known { (version ≡ 1) ⊎ (version ≡ 2) }
    requires said { Some o ≡ parsed version bytes.now }
    ensures ok { IfOk result (λ r. IfSome r (λ o. IsFileOf version o bytes.now)) }
    ensures only { (o : Object) → IsFileOf version o bytes.now → IfOk result (λ r. r ≡ Some o) }
{
    let same = is_file_of(alloc, version, &o, bytes)?;
    if same {
        Ok(Some(o))
    } else {
        drop(o);
        Ok(None)
    }
}

// The object whose file with frame tables of a version the bytes are.
fn read_as(alloc: Global, version: u32, bytes: &[u8]) -> Result<Option<Object>, NoMemory>
    requires { (version ≡ 1) ⊎ (version ≡ 2) }
    ensures ok { IfOk result (λ r. IfSome r (λ o. IsFileOf version o bytes.now)) }
    ensures only { (o : Object) → IsFileOf version o bytes.now → IfOk result (λ r. r ≡ Some o) }
{
    let said = parsed(alloc, version, bytes)?;
    match said {
        Some(o) => if_file(alloc, version, bytes, o),
        None => Ok(None),
    }
}

// The end of the section headers, as the header tells it.
fn end_of(bytes: &[u8]) -> usize
    ensures { result ≡ end_of bytes.now }
{
    word_at(bytes, 32) as usize + 40 * half_at(bytes, 48) as usize
}

// The first of the header's fixed fields that is another one, and its place.
fn wrong_field(bytes: &[u8]) -> Option<(Field, u32)>
    ensures { result ≡ wrong_field bytes.now }
{
    match wrong_before(bytes) {
        Some(wrong) => Some(wrong),
        None => wrong_behind(bytes),
    }
}

// What is wrong with the header alone, or with the number of bytes.
fn wrong_header(bytes: &[u8]) -> Option<ElfFault>
    requires { length bytes.now < 2 ^ 32 }
    ensures { result ≡ wrong_header bytes.now }
{
    let len = bytes.len() as u32;
    if bytes.len() < 52 {
        return Some(ElfFault::Truncated(len));
    }
    match wrong_field(bytes) {
        Some((field, at)) => Some(ElfFault::BadField(field, at)),
        None => {
            if bytes.len() < end_of(bytes) {
                Some(ElfFault::Truncated(len))
            } else {
                None
            }
        }
    }
}

// What is wrong with bytes that are no file and whose header is right.
fn wrong_rest(bytes: &[u8]) -> ElfFault
    requires { length bytes.now < 2 ^ 32 }
    ensures { result ≡ wrong_rest bytes.now }
{
    let end = end_of(bytes);
    if end < bytes.len() {
        ElfFault::BadField(Field::End, end as u32)
    } else {
        ElfFault::BadField(Field::SectionEntry, bytes.len().saturating_sub(4) as u32)
    }
}

// The object that was found, or what is wrong where there is none.
fn answered(bytes: &[u8], found: Option<Object>) -> Result<Object, ElfFault>
    requires small { length bytes.now < 2 ^ 32 }
    requires ok { IfSome found (λ o. IsFileOf 2 o bytes.now) }
    requires only { (o : Object) → IsFileOf 2 o bytes.now → found ≡ Some o }
    ensures ok { IfOk result (λ o. IsFileOf 2 o bytes.now) }
    ensures only { (o : Object) → IsFileOf 2 o bytes.now → result ≡ Ok o }
    ensures rest { IfErr result (λ f. f ≡ wrong_rest bytes.now) }
{
    match found {
        Some(o) => Ok(o),
        None => Err(wrong_rest(bytes)),
    }
}

// The object whose file bytes with a right header are.
fn read_rest(alloc: Global, bytes: &[u8]) -> Result<Object, ElfFault>
    requires { length bytes.now < 2 ^ 32 }
    ensures ok { IfOk result (λ o. IsFileOf 2 o bytes.now) }
    ensures only { (o : Object) → IsFileOf 2 o bytes.now → MatchResult result (λ p. p ≡ o) (λ f. f ≡ fault.NoMemory) }
    ensures rest { IfErr result (λ f. (f ≡ wrong_rest bytes.now) ⊎ (f ≡ fault.NoMemory)) }
{
    match read_as(alloc, 2, bytes) {
        Ok(found) => answered(bytes, found),
        Err(NoMemory) => Err(ElfFault::NoMemory),
    }
}

/// The object whose file the bytes are (gABI; RISC-V psABI). Where they are none, `Truncated` is answered for less than
/// a header, and for less than the section headers that a right header speaks of; else the first fixed field of the
/// header that is wrong, or the end of the last section header where bytes follow it, or else that header's last field.
pub fn read_object(alloc: Global, bytes: &[u8]) -> Result<Object, ElfFault>
    requires { length bytes.now < 2 ^ 32 }
    ensures ok { IfOk result (λ o. IsFileOf 2 o bytes.now) }
    ensures only { (o : Object) → IsFileOf 2 o bytes.now → MatchResult result (λ p. p ≡ o) (λ f. f ≡ fault.NoMemory) }
    ensures short { IfErr result (λ f. (n : ℕ) → f ≡ fault.Truncated n → (n ≡ length bytes.now) × IsShort bytes.now) }
    ensures too_short { IsShort bytes.now → result ≡ Err (fault.Truncated (length bytes.now)) }
    ensures field { (f : Field) (at : ℕ) → result ≡ Err (fault.BadField f at) → IsWrong bytes.now f at }
    ensures reloc { (at : ℕ) → result ≢ Err (fault.BadReloc at) }
{
    match wrong_header(bytes) {
        Some(fault) => Err(fault),
        None => read_rest(alloc, bytes),
    }
}

/// The version of the frame tables in a file: 2 or 1 for the file of an object with tables of that version, and none for
/// other bytes.
pub fn version(alloc: Global, bytes: &[u8]) -> Result<Option<u32>, NoMemory>
    ensures two { IfOk result (λ v. (v ≡ Some 2) ↔ ((o : Object) × IsFileOf 2 o bytes.now)) }
    ensures one { IfOk result (λ v. (v ≡ Some 1) ↔ ((o : Object) × IsFileOf 1 o bytes.now)) }
{
    let two = is_file(alloc, 2, bytes)?;
    if two {
        return Ok(Some(2));
    }
    let one = is_file(alloc, 1, bytes)?;
    if one { Ok(Some(1)) } else { Ok(None) }
}

// Whether the bytes are a file with frame tables of a version. Bytes that end before their section headers do are none,
// and are not read: so the work grows with the bytes and not with what they claim.
fn is_file(alloc: Global, version: u32, bytes: &[u8]) -> Result<bool, NoMemory>
    requires { (version ≡ 1) ⊎ (version ≡ 2) }
    ensures { IfOk result (λ b. (b ≡ true) ↔ ((o : Object) × IsFileOf version o bytes.now)) }
{
    let len = bytes.len();
    let end = end_of(bytes);
    if len < end {
        return Ok(false);
    }
    let found = read_as(alloc, version, bytes)?;
    match found {
        Some(o) => {
            drop(o);
            Ok(true)
        }
        None => Ok(false),
    }
}
