// What the sections of an object hold.
ghost use Rattle.std.specs.Prelude.{◌≡◌, ◌≤◌, ◌+◌, [], ◌∷◌, ◌++◌, flat_map, length, replicate, sum_by, min, OnOk, IfOk, codes, decimal};
ghost use Rattle.std.specs.List.{list_all};
ghost use Rattle.sc_object.specs.Words.{word};
ghost use Rattle.sc_gen.specs.Sections as spec;

use sc_base::{Bytes, Duplicate, Name, NoMemory};
use sc_core::{Init, StaticObj};
use sc_gen_code::Symbolic;
use sc_gen_expr::{fitted, symbolic_word};
use sc_object::{Section, SectionKind};
use std::alloc::Global;

fn put_word(bytes: &mut Vec<u8>, number: u32) -> Result<(), NoMemory>
    ensures { OnOk result (bytes.new.items ≡ bytes.old.items ++ word number) }
{
    let four = [
        (number % 256) as u8,
        (number / 256 % 256) as u8,
        (number / 65536 % 256) as u8,
        (number / 16777216 % 256) as u8,
    ];
    bytes.extend_from_slice(four.as_slice())?;
    Ok(())
}

fn text_bytes(alloc: Global, code: &[Symbolic]) -> Result<Bytes, NoMemory>
    ensures { IfOk result (λ bytes. bytes ≡ spec.text_bytes code.now) }
{
    let mut bytes = Vec::new(alloc);
    for s in code {
        put_word(&mut bytes, symbolic_word(s))?;
    }
    Ok(Bytes::from_vec(bytes))
}

/// The section of a function's text.
pub fn text_section(alloc: Global, name: &Name, code: &[Symbolic]) -> Result<Section, NoMemory>
    requires { length code.now ≤ 131072 }
    ensures { IfOk result (λ s. s ≡ spec.text_section name.now code.now) }
{
    let bytes = text_bytes(alloc, code)?;
    let name = Bytes::from_slice(alloc, name.as_slice())?;
    let size = fitted(4 * code.len());
    Ok(Section {
        name,
        kind: SectionKind::Text,
        bytes,
        size,
    })
}

fn is_zero(piece: &Init) -> bool
    ensures { result ≡ spec.is_zero piece.now }
{
    match piece {
        Init::Byte(b) => *b == 0,
        Init::Zeros(_) => true,
        Init::Address(_, _) => false,
    }
}

fn are_zero(pieces: &[Init]) -> bool
    ensures { result ≡ list_all spec.is_zero pieces.now }
{
    for piece in pieces {
        if !is_zero(piece) {
            return false;
        }
    }
    true
}

/// What kind of section holds an object.
pub fn kind_of(x: &StaticObj) -> SectionKind
    ensures { result ≡ spec.kind_of x.now }
{
    if x.constant {
        SectionKind::Rodata
    } else if are_zero(x.init.as_slice()) {
        SectionKind::Bss
    } else {
        SectionKind::Data
    }
}

/// How many bytes a piece of contents takes.
pub fn init_size(piece: &Init) -> u32
    ensures { result ≡ spec.init_size piece.now }
{
    match piece {
        Init::Byte(_) => 1,
        Init::Zeros(n) => *n,
        Init::Address(_, _) => 4,
    }
}

/// The size of contents; numbers above 2^32 - 1 are counted as that one.
pub fn size_of(pieces: &[Init]) -> u32
    ensures { result ≡ min (sum_by spec.init_size pieces.now) 4294967295 }
{
    let mut size: u32 = 0;
    for piece in pieces {
        size = size.saturating_add(init_size(piece));
    }
    size
}

fn put_zeros(bytes: &mut Vec<u8>, n: u32) -> Result<(), NoMemory>
    ensures { OnOk result (bytes.new.items ≡ bytes.old.items ++ replicate n 0) }
{
    for _ in 0..n {
        bytes.push(0)?;
    }
    Ok(())
}

/// The bytes of one piece of contents. An address is zero until it is filled in.
fn put_piece(bytes: &mut Vec<u8>, piece: &Init) -> Result<(), NoMemory>
    ensures { OnOk result (bytes.new.items ≡ bytes.old.items ++ spec.init_bytes piece.now) }
{
    match piece {
        Init::Byte(b) => {
            bytes.push(*b)?;
            Ok(())
        }
        Init::Zeros(n) => put_zeros(bytes, *n),
        Init::Address(_, _) => put_zeros(bytes, 4),
    }
}

fn contents(alloc: Global, pieces: &[Init]) -> Result<Bytes, NoMemory>
    ensures { IfOk result (λ bytes. bytes ≡ flat_map spec.init_bytes pieces.now) }
{
    let mut bytes = Vec::new(alloc);
    for piece in pieces {
        put_piece(&mut bytes, piece)?;
    }
    Ok(Bytes::from_vec(bytes))
}

fn bytes_in(alloc: Global, kind: SectionKind, pieces: &[Init]) -> Result<Bytes, NoMemory>
    ensures { IfOk result (λ bytes. bytes ≡ spec.bytes_in kind pieces.now) }
{
    match kind {
        SectionKind::Text => contents(alloc, pieces),
        SectionKind::Data => contents(alloc, pieces),
        SectionKind::Rodata => contents(alloc, pieces),
        SectionKind::Bss => Ok(Bytes::from_vec(Vec::new(alloc))),
    }
}

/// The section of an object of static storage duration.
pub fn object_section(alloc: Global, x: &StaticObj) -> Result<Section, NoMemory>
    ensures { IfOk result (λ s. s ≡ spec.object_section x.now) }
{
    let kind = kind_of(x);
    let pieces = x.init.as_slice();
    let bytes = bytes_in(alloc, kind, pieces)?;
    let name = Bytes::from_slice(alloc, x.key.name.as_slice())?;
    Ok(Section {
        name,
        kind,
        bytes,
        size: size_of(pieces),
    })
}

fn numeral(alloc: Global, n: u32) -> Result<Vec<u8>, NoMemory>
    ensures { IfOk result (λ digits. digits.items ≡ decimal n) }
{
    match n.to_string(alloc) {
        Ok(digits) => Ok(Vec::from_slice(alloc, digits.as_bytes())?),
        Err(_) => Err(NoMemory),
    }
}

/// The name of a literal by its place among the module's.
pub fn literal_name(alloc: Global, n: u32) -> Result<Bytes, NoMemory>
    ensures { IfOk result (λ name. name ≡ spec.literal_name n) }
{
    let digits = numeral(alloc, n)?;
    let mut name = Vec::from_slice(alloc, b"$")?;
    name.extend_from_slice(digits.as_slice())?;
    Ok(Bytes::from_vec(name))
}

/// The section of a string literal by its place among the module's.
pub fn literal_section(alloc: Global, n: u32, bytes: &Bytes) -> Result<Section, NoMemory>
    ensures { IfOk result (λ s. s ≡ spec.literal_section n bytes.now) }
{
    let name = literal_name(alloc, n)?;
    let size = fitted(bytes.as_slice().len());
    let bytes = bytes.copy(alloc)?;
    Ok(Section {
        name,
        kind: SectionKind::Rodata,
        bytes,
        size,
    })
}
