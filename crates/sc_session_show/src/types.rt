// The texts of types.
ghost use Rattle.std.specs.Prelude.{◌≡◌, ◌++◌, OnOk, map, true};
ghost use Rattle.sc_session_show.specs.Types as spec;

use sc_base::{Int, NoMemory};
use sc_session_texts::{put, put_decimal};
use sc_types::{CType, Signature, StructDef};
use std::alloc::Global;

// The name of an integer type (ANSI 3.5.2).
fn int_name(k: Int) -> &'static [u8]
    ensures { result.now ≡ spec.int_name k }
{
    match k {
        Int::Char => b"char",
        Int::SChar => b"signed char",
        Int::UChar => b"unsigned char",
        Int::Short => b"short",
        Int::UShort => b"unsigned short",
        Int::Int => b"int",
        Int::UInt => b"unsigned int",
        Int::Long => b"long",
        Int::ULong => b"unsigned long",
    }
}

fn const_word(constant: bool) -> &'static [u8]
    ensures { result.now ≡ spec.const_word constant }
{
    if constant { b"const " } else { b"" }
}

fn struct_word(is_union: bool) -> &'static [u8]
    ensures { result.now ≡ spec.struct_word is_union }
{
    if is_union { b"union " } else { b"struct " }
}

fn put_tag(text: &mut Vec<u8>, d: &StructDef) -> Result<(), NoMemory>
    ensures { OnOk result (text.new.items ≡ text.old.items ++ spec.tag_of d.now) }
{
    match &d.tag {
        Some(tag) => put(text, tag.as_slice()),
        None => put(text, b"?"),
    }
}

fn put_def(text: &mut Vec<u8>, d: &StructDef) -> Result<(), NoMemory>
    ensures { OnOk result (text.new.items ≡ text.old.items ++ spec.def_text d.now) }
{
    put(text, struct_word(d.is_union))?;
    put_tag(text, d)
}

fn put_struct(text: &mut Vec<u8>, structs: &[StructDef], id: u32) -> Result<(), NoMemory>
    ensures { OnOk result (text.new.items ≡ text.old.items ++ spec.struct_text structs.now id) }
{
    match structs.get(id as usize) {
        Some(d) => put_def(text, d),
        None => put(text, b"struct ?"),
    }
}

/// Puts a type behind a text: from the outside in, with `const` in front of what is so. A structure without a tag has a question mark.
#[cycle(types)]
pub fn put_type(
    text: &mut Vec<u8>,
    alloc: Global,
    structs: &[StructDef],
    t: &CType,
) -> Result<(), NoMemory>
    ensures { OnOk result (text.new.items ≡ text.old.items ++ spec.type_text structs.now t.now) }
{
    match t {
        CType::Void(c) => {
            put(text, const_word(*c))?;
            put(text, b"void")
        }
        CType::Int(k, c) => {
            put(text, const_word(*c))?;
            put(text, int_name(*k))
        }
        CType::Pointer(target, c) => {
            put(text, const_word(*c))?;
            put(text, b"pointer to ")?;
            put_type(text, alloc, structs, target.get())
        }
        CType::Array(element, n) => {
            put(text, b"array ")?;
            put_decimal(text, alloc, *n)?;
            put(text, b" of ")?;
            put_type(text, alloc, structs, element.get())
        }
        CType::Struct(id, c) => {
            put(text, const_word(*c))?;
            put_struct(text, structs, *id)
        }
        CType::Function(s) => put_signature(text, alloc, structs, s.get()),
    }
}

#[cycle(types)]
fn put_signature(
    text: &mut Vec<u8>,
    alloc: Global,
    structs: &[StructDef],
    s: &Signature,
) -> Result<(), NoMemory>
    ensures { OnOk result (text.new.items ≡ text.old.items ++ spec.signature_text structs.now s.now) }
{
    put(text, b"function (")?;
    put_parameters(text, alloc, structs, s.params.as_slice(), s.variadic)?;
    put(text, b") giving ")?;
    put_type(text, alloc, structs, &s.result)
}

#[cycle(types)]
fn put_parameters(
    text: &mut Vec<u8>,
    alloc: Global,
    structs: &[StructDef],
    params: &[CType],
    variadic: bool,
) -> Result<(), NoMemory>
    ensures { OnOk result (text.new.items ≡ text.old.items ++ spec.parameters_text variadic (map (spec.type_text structs.now) params.now)) }
{
    if params.is_empty() {
        return put(text, b"void");
    }
    put_listed(text, alloc, structs, params)?;
    put_last(text, variadic)
}

#[cycle(types)]
fn put_listed(
    text: &mut Vec<u8>,
    alloc: Global,
    structs: &[StructDef],
    params: &[CType],
) -> Result<(), NoMemory>
    ensures { OnOk result (text.new.items ≡ text.old.items ++ spec.listed true (map (spec.type_text structs.now) params.now)) }
{
    let mut first = true;
    for p in params {
        put_separator(text, first)?;
        put_type(text, alloc, structs, p)?;
        first = false;
    }
    Ok(())
}

fn put_separator(text: &mut Vec<u8>, first: bool) -> Result<(), NoMemory>
    ensures { OnOk result (text.new.items ≡ text.old.items ++ spec.separator first) }
{
    if first { Ok(()) } else { put(text, b", ") }
}

fn put_last(text: &mut Vec<u8>, variadic: bool) -> Result<(), NoMemory>
    ensures { OnOk result (text.new.items ≡ text.old.items ++ spec.last_text variadic) }
{
    if variadic {
        put(text, b", ...")
    } else {
        Ok(())
    }
}
