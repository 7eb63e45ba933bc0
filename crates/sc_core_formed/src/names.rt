// What a module says of names.
ghost use Rattle.std.specs.Prelude.{◌≡◌, map, slice_get, IfOk};
ghost use Rattle.std.specs.Option.{option_copied, option_map};
ghost use Rattle.std.specs.Str.{bytes_eq};
ghost use Rattle.sc_core_formed.specs.Names as spec;

use indexmap::IndexSet;
use sc_base::{Bytes, Duplicate, Key, Name, NoMemory, Shared};
use sc_check_operand::is_function;
use sc_core::{Core, Declared, Fun, StaticObj};
use sc_core_needs::same;
use sc_types::CType;
use std::alloc::Global;

/// A module, with the places of the names that it declares and of its objects, and the allocator of tables that its laws want.
#[derive(Drop)]
pub(crate) struct Indexed<'a> {
    pub alloc: Global,
    pub core: &'a Core,
    pub declared: IndexSet<Key>,
    pub objects: IndexSet<Key>,
    pub funs: IndexSet<Name>,
    pub literals: IndexSet<Bytes>,
    ghost declared_keys: { declared.keys ≡ map (λ d. d.key) core.now.declared },
    ghost object_keys: { objects.keys ≡ map (λ x. x.key) core.now.objects },
    ghost function_names: { funs.keys ≡ map (λ f. f.name) core.now.funs },
    ghost literal_texts: { literals.keys ≡ core.now.literals },
}

fn declared_at(declared: &[Declared], i: usize) -> Option<&Declared>
    ensures { option_copied result ≡ slice_get declared.now i }
{
    match declared.get(i) {
        Some(d) => Some(d),
        None => None,
    }
}

fn object_at(objects: &[StaticObj], i: usize) -> Option<&StaticObj>
    ensures { option_copied result ≡ slice_get objects.now i }
{
    match objects.get(i) {
        Some(x) => Some(x),
        None => None,
    }
}

/// What the module says of a name with linkage.
pub(crate) fn declared_as<'a>(m: &'a Indexed<'_>, key: &Key) -> Option<&'a Declared>
    ensures { option_copied result ≡ spec.declared_as key.now m.now.core.now.declared }
{
    match m.declared.get_index_of(key) {
        Some(i) => declared_at(m.core.declared.as_slice(), i),
        None => None,
    }
}

/// The object of this name.
pub(crate) fn object_as<'a>(m: &'a Indexed<'_>, key: &Key) -> Option<&'a StaticObj>
    ensures { option_copied result ≡ spec.object_as key.now m.now.core.now.objects }
{
    match m.objects.get_index_of(key) {
        Some(i) => object_at(m.core.objects.as_slice(), i),
        None => None,
    }
}

fn fits_object(m: &Indexed, of: &CType, key: &Key) -> bool
    ensures { result ≡ spec.fits_object m.now.core.now.structs of.now (spec.object_as key.now m.now.core.now.objects) }
{
    match object_as(m, key) {
        Some(x) => same(&m.core.structs, of, &x.of),
        None => false,
    }
}

fn fits_declared(m: &Indexed, of: &CType, key: &Key) -> bool
    ensures { result ≡ spec.fits_declared m.now.core.now.structs of.now (spec.declared_as key.now m.now.core.now.declared) (spec.object_as key.now m.now.core.now.objects) }
{
    match declared_as(m, key) {
        Some(d) => same(&m.core.structs, of, &d.of),
        None => fits_object(m, of, key),
    }
}

/// Whether this is a name of an object, with a compatible type.
pub(crate) fn is_static(m: &Indexed, of: &CType, key: &Key) -> bool
    ensures { result ≡ spec.is_static m.now.core.now of.now key.now }
{
    !is_function(of) && fits_declared(m, of, key)
}

fn fits_function(m: &Indexed, of: &CType, key: &Key) -> bool
    ensures { result ≡ spec.fits_function m.now.core.now.structs of.now (spec.declared_as key.now m.now.core.now.declared) }
{
    match declared_as(m, key) {
        Some(d) => same(&m.core.structs, of, &d.of),
        None => false,
    }
}

/// Whether this is a name of a function, with a compatible type.
pub(crate) fn is_declared_function(m: &Indexed, of: &CType, key: &Key) -> bool
    ensures { result ≡ spec.is_declared_function m.now.core.now of.now key.now }
{
    is_function(of) && fits_function(m, of, key)
}

fn function_at(funs: &[Shared<Fun>], i: usize) -> Option<&Fun>
    ensures { option_copied result ≡ slice_get funs.now i }
{
    match funs.get(i) {
        Some(f) => Some(f.get()),
        None => None,
    }
}

/// The function of this name.
pub(crate) fn function_as<'a>(m: &'a Indexed<'_>, name: &Name) -> Option<&'a Fun>
    ensures { option_copied result ≡ spec.function_as name.now m.now.core.now.funs }
{
    match m.funs.get_index_of(name) {
        Some(i) => function_at(m.core.funs.as_slice(), i),
        None => None,
    }
}

/// Whether these bytes are a literal of the module.
pub(crate) fn is_literal_of(m: &Indexed, bytes: &Bytes) -> bool
    ensures { result ≡ spec.is_literal_of m.now.core.now.literals bytes.now }
{
    m.literals.contains(bytes)
}

/// Adds a key; the answer says whether it is new.
pub(crate) fn add_key(alloc: Global, keys: &mut IndexSet<Key>, key: &Key) -> Result<bool, NoMemory>
    ensures { IfOk result (λ new. spec.Adds spec.key_eq key.now keys.old.keys keys.new.keys new) }
{
    let key = key.copy(alloc)?;
    let new = keys.insert(key)?;
    Ok(new)
}

fn add_name(alloc: Global, names: &mut IndexSet<Name>, name: &Name) -> Result<bool, NoMemory>
    ensures { IfOk result (λ new. spec.Adds bytes_eq name.now names.old.keys names.new.keys new) }
{
    let name = name.copy(alloc)?;
    match names.insert(name) {
        Ok(new) => Ok(new),
        Err(_) => Err(NoMemory),
    }
}

pub(crate) fn add_text(
    alloc: Global,
    texts: &mut IndexSet<Bytes>,
    text: &Bytes,
) -> Result<bool, NoMemory>
    ensures { IfOk result (λ new. spec.Adds bytes_eq text.now texts.old.keys texts.new.keys new) }
{
    let text = text.copy(alloc)?;
    match texts.insert(text) {
        Ok(new) => Ok(new),
        Err(_) => Err(NoMemory),
    }
}

/// Adds a value of a label, none for `default`; the answer says whether it is new.
pub(crate) fn add_value(
    values: &mut IndexSet<Option<u32>>,
    value: Option<u32>,
) -> Result<bool, NoMemory>
    ensures { IfOk result (λ new. spec.Adds spec.value_eq value values.old.keys values.new.keys new) }
{
    match values.insert(value) {
        Ok(new) => Ok(new),
        Err(_) => Err(NoMemory),
    }
}

/// The keys of the declarations, where they are distinct.
pub(crate) fn declared_keys(
    alloc: Global,
    declared: &[Declared],
) -> Result<Option<IndexSet<Key>>, NoMemory>
    ensures { IfOk result (λ r. spec.Indexes spec.key_eq (map (λ d. d.key) declared.now) (option_map (λ s. s.keys) r)) }
{
    let mut keys = IndexSet::new(alloc);
    for d in declared {
        if !add_key(alloc, &mut keys, &d.key)? {
            return Ok(None);
        }
    }
    Ok(Some(keys))
}

/// The keys of the objects, where they are distinct.
pub(crate) fn object_keys(
    alloc: Global,
    objects: &[StaticObj],
) -> Result<Option<IndexSet<Key>>, NoMemory>
    ensures { IfOk result (λ r. spec.Indexes spec.key_eq (map (λ x. x.key) objects.now) (option_map (λ s. s.keys) r)) }
{
    let mut keys = IndexSet::new(alloc);
    for x in objects {
        if !add_key(alloc, &mut keys, &x.key)? {
            return Ok(None);
        }
    }
    Ok(Some(keys))
}

/// The names of the functions, where they are distinct.
pub(crate) fn function_names(
    alloc: Global,
    funs: &[Shared<Fun>],
) -> Result<Option<IndexSet<Name>>, NoMemory>
    ensures { IfOk result (λ r. spec.Indexes bytes_eq (map (λ f. f.name) funs.now) (option_map (λ s. s.keys) r)) }
{
    let mut names = IndexSet::new(alloc);
    for f in funs {
        if !add_name(alloc, &mut names, &f.get().name)? {
            return Ok(None);
        }
    }
    Ok(Some(names))
}

/// The literals, where they are distinct.
pub(crate) fn literal_texts(
    alloc: Global,
    literals: &[Bytes],
) -> Result<Option<IndexSet<Bytes>>, NoMemory>
    ensures { IfOk result (λ r. spec.Indexes bytes_eq literals.now (option_map (λ s. s.keys) r)) }
{
    let mut texts = IndexSet::new(alloc);
    for text in literals {
        if !add_text(alloc, &mut texts, text)? {
            return Ok(None);
        }
    }
    Ok(Some(texts))
}
