// The places in declarations.
ghost use Rattle.std.specs.Prelude.{◌≡◌, OnOk, map};
ghost use Rattle.sc_xref.specs.Walks as spec;

use crate::expressions::{walk_declarator, walk_expr, walk_words};
use crate::walk::{PlaceKind, Walk};
use sc_base::{Name, NoMemory};
use sc_tree::{
    Declaration, Derivation, Identifier, InitDeclarator, Initializer, Specifiers, Storage, TypeWord,
};
use std::alloc::Global;

fn is_among(functions: &[Name], name: &Name) -> bool
    ensures { result ≡ spec.list_has functions.now name.now }
{
    functions.iter().any(|f| *f == *name)
}

// Whether the type words are the name of a type of functions.
fn words_name(functions: &[Name], words: &[TypeWord]) -> bool
    ensures { result ≡ spec.words_name functions.now words.now }
{
    match words {
        [TypeWord::Typedef(_, name)] => is_among(functions, name),
        _ => false,
    }
}

// Whether a declarator with these steps declares a function.
fn is_function(functions: &[Name], words: &[TypeWord], steps: &[Derivation]) -> bool
    ensures { result ≡ spec.is_function functions.now words.now steps.now }
{
    match steps {
        [] => words_name(functions, words),
        [Derivation::Function, ..] => true,
        [Derivation::Prototype(_), ..] => true,
        _ => false,
    }
}

// What a declarator at file scope is: an object is defined where it is not `extern` or has an initialiser.
fn kind_of(function: bool, class: Option<Storage>, written: bool) -> PlaceKind
    ensures { result ≡ spec.kind_of function class written }
{
    match (function, class) {
        (true, _) => PlaceKind::Decl,
        (false, Some(Storage::Extern)) => if written {
            PlaceKind::Def
        } else {
            PlaceKind::Decl
        },
        (false, _) => PlaceKind::Def,
    }
}

#[cycle(initializers)]
fn walk_initializer(walk: &mut Walk, alloc: Global, i: &Initializer) -> Result<(), NoMemory>
    ensures { OnOk result (walk.new ≡ spec.initializer_walk i.now walk.old) }
{
    match i {
        Initializer::Expression(_, e) => walk_expr(walk, alloc, e.get()),
        Initializer::List(_, items) => walk_initializers(walk, alloc, items.as_slice()),
    }
}

#[cycle(initializers)]
fn walk_initializers(walk: &mut Walk, alloc: Global, items: &[Initializer]) -> Result<(), NoMemory>
    ensures { OnOk result (walk.new ≡ spec.steps (map spec.initializer_walk items.now) walk.old) }
{
    for i in items {
        walk_initializer(walk, alloc, i)?;
    }
    Ok(())
}

fn walk_written(walk: &mut Walk, alloc: Global, i: &Option<Initializer>) -> Result<(), NoMemory>
    ensures { OnOk result (walk.new ≡ spec.initialized_if i.now walk.old) }
{
    match i {
        Some(i) => walk_initializer(walk, alloc, i),
        None => Ok(()),
    }
}

/// A place of this kind, where a declarator has a name.
pub fn put_if(
    walk: &mut Walk,
    alloc: Global,
    id: &Option<Identifier>,
    kind: PlaceKind,
) -> Result<(), NoMemory>
    ensures { OnOk result (walk.new ≡ spec.put_if id.now kind walk.old) }
{
    match id {
        Some(id) => walk.put(alloc, &id.name, kind, id.line),
        None => Ok(()),
    }
}

fn see_if(
    walk: &mut Walk,
    alloc: Global,
    shown: bool,
    id: &Option<Identifier>,
) -> Result<(), NoMemory>
    ensures { OnOk result (walk.new ≡ spec.see_if shown id.now walk.old) }
{
    match id {
        Some(id) => walk.see(alloc, shown, &id.name),
        None => Ok(()),
    }
}

fn keep_if(
    walk: &mut Walk,
    alloc: Global,
    function: bool,
    id: &Option<Identifier>,
) -> Result<(), NoMemory>
    ensures { OnOk result (walk.new ≡ spec.keep_if function id.now walk.old) }
{
    match id {
        Some(id) => if function {
            walk.keep(alloc, &id.name)
        } else {
            Ok(())
        },
        None => Ok(()),
    }
}

// ---- in a block

fn walk_in_block(
    walk: &mut Walk,
    alloc: Global,
    class: Option<Storage>,
    d: &InitDeclarator,
) -> Result<(), NoMemory>
    ensures { OnOk result (walk.new ≡ spec.in_block class d.now walk.old) }
{
    match class {
        Some(Storage::Typedef) => walk_declarator(walk, alloc, &d.declarator),
        Some(Storage::Extern) => {
            put_if(walk, alloc, &d.declarator.identifier, PlaceKind::Decl)?;
            walk_declarator(walk, alloc, &d.declarator)?;
            see_if(walk, alloc, true, &d.declarator.identifier)?;
            walk_written(walk, alloc, &d.initializer)
        }
        _ => {
            walk_declarator(walk, alloc, &d.declarator)?;
            see_if(walk, alloc, false, &d.declarator.identifier)?;
            walk_written(walk, alloc, &d.initializer)
        }
    }
}

fn walk_all_in_block(
    walk: &mut Walk,
    alloc: Global,
    class: Option<Storage>,
    ds: &[InitDeclarator],
) -> Result<(), NoMemory>
    ensures { OnOk result (walk.new ≡ spec.steps (map (spec.in_block class) ds.now) walk.old) }
{
    for d in ds {
        walk_in_block(walk, alloc, class, d)?;
    }
    Ok(())
}

fn walk_block_declaration(walk: &mut Walk, alloc: Global, d: &Declaration) -> Result<(), NoMemory>
    ensures { OnOk result (walk.new ≡ spec.block_declaration d.now walk.old) }
{
    walk_words(walk, alloc, d.specifiers.words.as_slice())?;
    walk_all_in_block(walk, alloc, d.specifiers.storage, d.declarators.as_slice())
}

/// The declarations of a block.
pub fn walk_block_declarations(
    walk: &mut Walk,
    alloc: Global,
    ds: &[Declaration],
) -> Result<(), NoMemory>
    ensures { OnOk result (walk.new ≡ spec.steps (map spec.block_declaration ds.now) walk.old) }
{
    for d in ds {
        walk_block_declaration(walk, alloc, d)?;
    }
    Ok(())
}

// ---- at file scope

fn walk_in_file(
    walk: &mut Walk,
    alloc: Global,
    s: &Specifiers,
    d: &InitDeclarator,
) -> Result<(), NoMemory>
    ensures { OnOk result (walk.new ≡ spec.file_declarator s.now d.now walk.old) }
{
    let function = is_function(
        walk.functions.as_slice(),
        s.words.as_slice(),
        d.declarator.derivations.as_slice(),
    );
    match s.storage {
        Some(Storage::Typedef) => {
            walk_declarator(walk, alloc, &d.declarator)?;
            keep_if(walk, alloc, function, &d.declarator.identifier)
        }
        class => {
            let kind = kind_of(function, class, d.initializer.is_some());
            put_if(walk, alloc, &d.declarator.identifier, kind)?;
            walk_declarator(walk, alloc, &d.declarator)?;
            walk_written(walk, alloc, &d.initializer)
        }
    }
}

fn walk_all_in_file(
    walk: &mut Walk,
    alloc: Global,
    s: &Specifiers,
    ds: &[InitDeclarator],
) -> Result<(), NoMemory>
    ensures { OnOk result (walk.new ≡ spec.steps (map (spec.file_declarator s.now) ds.now) walk.old) }
{
    for d in ds {
        walk_in_file(walk, alloc, s, d)?;
    }
    Ok(())
}

/// A declaration at file scope.
pub fn walk_file_declaration(
    walk: &mut Walk,
    alloc: Global,
    d: &Declaration,
) -> Result<(), NoMemory>
    ensures { OnOk result (walk.new ≡ spec.file_declaration d.now walk.old) }
{
    walk_words(walk, alloc, d.specifiers.words.as_slice())?;
    walk_all_in_file(walk, alloc, &d.specifiers, d.declarators.as_slice())
}
