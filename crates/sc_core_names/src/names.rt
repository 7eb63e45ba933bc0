// The names that declarations put into a scope.
ghost use Rattle.std.specs.Prelude.{◌≡◌, ◌++◌, ◌∷◌, [], map, OnOk};
ghost use Rattle.sc_core_names.specs.Names as spec;

use crate::table::{DeclaredName, Entity};
use sc_base::{Duplicate, Name, NoMemory};
use sc_tree::{
    Declaration, Declarator, Derivation, Enumerator, InitDeclarator, Member, Parameter, Specifiers,
    Storage, TypeWord,
};
use std::alloc::Global;

fn put_name(
    names: &mut Vec<DeclaredName>,
    alloc: Global,
    entity: Entity,
    name: &Name,
) -> Result<(), NoMemory>
    ensures { OnOk result (names.new.items ≡ names.old.items ++ record { name = name.now; entity = entity } ∷ []) }
{
    let name = name.copy(alloc)?;
    names.push(DeclaredName { name, entity })?;
    Ok(())
}

// ---- enumeration constants

fn put_constants(
    names: &mut Vec<DeclaredName>,
    alloc: Global,
    items: &[Enumerator],
) -> Result<(), NoMemory>
    ensures { OnOk result (names.new.items ≡ names.old.items ++ map spec.constant items.now) }
{
    for item in items {
        put_name(names, alloc, Entity::NoObject, &item.name)?;
    }
    Ok(())
}

#[cycle(constants)]
fn put_word(names: &mut Vec<DeclaredName>, alloc: Global, word: &TypeWord) -> Result<(), NoMemory>
    ensures { OnOk result (names.new.items ≡ names.old.items ++ spec.constants_of_word word.now) }
{
    match word {
        TypeWord::Struct(_, _, _, members) => put_members(names, alloc, members.as_slice()),
        TypeWord::Enum(_, _, items) => put_constants(names, alloc, items.as_slice()),
        _ => Ok(()),
    }
}

#[cycle(constants)]
fn put_members(
    names: &mut Vec<DeclaredName>,
    alloc: Global,
    members: &[Member],
) -> Result<(), NoMemory>
    ensures { OnOk result (names.new.items ≡ names.old.items ++ spec.joined (map spec.constants_of_member members.now)) }
{
    for m in members {
        put_specifiers(names, alloc, &m.specifiers)?;
    }
    Ok(())
}

/// The enumeration constants that specifiers declare, those inside structures and unions among them.
#[cycle(constants)]
pub fn put_specifiers(
    names: &mut Vec<DeclaredName>,
    alloc: Global,
    list: &Specifiers,
) -> Result<(), NoMemory>
    ensures { OnOk result (names.new.items ≡ names.old.items ++ spec.constants_of list.now) }
{
    for word in list.words.as_slice() {
        put_word(names, alloc, word)?;
    }
    Ok(())
}

// ---- declarators

/// The name of a declarator, where it has one.
pub fn put_declarator(
    names: &mut Vec<DeclaredName>,
    alloc: Global,
    entity: Entity,
    d: &Declarator,
) -> Result<(), NoMemory>
    ensures { OnOk result (names.new.items ≡ names.old.items ++ spec.named entity d.now) }
{
    match &d.identifier {
        Some(id) => put_name(names, alloc, entity, &id.name),
        None => Ok(()),
    }
}

fn put_declarators(
    names: &mut Vec<DeclaredName>,
    alloc: Global,
    entity: Entity,
    declarators: &[InitDeclarator],
) -> Result<(), NoMemory>
    ensures { OnOk result (names.new.items ≡ names.old.items ++ spec.joined (map (spec.name_of entity) declarators.now)) }
{
    for d in declarators {
        put_declarator(names, alloc, entity, &d.declarator)?;
    }
    Ok(())
}

// ---- declarations

fn put_declared(
    names: &mut Vec<DeclaredName>,
    alloc: Global,
    entity: Entity,
    d: &Declaration,
) -> Result<(), NoMemory>
    ensures { OnOk result (names.new.items ≡ names.old.items ++ spec.declares entity d.now) }
{
    put_specifiers(names, alloc, &d.specifiers)?;
    put_declarators(names, alloc, entity, d.declarators.as_slice())
}

fn block_entity(storage: Option<Storage>) -> Entity
    ensures { result ≡ spec.block_entity storage }
{
    match storage {
        Some(Storage::Typedef) => Entity::NoObject,
        Some(Storage::Static) => Entity::Static,
        _ => Entity::Declared,
    }
}

fn file_entity(storage: Option<Storage>) -> Entity
    ensures { result ≡ spec.file_entity storage }
{
    match storage {
        Some(Storage::Typedef) => Entity::NoObject,
        _ => Entity::Declared,
    }
}

/// The names that a declaration of a block declares.
pub fn put_in_block(
    names: &mut Vec<DeclaredName>,
    alloc: Global,
    d: &Declaration,
) -> Result<(), NoMemory>
    ensures { OnOk result (names.new.items ≡ names.old.items ++ spec.block_names d.now) }
{
    put_declared(names, alloc, block_entity(d.specifiers.storage), d)
}

/// The names that a declaration at file scope declares.
pub fn put_in_file(
    names: &mut Vec<DeclaredName>,
    alloc: Global,
    d: &Declaration,
) -> Result<(), NoMemory>
    ensures { OnOk result (names.new.items ≡ names.old.items ++ spec.file_names d.now) }
{
    put_declared(names, alloc, file_entity(d.specifiers.storage), d)
}

// ---- parameters

fn put_parameter(
    names: &mut Vec<DeclaredName>,
    alloc: Global,
    p: &Parameter,
) -> Result<(), NoMemory>
    ensures { OnOk result (names.new.items ≡ names.old.items ++ spec.parameter_names p.now) }
{
    put_specifiers(names, alloc, &p.specifiers)?;
    match &p.declarator {
        Some(d) => put_declarator(names, alloc, Entity::Declared, d),
        None => Ok(()),
    }
}

fn put_parameters(
    names: &mut Vec<DeclaredName>,
    alloc: Global,
    parameters: &[Parameter],
) -> Result<(), NoMemory>
    ensures { OnOk result (names.new.items ≡ names.old.items ++ spec.joined (map spec.parameter_names parameters.now)) }
{
    for p in parameters {
        put_parameter(names, alloc, p)?;
    }
    Ok(())
}

fn put_step(names: &mut Vec<DeclaredName>, alloc: Global, step: &Derivation) -> Result<(), NoMemory>
    ensures { OnOk result (names.new.items ≡ names.old.items ++ spec.first_parameters (step.now ∷ [])) }
{
    match step {
        Derivation::Prototype(parameters) => put_parameters(names, alloc, parameters.as_slice()),
        _ => Ok(()),
    }
}

/// The parameters of a function's definition.
pub fn put_first(
    names: &mut Vec<DeclaredName>,
    alloc: Global,
    steps: &[Derivation],
) -> Result<(), NoMemory>
    ensures { OnOk result (names.new.items ≡ names.old.items ++ spec.first_parameters steps.now) }
{
    match steps {
        [] => Ok(()),
        [step, ..] => put_step(names, alloc, step),
    }
}
