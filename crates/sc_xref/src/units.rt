// The places of a unit.
ghost use Rattle.std.specs.Prelude.{◌≡◌, IfOk, OnOk, map};
ghost use Rattle.sc_xref.specs.Walks as spec;

use crate::declarations::{put_if, walk_block_declarations, walk_file_declaration};
use crate::expressions::{walk_derivations, walk_first, walk_words};
use crate::statements::walk_statements;
use crate::walk::{Place, PlaceKind, Walk};
use sc_base::{Items, NoMemory};
use sc_tree::{Block, Derivation, External, Function, Unit};
use std::alloc::Global;

// The steps of a definition's declarator: its parameters hide up to the end of its body.
fn walk_definition(walk: &mut Walk, alloc: Global, steps: &[Derivation]) -> Result<(), NoMemory>
    ensures { OnOk result (walk.new ≡ spec.definition_walk steps.now walk.old) }
{
    match steps {
        [] => Ok(()),
        [first, later @ ..] => {
            walk_first(walk, alloc, first)?;
            walk_derivations(walk, alloc, later)
        }
    }
}

fn walk_body(walk: &mut Walk, alloc: Global, b: &Block) -> Result<(), NoMemory>
    ensures { OnOk result (walk.new ≡ spec.body_walk b.now walk.old) }
{
    walk_block_declarations(walk, alloc, b.declarations.as_slice())?;
    walk_statements(walk, alloc, b.statements.as_slice())
}

fn walk_function(walk: &mut Walk, alloc: Global, f: &Function) -> Result<(), NoMemory>
    ensures { OnOk result (walk.new ≡ spec.function_walk f.now walk.old) }
{
    walk_words(walk, alloc, f.specifiers.words.as_slice())?;
    put_if(walk, alloc, &f.declarator.identifier, PlaceKind::Def)?;
    let before = walk.names.len();
    walk_definition(walk, alloc, f.declarator.derivations.as_slice())?;
    walk_body(walk, alloc, &f.body)?;
    walk.names.truncate(before);
    Ok(())
}

fn walk_external(walk: &mut Walk, alloc: Global, item: &External) -> Result<(), NoMemory>
    ensures { OnOk result (walk.new ≡ spec.external_walk item.now walk.old) }
{
    match item {
        External::Function(f) => walk_function(walk, alloc, f),
        External::Declaration(d) => walk_file_declaration(walk, alloc, d),
    }
}

fn walk_externals(walk: &mut Walk, alloc: Global, items: &[External]) -> Result<(), NoMemory>
    ensures { OnOk result (walk.new ≡ spec.steps (map spec.external_walk items.now) walk.old) }
{
    for item in items {
        walk_external(walk, alloc, item)?;
    }
    Ok(())
}

/// Where a unit has the names of its functions and objects of the file: its declarators at file scope, those that are `extern` in a block,
/// and each primary name in an expression that no parameter and no declaration of a block hides. They stand in the order of the text;
/// of a declarator the name comes first. The names of typedefs, tags, members, labels and enumeration constants have no places.
///
/// # Errors
///
/// `NoMemory` alone.
pub fn places_of(alloc: Global, unit: &Unit) -> Result<Items<Place>, NoMemory>
    ensures { IfOk result (λ places. places ≡ spec.places_of unit.now.items) }
{
    let mut walk = Walk::nothing(alloc);
    walk_externals(&mut walk, alloc, unit.items.as_slice())?;
    let Walk {
        names,
        functions,
        places,
    } = walk;
    drop(names);
    drop(functions);
    Ok(places)
}
