// Where a name is declared that is in scope in a call.
ghost use Rattle.std.specs.Prelude.{◌≡◌, [], None, slice_index_or};
ghost use Rattle.std.specs.Option.{option_map};
ghost use Rattle.sc_session_show.specs.Places as spec;

use sc_base::{Items, Name};
use sc_core::{Auto, Fun};
use sc_core_names::{DeclaredName, Entity, FunctionScopes, entity_in, entity_until};
use sc_interp_world::Born;
use std::marker::Model;

/// An open block that declares a name, and as what.
#[derive(Drop)]
pub(crate) struct Place<'a> {
    pub block: &'a Born,
    pub entity: Entity,
}

impl<'a> Model for Place<'a> {
    ghost use Rattle.sc_session_show.specs.Places as spec;

    ghost Value = { spec.Place };

    ghost view = { λ p. record { block = p.block.now; entity = p.entity } };
}

/// The objects that a function declares in a block.
pub(crate) fn autos_in<'a>(g: &'a Fun, b: &Born) -> &'a [Auto]
    ensures { result.now ≡ spec.autos_in g.now b.now }
{
    match g.blocks.as_slice().get(b.block as usize) {
        Some(autos) => autos.as_slice(),
        None => &[],
    }
}

fn scope_in<'a>(scopes: &'a [Items<DeclaredName>], b: &Born) -> &'a [DeclaredName]
    ensures { result.now ≡ slice_index_or scopes.now b.now.block [] }
{
    match scopes.get(b.block as usize) {
        Some(scope) => scope.as_slice(),
        None => &[],
    }
}

// The name of the object with a number, among the objects of a block that were born.
fn name_in<'a>(autos: &'a [Auto], ids: &[u32], object: u32) -> Option<&'a Name>
    ensures { option_map (λ name. name.now) result ≡ spec.name_in autos.now ids.now object }
{
    let mut rest = ids;
    for a in autos {
        let [id, more @ ..] = rest else { return None };
        if *id == object {
            return Some(&a.name);
        }
        rest = more;
    }
    None
}

// The name in a block whose object is being initialised.
fn last_in<'a>(autos: &'a [Auto], ids: &[u32], declaring: Option<u32>) -> Option<&'a Name>
    ensures { option_map (λ name. name.now) result ≡ spec.last_in autos.now ids.now declaring }
{
    match declaring {
        None => None,
        Some(object) => name_in(autos, ids, object),
    }
}

// What a name is in an open block.
fn entity_of(
    s: &FunctionScopes,
    g: &Fun,
    declaring: Option<u32>,
    name: &Name,
    b: &Born,
) -> Option<Entity>
    ensures { result ≡ spec.entity_of s.now g.now declaring name.now b.now }
{
    let scope = scope_in(s.blocks.as_slice(), b);
    match last_in(autos_in(g, b), b.ids.as_slice(), declaring) {
        None => entity_in(scope, name),
        Some(last) => entity_until(last, scope, name),
    }
}

/// The innermost of the open blocks that declares a name.
pub(crate) fn place_in<'a>(
    s: &FunctionScopes,
    g: &Fun,
    declaring: Option<u32>,
    name: &Name,
    blocks: &'a [Born],
) -> Option<Place<'a>>
    ensures { result ≡ spec.place_in s.now g.now declaring name.now None blocks.now }
{
    let mut found = None;
    for b in blocks {
        if let Some(entity) = entity_of(s, g, declaring, name, b) {
            found = Some(Place { block: b, entity });
        }
    }
    found
}
