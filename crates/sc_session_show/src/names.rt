// What a name stands for where a run stopped.
ghost use Rattle.std.specs.Prelude.{◌≡◌, ◌==◌, IfOk, MatchOption, None, Some, take};
ghost use Rattle.sc_session_show.specs.Frames.{text_numbered as at_number};
ghost use Rattle.sc_session_show.specs.Visible as spec;
ghost use Rattle.sc_meaning.specs.Versions.{object_in as defined_in};
ghost use Rattle.sc_types.specs.Compatibility.{compatible as compatible_types};
ghost use Rattle.sc_program.specs.declared.storage.StaticId.TheVariants.{Named as Id};

use crate::contents::object_text;
use crate::frames::{put_line, text_numbered};
use crate::places::{Place, autos_in, place_in};
use crate::tasks::Scene;
use sc_base::{Bytes, Duplicate, Items, Key, Name, NoMemory};
use sc_core::{Auto, Core, Declared, Fun, StaticObj};
use sc_core_held::{Definition, Text, object_in};
use sc_core_names::{
    DeclaredName, Entity, FunctionScopes, Scopes, entity_in, function_named, statics_named,
};
use sc_interp_world::{Born, Frame, World, same_id};
use sc_program::StaticId;
use sc_session_texts::{put, put_decimal};
use sc_types::{CType, Structs, compatible};
use std::alloc::Global;
use std::marker::Model;

/// An object that a name stands for: its number, its type, and the structures of the text that gave the type.
#[derive(Drop)]
pub struct Seen<'a> {
    pub object: u32,
    pub of: &'a CType,
    pub structs: &'a Structs,
}

impl<'a> Model for Seen<'a> {
    ghost use Rattle.std.specs.Coded.{codes};
    ghost use Rattle.sc_types.specs.contracts.ctype.CType as types;
    ghost use Rattle.sc_types.specs.contracts.ctype.Signature as signatures;
    ghost use Rattle.sc_session_show.specs.Visible as spec;

    ghost Value = { spec.Seen };

    ghost coded = { Prim.hlevel (codes, types.the_row.coded, signatures.the_row.coded) };

    ghost view = { λ s. record { object = s.object; of = s.of.now; structs = s.structs.now } };
}

// An object of a block, and its type.
#[derive(Drop)]
struct Local<'a> {
    object: u32,
    of: &'a CType,
}

impl<'a> Model for Local<'a> {
    ghost use Rattle.std.specs.Coded.{codes};
    ghost use Rattle.sc_types.specs.contracts.ctype.CType as types;
    ghost use Rattle.sc_types.specs.contracts.ctype.Signature as signatures;
    ghost use Rattle.sc_session_show.specs.Visible as spec;

    ghost Value = { spec.Local };

    ghost coded = { Prim.hlevel (codes, types.the_row.coded, signatures.the_row.coded) };

    ghost view = { λ l. record { object = l.object; of = l.of.now } };
}

/// A name of a static object, and its type.
#[derive(Drop)]
pub(crate) struct Linked<'a> {
    pub(crate) key: &'a Key,
    pub(crate) of: &'a CType,
}

impl<'a> Model for Linked<'a> {
    ghost use Rattle.std.specs.Coded.{codes};
    ghost use Rattle.sc_types.specs.contracts.ctype.CType as types;
    ghost use Rattle.sc_types.specs.contracts.ctype.Signature as signatures;
    ghost use Rattle.sc_session_show.specs.Visible as spec;

    ghost Value = { spec.Linked };

    ghost coded = { Prim.hlevel (codes, types.the_row.coded, signatures.the_row.coded) };

    ghost view = { λ l. record { key = l.key.now; of = l.of.now } };
}

// The object of a block that has this name.
fn local_in<'a>(name: &Name, autos: &'a [Auto], ids: &[u32]) -> Option<Local<'a>>
    ensures { result ≡ spec.local_in name.now autos.now ids.now }
{
    let mut rest = ids;
    for a in autos {
        let [id, more @ ..] = rest else { return None };
        if a.name == *name {
            return Some(Local {
                object: *id,
                of: &a.of,
            });
        }
        rest = more;
    }
    None
}

// An object of a block, where what it declares under the name is one.
fn local_as<'a>(g: &'a Fun, name: &Name, b: &Born, entity: Entity) -> Option<Local<'a>>
    ensures { result ≡ spec.local_as g.now name.now b.now entity }
{
    match entity {
        Entity::Declared => local_in(name, autos_in(g, b), b.ids.as_slice()),
        Entity::NoObject => None,
        Entity::Static => None,
    }
}

fn local_of<'a>(g: &'a Fun, name: &Name, place: &Option<Place<'_>>) -> Option<Local<'a>>
    ensures { result ≡ spec.local_of g.now name.now place.now }
{
    match place {
        None => None,
        Some(p) => local_as(g, name, p.block, p.entity),
    }
}

// The name of a function's own static object.
fn own_name(alloc: Global, function: &Name, name: &Name, k: u32) -> Result<Vec<u8>, NoMemory>
    ensures { IfOk result (λ own. own.items ≡ spec.own_name function.now name.now k) }
{
    let mut own = Vec::new(alloc);
    put(&mut own, function.as_slice())?;
    put(&mut own, b".")?;
    put(&mut own, name.as_slice())?;
    put(&mut own, b".")?;
    put_decimal(&mut own, alloc, k)?;
    Ok(own)
}

fn own_static<'a>(own: &[u8], objects: &'a [StaticObj]) -> Option<Linked<'a>>
    ensures { result ≡ spec.own_static own.now objects.now }
{
    for o in objects {
        if o.key.name.as_slice() == own {
            return Some(Linked {
                key: &o.key,
                of: &o.of,
            });
        }
    }
    None
}

fn declared_static<'a>(name: &Name, declared: &'a [Declared]) -> Option<Linked<'a>>
    ensures { result ≡ spec.declared_static name.now declared.now }
{
    for d in declared {
        if d.key.name == *name {
            return Some(Linked {
                key: &d.key,
                of: &d.of,
            });
        }
    }
    None
}

// The first scopes, or all.
fn first_scopes(scopes: &[Items<DeclaredName>], n: u32) -> &[Items<DeclaredName>]
    ensures { result.now ≡ take n scopes.now }
{
    let n = n as usize;
    if n >= scopes.len() {
        return scopes;
    }
    &scopes[..n]
}

fn first_names(names: &[DeclaredName], n: usize) -> &[DeclaredName]
    ensures { result.now ≡ take n names.now }
{
    if n >= names.len() {
        return names;
    }
    &names[..n]
}

// The static object that a block declares under a name.
fn static_of<'a>(
    alloc: Global,
    core: &'a Core,
    s: &FunctionScopes,
    name: &Name,
    block: u32,
) -> Result<Option<Linked<'a>>, NoMemory>
    ensures { IfOk result (λ l. l ≡ spec.static_of core.now s.now name.now block) }
{
    let k = statics_named(name, first_scopes(s.blocks.as_slice(), block))?;
    let own = own_name(alloc, &s.name, name, k)?;
    Ok(own_static(own.as_slice(), core.objects.as_slice()))
}

fn linked_as<'a>(
    alloc: Global,
    core: &'a Core,
    s: &FunctionScopes,
    name: &Name,
    b: &Born,
    entity: Entity,
) -> Result<Option<Linked<'a>>, NoMemory>
    ensures { IfOk result (λ l. l ≡ spec.linked_as core.now s.now name.now b.now entity) }
{
    match entity {
        Entity::NoObject => Ok(None),
        Entity::Static => static_of(alloc, core, s, name, b.block),
        Entity::Declared => Ok(declared_static(name, core.declared.as_slice())),
    }
}

/// What the module declares with linkage under a name, where a scope has it for such.
pub(crate) fn linked_if<'a>(
    core: &'a Core,
    name: &Name,
    entity: Option<Entity>,
) -> Option<Linked<'a>>
    ensures { result ≡ spec.linked_if core.now name.now entity }
{
    match entity {
        Some(Entity::Declared) => declared_static(name, core.declared.as_slice()),
        _ => None,
    }
}

// A name of static storage duration: of a block, else of the file.
fn linked_of<'a>(
    alloc: Global,
    core: &'a Core,
    file: &[DeclaredName],
    s: &FunctionScopes,
    name: &Name,
    place: &Option<Place<'_>>,
) -> Result<Option<Linked<'a>>, NoMemory>
    ensures { IfOk result (λ l. l ≡ spec.linked_of core.now file.now s.now name.now place.now) }
{
    match place {
        None => Ok(linked_if(core, name, entity_in(first_names(file, s.before), name))),
        Some(p) => linked_as(alloc, core, s, name, p.block, p.entity),
    }
}

fn is_waiting(waiting: &[StaticId], id: &StaticId) -> bool
    ensures { result ≡ spec.is_waiting waiting.now id.now }
{
    for other in waiting {
        if same_id(other, id) {
            return true;
        }
    }
    false
}

// Whether a name of this type may stand for an object that a text defines.
fn fits(t: &Text, of: &CType, text: &Text, object: &StaticObj) -> bool
    ensures { result ≡ compatible_types of.now t.now.core.structs object.now.of text.now.core.structs (t.now.number == text.now.number) }
{
    compatible(
        of,
        &t.core.get().structs,
        &object.of,
        &text.core.get().structs,
        t.number == text.number,
    )
}

fn born_as<'a>(text: &'a Text, object: &'a StaticObj, id: Option<u32>) -> Option<Seen<'a>>
    ensures { result ≡ spec.born_as (record { text = text.now; object = object.now }) id }
{
    match id {
        None => None,
        Some(id) => Some(Seen {
            object: id,
            of: &object.of,
            structs: &text.core.get().structs,
        }),
    }
}

// A static object by its present definition.
fn defined_as<'a>(
    t: &Text,
    present: &'a [Text],
    world: &World,
    key: &Key,
    of: &CType,
    id: &StaticId,
) -> Option<Seen<'a>>
    requires { id.now ≡ Id key.now }
    ensures { result ≡ spec.defined_as t.now world.now (record { key = key.now; of = of.now }) (defined_in present.now key.now) }
{
    match object_in(present, key) {
        None => None,
        Some(Definition { text, object }) => {
            if fits(t, of, text, object) {
                born_as(text, object, world.named(id))
            } else {
                None
            }
        }
    }
}

fn static_seen<'a>(
    alloc: Global,
    t: &Text,
    present: &'a [Text],
    waiting: &[StaticId],
    world: &World,
    key: &Key,
    of: &CType,
) -> Result<Option<Seen<'a>>, NoMemory>
    ensures { IfOk result (λ s. s ≡ spec.static_seen t.now present.now waiting.now world.now (Some (record { key = key.now; of = of.now }))) }
{
    let id = StaticId::Named(key.copy(alloc)?);
    if is_waiting(waiting, &id) {
        return Ok(None);
    }
    Ok(defined_as(t, present, world, key, of, &id))
}

fn local_seen<'a>(t: &'a Text, object: u32, of: &'a CType) -> Seen<'a>
    ensures { result ≡ record { object = object; of = of.now; structs = t.now.core.structs } }
{
    Seen {
        object,
        of,
        structs: &t.core.get().structs,
    }
}

fn static_in<'a>(
    alloc: Global,
    t: &'a Text,
    present: &'a [Text],
    waiting: &[StaticId],
    world: &World,
    name: &Name,
    file: &[DeclaredName],
    s: &FunctionScopes,
    place: &Option<Place<'_>>,
) -> Result<Option<Seen<'a>>, NoMemory>
    ensures { IfOk result (λ seen. seen ≡ spec.static_seen t.now present.now waiting.now world.now (spec.linked_of t.now.core file.now s.now name.now place.now)) }
{
    match linked_of(alloc, t.core.get(), file, s, name, place)? {
        None => Ok(None),
        Some(Linked { key, of }) => static_seen(alloc, t, present, waiting, world, key, of),
    }
}

// What a name stands for that is declared in this place.
fn seen_at<'a>(
    alloc: Global,
    present: &'a [Text],
    waiting: &[StaticId],
    world: &World,
    name: &Name,
    t: &'a Text,
    g: &'a Fun,
    file: &[DeclaredName],
    s: &FunctionScopes,
    place: &Option<Place<'_>>,
) -> Result<Option<Seen<'a>>, NoMemory>
    ensures { IfOk result (λ seen. seen ≡ spec.seen_at present.now waiting.now world.now name.now t.now g.now file.now s.now place.now) }
{
    match local_of(g, name, place) {
        Some(Local { object, of }) => Ok(Some(local_seen(t, object, of))),
        None => static_in(alloc, t, present, waiting, world, name, file, s, place),
    }
}

// What a name stands for in a call of a function of a text.
fn seen_by<'a>(
    alloc: Global,
    present: &'a [Text],
    waiting: &[StaticId],
    declaring: Option<u32>,
    world: &World,
    name: &Name,
    f: &Frame,
    t: &'a Text,
    g: &'a Fun,
    scopes: &Scopes,
) -> Result<Option<Seen<'a>>, NoMemory>
    ensures { IfOk result (λ seen. seen ≡ spec.seen_by present.now waiting.now declaring world.now name.now f.now t.now g.now scopes.now) }
{
    let file = scopes.file.as_slice();
    match function_named(scopes.functions.as_slice(), &f.key.name) {
        None => Ok(None),
        Some(s) => {
            let place = place_in(s, g, declaring, name, f.blocks.as_slice());
            seen_at(alloc, present, waiting, world, name, t, g, file, s, &place)
        }
    }
}

// What a name stands for in a call that runs a text.
fn seen_in_text<'a>(
    alloc: Global,
    present: &'a [Text],
    waiting: &[StaticId],
    scopes: &Scopes,
    declaring: Option<u32>,
    world: &World,
    name: &Name,
    f: &Frame,
    t: &'a Text,
) -> Result<Option<Seen<'a>>, NoMemory>
    ensures { IfOk result (λ s. s ≡ spec.seen_in_text present.now waiting.now scopes.now declaring world.now name.now f.now (Some t.now)) }
{
    match t.core.get().fun(&f.key.name) {
        None => Ok(None),
        Some(g) => seen_by(
            alloc, present, waiting, declaring, world, name, f, t, g, scopes,
        ),
    }
}

/// What a name stands for in the innermost call. The texts are those of the run by their numbers, and those of the present
/// version; a name for which an object waits to be born stands for none. The scopes are those of the module that the call runs;
/// where an object of the call is being initialised, it is given, and what its block declares behind it is not in scope yet.
pub fn visible<'a>(
    alloc: Global,
    held: &'a [Text],
    present: &'a [Text],
    waiting: &[StaticId],
    scopes: &Scopes,
    declaring: Option<u32>,
    world: &World,
    name: &Name,
) -> Result<Option<Seen<'a>>, NoMemory>
    ensures { IfOk result (λ s. s ≡ spec.visible held.now present.now waiting.now scopes.now declaring world.now name.now) }
{
    match world.innermost() {
        None => Ok(None),
        Some(f) => visible_in(
            alloc, held, present, waiting, scopes, declaring, world, name, f,
        ),
    }
}

// What a name stands for in a call.
fn visible_in<'a>(
    alloc: Global,
    held: &'a [Text],
    present: &'a [Text],
    waiting: &[StaticId],
    scopes: &Scopes,
    declaring: Option<u32>,
    world: &World,
    name: &Name,
    f: &Frame,
) -> Result<Option<Seen<'a>>, NoMemory>
    ensures { IfOk result (λ s. s ≡ spec.seen_in_text present.now waiting.now scopes.now declaring world.now name.now f.now (at_number held.now f.now.text)) }
{
    match text_numbered(held, f.text) {
        None => Ok(None),
        Some(t) => seen_in_text(
            alloc, present, waiting, scopes, declaring, world, name, f, t,
        ),
    }
}

fn printed<'a>(
    alloc: Global,
    world: &'a World,
    name: &Name,
    object: u32,
    of: &'a CType,
    structs: &'a Structs,
) -> Result<Bytes, NoMemory>
    ensures { IfOk result (λ text. Some text ≡ spec.print_text world.now name.now (Some (record { object = object; of = of.now; structs = structs.now }))) }
{
    let scene = Scene {
        world,
        structs,
        object,
    };
    let value = object_text(alloc, &scene, of)?;
    let mut said = Vec::new(alloc);
    put(&mut said, name.as_slice())?;
    put(&mut said, b" = ")?;
    put(&mut said, value.as_slice())?;
    let mut text = Vec::new(alloc);
    put_line(&mut text, said.as_slice())?;
    Ok(Bytes::from_vec(text))
}

/// The line that shows what a name stands for in a call, by the scopes of the module that it runs, where it is visible there.
pub fn print_line_in(
    alloc: Global,
    held: &[Text],
    present: &[Text],
    waiting: &[StaticId],
    scopes: &Scopes,
    declaring: Option<u32>,
    world: &World,
    name: &Name,
    f: &Frame,
) -> Result<Option<Bytes>, NoMemory>
    ensures { IfOk result (λ line. line ≡ spec.print_line_in held.now present.now waiting.now scopes.now declaring world.now name.now f.now) }
{
    match visible_in(
        alloc, held, present, waiting, scopes, declaring, world, name, f,
    )? {
        None => Ok(None),
        Some(
            Seen {
                object,
                of,
                structs,
            },
        ) => {
            let line = printed(alloc, world, name, object, of, structs)?;
            Ok(Some(line))
        }
    }
}

/// The line that shows what a name stands for in the innermost call, where it is visible there.
pub fn print_line(
    alloc: Global,
    held: &[Text],
    present: &[Text],
    waiting: &[StaticId],
    scopes: &Scopes,
    declaring: Option<u32>,
    world: &World,
    name: &Name,
) -> Result<Option<Bytes>, NoMemory>
    ensures { IfOk result (λ line. line ≡ spec.print_line held.now present.now waiting.now scopes.now declaring world.now name.now) }
{
    match visible(
        alloc, held, present, waiting, scopes, declaring, world, name,
    )? {
        None => Ok(None),
        Some(
            Seen {
                object,
                of,
                structs,
            },
        ) => {
            let line = printed(alloc, world, name, object, of, structs)?;
            Ok(Some(line))
        }
    }
}
