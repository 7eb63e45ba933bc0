// What a checked module is.
ghost use Rattle.std.specs.Prelude.{◌≡◌, IfOk, map};
ghost use Rattle.sc_types.specs.declared.ctype.CType.{out-CType};
ghost use Rattle.sc_core_formed.specs.Names.{declared_as, function_as};
ghost use Rattle.sc_core_formed.specs.Modules as spec;

use crate::contents::{are_born, is_home, literals_end, objects};
use crate::frames::functions;
use crate::known::{is_known, table_known};
use crate::names::{
    Indexed, declared_as, declared_keys, function_as, function_names, literal_texts, object_as,
    object_keys,
};
use indexmap::IndexSet;
use sc_base::{Duplicate, Key, Name, NoMemory, Shared};
use sc_check_operand::is_function;
use sc_core::{Core, Declared, Fun};
use sc_core_needs::{alike, same, same_bool};
use sc_types::{CType, Signature, Structs};
use std::alloc::Global;

fn is_function_of(m: &Indexed, d: &Declared) -> bool
    ensures { result ≡ spec.is_function_of d.now.key (function_as d.now.key.name m.now.core.now.funs) }
{
    match function_as(m, &d.key.name) {
        Some(f) => same_bool(f.external, d.key.module.is_none()),
        None => false,
    }
}

/// Whether the module has the body or the contents of a name.
fn is_defined(m: &Indexed, d: &Declared) -> bool
    ensures { result ≡ spec.is_defined m.now.core.now d.now }
{
    if is_function(&d.of) {
        is_function_of(m, d)
    } else {
        object_as(m, &d.key).is_some()
    }
}

fn is_declaration(m: &Indexed, d: &Declared) -> bool
    ensures { result ≡ spec.is_declaration m.now.core.now d.now }
{
    is_known(&m.core.structs, &d.of)
        && is_home(m.core, &d.key)
        && same_bool(d.defined, is_defined(m, d))
}

fn declarations(m: &Indexed, declared: &[Declared]) -> bool
    ensures { result ≡ spec.declarations m.now.core.now declared.now }
{
    for d in declared {
        if !is_declaration(m, d) {
            return false;
        }
    }
    true
}

/// The key of a function that the module defines.
fn key_of(alloc: Global, core: &Core, f: &Fun) -> Result<Key, NoMemory>
    ensures { IfOk result (λ key. key ≡ spec.key_of core.now f.now) }
{
    let module = if f.external {
        None
    } else {
        Some(core.name.copy(alloc)?)
    };
    let name = f.name.copy(alloc)?;
    Ok(Key { module, name })
}

fn parameters(structs: &Structs, ps: &[CType], qs: &[CType]) -> bool
    ensures { result ≡ spec.parameters structs.now ps.now qs.now }
{
    if ps.len() != qs.len() {
        return false;
    }
    for (i, p) in ps.iter().enumerate() {
        if !alike(structs, p, &qs[i]) {
            return false;
        }
    }
    true
}

fn signature(structs: &Structs, f: &Signature, g: &Signature) -> bool
    ensures { result ≡ spec.signature structs.now f.now g.now }
{
    same_bool(f.variadic, g.variadic)
        && same(structs, &f.result, &g.result)
        && parameters(structs, f.params.as_slice(), g.params.as_slice())
}

fn is_of(structs: &Structs, f: &Signature, of: &CType) -> bool
    ensures { result ≡ spec.is_of_level structs.now f.now (out-CType of.now) }
{
    match of {
        CType::Function(g) => signature(structs, f, g.get()),
        _ => false,
    }
}

fn is_body_of(m: &Indexed, f: &Fun, key: &Key) -> bool
    ensures { result ≡ spec.is_body_of m.now.core.now.structs f.now (declared_as key.now m.now.core.now.declared) }
{
    match declared_as(m, key) {
        Some(d) => is_of(&m.core.structs, &f.of, &d.of),
        None => false,
    }
}

fn is_body(alloc: Global, m: &Indexed, f: &Fun) -> Result<bool, NoMemory>
    ensures { IfOk result (λ yes. yes ≡ spec.is_body m.now.core.now f.now) }
{
    let key = key_of(alloc, m.core, f)?;
    let yes = is_body_of(m, f, &key);
    drop(key);
    Ok(yes)
}

/// Whether each function is declared with a compatible type.
fn bodies(alloc: Global, m: &Indexed, funs: &[Shared<Fun>]) -> Result<bool, NoMemory>
    ensures { IfOk result (λ yes. yes ≡ spec.bodies m.now.core.now funs.now) }
{
    for f in funs {
        if !is_body(alloc, m, f.get())? {
            return Ok(false);
        }
    }
    Ok(true)
}

/// The laws of a module whose names stand for one thing each.
fn is_lawful(alloc: Global, m: &Indexed) -> Result<bool, NoMemory>
    ensures { IfOk result (λ yes. yes ≡ spec.is_lawful m.now.core.now) }
{
    let core = m.core;
    if !table_known(&core.structs, core.structs.as_slice()) {
        return Ok(false);
    }
    if !bodies(alloc, m, core.funs.as_slice())? {
        return Ok(false);
    }
    if !are_born(alloc, m)? {
        return Ok(false);
    }
    if !functions(m, core.funs.as_slice())? {
        return Ok(false);
    }
    Ok(
        declarations(m, core.declared.as_slice())
            && objects(m, core.objects.as_slice())
            && literals_end(core.literals.as_slice()),
    )
}

fn with_literals(
    alloc: Global,
    core: &Core,
    declared: IndexSet<Key>,
    objects: IndexSet<Key>,
    funs: IndexSet<Name>,
) -> Result<bool, NoMemory>
    requires declared { declared.keys ≡ map (λ d. d.key) core.now.declared }
    requires objects { objects.keys ≡ map (λ x. x.key) core.now.objects }
    requires funs { funs.keys ≡ map (λ f. f.name) core.now.funs }
    ensures { IfOk result (λ yes. yes ≡ spec.with_literals core.now) }
{
    match literal_texts(alloc, core.literals.as_slice())? {
        Some(literals) => {
            let m = Indexed {
                alloc,
                core,
                declared,
                objects,
                funs,
                literals,
            };
            is_lawful(alloc, &m)
        }
        None => Ok(false),
    }
}

fn with_functions(
    alloc: Global,
    core: &Core,
    declared: IndexSet<Key>,
    objects: IndexSet<Key>,
) -> Result<bool, NoMemory>
    requires declared { declared.keys ≡ map (λ d. d.key) core.now.declared }
    requires objects { objects.keys ≡ map (λ x. x.key) core.now.objects }
    ensures { IfOk result (λ yes. yes ≡ spec.with_functions core.now) }
{
    match function_names(alloc, core.funs.as_slice())? {
        Some(funs) => with_literals(alloc, core, declared, objects, funs),
        None => Ok(false),
    }
}

fn with_objects(alloc: Global, core: &Core, declared: IndexSet<Key>) -> Result<bool, NoMemory>
    requires { declared.keys ≡ map (λ d. d.key) core.now.declared }
    ensures { IfOk result (λ yes. yes ≡ spec.with_objects core.now) }
{
    match object_keys(alloc, core.objects.as_slice())? {
        Some(objects) => with_functions(alloc, core, declared, objects),
        None => Ok(false),
    }
}

/// Whether a module is formed: what an interpreter and a code generator may rest on. Names stand for one thing each, and are
/// declared as defined just where they are; each function, object and literal keeps its laws; each object and literal is born
/// once.
///
/// # Errors
///
/// `NoMemory`, for the table of names.
pub fn is_formed(alloc: Global, core: &Core) -> Result<bool, NoMemory>
    ensures { IfOk result (λ yes. yes ≡ spec.formed core.now) }
{
    match declared_keys(alloc, core.declared.as_slice())? {
        Some(declared) => with_objects(alloc, core, declared),
        None => Ok(false),
    }
}
