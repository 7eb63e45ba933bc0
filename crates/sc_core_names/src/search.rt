// What a name is in a scope.
ghost use Rattle.std.specs.Prelude.{◌≡◌, ◌+◌, IfOk, MatchOption, None, Some};
ghost use Rattle.sc_core_names.specs.Scopes as spec;

use crate::table::{DeclaredName, Entity, FunctionScopes, ModuleScopes, Scopes};
use sc_base::{Items, Name, NoMemory};

/// What a name is in a scope that declares it.
pub fn entity_in(scope: &[DeclaredName], name: &Name) -> Option<Entity>
    ensures { result ≡ spec.entity_in scope.now name.now }
{
    for d in scope {
        if d.name == *name {
            return Some(d.entity);
        }
    }
    None
}

/// The same where the last name that the scope has declared so far is this one.
pub fn entity_until(last: &Name, scope: &[DeclaredName], name: &Name) -> Option<Entity>
    ensures { result ≡ spec.entity_until last.now scope.now name.now }
{
    for d in scope {
        if d.name == *name {
            return Some(d.entity);
        }
        if d.name == *last {
            return None;
        }
    }
    None
}

/// The scopes of the function with this name.
pub fn function_named<'a>(
    functions: &'a [FunctionScopes],
    name: &Name,
) -> Option<&'a FunctionScopes>
    ensures { MatchOption result (spec.function_named functions.now name.now ≡ None) (λ f. spec.function_named functions.now name.now ≡ Some f.now) }
{
    for f in functions {
        if f.name == *name {
            return Some(f);
        }
    }
    None
}

/// The scopes of the module with this name.
pub fn scopes_of_module<'a>(modules: &'a [ModuleScopes], name: &Name) -> Option<&'a Scopes>
    ensures { MatchOption result (spec.scopes_of_module modules.now name.now ≡ None) (λ s. spec.scopes_of_module modules.now name.now ≡ Some s.now) }
{
    for m in modules {
        if m.module == *name {
            return Some(&m.scopes);
        }
    }
    None
}

fn is_static(entity: Entity) -> bool
    ensures { result ≡ spec.is_static entity }
{
    match entity {
        Entity::Static => true,
        _ => false,
    }
}

fn plus(a: u32, b: u32) -> Result<u32, NoMemory>
    ensures { IfOk result (λ n. n ≡ a + b) }
{
    match a.checked_add(b) {
        Some(n) => Ok(n),
        None => Err(NoMemory),
    }
}

fn one_static(name: &Name, d: &DeclaredName) -> u32
    ensures { result ≡ spec.one_static name.now d.now }
{
    if is_static(d.entity) && d.name == *name {
        1
    } else {
        0
    }
}

fn statics_in(name: &Name, scope: &[DeclaredName]) -> Result<u32, NoMemory>
    ensures { IfOk result (λ n. n ≡ spec.statics_in name.now scope.now) }
{
    let mut total = 0;
    for d in scope {
        total = plus(total, one_static(name, d))?;
    }
    Ok(total)
}

/// How many objects of static storage duration with this name the scopes declare.
///
/// # Errors
///
/// `NoMemory` alone.
pub fn statics_named(name: &Name, scopes: &[Items<DeclaredName>]) -> Result<u32, NoMemory>
    ensures { IfOk result (λ n. n ≡ spec.statics_named name.now scopes.now) }
{
    let mut total = 0;
    for scope in scopes {
        total = plus(total, statics_in(name, scope.as_slice())?)?;
    }
    Ok(total)
}
