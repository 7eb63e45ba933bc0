// Which external names of a module do not go with the modules that are present (ANSI 3.1.2.2, 3.7).
ghost use Rattle.std.specs.Prelude.{◌≡◌, None, IfOk, OnOk};
ghost use Rattle.std.specs.Ordering.{nat_cmp, is_lt};
ghost use Rattle.std.specs.Cmp.Lexicographic.{slice_cmp};
ghost use Rattle.sc_session_conflicts.specs.Clashes as spec;
ghost use Rattle.sc_session_conflicts.specs.Names as names;

use crate::names::external_names;
use indexmap::IndexSet;
use sc_base::{Name, NoMemory};
use sc_core::{Core, Declared};
use sc_core_held::Text;
use sc_types::compatible;
use std::alloc::Global;
use std::cmp::Ordering;
use std::marker::Model;

/// A name, and the module that has it too.
#[derive(Drop)]
pub struct Named<'a> {
    pub name: &'a Name,
    pub home: &'a Name,
}

impl<'a> Model for Named<'a> {
    ghost use Rattle.std.specs.Prelude.{ℕ, List};

    ghost Value = { List ℕ × List ℕ };

    ghost view = { λ n. (n.name.now, n.home.now) };
}

// What two declarations of one external name must not be.
#[derive(Clone, Copy, Debug, PartialEq, Eq)]
pub enum Test {
    BothDefine,
    Disagree,
}

fn precedes(a: &Name, b: &Name) -> bool
    ensures { result ≡ is_lt (slice_cmp nat_cmp a.now b.now) }
{
    a.as_slice().cmp(&b.as_slice()) == Ordering::Less
}

fn lesser<'a>(old: Option<Named<'a>>, new: Named<'a>) -> Option<Named<'a>>
    ensures { result ≡ spec.lesser old.entry new.entry }
{
    match old {
        None => Some(new),
        Some(old) => {
            if precedes(new.name, old.name) {
                Some(new)
            } else {
                Some(old)
            }
        }
    }
}

fn is_internal(d: &Declared) -> bool
    ensures { result ≡ spec.is_internal d.now.key.«module» }
{
    d.key.module.is_some()
}

fn same_external(d: &Declared, e: &Declared) -> bool
    ensures { result ≡ spec.same_external d.now e.now }
{
    d.key.module.is_none() && e.key.module.is_none() && d.key.name == e.key.name
}

fn both_define(d: &Declared, e: &Declared) -> bool
    ensures { result ≡ spec.both_define d.now e.now }
{
    d.defined && e.defined && same_external(d, e)
}

fn disagree(a: &Core, d: &Declared, b: &Core, e: &Declared) -> bool
    ensures { result ≡ spec.disagree a.now d.now b.now e.now }
{
    same_external(d, e) && !compatible(&d.of, &a.structs, &e.of, &b.structs, false)
}

fn holds(test: Test, a: &Core, d: &Declared, b: &Core, e: &Declared) -> bool
    ensures { result ≡ spec.holds test a.now d.now b.now e.now }
{
    match test {
        Test::BothDefine => both_define(d, e),
        Test::Disagree => disagree(a, d, b, e),
    }
}

fn some_declared(test: Test, a: &Core, d: &Declared, b: &Core) -> bool
    ensures { result ≡ spec.some_declared (spec.holds test a.now d.now b.now) b.now.declared }
{
    for e in b.declared.as_slice() {
        if holds(test, a, d, b, e) {
            return true;
        }
    }
    false
}

// The same, where the external names of the other module are known: most names are looked up once.
#[tactic(auto, using(crate::proofs::Missing::none_internal, crate::proofs::Missing::none_missing))]
fn some_shared(test: Test, a: &Core, d: &Declared, b: &Core, external: &IndexSet<Name>) -> bool
    ensures { external.now.keys ≡ names.external_names b.now.declared → result ≡ spec.some_declared (spec.holds test a.now d.now b.now) b.now.declared }
{
    if is_internal(d) {
        return false;
    }
    if !external.contains(&d.key.name) {
        return false;
    }
    some_declared(test, a, d, b)
}

fn least_with<'a>(
    alloc: Global,
    test: Test,
    core: &'a Core,
    other: &'a Core,
    found: Option<Named<'a>>,
) -> Result<Option<Named<'a>>, NoMemory>
    ensures { IfOk result (λ least. least ≡ spec.least_with test core.now other.now core.now.declared found.entry) }
{
    let external = external_names(alloc, other)?;
    Ok(least_shared(test, core, other, &external, found))
}

fn least_shared<'a>(
    test: Test,
    core: &'a Core,
    other: &'a Core,
    external: &IndexSet<Name>,
    found: Option<Named<'a>>,
) -> Option<Named<'a>>
    ensures { external.now.keys ≡ names.external_names other.now.declared → result ≡ spec.least_with test core.now other.now core.now.declared found.entry }
{
    let mut least = found;
    for d in core.declared.as_slice() {
        if some_shared(test, core, d, other, external) {
            least = lesser(
                least,
                Named {
                    name: &d.key.name,
                    home: &other.name,
                },
            );
        }
    }
    least
}

/// Whether a module is another than this one, in whose place it would not come.
pub fn is_other(core: &Core, t: &Text) -> bool
    ensures { result ≡ spec.is_other core.now t.now }
{
    t.core.get().name != core.name
}

fn least_among<'a>(
    alloc: Global,
    test: Test,
    core: &'a Core,
    texts: &'a [Text],
) -> Result<Option<Named<'a>>, NoMemory>
    ensures { IfOk result (λ least. least ≡ spec.least_among test core.now texts.now None) }
{
    let mut least = None;
    for t in texts {
        if is_other(core, t) {
            least = least_with(alloc, test, core, t.core.get(), least)?;
        }
    }
    Ok(least)
}

/// The least name that a module and another that is present define, with the first such module.
pub fn doubled<'a>(
    alloc: Global,
    texts: &'a [Text],
    core: &'a Core,
) -> Result<Option<Named<'a>>, NoMemory>
    ensures { IfOk result (λ found. found ≡ spec.doubled texts.now core.now) }
{
    least_among(alloc, Test::BothDefine, core, texts)
}

/// The least name that a module and another that is present declare with types that do not go together, with the first such
/// module.
pub fn clashing<'a>(
    alloc: Global,
    texts: &'a [Text],
    core: &'a Core,
) -> Result<Option<Named<'a>>, NoMemory>
    ensures { IfOk result (λ found. found ≡ spec.clashing texts.now core.now) }
{
    least_among(alloc, Test::Disagree, core, texts)
}
