// The places in expressions, types and declarators.
ghost use Rattle.std.specs.Prelude.{◌≡◌, OnOk, map};
ghost use Rattle.sc_tree.specs.declared.expression.Derivation.{out-Derivation};
ghost use Rattle.sc_xref.specs.Walks as spec;

use crate::walk::{PlaceKind, Walk};
use sc_base::{NoMemory, Shared};
use sc_tree::{Declarator, Derivation, Enumerator, Expr, Member, Parameter, TypeName, TypeWord};
use std::alloc::Global;

/// An expression.
#[cycle(tree)]
pub fn walk_expr(walk: &mut Walk, alloc: Global, e: &Expr) -> Result<(), NoMemory>
    ensures { OnOk result (walk.new ≡ spec.expr_walk e.now walk.old) }
{
    match e {
        Expr::Name(line, name) => walk.mark(alloc, PlaceKind::Use, *line, name),
        Expr::Constant(_, _) => Ok(()),
        Expr::String(_, _) => Ok(()),
        Expr::OffsetOf(_, t, _) => walk_type(walk, alloc, t.get()),
        Expr::Index(_, a, b) => {
            walk_expr(walk, alloc, a.get())?;
            walk_expr(walk, alloc, b.get())
        }
        Expr::Call(_, f, arguments) => {
            walk_called(walk, alloc, f.get())?;
            walk_all(walk, alloc, arguments.as_slice())
        }
        Expr::Member(_, a, _) => walk_expr(walk, alloc, a.get()),
        Expr::Arrow(_, a, _) => walk_expr(walk, alloc, a.get()),
        Expr::Postfix(_, _, a) => walk_expr(walk, alloc, a.get()),
        Expr::Unary(_, _, a) => walk_expr(walk, alloc, a.get()),
        Expr::SizeOf(_, a) => walk_expr(walk, alloc, a.get()),
        Expr::SizeOfType(_, t) => walk_type(walk, alloc, t.get()),
        Expr::Cast(_, t, a) => {
            walk_type(walk, alloc, t.get())?;
            walk_expr(walk, alloc, a.get())
        }
        Expr::Binary(_, _, a, b) => {
            walk_expr(walk, alloc, a.get())?;
            walk_expr(walk, alloc, b.get())
        }
        Expr::Conditional(_, a, b, d) => {
            walk_expr(walk, alloc, a.get())?;
            walk_expr(walk, alloc, b.get())?;
            walk_expr(walk, alloc, d.get())
        }
        Expr::Assign(_, _, a, b) => {
            walk_expr(walk, alloc, a.get())?;
            walk_expr(walk, alloc, b.get())
        }
        Expr::Comma(_, a, b) => {
            walk_expr(walk, alloc, a.get())?;
            walk_expr(walk, alloc, b.get())
        }
    }
}

// The function of a call.
#[cycle(tree)]
fn walk_called(walk: &mut Walk, alloc: Global, f: &Expr) -> Result<(), NoMemory>
    ensures { OnOk result (walk.new ≡ spec.called_walk f.now walk.old) }
{
    match f {
        Expr::Name(line, name) => walk.mark(alloc, PlaceKind::Call, *line, name),
        _ => walk_expr(walk, alloc, f),
    }
}

#[cycle(tree)]
fn walk_all(walk: &mut Walk, alloc: Global, es: &[Shared<Expr>]) -> Result<(), NoMemory>
    ensures { OnOk result (walk.new ≡ spec.steps_used (map spec.parts es.now) walk.old) }
{
    for e in es {
        walk_expr(walk, alloc, e.get())?;
    }
    Ok(())
}

/// The name of a type.
#[cycle(tree)]
pub fn walk_type(walk: &mut Walk, alloc: Global, t: &TypeName) -> Result<(), NoMemory>
    ensures { OnOk result (walk.new ≡ spec.type_walk t.now walk.old) }
{
    walk_words(walk, alloc, t.specifiers.words.as_slice())?;
    match &t.declarator {
        Some(d) => walk_declarator(walk, alloc, d),
        None => Ok(()),
    }
}

/// Type words: the members of structures, and the values of enumeration constants.
#[cycle(tree)]
pub fn walk_words(walk: &mut Walk, alloc: Global, words: &[TypeWord]) -> Result<(), NoMemory>
    ensures { OnOk result (walk.new ≡ spec.steps (map spec.word_walk words.now) walk.old) }
{
    for word in words {
        walk_word(walk, alloc, word)?;
    }
    Ok(())
}

#[cycle(tree)]
fn walk_word(walk: &mut Walk, alloc: Global, word: &TypeWord) -> Result<(), NoMemory>
    ensures { OnOk result (walk.new ≡ spec.word_walk word.now walk.old) }
{
    match word {
        TypeWord::Struct(_, _, _, members) => walk_members(walk, alloc, members.as_slice()),
        TypeWord::Enum(_, _, items) => walk_constants(walk, alloc, items.as_slice()),
        _ => Ok(()),
    }
}

#[cycle(tree)]
fn walk_members(walk: &mut Walk, alloc: Global, members: &[Member]) -> Result<(), NoMemory>
    ensures { OnOk result (walk.new ≡ spec.steps (map spec.member_walk members.now) walk.old) }
{
    for m in members {
        walk_member(walk, alloc, m)?;
    }
    Ok(())
}

#[cycle(tree)]
fn walk_member(walk: &mut Walk, alloc: Global, m: &Member) -> Result<(), NoMemory>
    ensures { OnOk result (walk.new ≡ spec.member_walk m.now walk.old) }
{
    walk_words(walk, alloc, m.specifiers.words.as_slice())?;
    walk_declarators(walk, alloc, m.declarators.as_slice())
}

#[cycle(tree)]
fn walk_declarators(walk: &mut Walk, alloc: Global, ds: &[Declarator]) -> Result<(), NoMemory>
    ensures { OnOk result (walk.new ≡ spec.steps_named (map spec.named ds.now) walk.old) }
{
    for d in ds {
        walk_declarator(walk, alloc, d)?;
    }
    Ok(())
}

#[cycle(tree)]
fn walk_constants(walk: &mut Walk, alloc: Global, items: &[Enumerator]) -> Result<(), NoMemory>
    ensures { OnOk result (walk.new ≡ spec.steps (map (spec.constant spec.written_if) items.now) walk.old) }
{
    for item in items {
        if let Some(e) = &item.value {
            walk_expr(walk, alloc, e.get())?;
        }
        walk.see(alloc, false, &item.name)?;
    }
    Ok(())
}

/// What stands behind a declarator's name: its sizes and parameters.
#[cycle(tree)]
pub fn walk_declarator(walk: &mut Walk, alloc: Global, d: &Declarator) -> Result<(), NoMemory>
    ensures { OnOk result (walk.new ≡ spec.declarator_walk d.now walk.old) }
{
    walk_derivations(walk, alloc, d.derivations.as_slice())
}

/// The steps of a declarator.
#[cycle(tree)]
pub fn walk_derivations(
    walk: &mut Walk,
    alloc: Global,
    steps: &[Derivation],
) -> Result<(), NoMemory>
    ensures { OnOk result (walk.new ≡ spec.steps (map spec.derivation_walk steps.now) walk.old) }
{
    for step in steps {
        walk_derivation(walk, alloc, step)?;
    }
    Ok(())
}

#[cycle(tree)]
fn walk_derivation(walk: &mut Walk, alloc: Global, step: &Derivation) -> Result<(), NoMemory>
    ensures { OnOk result (walk.new ≡ spec.derivation_walk step.now walk.old) }
{
    match step {
        Derivation::Array(Some(size)) => walk_expr(walk, alloc, size.get()),
        Derivation::Prototype(ps) => {
            let before = walk.names.len();
            walk_parameters(walk, alloc, ps.as_slice())?;
            walk.names.truncate(before);
            Ok(())
        }
        _ => Ok(()),
    }
}

/// Parameters: what each declares hides from behind it on.
#[cycle(tree)]
pub fn walk_parameters(walk: &mut Walk, alloc: Global, ps: &[Parameter]) -> Result<(), NoMemory>
    ensures { OnOk result (walk.new ≡ spec.steps (map spec.parameter_walk ps.now) walk.old) }
{
    for p in ps {
        walk_parameter(walk, alloc, p)?;
    }
    Ok(())
}

#[cycle(tree)]
fn walk_parameter(walk: &mut Walk, alloc: Global, p: &Parameter) -> Result<(), NoMemory>
    ensures { OnOk result (walk.new ≡ spec.parameter_walk p.now walk.old) }
{
    walk_words(walk, alloc, p.specifiers.words.as_slice())?;
    match &p.declarator {
        Some(d) => {
            walk_declarator(walk, alloc, d)?;
            hide(walk, alloc, d)
        }
        None => Ok(()),
    }
}

// The name of a parameter hides.
fn hide(walk: &mut Walk, alloc: Global, d: &Declarator) -> Result<(), NoMemory>
    ensures { OnOk result (walk.new ≡ spec.hides_as d.now.identifier walk.old) }
{
    match &d.identifier {
        Some(id) => walk.see(alloc, false, &id.name),
        None => Ok(()),
    }
}

/// The first step of a definition's declarator: what its parameters declare stays.
pub fn walk_first(walk: &mut Walk, alloc: Global, step: &Derivation) -> Result<(), NoMemory>
    ensures { OnOk result (walk.new ≡ spec.in_first (out-Derivation step.now) walk.old) }
{
    match step {
        Derivation::Array(Some(size)) => walk_expr(walk, alloc, size.get()),
        Derivation::Prototype(ps) => walk_parameters(walk, alloc, ps.as_slice()),
        _ => Ok(()),
    }
}
