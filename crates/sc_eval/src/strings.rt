// Whether a string stands in an expression outside `sizeof`.
ghost use Rattle.std.specs.Prelude.{◌≡◌, map};
ghost use Rattle.sc_eval.specs.Strings as spec;

use sc_base::Shared;
use sc_tree::{Declarator, Derivation, Enumerator, Expr, Member, Parameter, TypeName, TypeWord};

/// Whether a string stands in an expression outside the operands of `sizeof`: its object would be born, and no module has it.
#[cycle(tree)]
pub fn has_string(e: &Expr) -> bool
    ensures { result ≡ spec.has_string e.now }
{
    match e {
        Expr::Name(_, _) => false,
        Expr::Constant(_, _) => false,
        Expr::String(_, _) => true,
        Expr::OffsetOf(_, t, _) => in_type(t.get()),
        Expr::Index(_, a, b) => has_string(a.get()) || has_string(b.get()),
        Expr::Call(_, f, es) => has_string(f.get()) || in_some(es.as_slice()),
        Expr::Member(_, a, _) => has_string(a.get()),
        Expr::Arrow(_, a, _) => has_string(a.get()),
        Expr::Postfix(_, _, a) => has_string(a.get()),
        Expr::Unary(_, _, a) => has_string(a.get()),
        Expr::SizeOf(_, _) => false,
        Expr::SizeOfType(_, _) => false,
        Expr::Cast(_, t, a) => in_type(t.get()) || has_string(a.get()),
        Expr::Binary(_, _, a, b) => has_string(a.get()) || has_string(b.get()),
        Expr::Conditional(_, a, b, d) => {
            has_string(a.get()) || (has_string(b.get()) || has_string(d.get()))
        }
        Expr::Assign(_, _, a, b) => has_string(a.get()) || has_string(b.get()),
        Expr::Comma(_, a, b) => has_string(a.get()) || has_string(b.get()),
    }
}

#[cycle(tree)]
fn in_some(es: &[Shared<Expr>]) -> bool
    ensures { result ≡ spec.some (map spec.has_string es.now) }
{
    for e in es {
        if has_string(e.get()) {
            return true;
        }
    }
    false
}

#[cycle(tree)]
fn in_type(t: &TypeName) -> bool
    ensures { result ≡ spec.in_type_name t.now }
{
    in_words(t.specifiers.words.as_slice()) || in_declarator_if(&t.declarator)
}

#[cycle(tree)]
fn in_declarator_if(d: &Option<Declarator>) -> bool
    ensures { result ≡ spec.declared_if d.now }
{
    match d {
        Some(d) => in_declarator(d),
        None => false,
    }
}

#[cycle(tree)]
fn in_declarator(d: &Declarator) -> bool
    ensures { result ≡ spec.in_declarators d.now }
{
    for step in d.derivations.as_slice() {
        if in_derivation(step) {
            return true;
        }
    }
    false
}

#[cycle(tree)]
fn in_derivation(step: &Derivation) -> bool
    ensures { result ≡ spec.in_steps step.now }
{
    match step {
        Derivation::Array(Some(size)) => has_string(size.get()),
        Derivation::Prototype(ps) => in_parameters(ps.as_slice()),
        _ => false,
    }
}

#[cycle(tree)]
fn in_parameters(ps: &[Parameter]) -> bool
    ensures { result ≡ spec.some (map spec.in_parameters ps.now) }
{
    for p in ps {
        if in_words(p.specifiers.words.as_slice()) || in_declarator_if(&p.declarator) {
            return true;
        }
    }
    false
}

#[cycle(tree)]
fn in_words(words: &[TypeWord]) -> bool
    ensures { result ≡ spec.some (map spec.in_words words.now) }
{
    for word in words {
        if in_word(word) {
            return true;
        }
    }
    false
}

#[cycle(tree)]
fn in_word(word: &TypeWord) -> bool
    ensures { result ≡ spec.in_words word.now }
{
    match word {
        TypeWord::Struct(_, _, _, members) => in_members(members.as_slice()),
        TypeWord::Enum(_, _, items) => in_values(items.as_slice()),
        _ => false,
    }
}

#[cycle(tree)]
fn in_members(members: &[Member]) -> bool
    ensures { result ≡ spec.some (map spec.in_members members.now) }
{
    for m in members {
        if in_words(m.specifiers.words.as_slice()) || in_some_declarator(m.declarators.as_slice()) {
            return true;
        }
    }
    false
}

#[cycle(tree)]
fn in_some_declarator(ds: &[Declarator]) -> bool
    ensures { result ≡ spec.some (map spec.in_declarators ds.now) }
{
    for d in ds {
        if in_declarator(d) {
            return true;
        }
    }
    false
}

#[cycle(tree)]
fn in_values(items: &[Enumerator]) -> bool
    ensures { result ≡ spec.values spec.written_if items.now }
{
    for item in items {
        if let Some(e) = &item.value {
            if has_string(e.get()) {
                return true;
            }
        }
    }
    false
}
