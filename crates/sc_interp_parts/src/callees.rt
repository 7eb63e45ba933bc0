// Whether what is called is a function of the type by which it is called (ANSI 3.3.2.2).
ghost use Rattle.std.specs.Prelude.{◌≡◌, ◌==◌, IfOk, MatchOption, None, Some};
ghost use Rattle.sc_types.specs.declared.ctype.CType.{out-CType};
ghost use Rattle.sc_types.specs.Compatibility as types;
ghost use Rattle.sc_meaning.specs.Expressions as spec;
ghost use Rattle.sc_meaning.specs.Versions as versions;
ghost use Rattle.sc_core_held.specs.Found.{callee_found};

use sc_base::{Duplicate, Key, NoMemory, Rule, Shared};
use sc_core::Fun;
use sc_core_held::{Callee, Text, callee_of, takes};
use sc_meaning_values::{Shape, Value};
use sc_types::{CType, Signature, compatible};
use std::alloc::Global;

fn signature_in(t: &CType) -> Option<&Shared<Signature>>
    ensures { MatchOption result (spec.signature_in (out-CType t.now) ≡ None) (λ s. spec.signature_in (out-CType t.now) ≡ Some s.now) }
{
    match t {
        CType::Function(f) => Some(f),
        CType::Void(_)
        | CType::Int(_, _)
        | CType::Pointer(_, _)
        | CType::Array(_, _)
        | CType::Struct(_, _) => None,
    }
}

fn target_in(t: &CType) -> Option<&Shared<Signature>>
    ensures { MatchOption result (spec.target_in (out-CType t.now) ≡ None) (λ s. spec.target_in (out-CType t.now) ≡ Some s.now) }
{
    match t {
        CType::Pointer(t, _) => signature_in(t.get()),
        CType::Void(_)
        | CType::Int(_, _)
        | CType::Array(_, _)
        | CType::Struct(_, _)
        | CType::Function(_) => None,
    }
}

fn rule_if(fits: bool) -> Option<Rule>
    ensures { result ≡ spec.rule_if fits }
{
    if fits { None } else { Some(Rule::U12) }
}

// Whether a function of the text `u` has the type `s` of the text `t`.
#[tactic(auto, using(crate::proofs::Types::functions_compatible))]
fn has_signature(
    alloc: Global,
    t: &Text,
    s: &Shared<Signature>,
    u: &Text,
    f: &Fun,
) -> Result<bool, NoMemory>
    ensures { IfOk result (λ same. same ≡ types.same_signature (types.sides (t.now.number == u.now.number) t.now.core.structs u.now.core.structs) s.now f.now.of) }
{
    let called = CType::Function(s.share()?);
    let defined = CType::Function(Shared::new(alloc, f.of.copy(alloc)?)?);
    let t_structs = &t.core.get().structs;
    let u_structs = &u.core.get().structs;
    Ok(compatible(
        &called,
        t_structs,
        &defined,
        u_structs,
        t.number == u.number,
    ))
}

fn signature_rule(
    alloc: Global,
    t: &Text,
    s: &Shared<Signature>,
    callee: Callee,
) -> Result<Option<Rule>, NoMemory>
    ensures { IfOk result (λ rule. rule ≡ spec.signature_rule t.now s.now (callee_found callee.entry)) }
{
    match callee {
        Callee::Missing => Ok(Some(Rule::U17)),
        Callee::InText(u, f) => Ok(rule_if(has_signature(alloc, t, s, u, f.get())?)),
        Callee::InLibrary(f) => Ok(rule_if(takes(f, s.get()))),
    }
}

fn untyped_rule(t: &Text, callee: Callee) -> Option<Rule>
    ensures { result ≡ spec.called_rule t.now None (callee_found callee.entry) }
{
    match callee {
        Callee::Missing => Some(Rule::U17),
        Callee::InText(_, _) => Some(Rule::U12),
        Callee::InLibrary(_) => Some(Rule::U12),
    }
}

fn key_rule(
    alloc: Global,
    texts: &[Text],
    t: &Text,
    s: &CType,
    key: &Key,
) -> Result<Option<Rule>, NoMemory>
    ensures { IfOk result (λ rule. rule ≡ spec.called_rule t.now (spec.target_in (out-CType s.now)) (versions.callee_of texts.now key.now)) }
{
    let callee = callee_of(texts, key);
    match target_in(s) {
        None => Ok(untyped_rule(t, callee)),
        Some(of) => signature_rule(alloc, t, of, callee),
    }
}

/// The rule that a call of a value by an expression of type `s` of the text `t` breaks: `U17` where the key has no
/// definition in the texts, which is looked up first, else `U12` where the value is no function of this type.
pub fn value_rule(
    alloc: Global,
    texts: &[Text],
    t: &Text,
    s: &CType,
    v: &Value,
) -> Result<Option<Rule>, NoMemory>
    ensures { IfOk result (λ rule. rule ≡ spec.value_rule texts.now t.now s.now v.now) }
{
    match &v.shape {
        Shape::Number(_) => Ok(Some(Rule::U12)),
        Shape::Pointer(_, _) => Ok(Some(Rule::U12)),
        Shape::FunctionAt(key) => key_rule(alloc, texts, t, s, key.get()),
    }
}
