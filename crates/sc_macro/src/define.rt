// Reading of definitions.
ghost use Rattle.std.specs.Prelude.{◌≡◌, Some, None, List, [], ◌∷◌, ◌++◌, true, IfOk};
ghost use Rattle.std.specs.Option.{option_map};
ghost use Rattle.sc_macro.specs.Define as spec;

use crate::lists::{copied, push_each};
use crate::macros::{Macro, MacroKind, Part, is_fixed};
use crate::marked::{copy_spaced, is_mark, is_name};
use crate::replacement::{chains_of, wanted};
use indexmap::IndexSet;
use sc_base::{Bytes, Duplicate, Items, NoMemory};
use sc_lex::Token;
use std::alloc::Global;

/// Takes one more parameter; false for a token that is no name, and for a name that is there.
fn add_name(alloc: Global, names: &mut IndexSet<Bytes>, name: &Token) -> Result<bool, NoMemory>
    ensures new { IfOk result (λ added. added ≡ spec.is_new names.old.keys name.now) }
    ensures names { IfOk result (λ added. added ≡ true → names.new.keys ≡ names.old.keys ++ name.now.text ∷ []) }
{
    if !is_name(name) {
        return Ok(false);
    }
    let added = names.insert(name.text.copy(alloc)?)?;
    Ok(added)
}

/// A list of parameters up to its closing parenthesis, and what stands behind.
fn listed<'a>(
    alloc: Global,
    tokens: &'a [Token],
) -> Result<Option<(IndexSet<Bytes>, &'a [Token])>, NoMemory>
    ensures { IfOk result (λ r. option_map (λ p. (p.0.keys, p.1.now)) r ≡ spec.listed [] tokens.now) }
{
    let mut names = IndexSet::new(alloc);
    let mut rest = tokens;
    'listing: while let Some((name, behind)) = rest.split_first() {
        let Some((mark, more)) = behind.split_first() else {
            return Ok(None);
        };
        if !add_name(alloc, &mut names, name)? {
            return Ok(None);
        }
        if is_mark(mark, b')') {
            return Ok(Some((names, more)));
        }
        if !is_mark(mark, b',') {
            return Ok(None);
        }
        rest = more;
    }
    Ok(None)
}

fn parameters<'a>(
    alloc: Global,
    tokens: &'a [Token],
) -> Result<Option<(IndexSet<Bytes>, &'a [Token])>, NoMemory>
    ensures { IfOk result (λ r. option_map (λ p. (p.0.keys, p.1.now)) r ≡ spec.parameters tokens.now) }
{
    match tokens.split_first() {
        None => Ok(None),
        Some((first, rest)) => {
            if is_mark(first, b')') {
                Ok(Some((IndexSet::new(alloc), rest)))
            } else {
                listed(alloc, tokens)
            }
        }
    }
}

/// A copy of a replacement list, without white space before it.
fn trimmed(alloc: Global, tokens: &[Token]) -> Result<Items<Token>, NoMemory>
    ensures { IfOk result (λ ts. ts ≡ spec.trimmed tokens.now) }
{
    let mut out = Items::new(alloc);
    match tokens.split_first() {
        None => Ok(out),
        Some((first, rest)) => {
            out.push(copy_spaced(alloc, first, false)?)?;
            push_each(alloc, &mut out, rest)?;
            Ok(out)
        }
    }
}

fn with_chains(
    alloc: Global,
    kind: MacroKind,
    names: &IndexSet<Bytes>,
    replacement: Items<Token>,
    chains: Items<Items<Part>>,
) -> Result<Option<Macro>, NoMemory>
    ensures { IfOk result (λ m. m ≡ spec.with_chains kind names.now.keys replacement chains) }
{
    let parameters = copied(alloc, names.as_slice())?;
    let wanted = wanted(alloc, chains.as_slice(), parameters.as_slice())?;
    Ok(Some(Macro {
        kind,
        parameters,
        replacement,
        chains,
        wanted,
    }))
}

fn object_like(alloc: Global, tokens: &[Token]) -> Result<Option<Macro>, NoMemory>
    ensures { IfOk result (λ m. m ≡ spec.object_like tokens.now) }
{
    let names = IndexSet::new(alloc);
    let replacement = trimmed(alloc, tokens)?;
    match chains_of(alloc, false, &names, replacement.as_slice())? {
        None => Ok(None),
        Some(chains) => with_chains(alloc, MacroKind::Object, &names, replacement, chains),
    }
}

fn function_like(
    alloc: Global,
    names: &IndexSet<Bytes>,
    tokens: &[Token],
) -> Result<Option<Macro>, NoMemory>
    ensures { IfOk result (λ m. m ≡ spec.function_like (names.now.keys, tokens.now)) }
{
    let replacement = trimmed(alloc, tokens)?;
    match chains_of(alloc, true, names, replacement.as_slice())? {
        None => Ok(None),
        Some(chains) => with_chains(alloc, MacroKind::Function, names, replacement, chains),
    }
}

/// What stands behind the name.
fn headed(alloc: Global, tokens: &[Token]) -> Result<Option<Macro>, NoMemory>
    ensures { IfOk result (λ m. m ≡ spec.headed tokens.now) }
{
    match tokens.split_first() {
        None => object_like(alloc, tokens),
        Some((first, rest)) => {
            if is_mark(first, b'(') && !first.space {
                match parameters(alloc, rest)? {
                    None => Ok(None),
                    Some((names, behind)) => function_like(alloc, &names, behind),
                }
            } else {
                object_like(alloc, tokens)
            }
        }
    }
}

/// The name that a line defines, and its meaning, where the line is well formed.
pub fn definition(alloc: Global, line: &[Token]) -> Result<Option<(Bytes, Macro)>, NoMemory>
    ensures { IfOk result (λ d. d ≡ spec.definition line.now) }
{
    match line.split_first() {
        None => Ok(None),
        Some((name, rest)) => {
            if is_name(name) && !is_fixed(name.text.as_slice()) {
                match headed(alloc, rest)? {
                    None => Ok(None),
                    Some(meaning) => Ok(Some((name.text.copy(alloc)?, meaning))),
                }
            } else {
                Ok(None)
            }
        }
    }
}
