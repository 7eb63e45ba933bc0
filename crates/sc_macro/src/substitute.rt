// Replacement lists are filled with arguments.
ghost use Rattle.std.specs.Prelude.{◌≡◌, [], ◌∷◌, ◌++◌, map, OnOk, IfOk, get_or, Ok, decimal};
ghost use Rattle.sc_macro.specs.Tokens.{name_kind};
ghost use Rattle.sc_macro.specs.Substitute as spec;
ghost use Rattle.sc_macro.specs.Marks as marks;
ghost use Rattle.sc_macro.specs.Refusals.{Meets, after};
ghost use Rattle.sc_macro.specs.Table.{files};

use crate::failure::{Failure, Reason, Refused};
use crate::hide::Hide;
use crate::lists::push_each;
use crate::macros::{Macro, MacroKind, Macros, Part};
use crate::marked::Marked;
use crate::string::{literal, string_of};
use crate::waiting::Waiting;
use sc_base::{Bytes, Duplicate, Items, NoMemory};
use sc_lex::{Token, TokenKind, token_kind};
use std::alloc::Global;

/// The most bytes of an identifier.
const IDENTIFIER: usize = 63;

fn one(alloc: Global, token: Marked) -> Result<Items<Marked>, NoMemory>
    ensures { IfOk result (λ ms. ms ≡ token ∷ []) }
{
    let mut items = Items::new(alloc);
    items.push(token)?;
    Ok(items)
}

/// A copy whose first token has this white space before it.
fn respaced(alloc: Global, tokens: &[Marked], space: bool) -> Result<Items<Marked>, NoMemory>
    ensures { IfOk result (λ ms. ms ≡ marks.respaced space tokens.now) }
{
    let mut out = Items::new(alloc);
    match tokens.split_first() {
        None => Ok(out),
        Some((first, rest)) => {
            out.push(first.copy_spaced(alloc, space)?)?;
            push_each(alloc, &mut out, rest)?;
            Ok(out)
        }
    }
}

fn argument_at(arguments: &[Items<Marked>], number: usize) -> &[Marked]
    ensures { result.now ≡ get_or arguments.now number [] }
{
    match arguments.get(number) {
        Some(argument) => argument.as_slice(),
        None => &[],
    }
}

/// What a part stands for, with the arguments as they are written and as they expand.
fn value(
    alloc: Global,
    name: &Token,
    arguments: &[Items<Marked>],
    whole: &[Items<Marked>],
    part: &Part,
) -> Result<Items<Marked>, NoMemory>
    ensures { IfOk result (λ ms. ms ≡ spec.value name.now arguments.now whole.now part.now) }
{
    match part {
        Part::Word(token) => one(
            alloc,
            Marked {
                token: token.copy(alloc)?,
                hide: Hide::new(),
            },
        ),
        Part::Parameter { number, space } => respaced(alloc, argument_at(whole, *number), *space),
        Part::Quoted { number, space } => {
            let text = string_of(alloc, argument_at(arguments, *number))?;
            one(alloc, Marked::at(name, TokenKind::Str, text, *space))
        }
    }
}

fn is_identifier(kind: TokenKind) -> bool
    ensures { result ≡ name_kind kind }
{
    match kind {
        TokenKind::Name => true,
        _ => false,
    }
}

fn joined(alloc: Global, left: &[u8], right: &[u8]) -> Result<Vec<u8>, NoMemory>
    ensures { IfOk result (λ v. v.items ≡ left.now ++ right.now) }
{
    let mut text = Vec::from_slice(alloc, left)?;
    text.extend_from_slice(right)?;
    Ok(text)
}

/// The decimal digits of a number.
fn digits(alloc: Global, number: u32) -> Result<Bytes, NoMemory>
    ensures { IfOk result (λ b. b ≡ decimal number) }
{
    let text = number.to_string(alloc)?;
    Bytes::from_slice(alloc, text.as_bytes())
}

/// A pasted text as a token of this kind.
fn named(
    name: &Token,
    kind: TokenKind,
    text: Vec<u8>,
    space: bool,
    hide: Hide,
) -> Result<Marked, Failure>
    ensures { Meets (spec.named name.now kind text.items space hide) result }
{
    if is_identifier(kind) && text.len() > IDENTIFIER {
        return Err(Failure::Refused(Refused {
            reason: Reason::Identifier,
            line: name.line,
        }));
    }
    Ok(Marked {
        token: Token {
            kind,
            text: Bytes::from_vec(text),
            file: name.file,
            line: name.line,
            space,
        },
        hide,
    })
}

/// Two tokens as one (ANSI 3.8.3.3).
fn pasted(alloc: Global, name: &Token, left: &Marked, right: &Marked) -> Result<Marked, Failure>
    ensures { Meets (spec.pasted name.now left.now right.now) result }
{
    let text = joined(
        alloc,
        left.token.text.as_slice(),
        right.token.text.as_slice(),
    )?;
    match token_kind(text.as_slice()) {
        None => Err(Failure::Refused(Refused {
            reason: Reason::Paste,
            line: name.line,
        })),
        Some(kind) => {
            let hide = left.hide.common(alloc, &right.hide)?;
            named(name, kind, text, left.token.space, hide)
        }
    }
}

fn glue_ends(
    alloc: Global,
    name: &Token,
    left: Items<Marked>,
    last: &Marked,
    first: &Marked,
    rest: &[Marked],
) -> Result<Items<Marked>, Failure>
    ensures { Meets (after (spec.pasted name.now last.now first.now) (λ p. Ok (left ++ p ∷ rest.now))) result }
{
    let mut left = left;
    let joined = pasted(alloc, name, last, first)?;
    left.push(joined)?;
    push_each(alloc, &mut left, rest)?;
    Ok(left)
}

#[tactic(auto, using(crate::proofs::Glue::glue_last))]
fn glue(
    alloc: Global,
    name: &Token,
    left: Items<Marked>,
    right: Items<Marked>,
) -> Result<Items<Marked>, Failure>
    ensures { Meets (spec.glue name.now left right) result }
{
    let mut left = left;
    match right.as_slice().split_first() {
        None => Ok(left),
        Some((first, rest)) => match left.pop() {
            None => Ok(right),
            Some(last) => glue_ends(alloc, name, left, &last, first, rest),
        },
    }
}

fn glued(
    alloc: Global,
    name: &Token,
    arguments: &[Items<Marked>],
    parts: &[Part],
) -> Result<Items<Marked>, Failure>
    ensures { Meets (spec.glued name.now arguments.now [] parts.now) result }
{
    let mut out = Items::new(alloc);
    let mut parts = parts;
    'gluing: while let Some((part, rest)) = parts.split_first() {
        let next = value(alloc, name, arguments, arguments, part)?;
        out = glue(alloc, name, out, next)?;
        parts = rest;
    }
    Ok(out)
}

fn chain(
    alloc: Global,
    name: &Token,
    arguments: &[Items<Marked>],
    whole: &[Items<Marked>],
    parts: &[Part],
) -> Result<Items<Marked>, Failure>
    ensures { Meets (spec.chain name.now arguments.now whole.now parts.now) result }
{
    match parts {
        [part] => {
            let tokens = value(alloc, name, arguments, whole, part)?;
            Ok(tokens)
        }
        _ => glued(alloc, name, arguments, parts),
    }
}

/// A replacement list, filled with the arguments.
pub fn filled(
    alloc: Global,
    name: &Token,
    arguments: &[Items<Marked>],
    whole: &[Items<Marked>],
    chains: &[Items<Part>],
) -> Result<Items<Marked>, Failure>
    ensures { Meets (spec.filled name.now arguments.now whole.now [] chains.now) result }
{
    let mut out = Items::new(alloc);
    let mut chains = chains;
    'filling: while let Some((parts, rest)) = chains.split_first() {
        let next = chain(alloc, name, arguments, whole, parts.as_slice())?;
        out.append(next)?;
        chains = rest;
    }
    Ok(out)
}

/// What replaces a name without arguments.
pub fn alone(
    alloc: Global,
    macros: &Macros,
    definition: &Macro,
    name: &Token,
) -> Result<Items<Marked>, Failure>
    ensures { Meets (spec.alone definition.now.kind (files macros.now) name.now definition.now.chains) result }
{
    match definition.kind {
        MacroKind::Line => {
            let text = digits(alloc, name.line)?;
            let token = Marked::at(name, TokenKind::Number, text, name.space);
            Ok(one(alloc, token)?)
        }
        MacroKind::File => {
            let text = literal(alloc, macros.file_name(name.file))?;
            let token = Marked::at(name, TokenKind::Str, text, name.space);
            Ok(one(alloc, token)?)
        }
        _ => filled(alloc, name, &[], &[], definition.chains.as_slice()),
    }
}

/// A token of a replacement, at the macro's name.
fn land(
    alloc: Global,
    name: &Token,
    hide: &Hide,
    token: Marked,
    first: bool,
) -> Result<Marked, NoMemory>
    ensures { IfOk result (λ m. m ≡ marks.landed_as name.now hide.now first token) }
{
    let united = token.hide.united(alloc, hide)?;
    let space = if first { name.space } else { token.token.space };
    Ok(Marked {
        token: Token {
            kind: token.token.kind,
            text: token.token.text,
            file: name.file,
            line: name.line,
            space,
        },
        hide: united,
    })
}

/// Puts a filled replacement list in front of the rest.
#[tactic(auto, using(crate::proofs::Landing::land_first, crate::proofs::Landing::land_other))]
pub fn place(
    alloc: Global,
    name: &Token,
    hide: &Hide,
    filled: Items<Marked>,
    rest: &mut Waiting<'_>,
) -> Result<(), NoMemory>
    ensures { OnOk result (rest.new ≡ map (marks.landed name.now hide.now) (marks.respaced name.now.space filled) ++ rest.old) }
{
    let mut filled = filled;
    'placing: while let Some(token) = filled.pop() {
        let first = filled.is_empty();
        rest.push(land(alloc, name, hide, token, first)?)?;
    }
    Ok(())
}
