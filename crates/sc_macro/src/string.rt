// String literals of arguments and of names.
ghost use Rattle.std.specs.Prelude.{◌≡◌, [], ◌∷◌, ◌++◌, OnOk, IfOk, flat_map};
ghost use Rattle.sc_macro.specs.Strings as spec;

use crate::marked::Marked;
use sc_base::{Bytes, NoMemory};
use sc_lex::TokenKind;
use std::alloc::Global;

fn push_escaped(out: &mut Vec<u8>, text: &[u8]) -> Result<(), NoMemory>
    ensures { OnOk result (out.new.items ≡ out.old.items ++ spec.escaped text.now) }
{
    for byte in text {
        if *byte == b'"' || *byte == b'\\' {
            out.push(b'\\')?;
        }
        out.push(*byte)?;
    }
    Ok(())
}

fn push_spelling(out: &mut Vec<u8>, token: &Marked) -> Result<(), NoMemory>
    ensures { OnOk result (out.new.items ≡ out.old.items ++ spec.spelling token.now) }
{
    match token.token.kind {
        TokenKind::Str => push_escaped(out, token.token.text.as_slice()),
        TokenKind::Char => push_escaped(out, token.token.text.as_slice()),
        _ => {
            out.extend_from_slice(token.token.text.as_slice())?;
            Ok(())
        }
    }
}

fn push_behind_space(out: &mut Vec<u8>, token: &Marked) -> Result<(), NoMemory>
    ensures { OnOk result (out.new.items ≡ out.old.items ++ spec.behind_space token.now) }
{
    if token.token.space {
        out.push(b' ')?;
    }
    push_spelling(out, token)
}

fn push_others(out: &mut Vec<u8>, tokens: &[Marked]) -> Result<(), NoMemory>
    ensures { OnOk result (out.new.items ≡ out.old.items ++ flat_map spec.behind_space tokens.now) }
{
    for token in tokens {
        push_behind_space(out, token)?;
    }
    Ok(())
}

fn push_texts(out: &mut Vec<u8>, tokens: &[Marked]) -> Result<(), NoMemory>
    ensures { OnOk result (out.new.items ≡ out.old.items ++ spec.texts tokens.now) }
{
    match tokens.split_first() {
        None => Ok(()),
        Some((first, rest)) => {
            push_spelling(out, first)?;
            push_others(out, rest)
        }
    }
}

/// The string literal that spells an argument (ANSI 3.8.3.2).
pub fn string_of(alloc: Global, tokens: &[Marked]) -> Result<Bytes, NoMemory>
    ensures { IfOk result (λ b. b ≡ spec.string_of tokens.now) }
{
    let mut out = Vec::new(alloc);
    out.push(b'"')?;
    push_texts(&mut out, tokens)?;
    out.push(b'"')?;
    Ok(Bytes::from_vec(out))
}

/// The string literal whose characters are these bytes.
pub fn literal(alloc: Global, bytes: &[u8]) -> Result<Bytes, NoMemory>
    ensures { IfOk result (λ b. b ≡ spec.literal bytes.now) }
{
    let mut out = Vec::new(alloc);
    out.push(b'"')?;
    push_escaped(&mut out, bytes)?;
    out.push(b'"')?;
    Ok(Bytes::from_vec(out))
}
