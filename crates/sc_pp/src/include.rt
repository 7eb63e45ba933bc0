// The names of files that are included (ANSI 3.8.2).
ghost use Rattle.std.specs.Prelude.{◌≡◌, ◌++◌, [], OnOk, IfOk};
ghost use Rattle.std.specs.List.{list_any};
ghost use Rattle.std.specs.Option.{option_map};
ghost use Rattle.sc_pp.specs.Directives as spec;

use crate::line::Line;
use crate::state::Place;
use crate::token::are_some;
use sc_base::{Bytes, NoMemory, Stack};
use sc_lex::{Token, TokenKind};
use sc_macro::is_mark;
use std::alloc::Global;

/// A file that an `#include` names: whether the name is in quotes, and the line of the directive.
#[derive(Drop)]
pub struct Wanted {
    pub quoted: bool,
    pub name: Bytes,
    pub line: u32,
}

/// A file that is entered: its place and its lines, the first on top.
#[derive(Drop)]
pub struct File {
    pub place: Place,
    pub lines: Stack<Line>,
}

fn unquoted(text: &[u8]) -> &[u8]
    ensures { result.now ≡ spec.unquoted text.now }
{
    if text.len() < 2 {
        return &[];
    }
    &text[1..text.len() - 1]
}

fn quoted_name(alloc: Global, token: &Token) -> Result<Option<(bool, Bytes)>, NoMemory>
    ensures { IfOk result (λ name. name ≡ spec.quoted_name token.now.kind token.now.text) }
{
    match token.kind {
        TokenKind::Str => {
            let name = unquoted(token.text.as_slice());
            if is_empty(name) {
                Ok(None)
            } else {
                Ok(Some((true, Bytes::from_slice(alloc, name)?)))
            }
        }
        _ => Ok(None),
    }
}

fn is_empty(bytes: &[u8]) -> bool
    ensures { result ≡ spec.is_empty bytes.now }
{
    match bytes {
        [] => true,
        [_, ..] => false,
    }
}

fn push_gap(out: &mut Vec<u8>, token: &Token) -> Result<(), NoMemory>
    ensures { OnOk result (out.new.items ≡ out.old.items ++ spec.gap token.now) }
{
    if token.space {
        out.push(b' ')?;
    }
    Ok(())
}

fn has_angle(text: &[u8]) -> bool
    ensures { result ≡ spec.has_angle text.now }
{
    let mut left = text;
    'bytes: while let Some((byte, rest)) = left.split_first() {
        if *byte == b'>' {
            return true;
        }
        left = rest;
    }
    false
}

/// What stands before the last `>`, spelled.
fn angled(alloc: Global, tokens: &[Token]) -> Result<Option<(bool, Bytes)>, NoMemory>
    ensures { IfOk result (λ name. name ≡ spec.angled [] tokens.now) }
{
    let mut out = Vec::new(alloc);
    let mut left = tokens;
    'tokens: while let Some((token, rest)) = left.split_first() {
        if !are_some(rest) {
            return at_close(out, token);
        }
        if has_angle(token.text.as_slice()) {
            return Ok(None);
        }
        push_gap(&mut out, token)?;
        out.extend_from_slice(token.text.as_slice())?;
        left = rest;
    }
    Ok(None)
}

fn at_close(out: Vec<u8>, token: &Token) -> Result<Option<(bool, Bytes)>, NoMemory>
    ensures { IfOk result (λ name. name ≡ spec.at_close out.items token.now) }
{
    let mut out = out;
    if is_mark(token, b'>') && !is_empty(out.as_slice()) {
        push_gap(&mut out, token)?;
        Ok(Some((false, Bytes::from_vec(out))))
    } else {
        Ok(None)
    }
}

/// `"name"` or `<name>`, and whether it is in quotes.
pub fn header_name(alloc: Global, tokens: &[Token]) -> Result<Option<(bool, Bytes)>, NoMemory>
    ensures { IfOk result (λ name. name ≡ spec.header_name tokens.now) }
{
    match tokens.split_first() {
        None => Ok(None),
        Some((first, rest)) => {
            if are_some(rest) {
                if is_mark(first, b'<') {
                    angled(alloc, rest)
                } else {
                    Ok(None)
                }
            } else {
                quoted_name(alloc, first)
            }
        }
    }
}
