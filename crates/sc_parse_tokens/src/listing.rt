// What each token of a text is to the grammar.
ghost use Rattle.std.specs.Prelude.{◌≡◌, All, IfOk};
ghost use Rattle.sc_parse_grammar.specs.Steps.{IsSymbol};
ghost use Rattle.sc_parse_tokens.specs.Symbols as spec;

use crate::literal::{character_of, read_all, string_of};
use crate::number::number;
use crate::punctuator::punctuator;
use crate::word::word;
use sc_base::{Bytes, Duplicate, Items, NoMemory};
use sc_lex::{Token, TokenKind};
use sc_parse_names::{Kind, Mark, Symbol};
use std::alloc::Global;

fn is_literal(kind: TokenKind) -> bool
    ensures { result ≡ spec.is_literal kind }
{
    match kind {
        TokenKind::Str | TokenKind::Char => true,
        _ => false,
    }
}

/// `L` directly before a string or character makes it wide.
fn is_wide(text: &[u8], behind: &[Token]) -> bool
    ensures { result ≡ spec.is_wide text.now behind.now }
{
    match behind {
        [next, ..] => is_literal(next.kind) && !next.space && text == b"L".as_slice(),
        [] => false,
    }
}

fn is_long(kind: Kind) -> bool
    ensures { result ≡ spec.is_long kind }
{
    match kind {
        Kind::Long => true,
        _ => false,
    }
}

fn is_name(kind: Kind) -> bool
    ensures { result ≡ spec.is_name kind }
{
    match kind {
        Kind::Name => true,
        _ => false,
    }
}

fn is_sized(text: &[u8]) -> bool
    ensures { result ≡ spec.is_sized text.now }
{
    0 < text.len() && text.len() <= 255
}

fn sized(kind: Kind, text: &[u8]) -> Kind
    ensures { result ≡ spec.sized kind text.now }
{
    if is_name(kind) && !is_sized(text) {
        Kind::Other
    } else {
        kind
    }
}

fn second(long: bool, kind: Kind) -> Kind
    ensures { result ≡ spec.second long kind }
{
    if long && is_long(kind) {
        Kind::LeftOut(Mark::LongLong)
    } else {
        kind
    }
}

/// What an identifier is.
fn named(long: bool, text: &[u8], behind: &[Token]) -> Kind
    ensures { result ≡ spec.named long text.now behind.now }
{
    if is_wide(text, behind) {
        Kind::LeftOut(Mark::Wide)
    } else {
        second(long, word(text))
    }
}

fn symbol(kind: Kind, text: Bytes, line: u32) -> Symbol
    ensures { result ≡ spec.symbol kind text line }
{
    Symbol {
        kind: sized(kind, text.as_slice()),
        text,
        line,
    }
}

/// A string, with its bytes.
fn string(alloc: Global, token: &Token) -> Result<Symbol, NoMemory>
    ensures { IfOk result (λ s. s ≡ spec.symbol (spec.string token.now.text) (spec.bytes token.now.text) token.now.line) }
{
    let read = read_all(alloc, b'"', token.text.as_slice())?;
    let kind = string_of(&read);
    let text = Bytes::from_vec(read.bytes.into_vec());
    Ok(symbol(kind, text, token.line))
}

fn character(alloc: Global, text: &[u8]) -> Result<Kind, NoMemory>
    ensures { IfOk result (λ kind. kind ≡ spec.character text.now) }
{
    let read = read_all(alloc, b'\'', text)?;
    Ok(character_of(&read))
}

/// A token of this kind, with its own text.
fn plain(alloc: Global, kind: Kind, token: &Token) -> Result<Symbol, NoMemory>
    ensures { IfOk result (λ s. s ≡ spec.symbol kind token.now.text token.now.line) }
{
    let text = token.text.copy(alloc)?;
    Ok(symbol(kind, text, token.line))
}

fn character_symbol(alloc: Global, token: &Token) -> Result<Symbol, NoMemory>
    ensures { IfOk result (λ s. s ≡ spec.symbol (spec.character token.now.text) token.now.text token.now.line) }
{
    let kind = character(alloc, token.text.as_slice())?;
    plain(alloc, kind, token)
}

/// What the token is, where `long` says whether `long` stands directly before it.
fn symbol_of(alloc: Global, long: bool, token: &Token, behind: &[Token]) -> Result<Symbol, NoMemory>
    ensures { IfOk result (λ s. s ≡ spec.symbol_of long token.now behind.now) }
{
    let text = token.text.as_slice();
    match token.kind {
        TokenKind::Name => plain(alloc, named(long, text, behind), token),
        TokenKind::Number => plain(alloc, number(text), token),
        TokenKind::Char => character_symbol(alloc, token),
        TokenKind::Str => string(alloc, token),
        TokenKind::Punct => plain(alloc, punctuator(text), token),
        TokenKind::Other => plain(alloc, Kind::Other, token),
        TokenKind::Newline => plain(alloc, Kind::Other, token),
    }
}

fn says_long(kind: TokenKind, text: &[u8]) -> bool
    ensures { result ≡ spec.says_long kind text.now }
{
    match kind {
        TokenKind::Name => text == b"long".as_slice(),
        _ => false,
    }
}

/// What the tokens are, each at its place (ANSI 2.1.1.2). A `Newline` is nothing to the grammar.
pub fn symbols(alloc: Global, tokens: &[Token]) -> Result<Items<Symbol>, NoMemory>
    ensures symbols { IfOk result (λ all. all ≡ spec.symbols tokens.now) }
    ensures named { IfOk result (λ all. All IsSymbol all) }
{
    let mut all = Items::new(alloc);
    let mut long = false;
    let mut left = tokens;
    'tokens: while let Some((token, behind)) = left.split_first() {
        let symbol = symbol_of(alloc, long, token, behind)?;
        all.push(symbol)?;
        long = says_long(token.kind, token.text.as_slice());
        left = behind;
    }
    Ok(all)
}
