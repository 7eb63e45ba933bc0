// The lines of a file.
ghost use Rattle.std.specs.Prelude.{◌≡◌, IfOk};
ghost use Rattle.sc_pp.specs.Lines as spec;

use crate::token::copied;
use sc_base::{Items, NoMemory, Refusal};
use sc_lex::Token;
use sc_macro::{is_mark, is_name};
use std::alloc::Global;

/// What a directive is by its word. `Text` is text between directives, `Null` a directive without a word.
#[derive(Clone, Copy, Debug, PartialEq, Eq)]
pub enum Word {
    Text,
    Null,
    Define,
    Undef,
    Include,
    If,
    Ifdef,
    Ifndef,
    Elif,
    Else,
    Endif,
    Error,
    Pragma,
    Line,
    Unknown,
}

/// A directive with its line and the tokens behind its word; or text, with its line feeds.
#[derive(Drop)]
pub struct Directive {
    pub word: Word,
    pub line: u32,
    pub tokens: Items<Token>,
}

/// A line of a file, or the text between two directives. An `#if` says whether an `#endif` closes it; `Broken` is what
/// the lexer refuses.
#[derive(Drop)]
pub enum Line {
    Plain(Directive),
    If(Directive, bool),
    Elif(Directive),
    Else(Directive),
    Endif(Directive),
    Broken(Refusal),
}

pub fn begins_directive(line: &[Token]) -> bool
    ensures { result ≡ spec.begins_directive line.now }
{
    match line {
        [] => false,
        [first, ..] => is_mark(first, b'#'),
    }
}

fn word_of(name: &[u8]) -> Word
    ensures { result ≡ spec.word_of name.now }
{
    if name == b"define".as_slice() {
        Word::Define
    } else if name == b"undef".as_slice() {
        Word::Undef
    } else if name == b"include".as_slice() {
        Word::Include
    } else {
        other_word(name)
    }
}

fn other_word(name: &[u8]) -> Word
    ensures { result ≡ spec.other_word name.now }
{
    if name == b"if".as_slice() {
        Word::If
    } else if name == b"ifdef".as_slice() {
        Word::Ifdef
    } else if name == b"ifndef".as_slice() {
        Word::Ifndef
    } else if name == b"elif".as_slice() {
        Word::Elif
    } else if name == b"else".as_slice() {
        Word::Else
    } else if name == b"endif".as_slice() {
        Word::Endif
    } else {
        rare_word(name)
    }
}

fn rare_word(name: &[u8]) -> Word
    ensures { result ≡ spec.rare_word name.now }
{
    if name == b"error".as_slice() {
        Word::Error
    } else if name == b"pragma".as_slice() {
        Word::Pragma
    } else if name == b"line".as_slice() {
        Word::Line
    } else {
        Word::Unknown
    }
}

/// A directive in its place: one of a conditional, or another one.
fn placed(word: Word, line: u32, tokens: Items<Token>) -> Line
    ensures { result ≡ spec.placed word line tokens }
{
    let directive = Directive { word, line, tokens };
    match word {
        Word::If => Line::If(directive, false),
        Word::Ifdef => Line::If(directive, false),
        Word::Ifndef => Line::If(directive, false),
        Word::Elif => Line::Elif(directive),
        Word::Else => Line::Else(directive),
        Word::Endif => Line::Endif(directive),
        _ => Line::Plain(directive),
    }
}

fn plain(word: Word, line: u32, tokens: Items<Token>) -> Line
    ensures { result ≡ Line.Plain (spec.entry word line tokens) }
{
    Line::Plain(Directive { word, line, tokens })
}

/// A line that begins with `#`.
pub fn directive_line(alloc: Global, line: &[Token]) -> Result<Line, NoMemory>
    ensures { IfOk result (λ l. l ≡ spec.directive line.now) }
{
    match line {
        [] => Ok(plain(Word::Null, 0, Items::new(alloc))),
        [hash] => Ok(plain(Word::Null, hash.line, Items::new(alloc))),
        [hash, word, rest @ ..] => {
            let tokens = copied(alloc, rest)?;
            if is_name(word) {
                Ok(placed(word_of(word.text.as_slice()), hash.line, tokens))
            } else {
                Ok(plain(Word::Unknown, hash.line, tokens))
            }
        }
    }
}

/// Text between directives.
pub fn text(tokens: Items<Token>) -> Line
    ensures { result ≡ spec.text tokens }
{
    plain(Word::Text, 0, tokens)
}
