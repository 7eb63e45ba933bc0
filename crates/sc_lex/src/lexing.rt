ghost use Rattle.std.specs.Prelude.{◌≡◌, ◌≤◌, IfOk, false, length};
ghost use Rattle.sc_lex.specs.Pieces.{bytes_of};
ghost use Rattle.sc_lex.specs.Tokens.{tokens, Gives};
ghost use Rattle.sc_lex.specs.Tokens as spec;

use crate::mark::Mark;
use crate::phases::logical;
use crate::piece::{Piece, first_piece};
use crate::unclosed::Unclosed;
use crate::{Token, TokenKind};
use sc_base::{Bytes, Fault, Items, NoMemory, Refusal, X};
use std::alloc::Global;

/// The most bytes of an identifier.
const MAX_IDENTIFIER: usize = 63;

/// The spelling of marks.
fn spelling(alloc: Global, marks: &[Mark]) -> Result<Bytes, NoMemory>
    ensures { IfOk result (λ text. text ≡ bytes_of marks.now) }
{
    let mut text = Vec::with_capacity(alloc, marks.len())?;
    for mark in marks {
        text.push(mark.byte)?;
    }
    Ok(Bytes::from_vec(text))
}

/// What the text of a file is cut into: all its tokens, those that are too long among them, and the line where a comment
/// begins that nobody closes.
#[derive(Drop)]
pub struct Scan {
    pub tokens: Items<Token>,
    pub unclosed: Option<u32>,
}

// What marks are cut into.
fn cut_marks(alloc: Global, marks: &[Mark], file: u32) -> Result<Scan, NoMemory>
    ensures { IfOk result (λ c. c ≡ spec.cut_from file 0 false marks.now) }
{
    let mut tokens = Items::new(alloc);
    let mut left = marks;
    let mut space = false;
    let mut unclosed = Unclosed::new(marks);
    'pieces: while let Some(mark) = left.first() {
        match first_piece(left, &mut unclosed) {
            Piece::Space(n) => {
                let (_, rest) = left.split_at(n);
                space = true;
                left = rest;
            }
            Piece::Open => {
                return Ok(Scan {
                    tokens,
                    unclosed: Some(mark.line),
                })
            }
            Piece::Token(kind, n) => {
                let (head, rest) = left.split_at(n);
                tokens.push(Token {
                    kind,
                    text: spelling(alloc, head)?,
                    file,
                    line: mark.line,
                    space,
                })?;
                space = false;
                left = rest;
            }
        }
    }
    Ok(Scan {
        tokens,
        unclosed: None,
    })
}

/// The text of a file, cut: carriage returns before line feeds are dropped, trigraphs replaced, lines that end in a
/// backslash joined, and the rest is cut into white space (comments with it) and tokens, each the longest that the rest
/// begins with (ANSI 2.1.1.2, 3.1). A line feed gives a `Newline`; the last line may have none, and then gives none. A line
/// is counted where a token begins, from 1.
pub fn cut(alloc: Global, text: &[u8], file: u32) -> Result<Scan, NoMemory>
    requires { length text.now ≤ 1048576 }
    ensures { IfOk result (λ c. c ≡ spec.cut file text.now) }
{
    let marks = logical(alloc, text)?;
    cut_marks(alloc, marks.as_slice(), file)
}

/// Whether a token is an identifier of more than 63 bytes (ANSI 2.2.4.1 asks for 31).
pub fn is_too_long(token: &Token) -> bool
    ensures { result ≡ spec.is_too_long token.now }
{
    match token.kind {
        TokenKind::Name => token.text.as_slice().len() > MAX_IDENTIFIER,
        _ => false,
    }
}

// A refusal that leaves the file's name open.
fn refusal(alloc: Global, kind: X, line: u32) -> Refusal
    ensures { result ≡ spec.refusal kind line }
{
    let file = Bytes::from_vec(Vec::new(alloc));
    Refusal { kind, file, line }
}

fn open_comment(alloc: Global, unclosed: Option<u32>) -> Option<Refusal>
    ensures { result ≡ spec.open_comment unclosed }
{
    match unclosed {
        None => None,
        Some(line) => Some(refusal(alloc, X::X1, line)),
    }
}

/// The first refusal of these tokens, behind which a comment may be open: an identifier of more than 63 bytes (`X10`), or
/// else the comment (`X1`), with the line where it begins and no file's name.
pub fn refusal_in(
    alloc: Global,
    tokens: &[Token],
    unclosed: Option<u32>,
) -> Result<Option<Refusal>, NoMemory>
    ensures { IfOk result (λ r. r ≡ spec.refusal_in tokens.now unclosed) }
{
    for token in tokens {
        if is_too_long(token) {
            let word = Bytes::from_slice(alloc, b"identifier")?;
            return Ok(Some(refusal(alloc, X::X10(word), token.line)));
        }
    }
    Ok(open_comment(alloc, unclosed))
}

/// The preprocessing tokens of the text of a file, as [`cut`] gives them. `Refused` is the first in text order of an open
/// comment (`X1`) and an identifier of more than 63 bytes (`X10`), with the line where it begins and no file's name.
pub fn lex(alloc: Global, text: &[u8], file: u32) -> Result<Items<Token>, Fault>
    requires { length text.now ≤ 1048576 }
    ensures { Gives (tokens file text.now) result }
{
    let Scan { tokens, unclosed } = cut(alloc, text, file)?;
    match refusal_in(alloc, tokens.as_slice(), unclosed)? {
        None => Ok(tokens),
        Some(refusal) => Err(Fault::Refused(refusal)),
    }
}
