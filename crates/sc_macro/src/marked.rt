// Tokens with their hide sets, and tests on tokens.
ghost use Rattle.std.specs.Prelude.{◌≡◌, IfOk};
ghost use Rattle.sc_macro.specs.Tokens as spec;
ghost use Rattle.sc_macro.specs.Marks as marks;

use crate::hide::Hide;
use sc_base::{Bytes, Duplicate, NoMemory};
use sc_lex::{Token, TokenKind};
use std::alloc::Global;

/// A token with its hide set.
#[derive(Drop)]
pub struct Marked {
    pub token: Token,
    pub hide: Hide,
}

impl Duplicate for Marked {
    fn copy(&self, alloc: Global) -> Result<Marked, NoMemory> {
        let token = self.token.copy(alloc)?;
        let hide = self.hide.share()?;
        Ok(Marked { token, hide })
    }
}

impl Marked {
    /// A token that is made at another one's place, with no hide set.
    pub fn at(place: &Token, kind: TokenKind, text: Bytes, space: bool) -> Marked
        ensures { result ≡ marks.made place.now kind text space }
    {
        Marked {
            token: Token {
                kind,
                text,
                file: place.file,
                line: place.line,
                space,
            },
            hide: Hide::new(),
        }
    }

    /// The same token, with the white space before it set.
    pub fn copy_spaced(&self, alloc: Global, space: bool) -> Result<Marked, NoMemory>
        ensures { IfOk result (λ m. m ≡ marks.spaced_as space self.now) }
    {
        let token = copy_spaced(alloc, &self.token, space)?;
        let hide = self.hide.share()?;
        Ok(Marked { token, hide })
    }
}

/// The same token, with the white space before it set.
pub fn copy_spaced(alloc: Global, token: &Token, space: bool) -> Result<Token, NoMemory>
    ensures { IfOk result (λ t. t ≡ marks.spaced space token.now) }
{
    let text = token.text.copy(alloc)?;
    Ok(Token {
        kind: token.kind,
        text,
        file: token.file,
        line: token.line,
        space,
    })
}

/// Whether the token is an identifier.
pub fn is_name(token: &Token) -> bool
    ensures { result ≡ spec.is_name token.now }
{
    match token.kind {
        TokenKind::Name => true,
        _ => false,
    }
}

/// Whether the token is the end of a line.
pub fn is_newline(token: &Token) -> bool
    ensures { result ≡ spec.is_newline token.now }
{
    match token.kind {
        TokenKind::Newline => true,
        _ => false,
    }
}

/// Whether the token is this punctuator of one byte.
pub fn is_mark(token: &Token, mark: u8) -> bool
    ensures { result ≡ spec.is_mark mark token.now }
{
    match token.kind {
        TokenKind::Punct => match token.text.as_slice() {
            [byte] => *byte == mark,
            _ => false,
        },
        _ => false,
    }
}

/// Whether the token is `##`.
pub fn is_paste(token: &Token) -> bool
    ensures { result ≡ spec.is_paste token.now }
{
    match token.kind {
        TokenKind::Punct => match token.text.as_slice() {
            [first, second] => *first == b'#' && *second == b'#',
            _ => false,
        },
        _ => false,
    }
}
