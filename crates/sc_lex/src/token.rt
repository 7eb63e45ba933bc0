// A preprocessing token.

use sc_base::{Bytes, Duplicate, NoMemory};
use std::alloc::Global;

/// What a preprocessing token is (ANSI 3.1). A `Newline` ends each line; `Other` is a byte that begins no other token,
/// an unmatched quote among them.
#[derive(Clone, Copy, Debug, PartialEq, Eq)]
pub enum TokenKind {
    Name,
    Number,
    Char,
    Str,
    Punct,
    Other,
    Newline,
}

/// A preprocessing token: its spelling after trigraphs and joined lines, the file's number, the line from 1 where it
/// begins, and whether white space stands before it on its line.
#[derive(Debug, Drop)]
pub struct Token {
    pub kind: TokenKind,
    pub text: Bytes,
    pub file: u32,
    pub line: u32,
    pub space: bool,
}

impl Duplicate for Token {
    fn copy(&self, alloc: Global) -> Result<Token, NoMemory> {
        let text = self.text.copy(alloc)?;
        Ok(Token {
            kind: self.kind,
            text,
            file: self.file,
            line: self.line,
            space: self.space,
        })
    }
}
