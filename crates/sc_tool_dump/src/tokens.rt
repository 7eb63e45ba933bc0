// The tokens of a unit after preprocessing: kind, line, spelling.
use crate::output::put_unread;
use sc_base::NoMemory;
use sc_lex::{Token, TokenKind};
use sc_outside::Folder;
use sc_pp::preprocess;
use std::alloc::Global;

/// The tokens of a unit, one a line, or why there are none.
pub fn put_tokens(
    rt: &HostRuntime,
    alloc: Global,
    text: &mut Vec<u8>,
    name: &str,
) -> Result<(), NoMemory> {
    let folder = String::from_str(alloc, ".")?;
    let mut files = Folder::new(alloc, rt, folder);
    match preprocess(alloc, name, &mut files) {
        Ok(tokens) => {
            for token in tokens.as_slice() {
                put_token(alloc, text, token)?;
            }
            Ok(())
        }
        Err(fault) => put_unread(alloc, text, name, &fault),
    }
}

fn put_token(alloc: Global, text: &mut Vec<u8>, token: &Token) -> Result<(), NoMemory> {
    let kind = kind_word(token.kind);
    let line = token.line;
    let head = format!(in alloc; "{kind} {line} ")?;
    text.extend_from_slice(head.as_bytes())?;
    text.extend_from_slice(token.text.as_slice())?;
    text.push(b'\n')?;
    Ok(())
}

fn kind_word(kind: TokenKind) -> &'static str {
    match kind {
        TokenKind::Name => "Name",
        TokenKind::Number => "Number",
        TokenKind::Char => "Char",
        TokenKind::Str => "Str",
        TokenKind::Punct => "Punct",
        TokenKind::Other => "Other",
        TokenKind::Newline => "Newline",
    }
}
