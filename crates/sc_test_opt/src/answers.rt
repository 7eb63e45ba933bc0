// The checked module of a text, and the files of its objects.
use sc_base::{Bytes, Fault, Items, Name, NoMemory};
use sc_check::check;
use sc_core::Core;
use sc_gen::{Compiled, GenFault, compile};
use sc_lex::{Token, TokenKind, lex};
use sc_opt::compile_fast;
use sc_opt_fold::fold;
use sc_parse::parse;
use std::alloc::Global;

// The tokens without the ends of lines.
fn without_lines(alloc: Global, tokens: Items<Token>) -> Result<Items<Token>, NoMemory> {
    let mut kept = Items::new(alloc);
    for token in tokens.into_vec() {
        if token.kind != TokenKind::Newline {
            kept.push(token)?;
        }
    }
    Ok(kept)
}

fn tokens_of(alloc: Global, text: &str) -> Result<Items<Token>, Fault> {
    if text.len() > 1048576 {
        return Err(Fault::NoMemory);
    }
    let tokens = lex(alloc, text.as_bytes(), 0)?;
    let kept = without_lines(alloc, tokens)?;
    Ok(kept)
}

/// The checked module `m` of a text.
pub fn checked(alloc: Global, text: &str) -> Result<Core, Fault> {
    let tokens = tokens_of(alloc, text)?;
    let unit = parse(alloc, tokens.as_slice())?;
    match Name::new(alloc, b"m") {
        Ok(name) => check(alloc, &name, &unit),
        Err(_) => Err(Fault::NoMemory),
    }
}

fn file_of(compiled: Result<Compiled, GenFault>) -> Option<Bytes> {
    match compiled {
        Ok(c) => Some(c.file),
        Err(_) => None,
    }
}

/// The file of a module by the plain compiler.
pub fn plain_file(alloc: Global, core: &Core) -> Option<Bytes> {
    file_of(compile(alloc, core))
}

/// The file of a folded module by the plain compiler.
pub fn folded_file(alloc: Global, core: &Core) -> Option<Bytes> {
    match fold(alloc, core) {
        Ok(folded) => plain_file(alloc, &folded),
        Err(_) => None,
    }
}

/// The file of a module by the second compiler.
pub fn fast_file(alloc: Global, core: &Core) -> Option<Bytes> {
    file_of(compile_fast(alloc, core))
}
