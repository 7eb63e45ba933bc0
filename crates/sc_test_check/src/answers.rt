// What the checker answers to a text.
use sc_base::{Fault, Items, Name, NoMemory};
use sc_check::check;
use sc_core::Core;
use sc_lex::{Token, TokenKind, lex};
use sc_parse::parse;
use sc_tool_text::refusal;
use std::alloc::Global;

// The tokens without the ends of lines.
fn without_lines(alloc: Global, tokens: Items<Token>) -> Result<Items<Token>, NoMemory> {
    let mut kept = Items::new(alloc);
    for token in tokens.into_vec() {
        if token.kind != TokenKind::Newline {
            kept.push(token)?;
        }
    }
    Ok(kept)
}

fn tokens_of(alloc: Global, text: &str) -> Result<Items<Token>, Fault> {
    if text.len() > 1048576 {
        return Err(Fault::NoMemory);
    }
    let tokens = lex(alloc, text.as_bytes(), 0)?;
    let kept = without_lines(alloc, tokens)?;
    Ok(kept)
}

/// The checked module `m` of a text.
pub fn checked(alloc: Global, text: &str) -> Result<Core, Fault> {
    let tokens = tokens_of(alloc, text)?;
    let unit = parse(alloc, tokens.as_slice())?;
    match Name::new(alloc, b"m") {
        Ok(name) => check(alloc, &name, &unit),
        Err(_) => Err(Fault::NoMemory),
    }
}

/// Whether the answer is the one that is wanted: `taken`, or a refusal as `X7 1` and `X9 ptrint 1`.
pub fn is_answer(alloc: Global, answer: &Result<Core, Fault>, wanted: &str) -> bool {
    match answer {
        Ok(_) => wanted == "taken",
        Err(Fault::NoMemory) => false,
        Err(Fault::Refused(why)) => match refusal(alloc, b"", why) {
            Ok(words) => words.as_slice() == wanted.as_bytes(),
            Err(_) => false,
        },
    }
}

/// A text with its lines: `@` stands for the end of a line, since no token of C has it.
pub fn with_lines(alloc: Global, text: &str) -> Result<String, NoMemory> {
    let mut whole = String::new(alloc);
    let mut is_begun = false;
    for line in text.split('@') {
        if is_begun {
            whole.push_str("\n")?;
        }
        is_begun = true;
        whole.push_str(line)?;
    }
    Ok(whole)
}
