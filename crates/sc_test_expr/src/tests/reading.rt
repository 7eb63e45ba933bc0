// The expression that a text begins with.
ghost use Rattle.std.specs.Prelude.{All, IfOk};
ghost use Rattle.sc_parse_grammar.specs.Steps.{IsSymbol};

use sc_base::{Items, Name, NoMemory};
use sc_lex::{Token, TokenKind, lex};
use sc_parse_expr::{Found, Refused, expression};
use sc_parse_names::{Symbol, TypeNames};
use sc_parse_tokens::symbols;
use std::alloc::Global;

// The tokens without the ends of lines.
fn without_lines(alloc: Global, tokens: Items<Token>) -> Result<Items<Token>, NoMemory> {
    let mut kept = Items::new(alloc);
    for token in tokens.into_vec() {
        if token.kind != TokenKind::Newline {
            kept.push(token)?;
        }
    }
    Ok(kept)
}

fn tokens_of(alloc: Global, text: &str) -> Result<Items<Token>, NoMemory> {
    if text.len() > 100000 {
        return Err(NoMemory);
    }
    match lex(alloc, text.as_bytes(), 0) {
        Ok(tokens) => without_lines(alloc, tokens),
        Err(_) => Err(NoMemory),
    }
}

fn symbols_of(alloc: Global, text: &str) -> Result<Items<Symbol>, NoMemory>
    ensures { IfOk result (λ all. All IsSymbol all) }
{
    let tokens = tokens_of(alloc, text)?;
    symbols(alloc, tokens.as_slice())
}

fn add(alloc: Global, names: &mut TypeNames, bytes: &[u8], typedef: bool) -> Result<(), NoMemory> {
    match Name::new(alloc, bytes) {
        Ok(name) => names.add(alloc, name, typedef),
        Err(_) => Err(NoMemory),
    }
}

// `T` is a type's name, `V` is one behind a variable of that name in an inner scope.
pub fn names_of(alloc: Global) -> Result<TypeNames, NoMemory> {
    let mut names = TypeNames::new(alloc)?;
    add(alloc, &mut names, b"T", true)?;
    add(alloc, &mut names, b"V", true)?;
    names.push_scope(alloc)?;
    add(alloc, &mut names, b"V", false)?;
    Ok(names)
}

// The expression, and the names in scope behind it.
pub fn read(alloc: Global, text: &str, names: &mut TypeNames) -> Result<Found, Refused> {
    let symbols = symbols_of(alloc, text)?;
    expression(alloc, symbols.as_slice(), names)
}

pub fn answer(alloc: Global, text: &str) -> Result<Found, Refused> {
    let mut names = names_of(alloc)?;
    read(alloc, text, &mut names)
}
