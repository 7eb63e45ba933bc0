// Units and texts that are none, from the standard's grammar.
mod table;

use sc_base::{Fault, Items, NoMemory, X};
use sc_lex::{Token, TokenKind, lex};
use sc_parse::parse;
use sc_tree::Unit;
use std::alloc::Global;
use std::test::Fail;
use table::CASES;

// The tokens without the ends of lines.
fn without_lines(alloc: Global, tokens: Items<Token>) -> Result<Items<Token>, NoMemory> {
    let mut kept = Items::new(alloc);
    for token in tokens.into_vec() {
        if token.kind != TokenKind::Newline {
            kept.push(token)?;
        }
    }
    Ok(kept)
}

fn tokens_of(alloc: Global, text: &str) -> Result<Items<Token>, NoMemory> {
    if text.len() > 100000 {
        return Err(NoMemory);
    }
    match lex(alloc, text.as_bytes(), 0) {
        Ok(tokens) => without_lines(alloc, tokens),
        Err(_) => Err(NoMemory),
    }
}

fn parsed(alloc: Global, text: &str) -> Result<Unit, Fault> {
    let tokens = tokens_of(alloc, text)?;
    parse(alloc, tokens.as_slice())
}

// Whether the answer is what the line wants.
fn is_wanted(answer: Result<Unit, Fault>, wanted: &str) -> bool {
    match answer {
        Ok(unit) => wanted.parse::<usize>() == Ok(unit.items.len()) && wanted != "5",
        Err(Fault::Refused(r)) => is_refusal(r.kind, wanted),
        Err(Fault::NoMemory) => false,
    }
}

fn is_refusal(kind: X, wanted: &str) -> bool {
    match kind {
        X::X5 => wanted == "5",
        X::X9(word) => word.as_slice() == wanted.as_bytes(),
        X::X10(word) => word.as_slice() == wanted.as_bytes(),
        _ => false,
    }
}

fn whole(alloc: Global, text: &str) -> Result<String, NoMemory> {
    let mut unit = String::new(alloc);
    if text.starts_with('{') {
        unit.push_str("void f(void) ")?;
    }
    unit.push_str(text)?;
    Ok(unit)
}

fn is_read_as(alloc: Global, text: &str, wanted: &str) -> bool {
    match whole(alloc, text) {
        Ok(unit) => is_wanted(parsed(alloc, unit.as_str()), wanted),
        Err(_) => false,
    }
}

fn is_right(alloc: Global, line: &str) -> bool {
    match line.split_once('|') {
        Some((wanted, text)) => is_read_as(alloc, text, wanted),
        None => false,
    }
}

#[test]
fn units(rt: HostRuntime) -> Result<(), Fail> {
    let alloc = rt.alloc();
    for line in CASES.lines() {
        assert!(rt; is_right(alloc, line), "{line}");
    }
    Ok(())
}

/// How many may stand inside each other, the word for one more, and the texts: what stands before, what is repeated, what
/// stands between, what is repeated there, and what stands behind.
const NESTS: &[(u32, &str, [&str; 5])] = &[
    (1499, "height", ["void f(void) {", "if (x) ", ";", "", "}"]),
    (
        1499,
        "height",
        ["void f(void) {", "while (x) ", "{}", "", "}"],
    ),
    (1499, "height", ["void f(void) {", "a: ", ";", "", "}"]),
    (
        1499,
        "height",
        ["void f(void) { typedef int T; ", "T: ", ";", "", "}"],
    ),
    (127, "height", ["void f(void) ", "{", "", "}", ""]),
    (500, "height", ["int x = ", "(", "1", ")", ";"]),
    (499, "height", ["int x[] = {", "{", "1", "}", "};"]),
    (199, "height", ["int x = ", "- ", "1", "", ";"]),
    (30, "arguments", ["int x = f(", "1, ", "1", "", ");"]),
    (30, "arguments", ["int f(", "int, ", "int", "", ");"]),
];

fn repeat(text: &mut String, count: u32, each: &str) -> Result<(), NoMemory> {
    for _ in 0..count {
        text.push_str(each)?;
    }
    Ok(())
}

fn nested(alloc: Global, count: u32, parts: &[&str; 5]) -> Result<String, NoMemory> {
    let [before, each, between, close, behind] = parts;
    let mut text = String::new(alloc);
    text.push_str(before)?;
    repeat(&mut text, count, each)?;
    text.push_str(between)?;
    repeat(&mut text, count, close)?;
    text.push_str(behind)?;
    Ok(text)
}

fn is_nest_read_as(alloc: Global, count: u32, parts: &[&str; 5], wanted: &str) -> bool {
    match nested(alloc, count, parts) {
        Ok(text) => is_wanted(parsed(alloc, text.as_str()), wanted),
        Err(_) => false,
    }
}

// Up to each limit a unit is read, on the stack that a program has; one beyond it is refused.
#[test]
fn limits(rt: HostRuntime) -> Result<(), Fail> {
    let alloc = rt.alloc();
    for (most, word, parts) in NESTS {
        assert!(rt; is_nest_read_as(alloc, *most, parts, "1"), "{most} {word}");
        let beyond = most.saturating_add(1);
        assert!(rt;
            is_nest_read_as(alloc, beyond, parts, word),
            "{most} {word}"
        );
    }
    Ok(())
}

/// Lists of 31 elements and a wrong token behind them; with one element more the limit is named and not the token.
const CROWDS: &[[&str; 5]] = &[
    ["int x = g(", "1, ", "1", "", "];"],
    ["int x = g(", "1, ", "1", "", ";"],
    ["int x = g(", "1, ", "1", "", ": 2);"],
    ["int x = g(", "1, ", "1", "", ""],
    ["int x = g(", "1, ", "1", "", " y);"],
    ["int x = g(", "1, ", "a + b", "", " = c);"],
    ["int x = g(", "1, ", "sizeof (int)", "", "[1]);"],
    ["int x = g(", "1, ", "a", "", " \"b\");"],
    ["int x[g(", "1, ", "1", "", "];"],
    ["int g(", "int a, ", "int b", "", "];"],
    ["int g(", "int, ", "int", "", ";"],
    ["int g(", "int, ", "int *", "", "}"],
    ["int g(", "int, ", "int (*)(void)", "", ":"],
    ["int g(", "int, ", "register int", "", " static);"],
    ["int g(", "int, ", "struct s", "", ""],
];

#[test]
fn crowds(rt: HostRuntime) -> Result<(), Fail> {
    let alloc = rt.alloc();
    for parts in CROWDS {
        let text = parts[4];
        assert!(rt; is_nest_read_as(alloc, 30, parts, "5"), "{text}");
        assert!(rt; is_nest_read_as(alloc, 31, parts, "arguments"), "{text}");
    }
    Ok(())
}
