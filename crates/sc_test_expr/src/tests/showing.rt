// A tree as words with a space between: the word of each node, its parts behind it. An operator before its operand has the
// sign `'` in front, one behind its operand has it at the end; `)` ends the arguments of a call, `:` a type.

use sc_base::{Bytes, Int, Shared};
use sc_tree::{Binary, Constant, Derivation, Expr, Postfix, Specifiers, TypeName, TypeWord, Unary};

// The first word, and what stands behind it.
fn split(text: &str) -> (&str, &str) {
    match text.split_once(' ') {
        Some(parts) => parts,
        None => (text, ""),
    }
}

// What stands behind this word.
fn after<'a>(text: &'a str, word: &[u8]) -> Option<&'a str> {
    let (head, rest) = split(text);
    if head.as_bytes() == word {
        Some(rest)
    } else {
        None
    }
}

// What stands behind this number.
fn after_number<'a>(text: &'a str, n: usize) -> Option<&'a str> {
    let (head, rest) = split(text);
    if head.parse::<usize>() == Ok(n) {
        Some(rest)
    } else {
        None
    }
}

fn unary_word(op: Unary) -> &'static [u8] {
    match op {
        Unary::Increment => b"'++",
        Unary::Decrement => b"'--",
        Unary::Address => b"'&",
        Unary::Indirection => b"'*",
        Unary::Plus => b"'+",
        Unary::Minus => b"'-",
        Unary::Complement => b"'~",
        Unary::Not => b"'!",
    }
}

fn binary_word(op: Binary) -> &'static [u8] {
    match op {
        Binary::LogicalOr => b"||",
        Binary::LogicalAnd => b"&&",
        Binary::Or => b"|",
        Binary::Xor => b"^",
        Binary::And => b"&",
        Binary::Equal => b"==",
        Binary::NotEqual => b"!=",
        Binary::Less => b"<",
        Binary::Greater => b">",
        Binary::LessEqual => b"<=",
        Binary::GreaterEqual => b">=",
        Binary::ShiftLeft => b"<<",
        Binary::ShiftRight => b">>",
        Binary::Add => b"+",
        Binary::Subtract => b"-",
        Binary::Multiply => b"*",
        Binary::Divide => b"/",
        Binary::Remainder => b"%",
    }
}

fn assign_word(op: Binary) -> &'static [u8] {
    match op {
        Binary::Or => b"|=",
        Binary::Xor => b"^=",
        Binary::And => b"&=",
        Binary::ShiftLeft => b"<<=",
        Binary::ShiftRight => b">>=",
        Binary::Add => b"+=",
        Binary::Subtract => b"-=",
        Binary::Multiply => b"*=",
        Binary::Divide => b"/=",
        Binary::Remainder => b"%=",
        _ => b"no assignment",
    }
}

fn suffix(of: Int) -> &'static [u8] {
    match of {
        Int::Int => b"int",
        Int::UInt => b"unsigned",
        Int::Long => b"long",
        Int::ULong => b"unsignedlong",
        _ => b"no constant's",
    }
}

fn after_constant<'a>(text: &'a str, constant: Option<Constant>) -> Option<&'a str> {
    match constant {
        Some(c) => after(after_number(text, c.value as usize)?, suffix(c.of)),
        None => after(text, b"none"),
    }
}

fn after_string<'a>(text: &'a str, bytes: &Option<Bytes>) -> Option<&'a str> {
    match bytes {
        Some(bytes) => after(after(text, b"\"")?, bytes.as_slice()),
        None => after(text, b"\"none"),
    }
}

fn word(e: &Expr) -> &'static [u8] {
    match e {
        Expr::OffsetOf(_, _, _) => b"offsetof",
        Expr::Index(_, _, _) => b"[]",
        Expr::Call(_, _, _) => b"(",
        Expr::Member(_, _, _) => b".",
        Expr::Arrow(_, _, _) => b"->",
        Expr::Postfix(_, Postfix::Increment, _) => b"++'",
        Expr::Postfix(_, Postfix::Decrement, _) => b"--'",
        Expr::Unary(_, op, _) => unary_word(*op),
        Expr::SizeOf(_, _) => b"sizeof",
        Expr::SizeOfType(_, _) => b"sizeof()",
        Expr::Cast(_, _, _) => b"cast",
        Expr::Binary(_, op, _, _) => binary_word(*op),
        Expr::Conditional(_, _, _, _) => b"?",
        Expr::Assign(_, None, _, _) => b"=",
        Expr::Assign(_, Some(op), _, _) => assign_word(*op),
        Expr::Comma(_, _, _) => b",",
        _ => b"no operator",
    }
}

fn after_head<'a>(text: &'a str, e: &Expr) -> Option<&'a str> {
    match e {
        Expr::Name(_, name) => after(text, name.as_slice()),
        Expr::Constant(_, constant) => after_constant(text, *constant),
        Expr::String(_, bytes) => after_string(text, bytes),
        _ => after(text, word(e)),
    }
}

fn plain_word(word: &TypeWord) -> &'static [u8] {
    match word {
        TypeWord::Void => b"void",
        TypeWord::Char => b"char",
        TypeWord::Short => b"short",
        TypeWord::Int => b"int",
        TypeWord::Long => b"long",
        TypeWord::Signed => b"signed",
        TypeWord::Unsigned => b"unsigned",
        TypeWord::StructTag(_, false, _) => b"struct",
        TypeWord::StructTag(_, true, _) => b"union",
        TypeWord::Struct(_, false, _, _) => b"struct{}",
        TypeWord::Struct(_, true, _, _) => b"union{}",
        TypeWord::EnumTag(_, _) => b"enum",
        TypeWord::Enum(_, _, _) => b"enum{}",
        TypeWord::Typedef(_, _) => b"typedef",
    }
}

// A tag's or typedef's name behind the word, and how many lists of members or how many items stand in braces.
fn after_type_word<'a>(text: &'a str, word: &TypeWord) -> Option<&'a str> {
    let rest = after(text, plain_word(word))?;
    match word {
        TypeWord::StructTag(_, _, name) => after(rest, name.as_slice()),
        TypeWord::EnumTag(_, name) => after(rest, name.as_slice()),
        TypeWord::Typedef(_, name) => after(rest, name.as_slice()),
        TypeWord::Struct(_, _, _, members) => after_number(rest, members.len()),
        TypeWord::Enum(_, _, items) => after_number(rest, items.len()),
        _ => Some(rest),
    }
}

fn after_specifiers<'a>(text: &'a str, specifiers: &Specifiers) -> Option<&'a str> {
    let mut left = text;
    if specifiers.constant {
        left = after(left, b"const")?;
    }
    for word in specifiers.words.as_slice() {
        left = after_type_word(left, word)?;
    }
    Some(left)
}

fn after_derivation<'a>(text: &'a str, derivation: &Derivation) -> Option<&'a str> {
    match derivation {
        Derivation::Pointer(false) => after(text, b"*"),
        Derivation::Pointer(true) => after(text, b"*const"),
        Derivation::Array(None) => after(text, b"[]"),
        Derivation::Array(Some(_)) => after(text, b"[n]"),
        Derivation::Function => after(text, b"()"),
        Derivation::Prototype(parameters) => {
            after_number(after(text, b"parameters")?, parameters.len())
        }
    }
}

fn after_derivations<'a>(text: &'a str, derivations: &[Derivation]) -> Option<&'a str> {
    let mut left = text;
    for derivation in derivations {
        left = after_derivation(left, derivation)?;
    }
    Some(left)
}

// The specifiers, the derivations from the outermost on, and `:`.
fn after_type<'a>(text: &'a str, name: &TypeName) -> Option<&'a str> {
    let rest = after_specifiers(text, &name.specifiers)?;
    match &name.declarator {
        Some(d) => after(after_derivations(rest, d.derivations.as_slice())?, b":"),
        None => after(rest, b":"),
    }
}

// What stands behind the words of the tree; nothing where it has others.
#[cycle(tree)]
fn after_tree<'a>(text: &'a str, e: &Expr) -> Option<&'a str> {
    let rest = after_head(text, e)?;
    match e {
        Expr::Name(_, _) | Expr::Constant(_, _) | Expr::String(_, _) => Some(rest),
        Expr::OffsetOf(_, t, name) => after(after_type(rest, t.get())?, name.as_slice()),
        Expr::SizeOfType(_, t) => after_type(rest, t.get()),
        Expr::Member(_, a, name) | Expr::Arrow(_, a, name) => {
            after(after_tree(rest, a.get())?, name.as_slice())
        }
        Expr::Postfix(_, _, a) => after_tree(rest, a.get()),
        Expr::Unary(_, _, a) | Expr::SizeOf(_, a) => after_tree(rest, a.get()),
        Expr::Cast(_, t, a) => after_tree(after_type(rest, t.get())?, a.get()),
        Expr::Index(_, a, b) | Expr::Comma(_, a, b) => {
            after_tree(after_tree(rest, a.get())?, b.get())
        }
        Expr::Binary(_, _, a, b) => after_tree(after_tree(rest, a.get())?, b.get()),
        Expr::Assign(_, _, a, b) => after_tree(after_tree(rest, a.get())?, b.get()),
        Expr::Conditional(_, a, b, c) => {
            let rest = after_tree(rest, a.get())?;
            after_tree(after_tree(rest, b.get())?, c.get())
        }
        Expr::Call(_, f, args) => after_arguments(after_tree(rest, f.get())?, args.as_slice()),
    }
}

#[cycle(tree)]
fn after_arguments<'a>(text: &'a str, args: &[Shared<Expr>]) -> Option<&'a str> {
    let mut left = text;
    for arg in args {
        left = after_tree(left, arg.get())?;
    }
    after(left, b")")
}

// Whether the words are those of the tree and no others.
pub fn shows(e: &Expr, words: &str) -> bool {
    match after_tree(words, e) {
        Some(rest) => rest.is_empty(),
        None => false,
    }
}
