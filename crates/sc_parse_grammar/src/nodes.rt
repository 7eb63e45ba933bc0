// The operand that each production makes.
ghost use Rattle.std.specs.Prelude.{◌≡◌, ◌<◌, ◌≤◌, length, IfOk};
ghost use Rattle.sc_parse_grammar.specs.Nodes as spec;
ghost use Rattle.sc_parse_grammar.specs.Steps.{IsNamed};

use crate::classes::level_of;
use crate::operand::Operand;
use sc_base::{Bytes, Items, Name, NoMemory, Shared};
use sc_parse_names::Symbol;
use sc_tree::{Binary, Constant, Expr, Postfix, TypeName, Unary};
use std::alloc::Global;

/// One more than the height of the highest part, up to 201.
fn higher(height: u8) -> u8
    ensures { result ≡ spec.higher height }
{
    if height < 201 { height + 1 } else { height }
}

fn made(alloc: Global, line: u32, level: u8, height: u8, tree: Expr) -> Result<Operand, NoMemory>
    ensures { IfOk result (λ x. x ≡ spec.operand line level height tree) }
{
    let tree = Shared::new(alloc, tree)?;
    Ok(Operand {
        line,
        level,
        height,
        tree,
    })
}

/// The bytes as a name.
pub fn name_of(alloc: Global, text: &Bytes) -> Result<Name, NoMemory>
    requires { IsNamed text.now }
    ensures { IfOk result (λ name. name ≡ text.now) }
{
    match Name::new(alloc, text.as_slice()) {
        Ok(name) => Ok(name),
        Err(_) => Err(NoMemory),
    }
}

fn name_level(text: &[u8]) -> u8
    ensures { result ≡ spec.name_level text.now }
{
    if text == b"__offsetof".as_slice() {
        18
    } else {
        17
    }
}

pub fn named_node(alloc: Global, line: u32, name: Name) -> Result<Operand, NoMemory>
    ensures { IfOk result (λ x. x ≡ spec.named_node line name) }
{
    let level = name_level(name.as_slice());
    made(alloc, line, level, 1, Expr::Name(line, name))
}

pub fn name_node(alloc: Global, token: &Symbol) -> Result<Operand, NoMemory>
    requires { IsNamed token.now.text }
    ensures { IfOk result (λ x. x ≡ spec.name_node token.now) }
{
    let name = name_of(alloc, &token.text)?;
    named_node(alloc, token.line, name)
}

pub fn constant_node(alloc: Global, line: u32, value: Option<Constant>) -> Result<Operand, NoMemory>
    ensures { IfOk result (λ x. x ≡ spec.constant_node line value) }
{
    made(alloc, line, 17, 1, Expr::Constant(line, value))
}

pub fn text_node(alloc: Global, line: u32, text: Option<Bytes>) -> Result<Operand, NoMemory>
    ensures { IfOk result (λ x. x ≡ spec.text_node line text) }
{
    made(alloc, line, 17, 1, Expr::String(line, text))
}

pub fn paren_node(line: u32, x: Operand) -> Operand
    ensures { result ≡ spec.paren_node line x }
{
    Operand {
        line,
        level: 17,
        height: x.height,
        tree: x.tree,
    }
}

pub fn offset_node(
    alloc: Global,
    line: u32,
    of: Shared<TypeName>,
    name: Name,
) -> Result<Operand, NoMemory>
    ensures { IfOk result (λ x. x ≡ spec.offset_node line of name) }
{
    made(alloc, line, 17, 1, Expr::OffsetOf(line, of, name))
}

pub fn index_node(alloc: Global, a: Operand, x: Operand) -> Result<Operand, NoMemory>
    ensures { IfOk result (λ y. y ≡ spec.index_node a x) }
{
    let height = higher(a.height.max(x.height));
    made(
        alloc,
        a.line,
        16,
        height,
        Expr::Index(a.line, a.tree, x.tree),
    )
}

/// A call; `highest` is the height of the highest argument.
pub fn call_node(
    alloc: Global,
    a: Operand,
    args: Items<Shared<Expr>>,
    highest: u8,
) -> Result<Operand, NoMemory>
    ensures { IfOk result (λ y. y ≡ spec.call_node a args highest) }
{
    let height = higher(a.height.max(highest));
    made(alloc, a.line, 16, height, Expr::Call(a.line, a.tree, args))
}

pub fn member_node(alloc: Global, a: Operand, name: Name) -> Result<Operand, NoMemory>
    ensures { IfOk result (λ y. y ≡ spec.member_node a name) }
{
    let height = higher(a.height);
    made(
        alloc,
        a.line,
        16,
        height,
        Expr::Member(a.line, a.tree, name),
    )
}

pub fn arrow_node(alloc: Global, a: Operand, name: Name) -> Result<Operand, NoMemory>
    ensures { IfOk result (λ y. y ≡ spec.arrow_node a name) }
{
    let height = higher(a.height);
    made(alloc, a.line, 16, height, Expr::Arrow(a.line, a.tree, name))
}

pub fn postfix_node(alloc: Global, a: Operand, op: Postfix) -> Result<Operand, NoMemory>
    ensures { IfOk result (λ y. y ≡ spec.postfix_node a op) }
{
    let height = higher(a.height);
    made(alloc, a.line, 16, height, Expr::Postfix(a.line, op, a.tree))
}

pub fn unary_node(alloc: Global, line: u32, op: Unary, x: Operand) -> Result<Operand, NoMemory>
    ensures { IfOk result (λ y. y ≡ spec.unary_node line op x) }
{
    made(
        alloc,
        line,
        15,
        higher(x.height),
        Expr::Unary(line, op, x.tree),
    )
}

pub fn size_node(alloc: Global, line: u32, x: Operand) -> Result<Operand, NoMemory>
    ensures { IfOk result (λ y. y ≡ spec.size_node line x) }
{
    made(
        alloc,
        line,
        15,
        higher(x.height),
        Expr::SizeOf(line, x.tree),
    )
}

pub fn size_type_node(alloc: Global, line: u32, of: Shared<TypeName>) -> Result<Operand, NoMemory>
    ensures { IfOk result (λ y. y ≡ spec.size_type_node line of) }
{
    made(alloc, line, 15, 1, Expr::SizeOfType(line, of))
}

pub fn cast_node(
    alloc: Global,
    line: u32,
    of: Shared<TypeName>,
    x: Operand,
) -> Result<Operand, NoMemory>
    ensures { IfOk result (λ y. y ≡ spec.cast_node line of x) }
{
    made(
        alloc,
        line,
        14,
        higher(x.height),
        Expr::Cast(line, of, x.tree),
    )
}

pub fn binary_node(alloc: Global, a: Operand, op: Binary, x: Operand) -> Result<Operand, NoMemory>
    ensures { IfOk result (λ y. y ≡ spec.binary_node a op x) }
{
    let height = higher(a.height.max(x.height));
    made(
        alloc,
        a.line,
        level_of(op),
        height,
        Expr::Binary(a.line, op, a.tree, x.tree),
    )
}

pub fn conditional_node(
    alloc: Global,
    a: Operand,
    b: Operand,
    x: Operand,
) -> Result<Operand, NoMemory>
    ensures { IfOk result (λ y. y ≡ spec.conditional_node a b x) }
{
    let height = higher(a.height.max(b.height).max(x.height));
    made(
        alloc,
        a.line,
        3,
        height,
        Expr::Conditional(a.line, a.tree, b.tree, x.tree),
    )
}

pub fn assign_node(
    alloc: Global,
    a: Operand,
    op: Option<Binary>,
    x: Operand,
) -> Result<Operand, NoMemory>
    ensures { IfOk result (λ y. y ≡ spec.assign_node a op x) }
{
    let height = higher(a.height.max(x.height));
    made(
        alloc,
        a.line,
        2,
        height,
        Expr::Assign(a.line, op, a.tree, x.tree),
    )
}

pub fn comma_node(alloc: Global, a: Operand, x: Operand) -> Result<Operand, NoMemory>
    ensures { IfOk result (λ y. y ≡ spec.comma_node a x) }
{
    let height = higher(a.height.max(x.height));
    made(
        alloc,
        a.line,
        1,
        height,
        Expr::Comma(a.line, a.tree, x.tree),
    )
}
