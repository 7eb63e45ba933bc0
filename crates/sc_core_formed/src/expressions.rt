// What holds of every expression of a typed tree (ANSI 3.3).
ghost use Rattle.std.specs.Prelude.{◌≡◌};
ghost use Rattle.sc_core_formed.specs.Open.{numbers};
ghost use Rattle.sc_core_formed.specs.Expressions as spec;
ghost use Rattle.sc_core.specs.declared.expression.CoreExpr.{out-CoreExpr};

use crate::known::is_known;
use crate::names::{Indexed, is_declared_function, is_static};
use crate::open::{Open, is_open};
use sc_base::{Items, Shared};
use sc_core::{Auto, CoreExpr, type_of};
use sc_core_needs::{
    converts, is_address, is_arrow, is_assignment, is_binary, is_call, is_cast, is_choice,
    is_compare, is_compound, is_copy, is_difference, is_element, is_indirection, is_literal,
    is_logical, is_member, is_movement, is_number, is_offset, is_sequence, is_step, is_unary, same,
};
use sc_types::{CType, Structs};

/// Whether an object with this type stands at a place of a block.
fn fits_auto(structs: &Structs, of: &CType, blocks: &[Items<Auto>], block: u32, n: u32) -> bool
    ensures { result ≡ spec.fits_auto structs.now of.now (spec.auto_at blocks.now block n) }
{
    match blocks.get(block as usize) {
        Some(autos) => match autos.as_slice().get(n as usize) {
            Some(x) => same(structs, of, &x.of),
            None => false,
        },
        None => false,
    }
}

fn is_automatic(
    structs: &Structs,
    blocks: &[Items<Auto>],
    around: &Open,
    of: &CType,
    block: u32,
    n: u32,
) -> bool
    ensures { result ≡ spec.is_automatic structs.now blocks.now (numbers around.now) of.now block n }
{
    is_open(around, block) && fits_auto(structs, of, blocks, block, n)
}

/// What a construct says of itself and asks of its operands, where its type's structures are those of the module.
fn node(m: &Indexed, blocks: &[Items<Auto>], around: &Open, e: &CoreExpr) -> bool
    ensures { result ≡ spec.node m.now.core.now blocks.now (numbers around.now) e.now }
{
    is_known(&m.core.structs, type_of(e)) && construct(m, blocks, around, e)
}

/// What a construct says of itself and asks of its operands.
fn construct(m: &Indexed, blocks: &[Items<Auto>], around: &Open, e: &CoreExpr) -> bool
    ensures { result ≡ spec.node_level m.now.core.now blocks.now (numbers around.now) (out-CoreExpr e.now) }
{
    let structs = &m.core.structs;
    match e {
        CoreExpr::Number(_, of, n) => is_number(of, *n),
        CoreExpr::Literal(_, of, n) => is_literal(m.core.literals.as_slice(), of, *n),
        CoreExpr::Automatic(_, of, block, n) => {
            is_automatic(structs, blocks, around, of, *block, *n)
        }
        CoreExpr::Static(_, of, key) => is_static(m, of, key),
        CoreExpr::Function(_, of, key) => is_declared_function(m, of, key),
        CoreExpr::Index(_, of, n, a, b) => is_element(structs, of, *n, a.get(), b.get()),
        CoreExpr::Call(_, of, f, args) => is_call(structs, of, f.get(), args.as_slice()),
        CoreExpr::Member(_, of, n, a) => is_member(structs, of, *n, type_of(a.get())),
        CoreExpr::Arrow(_, of, n, a) => is_arrow(structs, of, *n, a.get()),
        CoreExpr::Step(_, of, _, n, a) => is_step(structs, of, *n, a.get()),
        CoreExpr::Address(_, of, a) => is_address(structs, of, a.get()),
        CoreExpr::Indirection(_, of, a) => is_indirection(structs, of, a.get()),
        CoreExpr::Unary(_, of, op, a) => is_unary(structs, of, *op, a.get()),
        CoreExpr::Cast(_, of, a) => is_cast(structs, of, a.get()),
        CoreExpr::Binary(_, of, op, a, b) => is_binary(structs, of, *op, a.get(), b.get()),
        CoreExpr::Offset(_, of, op, n, a, b) => {
            is_offset(structs, of, *op, *n, a.get(), b.get())
        }
        CoreExpr::Difference(_, of, n, a, b) => is_difference(structs, of, *n, a.get(), b.get()),
        CoreExpr::Compare(_, of, op, a, b) => is_compare(structs, of, *op, a.get(), b.get()),
        CoreExpr::And(_, of, a, b) => is_logical(structs, of, a.get(), b.get()),
        CoreExpr::Or(_, of, a, b) => is_logical(structs, of, a.get(), b.get()),
        CoreExpr::Conditional(_, of, a, b, d) => is_choice(structs, of, a.get(), b.get(), d.get()),
        CoreExpr::Assign(_, of, a, b) => is_assignment(structs, of, a.get(), b.get()),
        CoreExpr::AssignStructure(_, of, n, a, b) => is_copy(structs, of, *n, a.get(), b.get()),
        CoreExpr::Compound(_, of, op, k, a, b) => {
            is_compound(structs, of, *op, *k, a.get(), b.get())
        }
        CoreExpr::CompoundOffset(_, of, op, n, a, b) => {
            is_movement(structs, of, *op, *n, a.get(), b.get())
        }
        CoreExpr::Comma(_, of, a, b) => is_sequence(structs, of, a.get(), b.get()),
        CoreExpr::Convert(_, of, a) => converts(structs, of, a.get()),
    }
}

/// Whether every construct in the expression is formed.
#[cycle(expression)]
pub(crate) fn expression(m: &Indexed, blocks: &[Items<Auto>], around: &Open, e: &CoreExpr) -> bool
    ensures { result ≡ spec.expression m.now.core.now blocks.now (numbers around.now) e.now }
{
    match e {
        CoreExpr::Number(_, _, _)
        | CoreExpr::Literal(_, _, _)
        | CoreExpr::Automatic(_, _, _, _)
        | CoreExpr::Static(_, _, _)
        | CoreExpr::Function(_, _, _) => node(m, blocks, around, e),
        CoreExpr::Call(_, _, f, args) => {
            all(m, blocks, around, args.as_slice())
                && expression(m, blocks, around, f.get())
                && node(m, blocks, around, e)
        }
        CoreExpr::Member(_, _, _, a)
        | CoreExpr::Arrow(_, _, _, a)
        | CoreExpr::Step(_, _, _, _, a)
        | CoreExpr::Address(_, _, a)
        | CoreExpr::Indirection(_, _, a)
        | CoreExpr::Unary(_, _, _, a)
        | CoreExpr::Cast(_, _, a)
        | CoreExpr::Convert(_, _, a) => {
            expression(m, blocks, around, a.get()) && node(m, blocks, around, e)
        }
        CoreExpr::Index(_, _, _, a, b)
        | CoreExpr::Binary(_, _, _, a, b)
        | CoreExpr::Offset(_, _, _, _, a, b)
        | CoreExpr::Difference(_, _, _, a, b)
        | CoreExpr::Compare(_, _, _, a, b)
        | CoreExpr::And(_, _, a, b)
        | CoreExpr::Or(_, _, a, b)
        | CoreExpr::Assign(_, _, a, b)
        | CoreExpr::AssignStructure(_, _, _, a, b)
        | CoreExpr::Compound(_, _, _, _, a, b)
        | CoreExpr::CompoundOffset(_, _, _, _, a, b)
        | CoreExpr::Comma(_, _, a, b) => {
            expression(m, blocks, around, a.get())
                && expression(m, blocks, around, b.get())
                && node(m, blocks, around, e)
        }
        CoreExpr::Conditional(_, _, a, b, d) => {
            expression(m, blocks, around, a.get())
                && expression(m, blocks, around, b.get())
                && expression(m, blocks, around, d.get())
                && node(m, blocks, around, e)
        }
    }
}

/// The same of all arguments.
#[cycle(expression)]
fn all(m: &Indexed, blocks: &[Items<Auto>], around: &Open, args: &[Shared<CoreExpr>]) -> bool
    ensures { result ≡ spec.all_of m.now.core.now blocks.now (numbers around.now) args.now }
{
    for arg in args {
        if !expression(m, blocks, around, arg.get()) {
            return false;
        }
    }
    true
}
