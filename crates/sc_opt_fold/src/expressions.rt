// Constants are folded: the tree with the numbers that integer operators and conversions of numbers give.
ghost use Rattle.std.specs.Prelude.{◌≡◌, IfOk, map};
ghost use Rattle.sc_opt_fold.specs.Folded as spec;

use crate::constants::{binary_value, constant, converted_value, unary_value};
use crate::nodes::{
    address_node, and_node, arrow_node, assign_node, assign_structure_node, automatic_node,
    binary_node, call_node, cast_node, comma_node, compare_node, compound_node,
    compound_offset_node, conditional_node, convert_node, difference_node, function_node,
    index_node, indirection_node, literal_node, member_node, number_node, offset_node, or_node,
    static_node, step_node, unary_node,
};
use sc_base::{Items, NoMemory, Op, Shared};
use sc_core::{CoreExpr, UnaryOperator};
use sc_types::CType;
use std::alloc::Global;

fn unary_folded(
    alloc: Global,
    l: u32,
    t: &CType,
    o: UnaryOperator,
    a: Shared<CoreExpr>,
) -> Result<CoreExpr, NoMemory>
    ensures { IfOk result (λ e. e ≡ spec.unary_folded l t.now o a) }
{
    match unary_value(o, constant(a.get())) {
        Some(n) => {
            drop(a);
            number_node(alloc, l, t, n)
        }
        None => unary_node(alloc, l, t, o, a),
    }
}

fn binary_folded(
    alloc: Global,
    l: u32,
    t: &CType,
    o: Op,
    a: Shared<CoreExpr>,
    b: Shared<CoreExpr>,
) -> Result<CoreExpr, NoMemory>
    ensures { IfOk result (λ e. e ≡ spec.binary_folded l t.now o a b) }
{
    match binary_value(o, constant(a.get()), constant(b.get())) {
        Some(n) => {
            drop(a);
            drop(b);
            number_node(alloc, l, t, n)
        }
        None => binary_node(alloc, l, t, o, a, b),
    }
}

fn cast_folded(alloc: Global, l: u32, t: &CType, a: Shared<CoreExpr>) -> Result<CoreExpr, NoMemory>
    ensures { IfOk result (λ e. e ≡ spec.cast_folded l t.now a) }
{
    match converted_value(t, constant(a.get())) {
        Some(n) => {
            drop(a);
            number_node(alloc, l, t, n)
        }
        None => cast_node(alloc, l, t, a),
    }
}

fn convert_folded(
    alloc: Global,
    l: u32,
    t: &CType,
    a: Shared<CoreExpr>,
) -> Result<CoreExpr, NoMemory>
    ensures { IfOk result (λ e. e ≡ spec.convert_folded l t.now a) }
{
    match converted_value(t, constant(a.get())) {
        Some(n) => {
            drop(a);
            number_node(alloc, l, t, n)
        }
        None => convert_node(alloc, l, t, a),
    }
}

#[cycle(fold)]
fn fold_part(alloc: Global, e: &CoreExpr) -> Result<Shared<CoreExpr>, NoMemory>
    ensures { IfOk result (λ f. f ≡ spec.folded e.now) }
{
    let e = fold_expr(alloc, e)?;
    let e = Shared::new(alloc, e)?;
    Ok(e)
}

#[cycle(fold)]
fn fold_parts(alloc: Global, es: &[Shared<CoreExpr>]) -> Result<Items<Shared<CoreExpr>>, NoMemory>
    ensures { IfOk result (λ fs. fs ≡ map spec.folded es.now) }
{
    let mut parts = Items::new(alloc);
    for e in es {
        parts.push(fold_part(alloc, e.get())?)?;
    }
    Ok(parts)
}

/// The tree in which each integer operator, cast and conversion whose operands are numbers is the number that it gives. One that would break
/// a rule stays.
///
/// # Errors
///
/// `NoMemory` alone.
#[cycle(fold)]
pub fn fold_expr(alloc: Global, e: &CoreExpr) -> Result<CoreExpr, NoMemory>
    ensures { IfOk result (λ f. f ≡ spec.folded e.now) }
{
    match e {
        CoreExpr::Number(l, t, n) => number_node(alloc, *l, t, *n),
        CoreExpr::Literal(l, t, i) => literal_node(alloc, *l, t, *i),
        CoreExpr::Automatic(l, t, b, i) => automatic_node(alloc, *l, t, *b, *i),
        CoreExpr::Static(l, t, key) => static_node(alloc, *l, t, key),
        CoreExpr::Function(l, t, key) => function_node(alloc, *l, t, key),
        CoreExpr::Index(l, t, size, a, b) => {
            let a = fold_part(alloc, a.get())?;
            let b = fold_part(alloc, b.get())?;
            index_node(alloc, *l, t, *size, a, b)
        }
        CoreExpr::Call(l, t, f, es) => {
            let f = fold_part(alloc, f.get())?;
            let es = fold_parts(alloc, es.as_slice())?;
            call_node(alloc, *l, t, f, es)
        }
        CoreExpr::Member(l, t, n, a) => {
            let a = fold_part(alloc, a.get())?;
            member_node(alloc, *l, t, *n, a)
        }
        CoreExpr::Arrow(l, t, n, a) => {
            let a = fold_part(alloc, a.get())?;
            arrow_node(alloc, *l, t, *n, a)
        }
        CoreExpr::Step(l, t, s, n, a) => {
            let a = fold_part(alloc, a.get())?;
            step_node(alloc, *l, t, *s, *n, a)
        }
        CoreExpr::Address(l, t, a) => {
            let a = fold_part(alloc, a.get())?;
            address_node(alloc, *l, t, a)
        }
        CoreExpr::Indirection(l, t, a) => {
            let a = fold_part(alloc, a.get())?;
            indirection_node(alloc, *l, t, a)
        }
        CoreExpr::Unary(l, t, o, a) => {
            let a = fold_part(alloc, a.get())?;
            unary_folded(alloc, *l, t, *o, a)
        }
        CoreExpr::Cast(l, t, a) => {
            let a = fold_part(alloc, a.get())?;
            cast_folded(alloc, *l, t, a)
        }
        CoreExpr::Binary(l, t, o, a, b) => {
            let a = fold_part(alloc, a.get())?;
            let b = fold_part(alloc, b.get())?;
            binary_folded(alloc, *l, t, *o, a, b)
        }
        CoreExpr::Offset(l, t, o, size, a, b) => {
            let a = fold_part(alloc, a.get())?;
            let b = fold_part(alloc, b.get())?;
            offset_node(alloc, *l, t, *o, *size, a, b)
        }
        CoreExpr::Difference(l, t, size, a, b) => {
            let a = fold_part(alloc, a.get())?;
            let b = fold_part(alloc, b.get())?;
            difference_node(alloc, *l, t, *size, a, b)
        }
        CoreExpr::Compare(l, t, o, a, b) => {
            let a = fold_part(alloc, a.get())?;
            let b = fold_part(alloc, b.get())?;
            compare_node(alloc, *l, t, *o, a, b)
        }
        CoreExpr::And(l, t, a, b) => {
            let a = fold_part(alloc, a.get())?;
            let b = fold_part(alloc, b.get())?;
            and_node(alloc, *l, t, a, b)
        }
        CoreExpr::Or(l, t, a, b) => {
            let a = fold_part(alloc, a.get())?;
            let b = fold_part(alloc, b.get())?;
            or_node(alloc, *l, t, a, b)
        }
        CoreExpr::Conditional(l, t, a, b, d) => {
            let a = fold_part(alloc, a.get())?;
            let b = fold_part(alloc, b.get())?;
            let d = fold_part(alloc, d.get())?;
            conditional_node(alloc, *l, t, a, b, d)
        }
        CoreExpr::Assign(l, t, a, b) => {
            let a = fold_part(alloc, a.get())?;
            let b = fold_part(alloc, b.get())?;
            assign_node(alloc, *l, t, a, b)
        }
        CoreExpr::AssignStructure(l, t, size, a, b) => {
            let a = fold_part(alloc, a.get())?;
            let b = fold_part(alloc, b.get())?;
            assign_structure_node(alloc, *l, t, *size, a, b)
        }
        CoreExpr::Compound(l, t, o, k, a, b) => {
            let a = fold_part(alloc, a.get())?;
            let b = fold_part(alloc, b.get())?;
            compound_node(alloc, *l, t, *o, *k, a, b)
        }
        CoreExpr::CompoundOffset(l, t, o, size, a, b) => {
            let a = fold_part(alloc, a.get())?;
            let b = fold_part(alloc, b.get())?;
            compound_offset_node(alloc, *l, t, *o, *size, a, b)
        }
        CoreExpr::Comma(l, t, a, b) => {
            let a = fold_part(alloc, a.get())?;
            let b = fold_part(alloc, b.get())?;
            comma_node(alloc, *l, t, a, b)
        }
        CoreExpr::Convert(l, t, a) => {
            let a = fold_part(alloc, a.get())?;
            convert_folded(alloc, *l, t, a)
        }
    }
}
