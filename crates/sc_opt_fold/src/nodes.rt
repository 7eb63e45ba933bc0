// Expressions of the typed tree, made of parts that are there.
ghost use Rattle.std.specs.Prelude.{◌≡◌, IfOk};
ghost use Rattle.sc_core.specs.declared.expression.CoreExpr.TheVariants as core;

use sc_base::{Duplicate, Int, Items, Key, NoMemory, Op, Shared};
use sc_core::{CoreExpr, Step, UnaryOperator};
use sc_types::CType;
use std::alloc::Global;

pub(crate) fn number_node(alloc: Global, l: u32, t: &CType, n: u32) -> Result<CoreExpr, NoMemory>
    ensures { IfOk result (λ e. e ≡ core.Number l t.now n) }
{
    Ok(CoreExpr::Number(l, t.copy(alloc)?, n))
}

pub(crate) fn literal_node(alloc: Global, l: u32, t: &CType, i: u32) -> Result<CoreExpr, NoMemory>
    ensures { IfOk result (λ e. e ≡ core.Literal l t.now i) }
{
    Ok(CoreExpr::Literal(l, t.copy(alloc)?, i))
}

pub(crate) fn automatic_node(
    alloc: Global,
    l: u32,
    t: &CType,
    b: u32,
    i: u32,
) -> Result<CoreExpr, NoMemory>
    ensures { IfOk result (λ e. e ≡ core.Automatic l t.now b i) }
{
    Ok(CoreExpr::Automatic(l, t.copy(alloc)?, b, i))
}

pub(crate) fn static_node(alloc: Global, l: u32, t: &CType, key: &Key) -> Result<CoreExpr, NoMemory>
    ensures { IfOk result (λ e. e ≡ core.Static l t.now key.now) }
{
    Ok(CoreExpr::Static(l, t.copy(alloc)?, key.copy(alloc)?))
}

pub(crate) fn function_node(
    alloc: Global,
    l: u32,
    t: &CType,
    key: &Key,
) -> Result<CoreExpr, NoMemory>
    ensures { IfOk result (λ e. e ≡ core.Function l t.now key.now) }
{
    Ok(CoreExpr::Function(l, t.copy(alloc)?, key.copy(alloc)?))
}

pub(crate) fn index_node(
    alloc: Global,
    l: u32,
    t: &CType,
    size: u32,
    a: Shared<CoreExpr>,
    b: Shared<CoreExpr>,
) -> Result<CoreExpr, NoMemory>
    ensures { IfOk result (λ e. e ≡ core.Index l t.now size a b) }
{
    Ok(CoreExpr::Index(l, t.copy(alloc)?, size, a, b))
}

pub(crate) fn call_node(
    alloc: Global,
    l: u32,
    t: &CType,
    f: Shared<CoreExpr>,
    es: Items<Shared<CoreExpr>>,
) -> Result<CoreExpr, NoMemory>
    ensures { IfOk result (λ e. e ≡ core.Call l t.now f es) }
{
    Ok(CoreExpr::Call(l, t.copy(alloc)?, f, es))
}

pub(crate) fn member_node(
    alloc: Global,
    l: u32,
    t: &CType,
    n: u32,
    a: Shared<CoreExpr>,
) -> Result<CoreExpr, NoMemory>
    ensures { IfOk result (λ e. e ≡ core.Member l t.now n a) }
{
    Ok(CoreExpr::Member(l, t.copy(alloc)?, n, a))
}

pub(crate) fn arrow_node(
    alloc: Global,
    l: u32,
    t: &CType,
    n: u32,
    a: Shared<CoreExpr>,
) -> Result<CoreExpr, NoMemory>
    ensures { IfOk result (λ e. e ≡ core.Arrow l t.now n a) }
{
    Ok(CoreExpr::Arrow(l, t.copy(alloc)?, n, a))
}

pub(crate) fn step_node(
    alloc: Global,
    l: u32,
    t: &CType,
    s: Step,
    n: u32,
    a: Shared<CoreExpr>,
) -> Result<CoreExpr, NoMemory>
    ensures { IfOk result (λ e. e ≡ core.Step l t.now s n a) }
{
    Ok(CoreExpr::Step(l, t.copy(alloc)?, s, n, a))
}

pub(crate) fn address_node(
    alloc: Global,
    l: u32,
    t: &CType,
    a: Shared<CoreExpr>,
) -> Result<CoreExpr, NoMemory>
    ensures { IfOk result (λ e. e ≡ core.Address l t.now a) }
{
    Ok(CoreExpr::Address(l, t.copy(alloc)?, a))
}

pub(crate) fn indirection_node(
    alloc: Global,
    l: u32,
    t: &CType,
    a: Shared<CoreExpr>,
) -> Result<CoreExpr, NoMemory>
    ensures { IfOk result (λ e. e ≡ core.Indirection l t.now a) }
{
    Ok(CoreExpr::Indirection(l, t.copy(alloc)?, a))
}

pub(crate) fn unary_node(
    alloc: Global,
    l: u32,
    t: &CType,
    o: UnaryOperator,
    a: Shared<CoreExpr>,
) -> Result<CoreExpr, NoMemory>
    ensures { IfOk result (λ e. e ≡ core.Unary l t.now o a) }
{
    Ok(CoreExpr::Unary(l, t.copy(alloc)?, o, a))
}

pub(crate) fn cast_node(
    alloc: Global,
    l: u32,
    t: &CType,
    a: Shared<CoreExpr>,
) -> Result<CoreExpr, NoMemory>
    ensures { IfOk result (λ e. e ≡ core.Cast l t.now a) }
{
    Ok(CoreExpr::Cast(l, t.copy(alloc)?, a))
}

pub(crate) fn binary_node(
    alloc: Global,
    l: u32,
    t: &CType,
    o: Op,
    a: Shared<CoreExpr>,
    b: Shared<CoreExpr>,
) -> Result<CoreExpr, NoMemory>
    ensures { IfOk result (λ e. e ≡ core.Binary l t.now o a b) }
{
    Ok(CoreExpr::Binary(l, t.copy(alloc)?, o, a, b))
}

pub(crate) fn offset_node(
    alloc: Global,
    l: u32,
    t: &CType,
    o: Op,
    size: u32,
    a: Shared<CoreExpr>,
    b: Shared<CoreExpr>,
) -> Result<CoreExpr, NoMemory>
    ensures { IfOk result (λ e. e ≡ core.Offset l t.now o size a b) }
{
    Ok(CoreExpr::Offset(l, t.copy(alloc)?, o, size, a, b))
}

pub(crate) fn difference_node(
    alloc: Global,
    l: u32,
    t: &CType,
    size: u32,
    a: Shared<CoreExpr>,
    b: Shared<CoreExpr>,
) -> Result<CoreExpr, NoMemory>
    ensures { IfOk result (λ e. e ≡ core.Difference l t.now size a b) }
{
    Ok(CoreExpr::Difference(l, t.copy(alloc)?, size, a, b))
}

pub(crate) fn compare_node(
    alloc: Global,
    l: u32,
    t: &CType,
    o: Op,
    a: Shared<CoreExpr>,
    b: Shared<CoreExpr>,
) -> Result<CoreExpr, NoMemory>
    ensures { IfOk result (λ e. e ≡ core.Compare l t.now o a b) }
{
    Ok(CoreExpr::Compare(l, t.copy(alloc)?, o, a, b))
}

pub(crate) fn and_node(
    alloc: Global,
    l: u32,
    t: &CType,
    a: Shared<CoreExpr>,
    b: Shared<CoreExpr>,
) -> Result<CoreExpr, NoMemory>
    ensures { IfOk result (λ e. e ≡ core.And l t.now a b) }
{
    Ok(CoreExpr::And(l, t.copy(alloc)?, a, b))
}

pub(crate) fn or_node(
    alloc: Global,
    l: u32,
    t: &CType,
    a: Shared<CoreExpr>,
    b: Shared<CoreExpr>,
) -> Result<CoreExpr, NoMemory>
    ensures { IfOk result (λ e. e ≡ core.Or l t.now a b) }
{
    Ok(CoreExpr::Or(l, t.copy(alloc)?, a, b))
}

pub(crate) fn conditional_node(
    alloc: Global,
    l: u32,
    t: &CType,
    a: Shared<CoreExpr>,
    b: Shared<CoreExpr>,
    d: Shared<CoreExpr>,
) -> Result<CoreExpr, NoMemory>
    ensures { IfOk result (λ e. e ≡ core.Conditional l t.now a b d) }
{
    Ok(CoreExpr::Conditional(l, t.copy(alloc)?, a, b, d))
}

pub(crate) fn assign_node(
    alloc: Global,
    l: u32,
    t: &CType,
    a: Shared<CoreExpr>,
    b: Shared<CoreExpr>,
) -> Result<CoreExpr, NoMemory>
    ensures { IfOk result (λ e. e ≡ core.Assign l t.now a b) }
{
    Ok(CoreExpr::Assign(l, t.copy(alloc)?, a, b))
}

pub(crate) fn assign_structure_node(
    alloc: Global,
    l: u32,
    t: &CType,
    size: u32,
    a: Shared<CoreExpr>,
    b: Shared<CoreExpr>,
) -> Result<CoreExpr, NoMemory>
    ensures { IfOk result (λ e. e ≡ core.AssignStructure l t.now size a b) }
{
    Ok(CoreExpr::AssignStructure(l, t.copy(alloc)?, size, a, b))
}

pub(crate) fn compound_node(
    alloc: Global,
    l: u32,
    t: &CType,
    o: Op,
    k: Int,
    a: Shared<CoreExpr>,
    b: Shared<CoreExpr>,
) -> Result<CoreExpr, NoMemory>
    ensures { IfOk result (λ e. e ≡ core.Compound l t.now o k a b) }
{
    Ok(CoreExpr::Compound(l, t.copy(alloc)?, o, k, a, b))
}

pub(crate) fn compound_offset_node(
    alloc: Global,
    l: u32,
    t: &CType,
    o: Op,
    size: u32,
    a: Shared<CoreExpr>,
    b: Shared<CoreExpr>,
) -> Result<CoreExpr, NoMemory>
    ensures { IfOk result (λ e. e ≡ core.CompoundOffset l t.now o size a b) }
{
    Ok(CoreExpr::CompoundOffset(l, t.copy(alloc)?, o, size, a, b))
}

pub(crate) fn comma_node(
    alloc: Global,
    l: u32,
    t: &CType,
    a: Shared<CoreExpr>,
    b: Shared<CoreExpr>,
) -> Result<CoreExpr, NoMemory>
    ensures { IfOk result (λ e. e ≡ core.Comma l t.now a b) }
{
    Ok(CoreExpr::Comma(l, t.copy(alloc)?, a, b))
}

pub(crate) fn convert_node(
    alloc: Global,
    l: u32,
    t: &CType,
    a: Shared<CoreExpr>,
) -> Result<CoreExpr, NoMemory>
    ensures { IfOk result (λ e. e ≡ core.Convert l t.now a) }
{
    Ok(CoreExpr::Convert(l, t.copy(alloc)?, a))
}
