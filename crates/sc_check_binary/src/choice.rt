// The conditional operator (ANSI 3.3.15).
ghost use Rattle.std.specs.Prelude.{◌≡◌, IfOk, Ok, true, false};
ghost use Rattle.sc_check_binary.specs.Conditional as spec;
ghost use Rattle.sc_check_operand.specs.Operands.{to_int, to_type};
ghost use Rattle.sc_check_operand.specs.Steps.{Says};
ghost use Rattle.sc_types.specs.declared.ctype.CType.{out-CType};

use sc_base::{Duplicate, Int, NoMemory, Shared};
use sc_check_operand::{
    Shape, TypeFault, composite, is_const, is_null, is_pointer, is_scalar, is_void, joins,
    mismatch, plain, requalified, shape_of, to_int, to_type, valued,
};
use sc_core::{CoreExpr, type_of};
use sc_types::{CType, Structs, usual};
use std::alloc::Global;

/// What the second and third operands of `?:` make.
#[derive(Drop)]
pub enum Choice {
    Integers(Int),
    Nothing,
    Structure(u32),
    Pointers(CType),
    Wrong,
}

fn composite_target(alloc: Global, c: bool, x: &CType, y: &CType) -> Result<CType, NoMemory>
    ensures { IfOk result (λ r. r ≡ spec.composite_target c x.now y.now) }
{
    let x = plain(x)?;
    let y = plain(y)?;
    qualified_composite(alloc, c, &x, &y)
}

fn qualified_composite(alloc: Global, c: bool, x: &CType, y: &CType) -> Result<CType, NoMemory>
    ensures { IfOk result (λ r. r ≡ spec.qualified_composite c x.now y.now) }
{
    let whole = composite(alloc, x, y)?;
    requalified(c, &whole)
}

/// What a pointer to either points to.
fn common_target(alloc: Global, x: &CType, y: &CType) -> Result<CType, NoMemory>
    ensures { IfOk result (λ r. r ≡ spec.common_target x.now y.now) }
{
    let c = is_const(x) || is_const(y);
    if is_void(x) || is_void(y) {
        Ok(CType::Void(c))
    } else {
        composite_target(alloc, c, x, y)
    }
}

fn common_pointer(alloc: Global, x: &CType, y: &CType) -> Result<Option<CType>, NoMemory>
    ensures { IfOk result (λ r. r ≡ spec.common_pointer x.now y.now) }
{
    let target = common_target(alloc, x, y)?;
    let target = Shared::new(alloc, target)?;
    Ok(Some(CType::Pointer(target, false)))
}

fn joined(alloc: Global, structs: &Structs, x: &CType, y: &CType) -> Result<Option<CType>, NoMemory>
    ensures { IfOk result (λ r. r ≡ spec.joined structs.now x.now y.now) }
{
    if joins(structs, x, y)? {
        common_pointer(alloc, x, y)
    } else {
        Ok(None)
    }
}

fn common_of(
    alloc: Global,
    structs: &Structs,
    a: &CType,
    b: &CType,
) -> Result<Option<CType>, NoMemory>
    ensures { IfOk result (λ r. r ≡ spec.common_level structs.now (out-CType a.now) (out-CType b.now)) }
{
    match a {
        CType::Pointer(x, _) => match b {
            CType::Pointer(y, _) => joined(alloc, structs, x.get(), y.get()),
            _ => Ok(None),
        },
        _ => Ok(None),
    }
}

fn where_null(alloc: Global, null: bool, of: &CType) -> Result<Option<CType>, NoMemory>
    ensures { IfOk result (λ r. r ≡ spec.where_null null of.now) }
{
    if null {
        Ok(Some(of.copy(alloc)?))
    } else {
        Ok(None)
    }
}

fn pointers(
    alloc: Global,
    structs: &Structs,
    a: &CoreExpr,
    b: &CoreExpr,
) -> Result<Option<CType>, NoMemory>
    ensures { IfOk result (λ r. r ≡ spec.pointers structs.now a.now b.now) }
{
    if is_null(a) {
        where_null(alloc, true, type_of(b))
    } else if is_null(b) {
        where_null(alloc, true, type_of(a))
    } else {
        common_of(alloc, structs, type_of(a), type_of(b))
    }
}

/// The common type of two pointers that go together, or of a pointer and a null constant.
fn common(
    alloc: Global,
    structs: &Structs,
    x: Shape,
    y: Shape,
    a: &CoreExpr,
    b: &CoreExpr,
) -> Result<Option<CType>, NoMemory>
    ensures { IfOk result (λ r. r ≡ spec.common_by structs.now x y a.now b.now) }
{
    match (x, y) {
        (Shape::Integer(_), _) => {
            if is_pointer(y) {
                where_null(alloc, is_null(a), type_of(b))
            } else {
                Ok(None)
            }
        }
        (_, Shape::Integer(_)) => {
            if is_pointer(x) {
                where_null(alloc, is_null(b), type_of(a))
            } else {
                Ok(None)
            }
        }
        _ => {
            if is_pointer(x) && is_pointer(y) {
                pointers(alloc, structs, a, b)
            } else {
                Ok(None)
            }
        }
    }
}

fn same_structure(i: u32, j: u32) -> Choice
    ensures { result ≡ spec.same_structure i j }
{
    if i == j {
        Choice::Structure(i)
    } else {
        Choice::Wrong
    }
}

fn pointer_choice(of: Option<CType>) -> Choice
    ensures { result ≡ spec.pointer_choice of }
{
    match of {
        Some(of) => Choice::Pointers(of),
        None => Choice::Wrong,
    }
}

fn other_choice(
    alloc: Global,
    structs: &Structs,
    x: Shape,
    y: Shape,
    a: &CoreExpr,
    b: &CoreExpr,
) -> Result<Choice, NoMemory>
    ensures { IfOk result (λ r. r ≡ spec.pointer_choice (spec.common_by structs.now x y a.now b.now)) }
{
    let of = common(alloc, structs, x, y, a, b)?;
    Ok(pointer_choice(of))
}

fn choice_of(
    alloc: Global,
    structs: &Structs,
    a: &CoreExpr,
    b: &CoreExpr,
) -> Result<Choice, NoMemory>
    ensures { IfOk result (λ r. r ≡ spec.choice_of structs.now a.now b.now) }
{
    let x = shape_of(structs, type_of(a));
    let y = shape_of(structs, type_of(b));
    match (x, y) {
        (Shape::Integer(j), Shape::Integer(k)) => Ok(Choice::Integers(usual(j, k))),
        (Shape::Void, Shape::Void) => Ok(Choice::Nothing),
        (Shape::Structure(i), Shape::Structure(j)) => Ok(same_structure(i, j)),
        _ => other_choice(alloc, structs, x, y, a, b),
    }
}

fn of_type(
    alloc: Global,
    line: u32,
    of: CType,
    a: Shared<CoreExpr>,
    b: Shared<CoreExpr>,
    d: Shared<CoreExpr>,
) -> Result<Shared<CoreExpr>, TypeFault>
    ensures { Says (Ok (CoreExpr.Conditional line of a b d)) result }
{
    Ok(Shared::new(alloc, CoreExpr::Conditional(line, of, a, b, d))?)
}

fn integers(
    alloc: Global,
    line: u32,
    k: Int,
    a: Shared<CoreExpr>,
    b: Shared<CoreExpr>,
    d: Shared<CoreExpr>,
) -> Result<Shared<CoreExpr>, TypeFault>
    ensures { Says (Ok (CoreExpr.Conditional line (CType.Int k false) a (to_int line k b) (to_int line k d))) result }
{
    let b = to_int(alloc, line, k, b)?;
    let d = to_int(alloc, line, k, d)?;
    of_type(alloc, line, CType::Int(k, false), a, b, d)
}

fn of_pointers(
    alloc: Global,
    line: u32,
    of: CType,
    a: Shared<CoreExpr>,
    b: Shared<CoreExpr>,
    d: Shared<CoreExpr>,
) -> Result<Shared<CoreExpr>, TypeFault>
    ensures { Says (Ok (CoreExpr.Conditional line of a (to_type line of b) (to_type line of d))) result }
{
    let b = to_type(alloc, line, &of, b)?;
    let d = to_type(alloc, line, &of, d)?;
    of_type(alloc, line, of, a, b, d)
}

fn chosen(
    alloc: Global,
    line: u32,
    how: Choice,
    a: Shared<CoreExpr>,
    b: Shared<CoreExpr>,
    d: Shared<CoreExpr>,
) -> Result<Shared<CoreExpr>, TypeFault>
    ensures { Says (spec.chosen line how a b d) result }
{
    match how {
        Choice::Integers(k) => integers(alloc, line, k, a, b, d),
        Choice::Nothing => of_type(alloc, line, CType::Void(false), a, b, d),
        Choice::Structure(i) => of_type(alloc, line, CType::Struct(i, false), a, b, d),
        Choice::Pointers(of) => of_pointers(alloc, line, of, a, b, d),
        Choice::Wrong => Err(mismatch(line)),
    }
}

fn conditional_values(
    alloc: Global,
    structs: &Structs,
    line: u32,
    a: Shared<CoreExpr>,
    b: Shared<CoreExpr>,
    d: Shared<CoreExpr>,
) -> Result<Shared<CoreExpr>, TypeFault>
    ensures { Says (spec.conditional_values structs.now line a b d) result }
{
    if !is_scalar(shape_of(structs, type_of(a.get()))) {
        return Err(mismatch(line));
    }
    let how = choice_of(alloc, structs, b.get(), d.get())?;
    chosen(alloc, line, how, a, b, d)
}

/// The values of the second and third operands, the first being one.
fn conditional_rest(
    alloc: Global,
    structs: &Structs,
    line: u32,
    a: Shared<CoreExpr>,
    b: Shared<CoreExpr>,
    d: Shared<CoreExpr>,
) -> Result<Shared<CoreExpr>, TypeFault>
    ensures { Says (spec.conditional_rest structs.now line a b d) result }
{
    let b = valued(alloc, line, b)?;
    let d = valued(alloc, line, d)?;
    conditional_values(alloc, structs, line, a, b, d)
}

/// `a ? b : d` (ANSI 3.3.15). Integers get the type of the usual conversions; pointers to compatible types give a pointer to their
/// composite, one to `void` where one of them is a `void *` that is no null constant, with the qualifiers of both.
///
/// # Errors
///
/// `Mismatch` (X7): the first operand is no scalar, or the others are not both integers, both `void`, both of one structure
/// type, or a pair that `==` takes.
pub fn conditional(
    alloc: Global,
    structs: &Structs,
    line: u32,
    a: Shared<CoreExpr>,
    b: Shared<CoreExpr>,
    d: Shared<CoreExpr>,
) -> Result<Shared<CoreExpr>, TypeFault>
    ensures { Says (spec.conditional structs.now line a b d) result }
{
    let a = valued(alloc, line, a)?;
    conditional_rest(alloc, structs, line, a, b, d)
}
