// What an assignment takes (ANSI 3.3.16.1, 3.2.2.3), and which pointers go together (3.3.9, 3.3.15).
ghost use Rattle.std.specs.Prelude.{◌≡◌, IfOk};
ghost use Rattle.sc_check_operand.specs.Agreement as spec;
ghost use Rattle.sc_check_operand.specs.Steps.{Says};
ghost use Rattle.sc_types.specs.declared.ctype.CType.{out-CType};

use crate::fault::{TypeFault, mismatch};
use crate::folding::is_null;
use crate::operand::{to_type, valued};
use crate::shape::{Shape, is_const, is_function, is_pointer, is_void, plain, shape_of};
use sc_base::{NoMemory, Shared};
use sc_core::{CoreExpr, type_of};
use sc_types::{CType, Structs, compatible};
use std::alloc::Global;

/// Whether two types are compatible, their qualifiers left aside.
fn alike(structs: &Structs, x: &CType, y: &CType) -> Result<bool, NoMemory>
    ensures { IfOk result (λ r. r ≡ spec.alike structs.now x.now y.now) }
{
    let x = plain(x)?;
    let y = plain(y)?;
    Ok(compatible(&x, structs, &y, structs, true))
}

/// Whether what two pointers point to goes together: compatible types, or `void` and anything but a function.
pub fn joins(structs: &Structs, x: &CType, y: &CType) -> Result<bool, NoMemory>
    ensures { IfOk result (λ r. r ≡ spec.joins structs.now x.now y.now) }
{
    let same = alike(structs, x, y)?;
    Ok(same || (is_void(x) && !is_function(y)) || (is_void(y) && !is_function(x)))
}

fn keeps_const(x: &CType, y: &CType) -> bool
    ensures { result ≡ spec.keeps_const x.now y.now }
{
    is_const(x) || !is_const(y)
}

/// Whether two pointers point to compatible types, whose qualifiers are left aside.
pub fn targets_alike(structs: &Structs, a: &CType, b: &CType) -> Result<bool, NoMemory>
    ensures { IfOk result (λ r. r ≡ spec.targets_alike structs.now (out-CType a.now) (out-CType b.now)) }
{
    match a {
        CType::Pointer(x, _) => match b {
            CType::Pointer(y, _) => alike(structs, x.get(), y.get()),
            _ => Ok(false),
        },
        _ => Ok(false),
    }
}

/// Whether what two pointers point to goes together.
pub fn targets_join(structs: &Structs, a: &CType, b: &CType) -> Result<bool, NoMemory>
    ensures { IfOk result (λ r. r ≡ spec.targets_join structs.now (out-CType a.now) (out-CType b.now)) }
{
    match a {
        CType::Pointer(x, _) => match b {
            CType::Pointer(y, _) => joins(structs, x.get(), y.get()),
            _ => Ok(false),
        },
        _ => Ok(false),
    }
}

fn target_taken(structs: &Structs, to: &CType, from: &CType) -> Result<bool, NoMemory>
    ensures { IfOk result (λ r. r ≡ spec.target_taken structs.now (out-CType to.now) (out-CType from.now)) }
{
    match to {
        CType::Pointer(x, _) => match from {
            CType::Pointer(y, _) => {
                if keeps_const(x.get(), y.get()) {
                    joins(structs, x.get(), y.get())
                } else {
                    Ok(false)
                }
            }
            _ => Ok(false),
        },
        _ => Ok(false),
    }
}

fn pointer_takes(
    structs: &Structs,
    to: &CType,
    from: &CType,
    e: &CoreExpr,
) -> Result<bool, NoMemory>
    ensures { IfOk result (λ r. r ≡ spec.pointer_takes structs.now (out-CType to.now) (out-CType from.now) e.now) }
{
    if is_null(e) {
        Ok(true)
    } else {
        target_taken(structs, to, from)
    }
}

/// Whether an object of this type takes the value.
fn takes(structs: &Structs, of: &CType, e: &CoreExpr) -> Result<bool, NoMemory>
    ensures { IfOk result (λ r. r ≡ spec.takes structs.now of.now e.now) }
{
    match (shape_of(structs, of), shape_of(structs, type_of(e))) {
        (Shape::Integer(_), Shape::Integer(_)) => Ok(true),
        (Shape::Structure(i), Shape::Structure(j)) => Ok(i == j),
        (shape, _) => {
            if is_pointer(shape) {
                pointer_takes(structs, of, type_of(e), e)
            } else {
                Ok(false)
            }
        }
    }
}

/// The value in the type of an object that takes it.
pub fn taken(
    alloc: Global,
    structs: &Structs,
    line: u32,
    of: &CType,
    e: Shared<CoreExpr>,
) -> Result<Shared<CoreExpr>, TypeFault>
    ensures { Says (spec.taken structs.now line of.now e) result }
{
    if takes(structs, of, e.get())? {
        Ok(to_type(alloc, line, of, e)?)
    } else {
        Err(mismatch(line))
    }
}

/// The operand's value in the type of an object that takes it, as by an assignment, an argument, a `return` or an
/// initialiser (ANSI 3.3.16.1): an integer takes integers, a structure the same structure, a pointer a null constant and
/// pointers that go with it and whose target has no qualifier more.
///
/// # Errors
///
/// `Mismatch` (X7): the object does not take it.
pub fn assigned(
    alloc: Global,
    structs: &Structs,
    line: u32,
    of: &CType,
    e: Shared<CoreExpr>,
) -> Result<Shared<CoreExpr>, TypeFault>
    ensures { Says (spec.assigned structs.now line of.now e) result }
{
    let e = valued(alloc, line, e)?;
    taken(alloc, structs, line, of, e)
}
