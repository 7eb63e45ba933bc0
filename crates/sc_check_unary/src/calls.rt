// Calls of functions (ANSI 3.3.2.2).
ghost use Rattle.std.specs.Prelude.{◌≡◌, Ok, [], slice_get};
ghost use Rattle.std.specs.Option.{option_copied};
ghost use Rattle.sc_check_unary.specs.Calls as spec;
ghost use Rattle.sc_check_operand.specs.Steps.{Says};
ghost use Rattle.sc_check_operand.specs.Types.{plain};

use sc_base::{Items, Shared};
use sc_check_operand::{
    Shape, TypeFault, assigned, is_pointer, mismatch, plain, shape_of, to_int, valued,
};
use sc_core::{CoreExpr, type_of};
use sc_types::{CType, Signature, Structs, fits, promote};
use std::alloc::Global;

/// The function that a pointer of this type points to.
fn called(of: &CType) -> Option<&Signature>
    ensures { option_copied result ≡ spec.called of.now }
{
    match of {
        CType::Pointer(u, _) => match u.get() {
            CType::Function(f) => Some(f.get()),
            _ => None,
        },
        _ => None,
    }
}

fn further_value(
    alloc: Global,
    structs: &Structs,
    line: u32,
    e: Shared<CoreExpr>,
) -> Result<Shared<CoreExpr>, TypeFault>
    ensures { Says (spec.further_value structs.now line e) result }
{
    match shape_of(structs, type_of(e.get())) {
        Shape::Integer(k) => Ok(to_int(alloc, line, promote(k), e)?),
        shape => {
            if is_pointer(shape) {
                Ok(e)
            } else {
                Err(mismatch(line))
            }
        }
    }
}

/// An argument behind the parameters: a promoted scalar.
fn further(
    alloc: Global,
    structs: &Structs,
    line: u32,
    e: Shared<CoreExpr>,
) -> Result<Shared<CoreExpr>, TypeFault>
    ensures { Says (spec.further structs.now line e) result }
{
    let e = valued(alloc, line, e)?;
    further_value(alloc, structs, line, e)
}

/// The argument at a place.
fn argument(
    alloc: Global,
    structs: &Structs,
    line: u32,
    params: &[CType],
    i: usize,
    e: Shared<CoreExpr>,
) -> Result<Shared<CoreExpr>, TypeFault>
    ensures { Says (spec.argument structs.now line (slice_get params.now i) e) result }
{
    match params.get(i) {
        Some(p) => assigned(alloc, structs, line, p, e),
        None => further(alloc, structs, line, e),
    }
}

fn arguments(
    alloc: Global,
    structs: &Structs,
    line: u32,
    params: &[CType],
    args: &[Shared<CoreExpr>],
) -> Result<Items<Shared<CoreExpr>>, TypeFault>
    ensures { Says (spec.arguments structs.now line params.now 0 [] args.now) result }
{
    let mut done = Items::new(alloc);
    for (i, e) in args.iter().enumerate() {
        let e = e.share()?;
        let value = argument(alloc, structs, line, params, i, e)?;
        done.push(value)?;
    }
    Ok(done)
}

/// The arguments, each taken as by an assignment to its parameter.
fn all_arguments(
    alloc: Global,
    structs: &Structs,
    line: u32,
    f: &Signature,
    args: &[Shared<CoreExpr>],
) -> Result<Items<Shared<CoreExpr>>, TypeFault>
    ensures { Says (spec.all_arguments structs.now line f.now args.now) result }
{
    if fits(f, args.len()) {
        arguments(alloc, structs, line, f.params.as_slice(), args)
    } else {
        Err(mismatch(line))
    }
}

fn calling(
    alloc: Global,
    line: u32,
    of: CType,
    f: Shared<CoreExpr>,
    args: Items<Shared<CoreExpr>>,
) -> Result<Shared<CoreExpr>, TypeFault>
    ensures { Says (Ok (CoreExpr.Call line of f args)) result }
{
    Ok(Shared::new(alloc, CoreExpr::Call(line, of, f, args))?)
}

fn call_of(
    alloc: Global,
    structs: &Structs,
    line: u32,
    signature: &Signature,
    f: Shared<CoreExpr>,
    args: &[Shared<CoreExpr>],
) -> Result<Shared<CoreExpr>, TypeFault>
    ensures { Says (spec.call_with line (plain signature.now.result) f (spec.all_arguments structs.now line signature.now args.now)) result }
{
    let args = all_arguments(alloc, structs, line, signature, args)?;
    let of = plain(&signature.result)?;
    calling(alloc, line, of, f, args)
}

fn call_value(
    alloc: Global,
    structs: &Structs,
    line: u32,
    f: Shared<CoreExpr>,
    args: &[Shared<CoreExpr>],
) -> Result<Shared<CoreExpr>, TypeFault>
    ensures { Says (spec.call_value structs.now line f args.now) result }
{
    let whole = f.share()?;
    match called(type_of(f.get())) {
        Some(signature) => call_of(alloc, structs, line, signature, whole, args),
        None => Err(mismatch(line)),
    }
}

/// `f(args)` (ANSI 3.3.2.2). The arguments are as many as the parameters, and more only where the function is variadic. Each is
/// taken as by an assignment to its parameter; one behind the parameters is a promoted integer or a pointer.
///
/// # Errors
///
/// `Mismatch` (X7): no function is called, or its parameters do not take the arguments.
pub fn call(
    alloc: Global,
    structs: &Structs,
    line: u32,
    f: Shared<CoreExpr>,
    args: &[Shared<CoreExpr>],
) -> Result<Shared<CoreExpr>, TypeFault>
    ensures { Says (spec.call structs.now line f args.now) result }
{
    let f = valued(alloc, line, f)?;
    call_value(alloc, structs, line, f, args)
}
