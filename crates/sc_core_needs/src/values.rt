// The value of an operand, and what C converts by itself (ANSI 3.2).
ghost use Rattle.std.specs.Prelude.{◌≡◌};
ghost use Rattle.sc_core_needs.specs.Values as spec;
ghost use Rattle.sc_types.specs.declared.ctype.CType.{out-CType};
ghost use Rattle.sc_core.specs.Types.{type_of};

use crate::agreement::{alike, is_promoted, takes};
use sc_check_operand::{
    Shape, is_const, is_lvalue, is_null, is_place, is_scalar, is_zero_constant, shape_of,
};
use sc_core::{CoreExpr, type_of};
use sc_types::{CType, Structs};

/// Whether no conversion is left to make of an operand: a scalar has been read, an array that could be is a pointer.
pub fn is_done(e: &CoreExpr) -> bool
    ensures { result ≡ spec.is_done e.now }
{
    match type_of(e) {
        CType::Void(_) => true,
        CType::Struct(_, _) => true,
        CType::Int(_, _) => !is_place(e),
        CType::Pointer(_, _) => !is_place(e),
        CType::Array(_, _) => !is_lvalue(e),
        CType::Function(_) => false,
    }
}

/// What the rules of operators ask of an operand's value.
pub(crate) fn value(structs: &Structs, e: &CoreExpr) -> Shape
    ensures { result ≡ spec.value structs.now e.now }
{
    if is_done(e) {
        shape_of(structs, type_of(e))
    } else {
        Shape::Other
    }
}

/// Whether this is a value that can be compared with 0.
pub fn is_condition(structs: &Structs, e: &CoreExpr) -> bool
    ensures { result ≡ spec.is_condition structs.now e.now }
{
    is_scalar(value(structs, e))
}

/// Whether this is a value of an integer type to which integers are promoted.
pub fn is_promoted_value(structs: &Structs, e: &CoreExpr) -> bool
    ensures { result ≡ spec.is_promoted_value structs.now e.now }
{
    match value(structs, e) {
        Shape::Integer(k) => is_promoted(k),
        _ => false,
    }
}

/// Whether this is a value as an object of this type takes it.
pub fn is_value_for(structs: &Structs, of: &CType, e: &CoreExpr) -> bool
    ensures { result ≡ spec.is_value_for structs.now of.now e.now }
{
    is_done(e) && alike(structs, of, type_of(e))
}

fn is_convert(e: &CoreExpr) -> bool
    ensures { result ≡ spec.is_convert e.now }
{
    match e {
        CoreExpr::Convert(_, _, _) => true,
        _ => false,
    }
}

fn is_int(of: &CType) -> bool
    ensures { result ≡ spec.is_int_level (out-CType of.now) }
{
    match of {
        CType::Int(_, _) => true,
        _ => false,
    }
}

fn is_pointer(of: &CType) -> bool
    ensures { result ≡ spec.is_pointer_level (out-CType of.now) }
{
    match of {
        CType::Pointer(_, _) => true,
        _ => false,
    }
}

fn from_integer(to: &CType, a: &CoreExpr) -> bool
    ensures { result ≡ spec.from_integer (out-CType to.now) a.now }
{
    is_int(to) || (is_pointer(to) && is_zero_constant(a))
}

fn from_pointer(structs: &Structs, to: &CType, u: &CType, a: &CoreExpr) -> bool
    ensures { result ≡ spec.from_pointer structs.now (out-CType to.now) u.now a.now }
{
    takes(structs, to, u) || (is_pointer(to) && is_null(a))
}

fn converts_type(structs: &Structs, to: &CType, a: &CoreExpr) -> bool
    ensures { result ≡ spec.converts_level structs.now (out-CType to.now) (out-CType (type_of a.now)) a.now }
{
    match type_of(a) {
        CType::Int(_, _) => from_integer(to, a),
        CType::Pointer(u, _) => from_pointer(structs, to, u.get(), a),
        CType::Array(u, _) => is_lvalue(a) && takes(structs, to, u.get()),
        CType::Function(_) => takes(structs, to, type_of(a)),
        CType::Void(_) => false,
        CType::Struct(_, _) => false,
    }
}

/// Whether C converts this operand to this type by itself, by one conversion for all that it makes there.
pub fn converts(structs: &Structs, to: &CType, a: &CoreExpr) -> bool
    ensures { result ≡ spec.converts structs.now to.now a.now }
{
    !is_convert(a) && !is_const(to) && converts_type(structs, to, a)
}
