// What each construct of a typed tree asks of its parts (ANSI 3.3).
ghost use Rattle.std.specs.Prelude.{◌≡◌, ◌≤◌, ◌<◌, ◌^◌, slice_get, map};
ghost use Rattle.std.specs.Option.{option_copied};
ghost use Rattle.sc_core_needs.specs.Nodes as spec;
ghost use Rattle.sc_types.specs.Layouts.{rounded};
ghost use Rattle.sc_types.specs.declared.ctype.CType.{out-CType};
ghost use Rattle.sc_core.specs.Types.{type_of};

use crate::agreement::{is_int_of, is_member_type, is_plain_of, is_promoted, points_to};
use crate::values::{is_done, is_value_for, value};
use sc_base::{Bytes, Int, Shared};
use sc_check_operand::{
    Shape, is_array, is_const, is_function, is_lvalue, is_pointer, is_scalar, is_void,
    is_zero_constant, shape_of,
};
use sc_core::{CoreExpr, UnaryOperator, type_of};
use sc_ops::convert;
use sc_types::{CType, Member, Signature, Structs, align_of, fits, is_object, size_of};

/// A number of an integer type, as its 32 bits (ANSI 3.1.3).
pub fn is_number(of: &CType, n: u32) -> bool
    ensures { result ≡ spec.is_number of.now n }
{
    match of {
        CType::Int(k, c) => !*c && convert(n, *k) == n,
        _ => false,
    }
}

fn is_text_type(of: &CType, n: usize) -> bool
    ensures { result ≡ spec.text_level (out-CType of.now) n }
{
    match of {
        CType::Array(u, m) => is_int_of(Int::Char, u.get()) && *m as usize == n,
        _ => false,
    }
}

/// A literal of the table, an array of all its bytes (ANSI 3.1.4).
pub fn is_literal(literals: &[Bytes], of: &CType, n: u32) -> bool
    ensures { result ≡ spec.is_literal literals.now of.now n }
{
    match literals.get(n as usize) {
        Some(bytes) => is_text_type(of, bytes.as_slice().len()),
        None => false,
    }
}

/// `a[b]`: one operand is a pointer to objects of this type and size, the other an integer (ANSI 3.3.2.1).
pub fn is_element(structs: &Structs, of: &CType, n: u32, a: &CoreExpr, b: &CoreExpr) -> bool
    ensures { result ≡ spec.is_element structs.now of.now n a.now b.now }
{
    match (value(structs, a), value(structs, b)) {
        (Shape::Object(m), Shape::Integer(_)) => n == m && points_to(structs, type_of(a), of),
        (Shape::Integer(_), Shape::Object(m)) => n == m && points_to(structs, type_of(b), of),
        _ => false,
    }
}

fn is_further(structs: &Structs, e: &CoreExpr) -> bool
    ensures { result ≡ spec.argument structs.now None e.now }
{
    match value(structs, e) {
        Shape::Integer(k) => is_promoted(k),
        shape => is_pointer(shape),
    }
}

/// Whether the type of a parameter is that of a scalar.
pub fn is_parameter(structs: &Structs, of: &CType) -> bool
    ensures { result ≡ spec.is_parameter structs.now of.now }
{
    is_scalar(shape_of(structs, of))
}

/// Whether a function gives nothing, or a scalar.
pub fn is_result(structs: &Structs, of: &CType) -> bool
    ensures { result ≡ spec.is_result structs.now of.now }
{
    is_void(of) || is_scalar(shape_of(structs, of))
}

/// The most parameters of a function, and arguments of a call.
pub const MAX_ARGUMENTS: usize = 31;

fn argument(structs: &Structs, params: &[CType], i: usize, e: &CoreExpr) -> bool
    ensures { result ≡ spec.argument structs.now (slice_get params.now i) e.now }
{
    match params.get(i) {
        Some(p) => is_parameter(structs, p) && is_value_for(structs, p, e),
        None => is_further(structs, e),
    }
}

fn arguments(structs: &Structs, params: &[CType], args: &[Shared<CoreExpr>]) -> bool
    ensures { result ≡ spec.arguments structs.now params.now 0 args.now }
{
    for (i, e) in args.iter().enumerate() {
        if !argument(structs, params, i, e.get()) {
            return false;
        }
    }
    true
}

fn calls_function(structs: &Structs, of: &CType, f: &Signature, args: &[Shared<CoreExpr>]) -> bool
    ensures { result ≡ spec.calls_function structs.now of.now f.now args.now }
{
    args.len() <= MAX_ARGUMENTS
        && is_result(structs, &f.result)
        && is_plain_of(structs, of, &f.result)
        && fits(f, args.len())
        && arguments(structs, f.params.as_slice(), args)
}

fn calls(structs: &Structs, of: &CType, f: &CType, args: &[Shared<CoreExpr>]) -> bool
    ensures { result ≡ spec.calls_by structs.now of.now (out-CType f.now) args.now }
{
    match f {
        CType::Pointer(g, _) => match g.get() {
            CType::Function(signature) => calls_function(structs, of, signature.get(), args),
            _ => false,
        },
        _ => false,
    }
}

/// A call of what a pointer to a function points to (ANSI 3.3.2.2).
pub fn is_call(structs: &Structs, of: &CType, f: &CoreExpr, args: &[Shared<CoreExpr>]) -> bool
    ensures { result ≡ spec.is_call structs.now of.now f.now args.now }
{
    is_done(f) && calls(structs, of, type_of(f), args)
}

fn rounded(place: u64, align: u32) -> u64
    requires some { 0 < align }
    requires few { place < 2 ^ 33 }
    ensures { result ≡ rounded place align }
{
    let align = u64::from(align);
    (place + (align - 1)) / align * align
}

/// Whether one of these members of a structure, or of a union where it is true, stands at this offset and has this type.
fn stands_among(
    structs: &Structs,
    is_union: bool,
    qualifier: bool,
    of: &CType,
    n: u32,
    members: &[Member],
) -> bool
    ensures { result ≡ spec.stands_among structs.now is_union qualifier of.now n 0 members.now }
{
    let mut end = 0;
    for member in members {
        if end > u64::from(n) || !is_object(&member.of, structs) {
            return false;
        }
        let align = align_of(&member.of, structs);
        if align == 0 {
            return false;
        }
        let place = rounded(end, align);
        if place == u64::from(n) && is_member_type(structs, qualifier, of, &member.of) {
            return true;
        }
        if !is_union {
            end = place + u64::from(size_of(&member.of, structs));
        }
    }
    false
}

/// The member of a complete structure or union at this offset, of its type (ANSI 3.3.2.3).
pub fn is_member(structs: &Structs, of: &CType, n: u32, structure: &CType) -> bool
    ensures { result ≡ spec.is_member structs.now of.now n structure.now }
{
    match structure {
        CType::Struct(id, c) => {
            let is_union = structs.is_union(*id);
            let members = structs.members(*id);
            is_object(structure, structs) && stands_among(structs, is_union, *c, of, n, members)
        }
        _ => false,
    }
}

fn is_pointed(structs: &Structs, of: &CType, n: u32, pointer: &CType) -> bool
    ensures { result ≡ spec.pointed_level structs.now of.now n (out-CType pointer.now) }
{
    match pointer {
        CType::Pointer(x, _) => is_member(structs, of, n, x.get()),
        _ => false,
    }
}

/// The member at this offset of what a pointer points to (ANSI 3.3.2.3).
pub fn is_arrow(structs: &Structs, of: &CType, n: u32, a: &CoreExpr) -> bool
    ensures { result ≡ spec.is_arrow structs.now of.now n a.now }
{
    is_done(a) && is_pointed(structs, of, n, type_of(a))
}

fn is_target(a: &CoreExpr) -> bool
    ensures { result ≡ spec.is_target a.now }
{
    is_lvalue(a) && !is_const(type_of(a))
}

/// A write to a place, whose value has its plain type.
pub(crate) fn writes(structs: &Structs, of: &CType, a: &CoreExpr) -> bool
    ensures { result ≡ spec.writes structs.now of.now a.now }
{
    is_target(a) && is_plain_of(structs, of, type_of(a))
}

fn is_step_of(n: u32, shape: Shape) -> bool
    ensures { result ≡ spec.step_of n shape }
{
    match shape {
        Shape::Integer(_) => n == 1,
        Shape::Object(m) => n == m,
        _ => false,
    }
}

/// `++` and `--` on an integer or a pointer to objects of this size (ANSI 3.3.2.4, 3.3.3.1).
pub fn is_step(structs: &Structs, of: &CType, n: u32, a: &CoreExpr) -> bool
    ensures { result ≡ spec.is_step structs.now of.now n a.now }
{
    writes(structs, of, a) && is_step_of(n, shape_of(structs, type_of(a)))
}

/// The address of a place or of a function (ANSI 3.3.3.2).
pub fn is_address(structs: &Structs, of: &CType, a: &CoreExpr) -> bool
    ensures { result ≡ spec.is_address structs.now of.now a.now }
{
    (is_function(type_of(a)) || is_lvalue(a)) && !is_const(of) && points_to(structs, of, type_of(a))
}

/// What a pointer points to: a function, an array, or an object of a complete type (ANSI 3.3.3.2).
pub fn is_indirection(structs: &Structs, of: &CType, a: &CoreExpr) -> bool
    ensures { result ≡ spec.is_indirection structs.now of.now a.now }
{
    is_done(a)
        && points_to(structs, type_of(a), of)
        && (is_function(of) || is_array(of) || is_object(of, structs))
}

fn unary_of(of: &CType, op: UnaryOperator, shape: Shape) -> bool
    ensures { result ≡ spec.unary_by of.now op shape }
{
    match op {
        UnaryOperator::Not => is_int_of(Int::Int, of) && is_scalar(shape),
        UnaryOperator::Plus | UnaryOperator::Minus | UnaryOperator::Complement => match shape {
            Shape::Integer(k) => is_int_of(k, of) && is_promoted(k),
            _ => false,
        },
    }
}

/// `+ - ~` on a promoted integer of the same type, `!` on a scalar (ANSI 3.3.3.3).
pub fn is_unary(structs: &Structs, of: &CType, op: UnaryOperator, a: &CoreExpr) -> bool
    ensures { result ≡ spec.is_unary structs.now of.now op a.now }
{
    unary_of(of, op, value(structs, a))
}

fn same_kind(to: Shape, from: Shape) -> bool
    ensures { result ≡ spec.same_kind to from }
{
    match (to, from) {
        (Shape::Callable, Shape::Callable) => true,
        (Shape::Callable, _) => false,
        (_, Shape::Callable) => false,
        (_, from) => is_pointer(from),
    }
}

fn to_pointer(to: Shape, from: Shape, a: &CoreExpr) -> bool
    ensures { result ≡ spec.to_pointer to from a.now }
{
    match from {
        Shape::Integer(_) => is_zero_constant(a),
        _ => same_kind(to, from),
    }
}

fn is_integer(shape: Shape) -> bool
    ensures { result ≡ spec.from_integer shape }
{
    match shape {
        Shape::Integer(_) => true,
        _ => false,
    }
}

fn casts(to: Shape, from: Shape, a: &CoreExpr) -> bool
    ensures { result ≡ spec.cast_by to from a.now }
{
    match to {
        Shape::Void => true,
        Shape::Integer(_) => is_integer(from),
        _ => is_pointer(to) && to_pointer(to, from, a),
    }
}

/// A cast: anything to `void`, an integer to an integer, a pointer to a pointer of its kind, the constant 0 to a pointer
/// (ANSI 3.3.4).
pub fn is_cast(structs: &Structs, of: &CType, a: &CoreExpr) -> bool
    ensures { result ≡ spec.is_cast structs.now of.now a.now }
{
    is_done(a) && !is_const(of) && casts(shape_of(structs, of), value(structs, a), a)
}
