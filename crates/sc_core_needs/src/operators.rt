// What operators between operands ask of them (ANSI 3.3.5 to 3.3.17).
ghost use Rattle.std.specs.Prelude.{◌≡◌};
ghost use Rattle.sc_core_needs.specs.Operators as spec;
ghost use Rattle.sc_types.specs.declared.ctype.CType.{out-CType};
ghost use Rattle.sc_core.specs.Types.{type_of};

use crate::agreement::{
    is_given_as, is_int_of, is_plain_of, is_promoted, targets_alike, targets_join,
};
use crate::nodes::writes;
use crate::values::{is_condition, is_done, is_value_for, value};
use sc_base::{Int, Op};
use sc_check_operand::{Shape, is_const, is_null, is_pointer, is_scalar, shape_of};
use sc_core::{CoreExpr, type_of};
use sc_types::{CType, Structs, is_object, promote, same_int, size_of, usual};

/// The operators with one rule for their operands. Those of one operand stand in no construct with two.
#[derive(Clone, Copy, Debug, PartialEq, Eq)]
pub(crate) enum Kind {
    Arithmetic,
    Shift,
    Order,
    Equality,
    Single,
}

fn kind_of(op: Op) -> Kind
    ensures { result ≡ spec.kind_of op }
{
    match op {
        Op::Add | Op::Sub | Op::Mul | Op::Div | Op::Rem => Kind::Arithmetic,
        Op::And | Op::Or | Op::Xor => Kind::Arithmetic,
        Op::Shl | Op::Shr => Kind::Shift,
        Op::Lt | Op::Gt | Op::Le | Op::Ge => Kind::Order,
        Op::Eq | Op::Ne => Kind::Equality,
        Op::Neg | Op::Not | Op::Truth | Op::Inc | Op::Dec => Kind::Single,
    }
}

fn binary_of(kind: Kind, of: &CType, j: Int, k: Int) -> bool
    ensures { result ≡ spec.binary_by kind of.now j k }
{
    match kind {
        Kind::Arithmetic => same_int(j, k) && is_int_of(j, of),
        Kind::Shift => is_int_of(j, of),
        Kind::Order | Kind::Equality => same_int(j, k) && is_int_of(Int::Int, of),
        Kind::Single => false,
    }
}

/// An operator on two integers (ANSI 3.3.5 to 3.3.12).
pub fn is_binary(structs: &Structs, of: &CType, op: Op, a: &CoreExpr, b: &CoreExpr) -> bool
    ensures { result ≡ spec.is_binary structs.now of.now op a.now b.now }
{
    match (value(structs, a), value(structs, b)) {
        (Shape::Integer(j), Shape::Integer(k)) => {
            is_promoted(j) && is_promoted(k) && binary_of(kind_of(op), of, j, k)
        }
        _ => false,
    }
}

fn is_sum(op: Op) -> bool
    ensures { result ≡ spec.is_sum op }
{
    match op {
        Op::Add => true,
        Op::Sub => true,
        _ => false,
    }
}

fn is_plus(op: Op) -> bool
    ensures { result ≡ spec.is_plus op }
{
    match op {
        Op::Add => true,
        _ => false,
    }
}

/// A pointer to objects of this size and an integer, of which the pointer is on the left with `-` (ANSI 3.3.6).
pub fn is_offset(structs: &Structs, of: &CType, op: Op, n: u32, a: &CoreExpr, b: &CoreExpr) -> bool
    ensures { result ≡ spec.is_offset structs.now of.now op n a.now b.now }
{
    match (value(structs, a), value(structs, b)) {
        (Shape::Object(m), Shape::Integer(_)) => {
            is_sum(op) && n == m && is_plain_of(structs, of, type_of(a))
        }
        (Shape::Integer(_), Shape::Object(m)) => {
            is_plus(op) && n == m && is_plain_of(structs, of, type_of(b))
        }
        _ => false,
    }
}

fn is_difference_of(n: u32, a: Shape, b: Shape) -> bool
    ensures { result ≡ spec.difference_by n a b }
{
    match (a, b) {
        (Shape::Object(m), Shape::Object(l)) => n == m && n == l,
        _ => false,
    }
}

/// Two pointers to objects of one type, of this size (ANSI 3.3.6).
pub fn is_difference(structs: &Structs, of: &CType, n: u32, a: &CoreExpr, b: &CoreExpr) -> bool
    ensures { result ≡ spec.is_difference structs.now of.now n a.now b.now }
{
    is_int_of(Int::Int, of)
        && is_difference_of(n, value(structs, a), value(structs, b))
        && targets_alike(structs, type_of(a), type_of(b))
}

fn is_object_pointer(shape: Shape) -> bool
    ensures { result ≡ spec.is_object_pointer shape }
{
    match shape {
        Shape::Object(_) | Shape::Incomplete => true,
        _ => false,
    }
}

fn compares(kind: Kind, a: Shape, b: Shape, alike: bool, joined: bool) -> bool
    ensures { result ≡ spec.compare_by kind a b alike joined }
{
    match kind {
        Kind::Order => is_object_pointer(a) && is_object_pointer(b) && alike,
        Kind::Equality => is_pointer(a) && is_pointer(b) && joined,
        Kind::Arithmetic | Kind::Shift | Kind::Single => false,
    }
}

/// Two pointers: to objects of one type, or for equality ones that go together, or a null pointer constant (ANSI 3.3.8,
/// 3.3.9).
pub fn is_compare(structs: &Structs, of: &CType, op: Op, a: &CoreExpr, b: &CoreExpr) -> bool
    ensures { result ≡ spec.is_compare structs.now of.now op a.now b.now }
{
    let alike = targets_alike(structs, type_of(a), type_of(b));
    let joined = is_null(a) || is_null(b) || targets_join(structs, type_of(a), type_of(b));
    is_int_of(Int::Int, of)
        && compares(
            kind_of(op),
            value(structs, a),
            value(structs, b),
            alike,
            joined,
        )
}

/// `&&` and `||` on scalars (ANSI 3.3.13, 3.3.14).
pub fn is_logical(structs: &Structs, of: &CType, a: &CoreExpr, b: &CoreExpr) -> bool
    ensures { result ≡ spec.is_logical structs.now of.now a.now b.now }
{
    is_int_of(Int::Int, of) && is_condition(structs, a) && is_condition(structs, b)
}

fn is_chosen(shape: Shape) -> bool
    ensures { result ≡ spec.choice_of shape }
{
    match shape {
        Shape::Integer(k) => is_promoted(k),
        Shape::Void => true,
        Shape::Structure(_) => true,
        shape => is_pointer(shape),
    }
}

/// A scalar, and two values of the result's type (ANSI 3.3.15).
pub fn is_choice(structs: &Structs, of: &CType, a: &CoreExpr, b: &CoreExpr, d: &CoreExpr) -> bool
    ensures { result ≡ spec.is_choice structs.now of.now a.now b.now d.now }
{
    is_condition(structs, a)
        && !is_const(of)
        && is_chosen(shape_of(structs, of))
        && is_value_for(structs, of, b)
        && is_value_for(structs, of, d)
}

/// `=` on scalars: a place, and a value of its type (ANSI 3.3.16.1).
pub fn is_assignment(structs: &Structs, of: &CType, a: &CoreExpr, b: &CoreExpr) -> bool
    ensures { result ≡ spec.is_assignment structs.now of.now a.now b.now }
{
    writes(structs, of, a)
        && is_scalar(shape_of(structs, of))
        && is_value_for(structs, type_of(a), b)
}

/// Whether a type of this shape is a structure.
pub fn is_structure(shape: Shape) -> bool
    ensures { result ≡ spec.is_structure shape }
{
    match shape {
        Shape::Structure(_) => true,
        _ => false,
    }
}

/// `=` on structures of this size (ANSI 3.3.16.1).
pub fn is_copy(structs: &Structs, of: &CType, n: u32, a: &CoreExpr, b: &CoreExpr) -> bool
    ensures { result ≡ spec.is_copy structs.now of.now n a.now b.now }
{
    writes(structs, of, a)
        && is_structure(shape_of(structs, of))
        && is_object(of, structs)
        && size_of(of, structs) == n
        && is_value_for(structs, type_of(a), b)
}

fn compound_of(kind: Kind, k: Int, j: Int, m: Int) -> bool
    ensures { result ≡ spec.compound_by kind k j m }
{
    match kind {
        Kind::Arithmetic => same_int(k, m) && is_promoted(m) && same_int(usual(j, m), k),
        Kind::Shift => same_int(promote(j), k) && is_promoted(m),
        Kind::Order | Kind::Equality | Kind::Single => false,
    }
}

fn compound_shapes(kind: Kind, k: Int, a: Shape, b: Shape) -> bool
    ensures { result ≡ spec.compound_shapes kind k a b }
{
    match (a, b) {
        (Shape::Integer(j), Shape::Integer(m)) => compound_of(kind, k, j, m),
        _ => false,
    }
}

/// A compound assignment on integers works in the common type of place and value, which the value has; a shift in the
/// promoted type of the place (ANSI 3.3.16.2).
pub fn is_compound(
    structs: &Structs,
    of: &CType,
    op: Op,
    k: Int,
    a: &CoreExpr,
    b: &CoreExpr,
) -> bool
    ensures { result ≡ spec.is_compound structs.now of.now op k a.now b.now }
{
    writes(structs, of, a)
        && compound_shapes(
            kind_of(op),
            k,
            shape_of(structs, type_of(a)),
            value(structs, b),
        )
}

fn moves(op: Op, n: u32, a: Shape, b: Shape) -> bool
    ensures { result ≡ spec.moved_by op n a b }
{
    match (a, b) {
        (Shape::Object(m), Shape::Integer(_)) => is_sum(op) && n == m,
        _ => false,
    }
}

/// `+=` and `-=` on a pointer to objects of this size (ANSI 3.3.16.2).
pub fn is_movement(
    structs: &Structs,
    of: &CType,
    op: Op,
    n: u32,
    a: &CoreExpr,
    b: &CoreExpr,
) -> bool
    ensures { result ≡ spec.is_movement structs.now of.now op n a.now b.now }
{
    writes(structs, of, a) && moves(op, n, shape_of(structs, type_of(a)), value(structs, b))
}

/// `a, b` (ANSI 3.3.17).
pub fn is_sequence(structs: &Structs, of: &CType, a: &CoreExpr, b: &CoreExpr) -> bool
    ensures { result ≡ spec.is_sequence structs.now of.now a.now b.now }
{
    is_done(a) && is_done(b) && is_given_as(structs, of, type_of(b))
}
