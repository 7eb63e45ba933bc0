// Which types go together in a typed tree (ANSI 3.1.2.6, 3.2.2.3, 3.3.16.1).
ghost use Rattle.std.specs.Prelude.{◌≡◌};
ghost use Rattle.sc_core_needs.specs.Types as spec;
ghost use Rattle.sc_types.specs.Compatibility.{same_bool};
ghost use Rattle.sc_types.specs.declared.ctype.CType.{out-CType};

use sc_base::Int;
use sc_check_operand::{is_array, is_const, is_function, is_void};
use sc_types::{CType, Structs, compatible, promote, same_int, same_length};

/// Whether two truth values are equal.
pub fn same_bool(a: bool, b: bool) -> bool
    ensures { result ≡ same_bool a b }
{
    a == b
}

/// Whether two types of a module are compatible, qualifiers and all.
pub fn same(structs: &Structs, t: &CType, u: &CType) -> bool
    ensures { result ≡ spec.same structs.now t.now u.now }
{
    compatible(t, structs, u, structs, true)
}

/// Whether two types are compatible but for their own qualifiers, which an array has in its elements.
pub fn alike(structs: &Structs, t: &CType, u: &CType) -> bool
    ensures { result ≡ spec.alike structs.now t.now u.now }
{
    match t {
        CType::Void(_) => is_void(u),
        CType::Int(i, _) => match u {
            CType::Int(j, _) => same_int(*i, *j),
            _ => false,
        },
        CType::Pointer(x, _) => match u {
            CType::Pointer(y, _) => same(structs, x.get(), y.get()),
            _ => false,
        },
        CType::Array(x, n) => match u {
            CType::Array(y, m) => same_length(*n, *m) && alike(structs, x.get(), y.get()),
            _ => false,
        },
        CType::Struct(i, _) => match u {
            CType::Struct(j, _) => *i == *j,
            _ => false,
        },
        CType::Function(_) => is_function(u) && same(structs, t, u),
    }
}

/// Whether this is the type of a value of an object of type `u`.
pub(crate) fn is_plain_of(structs: &Structs, t: &CType, u: &CType) -> bool
    ensures { result ≡ spec.is_plain_of structs.now t.now u.now }
{
    !is_const(t) && alike(structs, t, u)
}

/// Whether this is the type of what an expression of type `u` gives; an array keeps the qualifier of its elements.
pub(crate) fn is_given_as(structs: &Structs, t: &CType, u: &CType) -> bool
    ensures { result ≡ spec.is_given_as structs.now t.now u.now }
{
    let qualified = if is_array(u) {
        same_bool(is_const(t), is_const(u))
    } else {
        !is_const(t)
    };
    qualified && alike(structs, t, u)
}

/// Whether this is the type of a member of type `u`, in a structure that is const or is not.
pub(crate) fn is_member_type(structs: &Structs, qualifier: bool, t: &CType, u: &CType) -> bool
    ensures { result ≡ spec.is_member_type structs.now qualifier t.now u.now }
{
    same_bool(is_const(t), is_const(u) || qualifier) && alike(structs, t, u)
}

fn joins(structs: &Structs, x: &CType, y: &CType) -> bool
    ensures { result ≡ spec.joins structs.now x.now y.now }
{
    alike(structs, x, y) || (is_void(x) && !is_function(y)) || (is_void(y) && !is_function(x))
}

fn passes(structs: &Structs, x: &CType, y: &CType) -> bool
    ensures { result ≡ spec.passes structs.now x.now y.now }
{
    (is_const(x) || !is_const(y)) && joins(structs, x, y)
}

/// Whether a pointer of type `t` takes one to `y`.
pub(crate) fn takes(structs: &Structs, t: &CType, y: &CType) -> bool
    ensures { result ≡ spec.takes_level structs.now (out-CType t.now) y.now }
{
    match t {
        CType::Pointer(x, _) => passes(structs, x.get(), y),
        _ => false,
    }
}

pub(crate) fn targets_alike(structs: &Structs, a: &CType, b: &CType) -> bool
    ensures { result ≡ spec.targets_alike structs.now (out-CType a.now) (out-CType b.now) }
{
    match a {
        CType::Pointer(x, _) => match b {
            CType::Pointer(y, _) => alike(structs, x.get(), y.get()),
            _ => false,
        },
        _ => false,
    }
}

pub(crate) fn targets_join(structs: &Structs, a: &CType, b: &CType) -> bool
    ensures { result ≡ spec.targets_join structs.now (out-CType a.now) (out-CType b.now) }
{
    match a {
        CType::Pointer(x, _) => match b {
            CType::Pointer(y, _) => joins(structs, x.get(), y.get()),
            _ => false,
        },
        _ => false,
    }
}

/// Whether `p` is a pointer to this type.
pub(crate) fn points_to(structs: &Structs, p: &CType, t: &CType) -> bool
    ensures { result ≡ spec.points_to structs.now p.now t.now }
{
    match p {
        CType::Pointer(x, _) => same(structs, t, x.get()),
        _ => false,
    }
}

pub(crate) fn is_promoted(k: Int) -> bool
    ensures { result ≡ spec.is_promoted k }
{
    same_int(promote(k), k)
}

/// Whether this is the integer type `k`, without qualifier.
pub(crate) fn is_int_of(k: Int, t: &CType) -> bool
    ensures { result ≡ spec.is_int_of k t.now }
{
    match t {
        CType::Int(j, c) => same_int(*j, k) && !*c,
        _ => false,
    }
}
