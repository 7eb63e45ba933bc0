// Places whose bytes are reached without code of their own, and operands that are used where they stand.
ghost use Rattle.std.specs.Prelude.{◌≡◌, ◌++◌, ◌<◌, OnOk, None, Some, MatchOption};
ghost use Rattle.sc_gen_operand.specs.Places as spec;

use sc_base::{Duplicate, Items, Key, NoMemory};
use sc_check_operand::is_place;
use sc_core::{Auto, CoreExpr, type_of};
use sc_gen_code::{
    Access, Style, Symbolic, Target, at_target, bytes_of, framed, is_free, is_pointer, is_scalar,
    kept_at, li, load_of, machine_type, reconvert,
};
use sc_types::CType;
use std::alloc::Global;

/// What the code of a function's expressions is made for: how it is written, and where the function's objects stand, by
/// block.
#[derive(Drop)]
pub struct Scope<'a> {
    pub style: &'a Style,
    pub slots: &'a [Items<Auto>],
}

/// Where an automatic object stands above `sp`, by its block and its place in it.
pub fn slot_of(slots: &[Items<Auto>], block: u32, n: u32) -> u32
    ensures { result ≡ spec.slot_of slots.now block n }
{
    match slots.get(block as usize) {
        Some(autos) => match autos.as_slice().get(n as usize) {
            Some(object) => object.slot.offset,
            None => 0,
        },
        None => 0,
    }
}

/// The offset above `sp` of an automatic object, or of a part of one.
pub fn in_frame(slots: &[Items<Auto>], e: &CoreExpr) -> Option<u32>
    ensures { result ≡ spec.in_frame slots.now e.now }
{
    match e {
        CoreExpr::Automatic(_, _, block, n) => Some(slot_of(slots, *block, *n)),
        CoreExpr::Member(_, _, n, a) => match in_frame(slots, a.get()) {
            Some(offset) => Some(offset.wrapping_add(*n)),
            None => None,
        },
        _ => None,
    }
}

/// The name of an object of static storage duration.
pub fn named(e: &CoreExpr) -> Option<&Key>
    ensures { MatchOption result (spec.named e.now ≡ None) (λ key. spec.named e.now ≡ Some key.now) }
{
    match e {
        CoreExpr::Static(_, _, key) => Some(key),
        _ => None,
    }
}

/// Whether it is such a place: its bytes are reached from `sp`, or by its name.
pub fn is_direct(slots: &[Items<Auto>], e: &CoreExpr) -> bool
    ensures { result ≡ spec.is_direct slots.now e.now }
{
    in_frame(slots, e).is_some() || named(e).is_some()
}

/// The value of a scalar's place is to be read (ANSI 3.2.2.1).
pub fn is_read(a: &CoreExpr) -> bool
    ensures { result ≡ spec.is_read a.now }
{
    is_place(a) && is_scalar(type_of(a))
}

/// What is done at such a place. Nothing but `t0` and the register that is said is written.
pub fn reach(
    alloc: Global,
    scope: &Scope,
    what: Access,
    e: &CoreExpr,
    code: &mut Items<Symbolic>,
) -> Result<(), NoMemory>
    ensures { OnOk result (code.new ≡ code.old ++ spec.reach scope.now.style.now scope.now.slots.now what e.now) }
{
    match in_frame(scope.slots, e) {
        Some(offset) => framed(code, scope.style, what, offset),
        None => match named(e) {
            Some(key) => at_target(alloc, code, what, Target::Named(key.copy(alloc)?)),
            None => Ok(()),
        },
    }
}

/// The bits of a number, also of one that is converted as it stands.
pub fn constant(e: &CoreExpr) -> Option<u32>
    ensures { result ≡ spec.constant e.now }
{
    match e {
        CoreExpr::Number(_, _, n) => Some(*n),
        CoreExpr::Convert(_, to, a) => match a.get() {
            CoreExpr::Number(_, from, n) => { if is_free(from, to) { Some(*n) } else { None } }
            _ => None,
        },
        _ => None,
    }
}

/// Whether a value is a number or that of a scalar of such a place: it is fetched where it is used.
pub fn is_leaf(slots: &[Items<Auto>], e: &CoreExpr) -> bool
    ensures { result ≡ spec.is_leaf slots.now e.now }
{
    match constant(e) {
        Some(_) => true,
        None => match e {
            CoreExpr::Convert(_, _, a) => is_read(a.get()) && is_direct(slots, a.get()),
            _ => false,
        },
    }
}

/// A register gets the value of a leaf.
pub fn fetch(
    alloc: Global,
    scope: &Scope,
    r: u8,
    e: &CoreExpr,
    code: &mut Items<Symbolic>,
) -> Result<(), NoMemory>
    ensures { OnOk result (code.new ≡ code.old ++ spec.fetch scope.now.style.now scope.now.slots.now r e.now) }
{
    match constant(e) {
        Some(n) => li(code, r, n),
        None => match e {
            CoreExpr::Convert(_, to, a) => {
                let from = type_of(a.get());
                let what = Access::Load(load_of(machine_type(from)), r);
                reach(alloc, scope, what, a.get(), code)?;
                reconvert(code, from, to, r)
            }
            _ => Ok(()),
        },
    }
}

/// The register in which a leaf stands already: that of a copy, or `x0`.
pub fn stands(scope: &Scope, e: &CoreExpr) -> Option<u8>
    ensures { result ≡ spec.stands scope.now.style.now scope.now.slots.now e.now }
{
    match constant(e) {
        Some(n) => { if n == 0 { Some(0) } else { None } }
        None => match e {
            CoreExpr::Convert(_, to, a) => {
                if is_read(a.get()) && is_free(type_of(a.get()), to) {
                    match in_frame(scope.slots, a.get()) {
                        Some(offset) => match kept_at(scope.style, offset) {
                            Some(k) => Some(k.register),
                            None => None,
                        },
                        None => None,
                    }
                } else {
                    None
                }
            }
            _ => None,
        },
    }
}

/// Bytes that are added, where with those that were to be added already they are fewer than 2,048; else none are left.
pub fn kept_back(n: u32, away: u32) -> u32
    requires { away < 2048 }
    ensures value { result ≡ spec.kept_back n away }
    ensures few { result < 2048 }
{
    if n < 2048 && n + away < 2048 {
        n + away
    } else {
        0
    }
}

/// How far the element that a number names is, where that is near.
pub fn element(b: &CoreExpr, size: u32) -> Option<u32>
    ensures { result ≡ spec.element b.now size }
{
    match constant(b) {
        Some(n) => bytes_of(n, size),
        None => None,
    }
}

/// Whether a conversion leaves a pointer as it stands.
pub fn is_passed(a: &CoreExpr, to: &CType) -> bool
    ensures { result ≡ spec.is_passed a.now to.now }
{
    !is_read(a) && is_free(type_of(a), to)
}

/// How many bytes are left to be added to the foot of a place or pointer.
pub fn away(e: &CoreExpr) -> u32
    ensures value { result ≡ spec.away e.now }
    ensures few { result < 2048 }
{
    match e {
        CoreExpr::Member(_, _, n, a) => kept_back(*n, away(a.get())),
        CoreExpr::Arrow(_, _, n, a) => kept_back(*n, away(a.get())),
        CoreExpr::Address(_, _, a) => away(a.get()),
        CoreExpr::Indirection(_, _, a) => away(a.get()),
        CoreExpr::Index(_, _, size, a, b) => {
            if is_pointer(type_of(a.get())) {
                match element(b.get(), *size) {
                    Some(n) => kept_back(n, away(a.get())),
                    None => away(a.get()),
                }
            } else {
                away(b.get())
            }
        }
        CoreExpr::Convert(_, to, a) => {
            if is_passed(a.get(), to) {
                away(a.get())
            } else {
                0
            }
        }
        _ => 0,
    }
}

/// Whether the foot of a place or pointer is fetched where it is used.
pub fn is_foothold(slots: &[Items<Auto>], e: &CoreExpr) -> bool
    ensures { result ≡ spec.is_foothold slots.now e.now }
{
    match e {
        CoreExpr::Automatic(_, _, _, _) => true,
        CoreExpr::Static(_, _, _) => true,
        CoreExpr::Member(_, _, n, a) => is_kept_back(*n, away(a.get()))
            && is_foothold(slots, a.get()),
        CoreExpr::Arrow(_, _, n, a) => is_kept_back(*n, away(a.get()))
            && is_foothold(slots, a.get()),
        CoreExpr::Address(_, _, a) => is_foothold(slots, a.get()),
        CoreExpr::Indirection(_, _, a) => is_foothold(slots, a.get()),
        CoreExpr::Index(_, _, size, a, b) => {
            if is_pointer(type_of(a.get())) {
                match element(b.get(), *size) {
                    Some(n) => is_kept_back(n, away(a.get())) && is_foothold(slots, a.get()),
                    None => false,
                }
            } else {
                false
            }
        }
        CoreExpr::Convert(_, to, a) => {
            if is_passed(a.get(), to) {
                is_foothold(slots, a.get())
            } else {
                is_leaf(slots, e)
            }
        }
        _ => is_leaf(slots, e),
    }
}

/// Whether so many bytes more are kept back.
pub fn is_kept_back(n: u32, away: u32) -> bool
    requires { away < 2048 }
    ensures { result ≡ spec.is_kept_back n away }
{
    n < 2048 && n + away < 2048
}

/// A register gets the foot of a place or pointer.
pub fn fetch_foot(
    alloc: Global,
    scope: &Scope,
    r: u8,
    e: &CoreExpr,
    code: &mut Items<Symbolic>,
) -> Result<(), NoMemory>
    ensures { OnOk result (code.new ≡ code.old ++ spec.fetch_foot scope.now.style.now scope.now.slots.now r e.now) }
{
    match e {
        CoreExpr::Automatic(_, _, _, _) => reach(alloc, scope, Access::Address(r), e, code),
        CoreExpr::Static(_, _, _) => reach(alloc, scope, Access::Address(r), e, code),
        CoreExpr::Member(_, _, _, a) => fetch_foot(alloc, scope, r, a.get(), code),
        CoreExpr::Arrow(_, _, _, a) => fetch_foot(alloc, scope, r, a.get(), code),
        CoreExpr::Address(_, _, a) => fetch_foot(alloc, scope, r, a.get(), code),
        CoreExpr::Indirection(_, _, a) => fetch_foot(alloc, scope, r, a.get(), code),
        CoreExpr::Index(_, _, _, a, _) => fetch_foot(alloc, scope, r, a.get(), code),
        CoreExpr::Convert(_, to, a) => {
            if is_passed(a.get(), to) {
                fetch_foot(alloc, scope, r, a.get(), code)
            } else {
                fetch(alloc, scope, r, e, code)
            }
        }
        _ => fetch(alloc, scope, r, e, code),
    }
}

/// Whether an expression has a call in it.
pub fn has_call(e: &CoreExpr) -> bool
    ensures { result ≡ spec.has_call e.now }
{
    match e {
        CoreExpr::Number(_, _, _) => false,
        CoreExpr::Literal(_, _, _) => false,
        CoreExpr::Automatic(_, _, _, _) => false,
        CoreExpr::Static(_, _, _) => false,
        CoreExpr::Function(_, _, _) => false,
        CoreExpr::Index(_, _, _, a, b) => has_call(a.get()) || has_call(b.get()),
        CoreExpr::Call(_, _, _, _) => true,
        CoreExpr::Member(_, _, _, a) => has_call(a.get()),
        CoreExpr::Arrow(_, _, _, a) => has_call(a.get()),
        CoreExpr::Step(_, _, _, _, a) => has_call(a.get()),
        CoreExpr::Address(_, _, a) => has_call(a.get()),
        CoreExpr::Indirection(_, _, a) => has_call(a.get()),
        CoreExpr::Unary(_, _, _, a) => has_call(a.get()),
        CoreExpr::Cast(_, _, a) => has_call(a.get()),
        CoreExpr::Binary(_, _, _, a, b) => has_call(a.get()) || has_call(b.get()),
        CoreExpr::Offset(_, _, _, _, a, b) => has_call(a.get()) || has_call(b.get()),
        CoreExpr::Difference(_, _, _, a, b) => has_call(a.get()) || has_call(b.get()),
        CoreExpr::Compare(_, _, _, a, b) => has_call(a.get()) || has_call(b.get()),
        CoreExpr::And(_, _, a, b) => has_call(a.get()) || has_call(b.get()),
        CoreExpr::Or(_, _, a, b) => has_call(a.get()) || has_call(b.get()),
        CoreExpr::Conditional(_, _, a, b, d) => {
            has_call(a.get()) || has_call(b.get()) || has_call(d.get())
        }
        CoreExpr::Assign(_, _, a, b) => has_call(a.get()) || has_call(b.get()),
        CoreExpr::AssignStructure(_, _, _, a, b) => has_call(a.get()) || has_call(b.get()),
        CoreExpr::Compound(_, _, _, _, a, b) => has_call(a.get()) || has_call(b.get()),
        CoreExpr::CompoundOffset(_, _, _, _, a, b) => has_call(a.get()) || has_call(b.get()),
        CoreExpr::Comma(_, _, a, b) => has_call(a.get()) || has_call(b.get()),
        CoreExpr::Convert(_, _, a) => has_call(a.get()),
    }
}
