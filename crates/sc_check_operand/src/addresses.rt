// Address constants (ANSI 3.4), on typed trees.
ghost use Rattle.std.specs.Prelude.{◌≡◌, IfOk};
ghost use Rattle.sc_check_operand.specs.Addresses as spec;
ghost use Rattle.sc_check_operand.specs.Constants.{folded};
ghost use Rattle.sc_core.specs.Types.{type_of};
ghost use Rattle.sc_check_operand.specs.Steps.{Says};
ghost use Rattle.sc_types.specs.declared.ctype.CType.{out-CType};

use crate::fault::{Cause, TypeFault, refusal};
use crate::folding::{Folded, evaluated, is_zero_constant};
use crate::operand::is_place;
use sc_base::{Duplicate, Key, NoMemory, Op};
use sc_core::{CoreExpr, type_of};
use sc_types::CType;
use std::alloc::Global;

/// What an address constant is an address of: an object of static storage duration, a function, or a literal by its place
/// among the module's.
#[derive(Drop)]
pub enum Base {
    Null,
    Static(Key),
    Function(Key),
    Literal(u32),
}

/// An address constant: its offset in bytes, modulo 2 to the 32.
#[derive(Drop)]
pub struct Located {
    pub base: Base,
    pub offset: u32,
}

fn at_base(base: Base, offset: u32) -> Option<Located>
    ensures { result ≡ spec.at_base base offset }
{
    Some(Located { base, offset })
}

fn at_null(offset: u32) -> Option<Located>
    ensures { result ≡ spec.at_null offset }
{
    if offset == 0 {
        at_base(Base::Null, 0)
    } else {
        None
    }
}

fn at_static(alloc: Global, key: &Key, offset: u32) -> Result<Option<Located>, NoMemory>
    ensures { IfOk result (λ r. r ≡ spec.at_base (Base.Static key.now) offset) }
{
    let key = key.copy(alloc)?;
    Ok(at_base(Base::Static(key), offset))
}

fn at_function(alloc: Global, key: &Key, offset: u32) -> Result<Option<Located>, NoMemory>
    ensures { IfOk result (λ r. r ≡ spec.at_base (Base.Function key.now) offset) }
{
    let key = key.copy(alloc)?;
    Ok(at_base(Base::Function(key), offset))
}

fn behind(offset: u32, n: u32) -> u32
    ensures { result ≡ spec.behind offset n }
{
    offset.wrapping_add(n)
}

fn moved(op: Op, offset: u32, n: u32) -> u32
    ensures { result ≡ spec.moved op offset n }
{
    match op {
        Op::Sub => offset.wrapping_sub(n),
        _ => behind(offset, n),
    }
}

fn distance(size: u32, n: u32) -> u32
    ensures { result ≡ spec.distance size n }
{
    size.wrapping_mul(n)
}

fn points(e: &CoreExpr) -> bool
    ensures { result ≡ spec.points e.now }
{
    match type_of(e) {
        CType::Pointer(_, _) => true,
        _ => false,
    }
}

/// The offset after a step by a constant number of elements.
fn stepped(op: Op, size: u32, offset: u32, n: &CoreExpr) -> Option<u32>
    ensures { result ≡ spec.stepped op size offset (folded n.now) }
{
    match evaluated(n) {
        Folded::Value(n, _) => Some(moved(op, offset, distance(size, n))),
        Folded::Undefined | Folded::Variable => None,
    }
}

/// Whether the address of what is converted or cast is that of its operand.
#[derive(Clone, Copy, Debug, PartialEq, Eq)]
pub enum Passage {
    Through,
    Null,
    Nowhere,
}

fn passage_of(a: &CoreExpr) -> Passage
    ensures { result ≡ spec.passage_of a.now }
{
    match type_of(a) {
        CType::Pointer(_, _) => {
            if is_place(a) {
                Passage::Nowhere
            } else {
                Passage::Through
            }
        }
        CType::Array(_, _) | CType::Function(_) => Passage::Through,
        CType::Int(_, _) => {
            if is_zero_constant(a) {
                Passage::Null
            } else {
                Passage::Nowhere
            }
        }
        CType::Void(_) | CType::Struct(_, _) => Passage::Nowhere,
    }
}

/// Where an expression's place is, or what its value points to, this many bytes on.
fn place_at(alloc: Global, e: &CoreExpr, offset: u32) -> Result<Option<Located>, NoMemory>
    ensures { IfOk result (λ r. r ≡ spec.located e.now offset) }
{
    match e {
        CoreExpr::Static(_, _, key) => at_static(alloc, key, offset),
        CoreExpr::Function(_, _, key) => at_function(alloc, key, offset),
        CoreExpr::Literal(_, _, n) => Ok(at_base(Base::Literal(*n), offset)),
        CoreExpr::Member(_, _, n, a) => place_at(alloc, a.get(), behind(offset, *n)),
        CoreExpr::Arrow(_, _, n, a) => place_at(alloc, a.get(), behind(offset, *n)),
        CoreExpr::Indirection(_, _, a) => place_at(alloc, a.get(), offset),
        CoreExpr::Address(_, _, a) => place_at(alloc, a.get(), offset),
        CoreExpr::Index(_, _, n, a, b) => {
            if points(a.get()) {
                match stepped(Op::Add, *n, offset, b.get()) {
                    Some(next) => place_at(alloc, a.get(), next),
                    None => Ok(None),
                }
            } else {
                match stepped(Op::Add, *n, offset, a.get()) {
                    Some(next) => place_at(alloc, b.get(), next),
                    None => Ok(None),
                }
            }
        }
        CoreExpr::Offset(_, _, op, n, a, b) => {
            if points(a.get()) {
                match stepped(*op, *n, offset, b.get()) {
                    Some(next) => place_at(alloc, a.get(), next),
                    None => Ok(None),
                }
            } else {
                match stepped(*op, *n, offset, a.get()) {
                    Some(next) => place_at(alloc, b.get(), next),
                    None => Ok(None),
                }
            }
        }
        CoreExpr::Convert(_, _, a) | CoreExpr::Cast(_, _, a) => match passage_of(a.get()) {
            Passage::Through => place_at(alloc, a.get(), offset),
            Passage::Null => Ok(at_null(offset)),
            Passage::Nowhere => Ok(None),
        },
        _ => Ok(None),
    }
}

/// An address constant, where one is wanted (ANSI 3.4): null, a function, an object of static storage duration or a part of it,
/// or a literal, plus or minus a constant, with casts of pointers.
///
/// # Errors
///
/// `NotConstant` (X8): the expression is none.
pub fn address_constant(alloc: Global, line: u32, e: &CoreExpr) -> Result<Located, TypeFault>
    ensures { Says (spec.address_constant line e.now) result }
{
    match place_at(alloc, e, 0)? {
        Some(place) => Ok(place),
        None => Err(refusal(Cause::NotConstant, line)),
    }
}
