// How operands are computed, the left one first, and in which registers they end (ANSI 3.3).
ghost use Rattle.std.specs.Prelude.{◌≡◌, ◌+◌, ◌<◌, ◌++◌, OnOk, option_map};
ghost use Rattle.sc_gen_code.specs.declared.symbolic.Symbolic.TheVariants.{Plain};
ghost use Rattle.sc_gen_operand.specs.Plans as spec;

use crate::places::{
    Scope, constant, element, fetch, fetch_foot, has_call, is_direct, is_foothold, is_leaf,
    is_read, stands,
};
use sc_base::{Int, Items, NoMemory, Op};
use sc_core::{Auto, CoreExpr, type_of};
use sc_gen_code::{A0, A1, Spot, Symbolic, immediate, is_pointer, is_unsigned, machine_type};
use sc_isa::Instr;
use std::alloc::Global;

/// What is wanted of an expression: the word of its value or place; or, of a place or pointer, the address alone, less the
/// bytes that are kept back.
#[derive(Clone, Copy)]
pub enum Want {
    Word,
    Foot,
}

/// What is computed of two operands, and where the left one waits.
#[derive(Clone, Copy)]
pub enum Plan {
    /// Neither: the left one is a place without code of its own, the right one a number that an instruction holds.
    Neither,
    /// The left one: the right one is such a number.
    Left,
    /// The right one: the left one is such a place.
    Right,
    /// The left one; the right one is a leaf, which is fetched then.
    Late,
    /// Both; the left one waits in this register.
    Register(u8),
    /// Both; the left one waits in a temporary.
    Memory,
}

/// The operands of an operator: what is computed, and what is wanted of each.
#[derive(Clone, Copy)]
pub struct Operands {
    pub plan: Plan,
    pub left: Want,
    pub right: Want,
}

/// The registers in which two operands end.
#[derive(Clone, Copy)]
pub struct Pair {
    pub left: u8,
    pub right: u8,
}

/// Whether an operand is fetched where it is used.
pub fn is_fetched(slots: &[Items<Auto>], want: Want, e: &CoreExpr) -> bool
    ensures { result ≡ spec.is_fetched slots.now want e.now }
{
    match want {
        Want::Word => is_leaf(slots, e),
        Want::Foot => is_foothold(slots, e),
    }
}

/// A register gets what is wanted of an operand that is fetched.
pub fn fetched_as(
    alloc: Global,
    scope: &Scope,
    want: Want,
    r: u8,
    e: &CoreExpr,
    code: &mut Items<Symbolic>,
) -> Result<(), NoMemory>
    ensures { OnOk result (code.new ≡ code.old ++ spec.fetched_as scope.now.style.now scope.now.slots.now want r e.now) }
{
    match want {
        Want::Word => fetch(alloc, scope, r, e, code),
        Want::Foot => fetch_foot(alloc, scope, r, e, code),
    }
}

/// The register in which a first operand stands already.
pub fn standing(scope: &Scope, want: Want, e: &CoreExpr) -> Option<u8>
    ensures { result ≡ spec.standing scope.now.style.now scope.now.slots.now want e.now }
{
    match want {
        Want::Word => stands(scope, e),
        Want::Foot => None,
    }
}

/// The register in which a first operand ends.
pub fn first_register(scope: &Scope, want: Want, e: &CoreExpr) -> u8
    ensures { result ≡ spec.first_register scope.now.style.now scope.now.slots.now want e.now }
{
    match standing(scope, want, e) {
        Some(r) => r,
        None => A0,
    }
}

/// A right operand that is a leaf is fetched, unless it stands in a register already.
pub fn late(
    alloc: Global,
    scope: &Scope,
    e: &CoreExpr,
    code: &mut Items<Symbolic>,
) -> Result<(), NoMemory>
    ensures { OnOk result (code.new ≡ code.old ++ spec.late scope.now.style.now scope.now.slots.now e.now) }
{
    match stands(scope, e) {
        Some(_) => Ok(()),
        None => fetch(alloc, scope, A1, e, code),
    }
}

fn late_register(scope: &Scope, e: &CoreExpr) -> u8
    ensures { result ≡ spec.late_register scope.now.style.now scope.now.slots.now e.now }
{
    match stands(scope, e) {
        Some(r) => r,
        None => A1,
    }
}

/// Where the left operand of two that are computed waits.
pub fn waiting_plan(at: Spot, b: &CoreExpr) -> Plan
    ensures { result ≡ spec.waiting_plan at b.now }
{
    if at.depth < 5 && !has_call(b) {
        Plan::Register(13 + at.depth)
    } else {
        Plan::Memory
    }
}

fn is_late(slots: &[Items<Auto>], want: Want, b: &CoreExpr) -> bool
    ensures { result ≡ spec.is_late slots.now want b.now }
{
    match want {
        Want::Word => is_leaf(slots, b),
        Want::Foot => false,
    }
}

/// Two operands in registers. A right one that is a leaf is fetched behind the left one.
fn operand_plan(slots: &[Items<Auto>], want: Want, b: &CoreExpr, at: Spot) -> Plan
    ensures { result ≡ spec.operand_plan slots.now want b.now at }
{
    if is_late(slots, want, b) {
        Plan::Late
    } else {
        waiting_plan(at, b)
    }
}

fn two(plan: Plan, left: Want, right: Want) -> Operands
    ensures { result ≡ spec.two plan left right }
{
    Operands { plan, left, right }
}

/// Two values.
pub fn value_operands(slots: &[Items<Auto>], b: &CoreExpr, at: Spot) -> Operands
    ensures { result ≡ spec.value_operands slots.now b.now at }
{
    two(
        operand_plan(slots, Want::Word, b, at),
        Want::Word,
        Want::Word,
    )
}

/// Two structures.
pub fn structure_operands(b: &CoreExpr, at: Spot) -> Operands
    ensures { result ≡ spec.structure_operands b.now at }
{
    two(waiting_plan(at, b), Want::Word, Want::Word)
}

/// Whether the operators on values of an operand's type work without sign.
pub fn is_plain(a: &CoreExpr) -> bool
    ensures { result ≡ spec.is_plain a.now }
{
    is_unsigned(machine_type(type_of(a)))
}

/// An operator with a number as one instruction, where there is one.
pub fn with_number(op: Op, unsigned: bool, x: u8, b: &CoreExpr) -> Option<Instr>
    ensures { option_map Plain result ≡ spec.with_number op unsigned x b.now }
{
    match constant(b) {
        Some(n) => immediate(op, unsigned, x, n),
        None => None,
    }
}

/// Two integers.
pub fn binary_operands(scope: &Scope, op: Op, a: &CoreExpr, b: &CoreExpr, at: Spot) -> Operands
    ensures { result ≡ spec.binary_operands scope.now.style.now scope.now.slots.now op a.now b.now at }
{
    let x = first_register(scope, Want::Word, a);
    match with_number(op, is_plain(a), x, b) {
        Some(_) => two(Plan::Left, Want::Word, Want::Word),
        None => value_operands(scope.slots, b, at),
    }
}

/// A pointer and an integer, of which the word or the foot is wanted.
pub fn offset_operands(
    slots: &[Items<Auto>],
    want: Want,
    size: u32,
    a: &CoreExpr,
    b: &CoreExpr,
    at: Spot,
) -> Operands
    ensures { result ≡ spec.offset_operands slots.now want size a.now b.now at }
{
    if !is_pointer(type_of(a)) {
        return two(operand_plan(slots, want, b, at), Want::Word, want);
    }
    match element(b, size) {
        Some(_) => two(Plan::Left, want, Want::Word),
        None => two(operand_plan(slots, Want::Word, b, at), want, Want::Word),
    }
}

/// A place, and the value that it gets.
pub fn assign_operands(slots: &[Items<Auto>], a: &CoreExpr, b: &CoreExpr, at: Spot) -> Operands
    ensures { result ≡ spec.assign_operands slots.now a.now b.now at }
{
    if is_direct(slots, a) {
        two(Plan::Right, Want::Foot, Want::Word)
    } else {
        two(waiting_plan(at, b), Want::Foot, Want::Word)
    }
}

fn changing(
    slots: &[Items<Auto>],
    is_number: bool,
    a: &CoreExpr,
    b: &CoreExpr,
    at: Spot,
) -> Operands
    ensures { result ≡ spec.changing slots.now is_number a.now b.now at }
{
    if is_number && is_direct(slots, a) {
        two(Plan::Neither, Want::Foot, Want::Word)
    } else {
        assign_operands(slots, a, b, at)
    }
}

/// A place, and the integer by which it is changed.
pub fn compound_operands(
    slots: &[Items<Auto>],
    op: Op,
    k: Int,
    a: &CoreExpr,
    b: &CoreExpr,
    at: Spot,
) -> Operands
    ensures { result ≡ spec.compound_operands slots.now op k a.now b.now at }
{
    let is_number = with_number(op, is_unsigned(k), A0, b).is_some();
    changing(slots, is_number, a, b, at)
}

/// A pointer's place, and the integer by which it is moved.
pub fn moving_operands(
    slots: &[Items<Auto>],
    size: u32,
    a: &CoreExpr,
    b: &CoreExpr,
    at: Spot,
) -> Operands
    ensures { result ≡ spec.moving_operands slots.now size a.now b.now at }
{
    changing(slots, element(b, size).is_some(), a, b, at)
}

fn left_register(scope: &Scope, how: Operands, a: &CoreExpr) -> u8
    ensures { result ≡ spec.left_register scope.now.style.now scope.now.slots.now how a.now }
{
    match how.plan {
        Plan::Neither => A0,
        Plan::Left => first_register(scope, how.left, a),
        Plan::Right => A0,
        Plan::Late => first_register(scope, how.left, a),
        Plan::Register(r) => r,
        Plan::Memory => A1,
    }
}

fn right_register(scope: &Scope, how: Operands, b: &CoreExpr) -> u8
    ensures { result ≡ spec.right_register scope.now.style.now scope.now.slots.now how b.now }
{
    match how.plan {
        Plan::Late => late_register(scope, b),
        Plan::Neither => A0,
        Plan::Left => A0,
        Plan::Right => A0,
        Plan::Register(_) => A0,
        Plan::Memory => A0,
    }
}

/// The registers in which two operands end.
pub fn pair_of(scope: &Scope, how: Operands, a: &CoreExpr, b: &CoreExpr) -> Pair
    ensures { result ≡ spec.pair_of scope.now.style.now scope.now.slots.now how a.now b.now }
{
    Pair {
        left: left_register(scope, how, a),
        right: right_register(scope, how, b),
    }
}

/// What is wanted of a place that is stepped: nothing of one without code of its own, else the foot.
pub fn step_wants(slots: &[Items<Auto>], a: &CoreExpr) -> Option<Want>
    ensures { result ≡ spec.step_wants slots.now a.now }
{
    if is_direct(slots, a) {
        None
    } else {
        Some(Want::Foot)
    }
}

/// What is wanted of a place that is read, and of what is converted without a reading (ANSI 3.2.2.1).
pub fn read_wants(slots: &[Items<Auto>], a: &CoreExpr) -> Option<Want>
    ensures { result ≡ spec.read_wants slots.now a.now }
{
    if is_read(a) {
        step_wants(slots, a)
    } else {
        Some(Want::Word)
    }
}
