// What stands behind the code of operands: the words of operators, assignments and calls.
ghost use Rattle.std.specs.Prelude.{◌≡◌, ◌+◌, ◌-◌, ◌<◌, ◌++◌, [], ◌∷◌, length, slice_set, OnOk};
ghost use Rattle.sc_isa.specs.declared.instruction.RegOp.TheVariants as reg;
ghost use Rattle.sc_gen_code.specs.Calls.{direct};
ghost use Rattle.sc_gen_code.specs.Code.{x0, a0, apply, over};
ghost use Rattle.sc_gen_code.specs.declared.symbolic.Symbolic.TheVariants.{Plain};
ghost use Rattle.sc_gen_operand.specs.Templates as spec;

use crate::places::{
    Scope, away, element, fetch, is_direct, is_kept_back, is_leaf, is_read, reach,
};
use crate::plans::{
    Operands, Pair, Want, first_register, is_plain, pair_of, value_operands, with_number,
};
use sc_base::{Int, Items, NoMemory, Op, Shared};
use sc_core::{Auto, CoreExpr, Step, UnaryOperator, type_of};
use sc_gen_code::{
    A0, A1, A2, Access, Spot, Symbolic, X0, addi, advanced, awaited, base_of, branch, by_bytes,
    call_direct, call_through, changed, close, convert, copied, count_of, difference, direct,
    further, is_comparison, is_pointer, is_unsigned, load, load_of, machine_type, marshalled,
    moved, next_register, next_value, operate, put_one, reconvert, reloaded, stepped, store,
    store_of,
};
use sc_isa::{Instr, RegOp};
use sc_types::CType;
use std::alloc::Global;

/// What is left in `a0` becomes 0 or 1, behind a right operand that a jump leaves out.
pub fn end_logical(code: &mut Items<Symbolic>, jump: usize) -> Result<(), NoMemory>
    ensures { OnOk result (code.new ≡ slice_set code.old jump (over (length code.old - (jump + 1))) ++ apply reg.Sltu a0 x0 a0 ∷ []) }
{
    close(code, jump);
    put_one(code, Instr::Reg(RegOp::Sltu, A0, X0, A0))
}

/// Bytes that are not kept back are added.
pub fn settle(code: &mut Items<Symbolic>, n: u32, away: u32) -> Result<(), NoMemory>
    requires { away < 2048 }
    ensures { OnOk result (code.new ≡ code.old ++ spec.settle n away) }
{
    if is_kept_back(n, away) {
        Ok(())
    } else {
        further(code, n.wrapping_add(away))
    }
}

/// The bytes of a member are added to the foot of what has it.
pub fn member_end(code: &mut Items<Symbolic>, n: u32, a: &CoreExpr) -> Result<(), NoMemory>
    ensures { OnOk result (code.new ≡ code.old ++ spec.member_end n a.now) }
{
    settle(code, n, away(a))
}

/// An operator on two integers.
pub fn operated(
    scope: &Scope,
    how: Operands,
    op: Op,
    a: &CoreExpr,
    b: &CoreExpr,
    code: &mut Items<Symbolic>,
) -> Result<(), NoMemory>
    ensures { OnOk result (code.new ≡ code.old ++ spec.operated scope.now.style.now scope.now.slots.now how op a.now b.now) }
{
    let x = first_register(scope, Want::Word, a);
    match with_number(op, is_plain(a), x, b) {
        Some(i) => put_one(code, i),
        None => {
            let pair = pair_of(scope, how, a, b);
            operate(code, op, is_plain(a), pair.left, pair.right)
        }
    }
}

fn moved_end(
    scope: &Scope,
    how: Operands,
    op: Op,
    size: u32,
    a: &CoreExpr,
    b: &CoreExpr,
    code: &mut Items<Symbolic>,
) -> Result<(), NoMemory>
    ensures { OnOk result (code.new ≡ code.old ++ spec.moved_end scope.now.style.now scope.now.slots.now how op size a.now b.now) }
{
    let pair = pair_of(scope, how, a, b);
    moved(
        code,
        op,
        is_pointer(type_of(a)),
        size,
        pair.left,
        pair.right,
    )
}

fn nearby(
    scope: &Scope,
    want: Want,
    op: Op,
    n: u32,
    a: &CoreExpr,
    code: &mut Items<Symbolic>,
) -> Result<(), NoMemory>
    requires { n < 2048 }
    ensures { OnOk result (code.new ≡ code.old ++ spec.nearby scope.now.style.now scope.now.slots.now want op n a.now) }
{
    match want {
        Want::Word => put_one(code, by_bytes(op, first_register(scope, Want::Word, a), n)),
        Want::Foot => member_end(code, n, a),
    }
}

/// A pointer and an integer (ANSI 3.3.2.1, 3.3.6).
pub fn offset_end(
    scope: &Scope,
    how: Operands,
    want: Want,
    op: Op,
    size: u32,
    a: &CoreExpr,
    b: &CoreExpr,
    code: &mut Items<Symbolic>,
) -> Result<(), NoMemory>
    ensures { OnOk result (code.new ≡ code.old ++ spec.offset_end scope.now.style.now scope.now.slots.now how want op size a.now b.now) }
{
    if !is_pointer(type_of(a)) {
        return moved_end(scope, how, op, size, a, b, code);
    }
    match element(b, size) {
        Some(n) => nearby(scope, want, op, n, a, code),
        None => moved_end(scope, how, op, size, a, b, code),
    }
}

/// The difference of two pointers (ANSI 3.3.6).
pub fn difference_end(
    scope: &Scope,
    how: Operands,
    size: u32,
    a: &CoreExpr,
    b: &CoreExpr,
    code: &mut Items<Symbolic>,
) -> Result<(), NoMemory>
    ensures { OnOk result (code.new ≡ code.old ++ spec.difference_end scope.now.style.now scope.now.slots.now how size a.now b.now) }
{
    let pair = pair_of(scope, how, a, b);
    difference(code, size, pair.left, pair.right)
}

/// A comparison of two pointers (ANSI 3.3.8, 3.3.9).
pub fn compared_end(
    scope: &Scope,
    how: Operands,
    op: Op,
    a: &CoreExpr,
    b: &CoreExpr,
    code: &mut Items<Symbolic>,
) -> Result<(), NoMemory>
    ensures { OnOk result (code.new ≡ code.old ++ spec.compared_end scope.now.style.now scope.now.slots.now how op a.now b.now) }
{
    let pair = pair_of(scope, how, a, b);
    operate(code, op, true, pair.left, pair.right)
}

/// A register gets what a place without code of its own holds.
pub fn taken(
    alloc: Global,
    scope: &Scope,
    a: &CoreExpr,
    r: u8,
    code: &mut Items<Symbolic>,
) -> Result<(), NoMemory>
    ensures { OnOk result (code.new ≡ code.old ++ spec.taken scope.now.style.now scope.now.slots.now a.now r) }
{
    let what = Access::Load(load_of(machine_type(type_of(a))), r);
    reach(alloc, scope, what, a, code)
}

/// Such a place is written with what is in a register.
pub fn written(
    alloc: Global,
    scope: &Scope,
    a: &CoreExpr,
    r: u8,
    code: &mut Items<Symbolic>,
) -> Result<(), NoMemory>
    ensures { OnOk result (code.new ≡ code.old ++ spec.written scope.now.style.now scope.now.slots.now a.now r) }
{
    let what = Access::Store(store_of(machine_type(type_of(a))), r);
    reach(alloc, scope, what, a, code)
}

/// A scalar is read from the place whose foot is in a register.
fn loaded(code: &mut Items<Symbolic>, a: &CoreExpr, r: u8, base: u8) -> Result<(), NoMemory>
    ensures { OnOk result (code.new ≡ code.old ++ spec.loaded a.now r base) }
{
    put_one(code, load(type_of(a), r, base, away(a)))
}

/// A scalar is written to the place whose foot is in a register.
fn stored(code: &mut Items<Symbolic>, a: &CoreExpr, base: u8) -> Result<(), NoMemory>
    ensures { OnOk result (code.new ≡ code.old ++ spec.stored a.now base) }
{
    put_one(code, store(type_of(a), A0, base, away(a)))
}

/// A place gets the value in `a0` (ANSI 3.3.16.1).
pub fn assign_end(
    alloc: Global,
    scope: &Scope,
    how: Operands,
    a: &CoreExpr,
    b: &CoreExpr,
    code: &mut Items<Symbolic>,
) -> Result<(), NoMemory>
    ensures { OnOk result (code.new ≡ code.old ++ spec.assign_end scope.now.style.now scope.now.slots.now how a.now b.now) }
{
    if is_direct(scope.slots, a) {
        written(alloc, scope, a, A0, code)
    } else {
        stored(code, a, pair_of(scope, how, a, b).left)
    }
}

/// The structure whose place is in `a0` is copied to the place that waits.
fn copy_structure(code: &mut Items<Symbolic>, x: u8, size: u32) -> Result<(), NoMemory>
    ensures { OnOk result (code.new ≡ code.old ++ spec.structure_copied x size) }
{
    if x == A1 {
        // `a1` is needed for the source
        put_one(code, addi(A2, A1, 0))?;
        put_one(code, addi(A1, A0, 0))?;
        put_one(code, addi(A0, A2, 0))?;
    } else {
        put_one(code, addi(A1, A0, 0))?;
        put_one(code, addi(A0, x, 0))?;
    }
    copied(code, size)
}

/// A structure is copied to the place of the left operand.
pub fn structure_end(
    scope: &Scope,
    how: Operands,
    size: u32,
    a: &CoreExpr,
    b: &CoreExpr,
    code: &mut Items<Symbolic>,
) -> Result<(), NoMemory>
    ensures { OnOk result (code.new ≡ code.old ++ spec.structure_end scope.now.style.now scope.now.slots.now how size a.now b.now) }
{
    copy_structure(code, pair_of(scope, how, a, b).left, size)
}

fn by_number(
    alloc: Global,
    scope: &Scope,
    i: Instr,
    a: &CoreExpr,
    code: &mut Items<Symbolic>,
) -> Result<(), NoMemory>
    ensures { OnOk result (code.new ≡ code.old ++ spec.by_number scope.now.style.now scope.now.slots.now (Plain i) a.now) }
{
    taken(alloc, scope, a, A0, code)?;
    put_one(code, i)?;
    convert(code, type_of(a), A0)
}

fn compound_direct(
    alloc: Global,
    scope: &Scope,
    op: Op,
    k: Int,
    a: &CoreExpr,
    b: &CoreExpr,
    code: &mut Items<Symbolic>,
) -> Result<(), NoMemory>
    ensures { OnOk result (code.new ≡ code.old ++ spec.compound_direct scope.now.style.now scope.now.slots.now op k a.now b.now) }
{
    match with_number(op, is_unsigned(k), A0, b) {
        Some(i) => by_number(alloc, scope, i, a, code),
        None => {
            taken(alloc, scope, a, A2, code)?;
            changed(code, op, k, type_of(a))
        }
    }
}

/// A place is changed by the integer in `a0` (ANSI 3.3.16.2).
pub fn compound_end(
    alloc: Global,
    scope: &Scope,
    how: Operands,
    op: Op,
    k: Int,
    a: &CoreExpr,
    b: &CoreExpr,
    code: &mut Items<Symbolic>,
) -> Result<(), NoMemory>
    ensures { OnOk result (code.new ≡ code.old ++ spec.compound_end scope.now.style.now scope.now.slots.now how op k a.now b.now) }
{
    if is_direct(scope.slots, a) {
        compound_direct(alloc, scope, op, k, a, b, code)?;
        written(alloc, scope, a, A0, code)
    } else {
        let x = pair_of(scope, how, a, b).left;
        loaded(code, a, A2, x)?;
        changed(code, op, k, type_of(a))?;
        stored(code, a, x)
    }
}

fn moving_direct(
    alloc: Global,
    scope: &Scope,
    op: Op,
    size: u32,
    a: &CoreExpr,
    b: &CoreExpr,
    code: &mut Items<Symbolic>,
) -> Result<(), NoMemory>
    ensures { OnOk result (code.new ≡ code.old ++ spec.moving_direct scope.now.style.now scope.now.slots.now op size a.now b.now) }
{
    match element(b, size) {
        Some(n) => {
            taken(alloc, scope, a, A0, code)?;
            put_one(code, by_bytes(op, A0, n))
        }
        None => {
            taken(alloc, scope, a, A2, code)?;
            advanced(code, op, size, A2, A0)
        }
    }
}

/// A pointer's place is moved by the integer in `a0` (ANSI 3.3.16.2).
pub fn moving_end(
    alloc: Global,
    scope: &Scope,
    how: Operands,
    op: Op,
    size: u32,
    a: &CoreExpr,
    b: &CoreExpr,
    code: &mut Items<Symbolic>,
) -> Result<(), NoMemory>
    ensures { OnOk result (code.new ≡ code.old ++ spec.moving_end scope.now.style.now scope.now.slots.now how op size a.now b.now) }
{
    if is_direct(scope.slots, a) {
        moving_direct(alloc, scope, op, size, a, b, code)?;
        written(alloc, scope, a, A0, code)
    } else {
        let x = pair_of(scope, how, a, b).left;
        loaded(code, a, A2, x)?;
        advanced(code, op, size, A2, A0)?;
        stored(code, a, x)
    }
}

/// `++` and `--` (ANSI 3.3.2.4, 3.3.3.1).
pub fn step_end(
    alloc: Global,
    scope: &Scope,
    step: Step,
    n: u32,
    a: &CoreExpr,
    code: &mut Items<Symbolic>,
) -> Result<(), NoMemory>
    ensures { OnOk result (code.new ≡ code.old ++ spec.step_end scope.now.style.now scope.now.slots.now step n a.now) }
{
    if is_direct(scope.slots, a) {
        taken(alloc, scope, a, A0, code)?;
        next_value(code, step, n, type_of(a), next_register(step))?;
        written(alloc, scope, a, next_register(step), code)
    } else {
        stepped(code, step, n, type_of(a), away(a))
    }
}

fn read(
    alloc: Global,
    scope: &Scope,
    a: &CoreExpr,
    code: &mut Items<Symbolic>,
) -> Result<(), NoMemory>
    ensures { OnOk result (code.new ≡ code.old ++ spec.read scope.now.style.now scope.now.slots.now a.now) }
{
    if !is_read(a) {
        return Ok(());
    }
    if is_direct(scope.slots, a) {
        taken(alloc, scope, a, A0, code)
    } else {
        loaded(code, a, A0, A0)
    }
}

/// What C converts by itself: a scalar's place is read, and its value becomes one of another type.
pub fn read_end(
    alloc: Global,
    scope: &Scope,
    a: &CoreExpr,
    to: &CType,
    code: &mut Items<Symbolic>,
) -> Result<(), NoMemory>
    ensures { OnOk result (code.new ≡ code.old ++ spec.read_end scope.now.style.now scope.now.slots.now a.now to.now) }
{
    read(alloc, scope, a, code)?;
    reconvert(code, type_of(a), to, A0)
}

fn last_computed(slots: &[Items<Auto>], args: &[Shared<CoreExpr>]) -> usize
    ensures { result ≡ spec.last_computed slots.now 0 args.now 0 }
{
    let mut n = 0;
    for (i, arg) in args.iter().enumerate() {
        if !is_leaf(slots, arg.get()) {
            n = i + 1;
        }
    }
    n
}

/// How many arguments are computed one after another. Those behind them are leaves, which are fetched into their registers.
pub fn computed(slots: &[Items<Auto>], args: &[Shared<CoreExpr>]) -> usize
    ensures { result ≡ spec.computed slots.now args.now }
{
    if 8 < args.len() {
        args.len()
    } else {
        last_computed(slots, args)
    }
}

/// Leaves go into the registers of arguments.
fn fetched(
    alloc: Global,
    scope: &Scope,
    from: usize,
    args: &[Shared<CoreExpr>],
    code: &mut Items<Symbolic>,
) -> Result<(), NoMemory>
    ensures { OnOk result (code.new ≡ code.old ++ spec.fetched scope.now.style.now scope.now.slots.now from args.now) }
{
    for (i, arg) in args.iter().enumerate() {
        if from <= i && i < 8 {
            fetch(alloc, scope, A0 + i as u8, arg.get(), code)?;
        }
    }
    Ok(())
}

fn through(
    alloc: Global,
    scope: &Scope,
    n: usize,
    args: &[Shared<CoreExpr>],
    t: u32,
    code: &mut Items<Symbolic>,
) -> Result<(), NoMemory>
    ensures { OnOk result (code.new ≡ code.old ++ spec.through scope.now.style.now scope.now.slots.now n args.now t) }
{
    awaited(code, base_of(count_of(n), t))?;
    fetched(alloc, scope, n, args, code)?;
    call_through(code)
}

/// Arguments go where the callee expects them, and it is called: by its name, or by the address that waits.
pub fn transfer(
    alloc: Global,
    scope: &Scope,
    function: &CoreExpr,
    args: &[Shared<CoreExpr>],
    t: u32,
    code: &mut Items<Symbolic>,
) -> Result<(), NoMemory>
    ensures { OnOk result (code.new ≡ code.old ++ spec.transfer scope.now.style.now scope.now.slots.now args.now t (direct function.now)) }
{
    let n = computed(scope.slots, args);
    marshalled(code, count_of(n), t)?;
    match direct(function) {
        Some(key) => {
            fetched(alloc, scope, n, args, code)?;
            call_direct(alloc, code, key, count_of(args.len()))?;
        }
        None => through(alloc, scope, n, args, t, code)?,
    }
    reloaded(code, scope.style)
}

/// A comparison whose operands stand in registers.
#[derive(Clone, Copy)]
pub struct Compared {
    pub op: Op,
    pub unsigned: bool,
    pub left: u8,
    pub right: u8,
}

impl Compared {
    /// A branch of so many bytes where the truth of the comparison is the one that is said.
    pub fn branch(self, sense: bool, z: i32) -> Instr
        ensures { Plain result ≡ spec.branched self sense z }
    {
        branch(self.op, self.unsigned, sense, self.left, self.right, z)
    }
}

fn pair_compared(op: Op, unsigned: bool, pair: Pair) -> Compared
    ensures { result ≡ spec.pair_compared op unsigned pair }
{
    Compared {
        op,
        unsigned,
        left: pair.left,
        right: pair.right,
    }
}

fn value_compared(scope: &Scope, e: &CoreExpr) -> Compared
    ensures { result ≡ spec.value_compared scope.now.style.now scope.now.slots.now e.now }
{
    Compared {
        op: Op::Ne,
        unsigned: false,
        left: first_register(scope, Want::Word, e),
        right: X0,
    }
}

/// What a condition compares: two operands, or a value with zero.
pub fn comparison(scope: &Scope, e: &CoreExpr, at: Spot) -> Compared
    ensures { result ≡ spec.comparison scope.now.style.now scope.now.slots.now e.now at }
{
    match e {
        CoreExpr::Binary(_, _, op, a, b) => {
            if is_comparison(*op) {
                let how = value_operands(scope.slots, b.get(), at);
                pair_compared(
                    *op,
                    is_plain(a.get()),
                    pair_of(scope, how, a.get(), b.get()),
                )
            } else {
                value_compared(scope, e)
            }
        }
        CoreExpr::Compare(_, _, op, a, b) => {
            if is_comparison(*op) {
                let how = value_operands(scope.slots, b.get(), at);
                pair_compared(*op, true, pair_of(scope, how, a.get(), b.get()))
            } else {
                value_compared(scope, e)
            }
        }
        _ => value_compared(scope, e),
    }
}

/// Whether an expression is `!`, `&&` or `||`, of whose operands each is a condition.
pub fn is_joined(e: &CoreExpr) -> bool
    ensures { result ≡ spec.is_joined e.now }
{
    match e {
        CoreExpr::Unary(_, _, op, _) => match op {
            UnaryOperator::Not => true,
            UnaryOperator::Plus => false,
            UnaryOperator::Minus => false,
            UnaryOperator::Complement => false,
        },
        CoreExpr::And(_, _, _, _) => true,
        CoreExpr::Or(_, _, _, _) => true,
        _ => false,
    }
}
