// The code of an expression leaves the word of its value, or of its place, in `a0` (ANSI 3.3).
ghost use Rattle.std.specs.Prelude.{◌≡◌, ◌≤◌, ◌++◌, [], ◌∷◌, length, map, OnOk, IfOk, pos, neg_ℤ};
ghost use Rattle.sc_gen_code.specs.Calls.{direct};
ghost use Rattle.sc_gen_code.specs.Code as words;
ghost use Rattle.sc_gen_code.specs.declared.symbolic.Symbolic.TheVariants.{Plain};
ghost use Rattle.sc_gen_operand.specs.Plans as plans;
ghost use Rattle.sc_gen_operand.specs.Templates.{branched};
ghost use Rattle.sc_gen_expr.specs.Expressions as spec;

use sc_base::{Duplicate, Items, NoMemory, Op, Shared};
use sc_core::{CoreExpr, UnaryOperator};
use sc_gen_code::{
    A0, A1, Access, Spot, Symbolic, Target, addi, at_target, behind, close, close_behind, convert,
    deeper, direct, further, hole, is_comparison, jump, li, open, pop, push, put_one, reopen,
    skip_if, skip_unless, tagged, unary,
};
use sc_gen_operand::{
    Compared, Operands, Plan, Scope, Want, assign_end, assign_operands, binary_operands,
    compared_end, comparison, compound_end, compound_operands, computed, difference_end,
    end_logical, fetched_as, is_fetched, is_joined, is_passed, late, member_end, moving_end,
    moving_operands, offset_end, offset_operands, operated, reach, read_end, read_wants, standing,
    step_end, step_wants, structure_end, structure_operands, transfer, value_operands,
};
use sc_isa::Instr;
use std::alloc::Global;

fn address(alloc: Global, code: &mut Items<Symbolic>, target: Target) -> Result<(), NoMemory>
    ensures { OnOk result (code.new ≡ code.old ++ words.address target) }
{
    at_target(alloc, code, Access::Address(A0), target)?;
    tagged(code)
}

fn place(
    alloc: Global,
    scope: &Scope,
    e: &CoreExpr,
    code: &mut Items<Symbolic>,
) -> Result<(), NoMemory>
    ensures { OnOk result (code.new ≡ code.old ++ spec.place scope.now.style.now scope.now.slots.now e.now) }
{
    reach(alloc, scope, Access::Address(A0), e, code)?;
    tagged(code)
}

/// The code of an expression of a function whose objects stand in these slots, by where operands wait.
#[cycle(expression)]
pub fn expression(
    alloc: Global,
    scope: &Scope,
    e: &CoreExpr,
    t: Spot,
    code: &mut Items<Symbolic>,
) -> Result<(), NoMemory>
    ensures { OnOk result (code.new ≡ code.old ++ spec.expression_code scope.now.style.now scope.now.slots.now e.now t) }
{
    match e {
        CoreExpr::Number(_, _, n) => li(code, A0, *n),
        CoreExpr::Literal(_, _, n) => address(alloc, code, Target::Literal(*n)),
        CoreExpr::Automatic(_, _, _, _) => place(alloc, scope, e, code),
        CoreExpr::Static(_, _, _) => place(alloc, scope, e, code),
        CoreExpr::Function(_, _, key) => address(alloc, code, Target::Named(key.copy(alloc)?)),
        CoreExpr::Index(_, _, size, a, b) => {
            let how = offset_operands(scope.slots, Want::Word, *size, a.get(), b.get(), t);
            left(alloc, scope, how, a.get(), t, code)?;
            right(alloc, scope, how, b.get(), t, code)?;
            offset_end(
                scope,
                how,
                Want::Word,
                Op::Add,
                *size,
                a.get(),
                b.get(),
                code,
            )
        }
        CoreExpr::Call(_, _, function, args) => {
            callee(alloc, scope, function.get(), t, code)?;
            let n = computed(scope.slots, args.as_slice());
            arguments(alloc, scope, n, args.as_slice(), behind(t), code)?;
            transfer(alloc, scope, function.get(), args.as_slice(), t.low, code)
        }
        CoreExpr::Member(_, _, n, a) => {
            expression(alloc, scope, a.get(), t, code)?;
            further(code, *n)
        }
        CoreExpr::Arrow(_, _, n, a) => {
            expression(alloc, scope, a.get(), t, code)?;
            further(code, *n)
        }
        CoreExpr::Step(_, _, step, n, a) => {
            wanted(
                alloc,
                scope,
                step_wants(scope.slots, a.get()),
                a.get(),
                t,
                code,
            )?;
            step_end(alloc, scope, *step, *n, a.get(), code)
        }
        CoreExpr::Address(_, _, a) => expression(alloc, scope, a.get(), t, code),
        CoreExpr::Indirection(_, _, a) => expression(alloc, scope, a.get(), t, code),
        CoreExpr::Unary(_, _, op, a) => {
            expression(alloc, scope, a.get(), t, code)?;
            unary(code, *op)
        }
        CoreExpr::Cast(_, of, a) => {
            expression(alloc, scope, a.get(), t, code)?;
            convert(code, of, A0)
        }
        CoreExpr::Binary(_, _, op, a, b) => {
            let how = binary_operands(scope, *op, a.get(), b.get(), t);
            left(alloc, scope, how, a.get(), t, code)?;
            right(alloc, scope, how, b.get(), t, code)?;
            operated(scope, how, *op, a.get(), b.get(), code)
        }
        CoreExpr::Offset(_, _, op, size, a, b) => {
            let how = offset_operands(scope.slots, Want::Word, *size, a.get(), b.get(), t);
            left(alloc, scope, how, a.get(), t, code)?;
            right(alloc, scope, how, b.get(), t, code)?;
            offset_end(scope, how, Want::Word, *op, *size, a.get(), b.get(), code)
        }
        CoreExpr::Difference(_, _, size, a, b) => {
            let how = value_operands(scope.slots, b.get(), t);
            left(alloc, scope, how, a.get(), t, code)?;
            right(alloc, scope, how, b.get(), t, code)?;
            difference_end(scope, how, *size, a.get(), b.get(), code)
        }
        CoreExpr::Compare(_, _, op, a, b) => {
            let how = value_operands(scope.slots, b.get(), t);
            left(alloc, scope, how, a.get(), t, code)?;
            right(alloc, scope, how, b.get(), t, code)?;
            compared_end(scope, how, *op, a.get(), b.get(), code)
        }
        CoreExpr::And(_, _, a, b) => {
            expression(alloc, scope, a.get(), t, code)?;
            let jump = open(code, skip_if())?;
            expression(alloc, scope, b.get(), t, code)?;
            end_logical(code, jump)
        }
        CoreExpr::Or(_, _, a, b) => {
            expression(alloc, scope, a.get(), t, code)?;
            let jump = open(code, skip_unless())?;
            expression(alloc, scope, b.get(), t, code)?;
            end_logical(code, jump)
        }
        CoreExpr::Conditional(_, _, a, b, d) => {
            test(alloc, scope, true, a.get(), t, code)?;
            let other = hole(code)?;
            expression(alloc, scope, b.get(), t, code)?;
            let end = reopen(code, other)?;
            expression(alloc, scope, d.get(), t, code)?;
            close(code, end);
            Ok(())
        }
        CoreExpr::Assign(_, _, a, b) => {
            let how = assign_operands(scope.slots, a.get(), b.get(), t);
            left(alloc, scope, how, a.get(), t, code)?;
            right(alloc, scope, how, b.get(), t, code)?;
            assign_end(alloc, scope, how, a.get(), b.get(), code)
        }
        CoreExpr::AssignStructure(_, _, size, a, b) => {
            let how = structure_operands(b.get(), t);
            left(alloc, scope, how, a.get(), t, code)?;
            right(alloc, scope, how, b.get(), t, code)?;
            structure_end(scope, how, *size, a.get(), b.get(), code)
        }
        CoreExpr::Compound(_, _, op, k, a, b) => {
            let how = compound_operands(scope.slots, *op, *k, a.get(), b.get(), t);
            left(alloc, scope, how, a.get(), t, code)?;
            right(alloc, scope, how, b.get(), t, code)?;
            compound_end(alloc, scope, how, *op, *k, a.get(), b.get(), code)
        }
        CoreExpr::CompoundOffset(_, _, op, size, a, b) => {
            let how = moving_operands(scope.slots, *size, a.get(), b.get(), t);
            left(alloc, scope, how, a.get(), t, code)?;
            right(alloc, scope, how, b.get(), t, code)?;
            moving_end(alloc, scope, how, *op, *size, a.get(), b.get(), code)
        }
        CoreExpr::Comma(_, _, a, b) => {
            expression(alloc, scope, a.get(), t, code)?;
            expression(alloc, scope, b.get(), t, code)
        }
        CoreExpr::Convert(_, to, a) => {
            wanted(
                alloc,
                scope,
                read_wants(scope.slots, a.get()),
                a.get(),
                t,
                code,
            )?;
            read_end(alloc, scope, a.get(), to, code)
        }
    }
}

/// The address of a place, or a pointer's, less the bytes that are kept back, without a tag.
#[cycle(expression)]
fn foot(
    alloc: Global,
    scope: &Scope,
    e: &CoreExpr,
    t: Spot,
    code: &mut Items<Symbolic>,
) -> Result<(), NoMemory>
    ensures { OnOk result (code.new ≡ code.old ++ spec.part_of scope.now.style.now scope.now.slots.now e.now plans.foot e.now t) }
{
    match e {
        CoreExpr::Automatic(_, _, _, _) => reach(alloc, scope, Access::Address(A0), e, code),
        CoreExpr::Static(_, _, _) => reach(alloc, scope, Access::Address(A0), e, code),
        CoreExpr::Literal(_, _, n) => {
            at_target(alloc, code, Access::Address(A0), Target::Literal(*n))
        }
        CoreExpr::Member(_, _, n, a) => {
            foot(alloc, scope, a.get(), t, code)?;
            member_end(code, *n, a.get())
        }
        CoreExpr::Arrow(_, _, n, a) => {
            foot(alloc, scope, a.get(), t, code)?;
            member_end(code, *n, a.get())
        }
        CoreExpr::Address(_, _, a) => foot(alloc, scope, a.get(), t, code),
        CoreExpr::Indirection(_, _, a) => foot(alloc, scope, a.get(), t, code),
        CoreExpr::Index(_, _, size, a, b) => {
            let how = offset_operands(scope.slots, Want::Foot, *size, a.get(), b.get(), t);
            left(alloc, scope, how, a.get(), t, code)?;
            right(alloc, scope, how, b.get(), t, code)?;
            offset_end(
                scope,
                how,
                Want::Foot,
                Op::Add,
                *size,
                a.get(),
                b.get(),
                code,
            )
        }
        CoreExpr::Convert(_, to, a) => {
            if is_passed(a.get(), to) {
                foot(alloc, scope, a.get(), t, code)
            } else {
                expression(alloc, scope, e, t, code)
            }
        }
        _ => expression(alloc, scope, e, t, code),
    }
}

/// What is wanted of an expression.
#[cycle(expression)]
fn part(
    alloc: Global,
    scope: &Scope,
    want: Want,
    e: &CoreExpr,
    t: Spot,
    code: &mut Items<Symbolic>,
) -> Result<(), NoMemory>
    ensures { OnOk result (code.new ≡ code.old ++ spec.part_of scope.now.style.now scope.now.slots.now e.now (plans.As want) e.now t) }
{
    match want {
        Want::Word => expression(alloc, scope, e, t, code),
        Want::Foot => foot(alloc, scope, e, t, code),
    }
}

/// What is wanted of an expression, or nothing.
#[cycle(expression)]
fn wanted(
    alloc: Global,
    scope: &Scope,
    want: Option<Want>,
    e: &CoreExpr,
    t: Spot,
    code: &mut Items<Symbolic>,
) -> Result<(), NoMemory>
    ensures { OnOk result (code.new ≡ code.old ++ spec.wanted (spec.part_of scope.now.style.now scope.now.slots.now e.now) want e.now t) }
{
    match want {
        Some(want) => part(alloc, scope, want, e, t, code),
        None => Ok(()),
    }
}

/// A first operand: in the register where it stands, or computed in `a0`.
#[cycle(expression)]
fn first(
    alloc: Global,
    scope: &Scope,
    want: Want,
    e: &CoreExpr,
    t: Spot,
    code: &mut Items<Symbolic>,
) -> Result<(), NoMemory>
    ensures { OnOk result (code.new ≡ code.old ++ plans.first scope.now.style.now scope.now.slots.now want (spec.part_of scope.now.style.now scope.now.slots.now e.now) e.now t) }
{
    match standing(scope, want, e) {
        Some(_) => Ok(()),
        None => part(alloc, scope, want, e, t, code),
    }
}

/// A register gets what is wanted of an expression.
#[cycle(expression)]
fn into(
    alloc: Global,
    scope: &Scope,
    want: Want,
    r: u8,
    e: &CoreExpr,
    t: Spot,
    code: &mut Items<Symbolic>,
) -> Result<(), NoMemory>
    ensures { OnOk result (code.new ≡ code.old ++ plans.into scope.now.style.now scope.now.slots.now want r (spec.part_of scope.now.style.now scope.now.slots.now e.now) e.now t) }
{
    if is_fetched(scope.slots, want, e) {
        fetched_as(alloc, scope, want, r, e, code)
    } else {
        part(alloc, scope, want, e, t, code)?;
        put_one(code, addi(r, A0, 0))
    }
}

/// The left one of two operands.
#[cycle(expression)]
fn left(
    alloc: Global,
    scope: &Scope,
    how: Operands,
    a: &CoreExpr,
    t: Spot,
    code: &mut Items<Symbolic>,
) -> Result<(), NoMemory>
    ensures { OnOk result (code.new ≡ code.old ++ plans.left_code scope.now.style.now scope.now.slots.now how (spec.part_of scope.now.style.now scope.now.slots.now a.now) a.now t) }
{
    match how.plan {
        Plan::Neither => Ok(()),
        Plan::Left => first(alloc, scope, how.left, a, t, code),
        Plan::Right => Ok(()),
        Plan::Late => first(alloc, scope, how.left, a, t, code),
        Plan::Register(r) => into(alloc, scope, how.left, r, a, t, code),
        Plan::Memory => {
            part(alloc, scope, how.left, a, t, code)?;
            push(code, t.low)
        }
    }
}

/// The right one, behind the left one.
#[cycle(expression)]
fn right(
    alloc: Global,
    scope: &Scope,
    how: Operands,
    b: &CoreExpr,
    t: Spot,
    code: &mut Items<Symbolic>,
) -> Result<(), NoMemory>
    ensures { OnOk result (code.new ≡ code.old ++ plans.right_code scope.now.style.now scope.now.slots.now how (spec.part_of scope.now.style.now scope.now.slots.now b.now) b.now t) }
{
    match how.plan {
        Plan::Neither => Ok(()),
        Plan::Left => Ok(()),
        Plan::Right => part(alloc, scope, how.right, b, t, code),
        Plan::Late => late(alloc, scope, b, code),
        Plan::Register(_) => part(alloc, scope, how.right, b, deeper(t), code),
        Plan::Memory => {
            part(alloc, scope, how.right, b, behind(t), code)?;
            pop(code, A1, t.low)
        }
    }
}

/// The function that a call goes to waits in the first temporary, unless it is called by its name.
#[cycle(expression)]
fn callee(
    alloc: Global,
    scope: &Scope,
    function: &CoreExpr,
    t: Spot,
    code: &mut Items<Symbolic>,
) -> Result<(), NoMemory>
    ensures { OnOk result (code.new ≡ code.old ++ spec.callee (spec.part_of scope.now.style.now scope.now.slots.now function.now) function.now t (direct function.now)) }
{
    match direct(function) {
        Some(_) => Ok(()),
        None => {
            expression(alloc, scope, function, t, code)?;
            push(code, t.low)
        }
    }
}

/// What stands in front of an argument: the one before it, which is in `a0`, waits in a temporary. Where the argument's own
/// temporaries begin.
fn put_away(code: &mut Items<Symbolic>, i: usize, t: Spot) -> Result<Spot, NoMemory>
    ensures away { OnOk result (code.new ≡ code.old ++ spec.put_away i t) }
    ensures place { IfOk result (λ own. own ≡ spec.argument_spot i t) }
{
    if 0 < i {
        push(code, t.low)?;
        Ok(behind(t))
    } else {
        Ok(t)
    }
}

/// The argument with a number, where it is one of the first `n`; and where the temporaries of the next one would begin.
#[cycle(expression)]
fn argument(
    alloc: Global,
    scope: &Scope,
    i: usize,
    n: usize,
    e: &CoreExpr,
    t: Spot,
    code: &mut Items<Symbolic>,
) -> Result<Spot, NoMemory>
    ensures code { OnOk result (code.new ≡ code.old ++ spec.argument (spec.part_of scope.now.style.now scope.now.slots.now e.now) i n e.now t) }
    ensures place { IfOk result (λ own. own ≡ spec.spot_behind i n t) }
{
    if i < n {
        let own = put_away(code, i, t)?;
        expression(alloc, scope, e, own, code)?;
        Ok(own)
    } else {
        Ok(t)
    }
}

/// The first arguments: each but the last waits in a temporary of its own.
#[cycle(expression)]
fn arguments(
    alloc: Global,
    scope: &Scope,
    n: usize,
    args: &[Shared<CoreExpr>],
    t: Spot,
    code: &mut Items<Symbolic>,
) -> Result<(), NoMemory>
    ensures { OnOk result (code.new ≡ code.old ++ spec.arguments n (map (spec.part_of scope.now.style.now scope.now.slots.now) args.now) args.now t) }
{
    let mut own = t;
    for (i, arg) in args.iter().enumerate() {
        let next = argument(alloc, scope, i, n, arg.get(), own, code)?;
        own = next;
    }
    Ok(())
}

/// A condition: the next word is left out where its truth is the one that is said.
#[cycle(expression)]
pub fn test(
    alloc: Global,
    scope: &Scope,
    sense: bool,
    e: &CoreExpr,
    t: Spot,
    code: &mut Items<Symbolic>,
) -> Result<(), NoMemory>
    ensures { OnOk result (code.new ≡ code.old ++ spec.test_code scope.now.style.now scope.now.slots.now sense e.now t) }
{
    match e {
        CoreExpr::Unary(_, _, op, a) => match op {
            UnaryOperator::Not => test(alloc, scope, !sense, a.get(), t, code),
            UnaryOperator::Plus => told(alloc, scope, sense, e, t, code),
            UnaryOperator::Minus => told(alloc, scope, sense, e, t, code),
            UnaryOperator::Complement => told(alloc, scope, sense, e, t, code),
        },
        CoreExpr::And(_, _, a, b) => {
            test(alloc, scope, true, a.get(), t, code)?;
            let place = hole(code)?;
            test(alloc, scope, sense, b.get(), t, code)?;
            close_behind(code, place, !sense);
            Ok(())
        }
        CoreExpr::Or(_, _, a, b) => {
            test(alloc, scope, false, a.get(), t, code)?;
            let place = hole(code)?;
            test(alloc, scope, sense, b.get(), t, code)?;
            close_behind(code, place, sense);
            Ok(())
        }
        _ => told(alloc, scope, sense, e, t, code),
    }
}

/// A condition that ends with one branch.
#[cycle(expression)]
fn told(
    alloc: Global,
    scope: &Scope,
    sense: bool,
    e: &CoreExpr,
    t: Spot,
    code: &mut Items<Symbolic>,
) -> Result<(), NoMemory>
    ensures { OnOk result (code.new ≡ code.old ++ spec.told scope.now.style.now scope.now.slots.now e.now t sense) }
{
    condition(alloc, scope, e, t, code)?;
    put_one(code, comparison(scope, e, t).branch(sense, 8))
}

/// The operands of what a condition compares.
#[cycle(expression)]
fn condition(
    alloc: Global,
    scope: &Scope,
    e: &CoreExpr,
    t: Spot,
    code: &mut Items<Symbolic>,
) -> Result<(), NoMemory>
    ensures { OnOk result (code.new ≡ code.old ++ spec.condition_of scope.now.style.now scope.now.slots.now e.now t) }
{
    match e {
        CoreExpr::Binary(_, _, op, a, b) => {
            if is_comparison(*op) {
                let how = value_operands(scope.slots, b.get(), t);
                left(alloc, scope, how, a.get(), t, code)?;
                right(alloc, scope, how, b.get(), t, code)
            } else {
                first(alloc, scope, Want::Word, e, t, code)
            }
        }
        CoreExpr::Compare(_, _, op, a, b) => {
            if is_comparison(*op) {
                let how = value_operands(scope.slots, b.get(), t);
                left(alloc, scope, how, a.get(), t, code)?;
                right(alloc, scope, how, b.get(), t, code)
            } else {
                first(alloc, scope, Want::Word, e, t, code)
            }
        }
        _ => first(alloc, scope, Want::Word, e, t, code),
    }
}

/// A condition at the end of a loop: back to a place of the text where its truth is the one that is said.
pub fn test_back(
    alloc: Global,
    scope: &Scope,
    sense: bool,
    e: &CoreExpr,
    t: Spot,
    top: usize,
    code: &mut Items<Symbolic>,
) -> Result<(), NoMemory>
    ensures { OnOk result (code.new ≡ code.old ++ spec.test_back scope.now.style.now scope.now.slots.now sense e.now t top (length code.old)) }
{
    if is_joined(e) {
        test(alloc, scope, !sense, e, t, code)?;
        jump_back(code, top)
    } else {
        condition(alloc, scope, e, t, code)?;
        branch_back(code, comparison(scope, e, t), sense, top)
    }
}

/// A branch of so many bytes back.
fn branch_up(c: Compared, sense: bool, n: u32) -> Instr
    requires { n ≤ 4096 }
    ensures { Plain result ≡ branched c sense (neg_ℤ (pos n)) }
{
    c.branch(sense, -(n as i32))
}

fn branch_back(
    code: &mut Items<Symbolic>,
    c: Compared,
    sense: bool,
    top: usize,
) -> Result<(), NoMemory>
    ensures { OnOk result (code.new ≡ code.old ++ spec.branch_back c sense top (length code.old)) }
{
    let here = code.len();
    if top <= here && here - top <= 1024 {
        put_one(code, branch_up(c, sense, 4 * (here - top) as u32))
    } else {
        put_one(code, c.branch(!sense, 8))?;
        jump_back(code, top)
    }
}

fn jump_back(code: &mut Items<Symbolic>, top: usize) -> Result<(), NoMemory>
    ensures { OnOk result (code.new ≡ code.old ++ words.jump (length code.old) top ∷ []) }
{
    let here = code.len();
    put_one(code, jump(here, top))
}
