// The code of a call, behind that of its arguments (RISC-V calling convention).
ghost use Rattle.std.specs.Prelude.{◌≡◌, ◌+◌, ◌-◌, ◌*◌, ◌≤◌, ◌<◌, [], ◌∷◌, ◌++◌, min, length, OnOk, None, Some, MatchOption, pos};
ghost use Rattle.sc_gen_code.specs.Calls as spec;
ghost use Rattle.sc_gen_code.specs.Code as words;
ghost use Rattle.sc_gen_code.specs.declared.symbolic.Symbolic.TheVariants.{Plain};

use crate::code::{A0, RA, SP, T0, T1, T2, addi, li, put, put_one};
use crate::symbolic::{Symbolic, Target};
use sc_base::{Duplicate, Items, Key, NoMemory};
use sc_core::CoreExpr;
use sc_isa::{Instr, LoadOp, RegOp, StoreOp};
use std::alloc::Global;

/// Where the first temporary of a call stands: a register and what is added to it.
#[derive(Clone, Copy)]
pub struct Base {
    pub register: u8,
    pub low: u32,
}

/// The function that is called by its name.
pub fn direct(function: &CoreExpr) -> Option<&Key>
    ensures { MatchOption result (spec.direct function.now ≡ None) (λ key. spec.direct function.now ≡ Some key.now) }
{
    match function {
        CoreExpr::Convert(_, _, operand) => match operand.get() {
            CoreExpr::Function(_, _, key) => Some(key),
            _ => None,
        },
        _ => None,
    }
}

/// At most 31, which is the most arguments of a call.
pub fn count_of(arguments: usize) -> u32
    ensures { result ≡ min arguments 31 }
{
    if arguments < 31 { arguments as u32 } else { 31 }
}

fn is_near(n: u32, t: u32) -> bool
    requires { n ≤ 31 }
    ensures { result ≡ spec.is_near n t }
{
    t < 2048 && t + 4 * n < 2048
}

/// Where the temporaries of a call of `n` arguments stand: near `sp`, or behind `t0`.
pub fn base_of(n: u32, t: u32) -> Base
    requires { n ≤ 31 }
    ensures value { result ≡ spec.base_of n t }
    ensures near { result.low + 4 * n < 2048 }
{
    if is_near(n, t) {
        Base {
            register: SP,
            low: t,
        }
    } else {
        Base {
            register: T0,
            low: 0,
        }
    }
}

fn based(code: &mut Items<Symbolic>, n: u32, t: u32) -> Result<(), NoMemory>
    requires { n ≤ 31 }
    ensures { OnOk result (code.new ≡ code.old ++ spec.based n t) }
{
    if is_near(n, t) {
        return Ok(());
    }
    li(code, T0, t)?;
    put_one(code, Instr::Reg(RegOp::Add, T0, T0, SP))
}

fn load_argument(rd: u8, base: Base, i: u32) -> Instr
    requires { base.low + 4 * i + 4 < 2048 }
    ensures { Plain result ≡ words.lw rd base.register (spec.waiting base i) }
{
    Instr::Load(LoadOp::Lw, rd, base.register, (base.low + 4 * i + 4) as i32)
}

fn store_argument(rs: u8, i: u32) -> Instr
    requires first { 8 ≤ i }
    requires few { i < 31 }
    ensures { Plain result ≡ words.sw rs words.sp (pos (4 * (i - 8))) }
{
    Instr::Store(StoreOp::Sw, rs, SP, (4 * (i - 8)) as i32)
}

fn outgoing(code: &mut Items<Symbolic>, base: Base, n: u32) -> Result<(), NoMemory>
    requires few { n ≤ 31 }
    requires near { base.low + 4 * n < 2048 }
    ensures { OnOk result (code.new ≡ code.old ++ spec.outgoing base 8 (n - 9)) }
{
    let last = n.saturating_sub(1);
    for i in 8..last {
        put(code, &[load_argument(T2, base, i), store_argument(T2, i)])?;
    }
    Ok(())
}

fn incoming(code: &mut Items<Symbolic>, base: Base, n: u32) -> Result<(), NoMemory>
    requires few { n ≤ 31 }
    requires near { base.low + 4 * n < 2048 }
    ensures { OnOk result (code.new ≡ code.old ++ spec.incoming base 0 (min (n - 1) 8)) }
{
    let count = n.saturating_sub(1).min(8);
    for i in 0..count {
        put_one(code, load_argument(A0 + i as u8, base, i))?;
    }
    Ok(())
}

/// The last of `n` arguments is in `a0`: it goes above `sp` where it is past the eighth, or into its register.
fn last_placed(code: &mut Items<Symbolic>, n: u32) -> Result<(), NoMemory>
    requires { n ≤ 31 }
    ensures { OnOk result (code.new ≡ code.old ++ spec.last_placed n) }
{
    if 8 < n {
        return put_one(code, store_argument(A0, n - 1));
    }
    if 1 < n {
        put_one(code, addi(9 + n as u8, A0, 0))
    } else {
        Ok(())
    }
}

/// Each of `n` arguments goes where the callee expects it; the last one is in `a0`, the others wait in temporaries.
pub fn marshalled(code: &mut Items<Symbolic>, n: u32, t: u32) -> Result<(), NoMemory>
    requires { n ≤ 31 }
    ensures { OnOk result (code.new ≡ code.old ++ spec.marshalled n t) }
{
    let base = base_of(n, t);
    last_placed(code, n)?;
    based(code, n, t)?;
    outgoing(code, base, n)?;
    incoming(code, base, n)
}

fn is_printf(key: &Key) -> bool
    ensures { result ≡ spec.is_printf key.now }
{
    key.module.is_none() && key.name.as_slice() == b"printf".as_slice()
}

fn counted(code: &mut Items<Symbolic>, key: &Key, n: u32) -> Result<(), NoMemory>
    ensures { OnOk result (code.new ≡ code.old ++ spec.counted key.now n) }
{
    if is_printf(key) {
        li(code, T2, n)
    } else {
        Ok(())
    }
}

/// A call by name.
pub fn call_direct(
    alloc: Global,
    code: &mut Items<Symbolic>,
    key: &Key,
    n: u32,
) -> Result<(), NoMemory>
    ensures { OnOk result (code.new ≡ code.old ++ spec.call_direct key.now n) }
{
    counted(code, key, n)?;
    code.push(Symbolic::Call(Target::Named(key.copy(alloc)?)))?;
    put_one(code, Instr::Jalr(RA, RA, 0))
}

/// The address that waits in a call's first temporary goes into `t1`.
pub fn awaited(code: &mut Items<Symbolic>, base: Base) -> Result<(), NoMemory>
    requires { base.low < 2048 }
    ensures { OnOk result (code.new ≡ code.old ++ spec.awaited base) }
{
    put_one(
        code,
        Instr::Load(LoadOp::Lw, T1, base.register, base.low as i32),
    )
}

/// A call of the function whose address is in `t1`.
pub fn call_through(code: &mut Items<Symbolic>) -> Result<(), NoMemory>
    ensures { OnOk result (code.new ≡ code.old ++ spec.call_through) }
{
    put_one(code, Instr::Jalr(RA, T1, 0))
}
