// The code of an automatic object's initialiser (ANSI 3.5.7).
ghost use Rattle.std.specs.Prelude.{◌≡◌, ◌+◌, [], ◌∷◌, ◌++◌, OnOk};
ghost use Rattle.sc_gen_body.specs.Frames.{frame_of};
ghost use Rattle.sc_gen_body.specs.Initializers as spec;

use crate::frame::FunctionFrame;
use sc_base::{Items, NoMemory};
use sc_core::{AutoInit, CoreExpr};
use sc_gen_code::{
    A0, A1, Access, Symbolic, T1, T2, X0, addi, copied, framed, li, machine_type, near, put,
    put_one, store_of,
};
use sc_gen_expr::expression;
use sc_isa::{BranchOp, Instr, StoreOp};
use sc_types::CType;
use std::alloc::Global;

fn place_behind(at: u32, n: u32) -> u32
    ensures { result ≡ spec.place_behind at n }
{
    at.wrapping_add(n)
}

fn text_bytes(code: &mut Items<Symbolic>, at: u32, bytes: &[u8]) -> Result<(), NoMemory>
    ensures { OnOk result (code.new ≡ code.old ++ spec.text_bytes at bytes.now) }
{
    let mut place = at;
    for byte in bytes {
        li(code, A0, u32::from(*byte))?;
        near(code, place, Access::Store(StoreOp::Sb, A0))?;
        place = place_behind(place, 1);
    }
    Ok(())
}

fn zero_bytes(code: &mut Items<Symbolic>, at: u32, count: u32) -> Result<(), NoMemory>
    ensures { OnOk result (code.new ≡ code.old ++ spec.zero_bytes at count) }
{
    if count == 0 {
        return Ok(());
    }
    near(code, at, Access::Address(T1))?;
    near(code, place_behind(at, count), Access::Address(T2))?;
    put(
        code,
        &[
            Instr::Store(StoreOp::Sb, X0, T1, 0),
            addi(T1, T1, 1),
            Instr::Branch(BranchOp::Bne, T1, T2, -8),
        ],
    )
}

fn value_piece(
    alloc: Global,
    frame: &FunctionFrame,
    at: u32,
    of: &CType,
    e: &CoreExpr,
    code: &mut Items<Symbolic>,
) -> Result<(), NoMemory>
    ensures { OnOk result (code.new ≡ code.old ++ spec.value_piece (frame_of frame.now) at of.now e.now) }
{
    expression(alloc, &frame.scope, e, frame.temporaries, code)?;
    framed(
        code,
        frame.scope.style,
        Access::Store(store_of(machine_type(of)), A0),
        at,
    )
}

fn structure_piece(
    alloc: Global,
    frame: &FunctionFrame,
    at: u32,
    size: u32,
    e: &CoreExpr,
    code: &mut Items<Symbolic>,
) -> Result<(), NoMemory>
    ensures { OnOk result (code.new ≡ code.old ++ spec.structure_piece (frame_of frame.now) at size e.now) }
{
    expression(alloc, &frame.scope, e, frame.temporaries, code)?;
    put_one(code, addi(A1, A0, 0))?;
    near(code, at, Access::Address(A0))?;
    copied(code, size)
}

fn piece(
    alloc: Global,
    frame: &FunctionFrame,
    at: u32,
    p: &AutoInit,
    code: &mut Items<Symbolic>,
) -> Result<(), NoMemory>
    ensures { OnOk result (code.new ≡ code.old ++ spec.piece_code (frame_of frame.now) at p.now) }
{
    match p {
        AutoInit::Value(n, of, e) => {
            value_piece(alloc, frame, place_behind(at, *n), of, e.get(), code)
        }
        AutoInit::Text(n, bytes) => text_bytes(code, place_behind(at, *n), bytes.as_slice()),
        AutoInit::Zero(n, count) => zero_bytes(code, place_behind(at, *n), *count),
        AutoInit::Structure(size, e) => { structure_piece(alloc, frame, at, *size, e.get(), code) }
    }
}

/// The pieces of the initialiser of an object that stands at an offset, in order.
pub fn pieces(
    alloc: Global,
    frame: &FunctionFrame,
    at: u32,
    all: &[AutoInit],
    code: &mut Items<Symbolic>,
) -> Result<(), NoMemory>
    ensures { OnOk result (code.new ≡ code.old ++ spec.pieces_code (frame_of frame.now) at all.now) }
{
    for p in all {
        piece(alloc, frame, at, p, code)?;
    }
    Ok(())
}
