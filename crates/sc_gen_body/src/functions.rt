// The text of a function.
ghost use Rattle.std.specs.Prelude.{◌≡◌, [], ◌∷◌, ◌++◌, OnOk, IfOk};
ghost use Rattle.sc_gen_body.specs.Functions as spec;

use crate::frame::FunctionFrame;
use crate::jumps::{Exits, Place, Text};
use crate::statements::{epilogue, statement};
use sc_base::{Items, NoMemory};
use sc_core::{Auto, Fun};
use sc_core_needs::most_arguments;
use sc_gen_code::{
    A0, Access, Kept, RA, SP, Style, Symbolic, T0, T1, X0, addi, first_spot, li, load_of, near,
    put, put_one, service,
};
use sc_gen_operand::Scope;
use sc_isa::{Instr, RegOp, StoreOp};
use std::alloc::Global;

fn outgoing_bytes(arguments: u32) -> u32
    ensures { result ≡ spec.outgoing_bytes arguments }
{
    4 * arguments.min(31).saturating_sub(8)
}

fn frame_taken(code: &mut Items<Symbolic>, cost: u32) -> Result<(), NoMemory>
    ensures { OnOk result (code.new ≡ code.old ++ spec.frame_taken cost) }
{
    if cost <= 2048 {
        return put_one(code, addi(SP, SP, -(cost as i32)));
    }
    li(code, T0, cost)?;
    put_one(code, Instr::Reg(RegOp::Sub, SP, SP, T0))
}

fn prologue(code: &mut Items<Symbolic>, cost: u32) -> Result<(), NoMemory>
    ensures { OnOk result (code.new ≡ code.old ++ spec.prologue cost) }
{
    put(code, &[addi(T0, X0, 2), addi(T1, X0, 0), Instr::Ecall])?;
    frame_taken(code, cost)?;
    near(code, cost.saturating_sub(4), Access::Store(StoreOp::Sw, RA))
}

fn parameter_at(parameters: &[Auto], offset: u32) -> Option<usize>
    ensures { result ≡ spec.parameter_at offset 0 parameters.now }
{
    for (i, x) in parameters.iter().enumerate() {
        if x.slot.offset == offset {
            return Some(i);
        }
    }
    None
}

fn parameter_kept(
    code: &mut Items<Symbolic>,
    cost: u32,
    k: Kept,
    place: Option<usize>,
) -> Result<(), NoMemory>
    ensures { OnOk result (code.new ≡ code.old ++ spec.parameter_kept cost k place) }
{
    let i = match place {
        Some(i) => i,
        None => return Ok(()),
    };
    if i < 8 {
        return put_one(code, addi(k.register, A0 + i as u8, 0));
    }
    if i < 31 {
        let above = cost.wrapping_add(4 * (i as u32 - 8));
        return near(code, above, Access::Load(load_of(k.of), k.register));
    }
    Ok(())
}

// The copies of parameters are taken from their registers, and past the eighth from where the caller put them.
fn parameters_taken(
    code: &mut Items<Symbolic>,
    cost: u32,
    parameters: &[Auto],
    kept: &[Kept],
) -> Result<(), NoMemory>
    ensures { OnOk result (code.new ≡ code.old ++ spec.parameters_taken cost parameters.now kept.now) }
{
    for k in kept {
        parameter_kept(code, cost, *k, parameter_at(parameters, k.offset))?;
    }
    Ok(())
}

fn first_block(blocks: &[Items<Auto>]) -> &[Auto]
    ensures { result.now ≡ spec.first_block blocks.now }
{
    match blocks.get(0) {
        Some(autos) => autos.as_slice(),
        None => &[],
    }
}

fn before_body(code: &mut Items<Symbolic>, style: &Style, f: &Fun) -> Result<(), NoMemory>
    ensures { OnOk result (code.new ≡ code.old ++ spec.before_body style.now f.now) }
{
    prologue(code, f.cost)?;
    let parameters = first_block(f.blocks.as_slice());
    parameters_taken(code, f.cost, parameters, style.kept.as_slice())
}

/// The text of a function, from its first word on.
pub fn function(alloc: Global, style: &Style, f: &Fun) -> Result<Items<Symbolic>, NoMemory>
    ensures { IfOk result (λ code. code ≡ spec.function_code style.now f.now) }
{
    let mut text = Text {
        code: Items::new(alloc),
        blocks: Items::new(alloc),
        labels: Items::new(alloc),
    };
    before_body(&mut text.code, style, f)?;
    let nowhere = Place { word: 0, depth: 0 };
    let exits = Exits {
        on_break: nowhere,
        on_continue: nowhere,
    };
    let body = f.body.get();
    let frame = FunctionFrame {
        scope: Scope {
            style,
            slots: f.blocks.as_slice(),
        },
        temporaries: first_spot(outgoing_bytes(most_arguments(body))),
        cost: f.cost,
    };
    statement(alloc, &frame, body, exits, &mut text)?;
    service(&mut text.code, 6)?;
    epilogue(&mut text.code, f.cost)?;
    let Text {
        code,
        blocks: _,
        labels: _,
    } = text;
    Ok(code)
}
