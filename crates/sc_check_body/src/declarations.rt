// The declarations of a block (ANSI 3.6.2).
ghost use Rattle.std.specs.Prelude.{◌≡◌, length, IfOk};
ghost use Rattle.sc_check_body.specs.Faults.{GivesWith};
ghost use Rattle.sc_check_body.specs.Progress.{open_block};
ghost use Rattle.sc_check_body.specs.Blocks as spec;

use crate::fault::UnitFault;
use crate::local::declare_local;
use crate::progress::{Body, OpenBlock, Translation};
use sc_base::{Items, NoMemory, Shared};
use sc_core::CoreStmt;
use sc_tree::Declaration;
use std::alloc::Global;

/// The block that begins here, whose number is how many there are.
fn next_block(alloc: Global, f: &Body) -> Result<OpenBlock, NoMemory>
    ensures { IfOk result (λ inner. inner ≡ open_block (length f.now.blocks)) }
{
    match u32::try_from(f.blocks.len()) {
        Ok(number) => Ok(OpenBlock::new(alloc, number)),
        Err(_) => Err(NoMemory),
    }
}

fn declare_all(
    alloc: Global,
    m: &mut Translation,
    f: &mut Body,
    inner: &mut OpenBlock,
    declarations: &[Declaration],
) -> Result<(), UnitFault>
    ensures { GivesWith (spec.declare_all declarations.now (m.old, (f.old, inner.old))) result (m.new, (f.new, inner.new)) }
{
    for d in declarations {
        declare_local(alloc, m, f, inner, d)?;
    }
    Ok(())
}

/// The block's objects are known.
fn close(f: &mut Body, inner: OpenBlock) -> Result<(u32, Items<Shared<CoreStmt>>), NoMemory>
    ensures { IfOk result (λ r. (r, f.new) ≡ spec.closed_block inner f.old) }
{
    let OpenBlock {
        number,
        locals,
        initialized,
    } = inner;
    f.blocks.push(locals)?;
    Ok((number, initialized))
}

/// The declarations of a block, whose scope is there; the answer is the block's number and its initialised automatic objects.
pub(crate) fn declared(
    alloc: Global,
    m: &mut Translation,
    f: &mut Body,
    declarations: &[Declaration],
) -> Result<(u32, Items<Shared<CoreStmt>>), UnitFault>
    ensures { GivesWith (spec.declared declarations.now (m.old, f.old)) result (m.new, f.new) }
{
    let mut inner = next_block(alloc, f)?;
    declare_all(alloc, m, f, &mut inner, declarations)?;
    Ok(close(f, inner)?)
}
