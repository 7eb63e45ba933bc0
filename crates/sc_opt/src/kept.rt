// Which objects of a function have copies in registers.
ghost use Rattle.std.specs.Prelude.{◌≡◌, ◌+◌, ◌≤◌, length, IfOk, OnOk};
ghost use Rattle.sc_opt.specs.Kept as spec;

use crate::uses::{Candidate, Use, use_of_statement};
use sc_base::{Items, NoMemory};
use sc_core::{Auto, CoreStmt, Fun};
use sc_gen_code::{Kept, Style, is_scalar, machine_type};
use std::alloc::Global;

/// The register of the first copy, `t3`.
const FIRST: u8 = 28;

/// The greatest offset above `sp` of an object with a copy.
const FARTHEST: u32 = 2044;

fn entry_cost(block: u32) -> u32
    ensures { result ≡ spec.entry_cost block }
{
    if block == 0 { 1 } else { 0 }
}

fn is_paid(block: u32, a: Use) -> bool
    ensures { result ≡ spec.is_paid block a }
{
    !a.addressed && a.cost.saturating_add(entry_cost(block)) < a.saved
}

fn is_kept(body: &CoreStmt, block: u32, place: u32, x: &Auto) -> bool
    ensures { result ≡ spec.is_kept body.now block place x.now }
{
    is_scalar(&x.of)
        && x.slot.offset <= FARTHEST
        && is_paid(block, use_of_statement(Candidate { block, place }, body))
}

fn copy_of(n: u8, x: &Auto) -> Kept
    requires { n ≤ 3 }
    ensures { result ≡ spec.copy_of n x.now }
{
    Kept {
        offset: x.slot.offset,
        register: FIRST + n,
        of: machine_type(&x.of),
    }
}

fn put_object(
    body: &CoreStmt,
    at: Candidate,
    x: &Auto,
    kept: &mut Items<Kept>,
) -> Result<(), NoMemory>
    ensures { OnOk result (kept.new ≡ spec.with_object body.now at x.now kept.old) }
{
    let n = kept.len();
    if n < 4 && is_kept(body, at.block, at.place, x) {
        return kept.push(copy_of(n as u8, x));
    }
    Ok(())
}

fn put_block(
    body: &CoreStmt,
    block: u32,
    autos: &[Auto],
    kept: &mut Items<Kept>,
) -> Result<(), NoMemory>
    ensures { OnOk result (kept.new ≡ spec.with_block body.now block 0 autos.now kept.old) }
{
    let mut place: u32 = 0;
    for x in autos {
        put_object(body, Candidate { block, place }, x, kept)?;
        place = place.saturating_add(1);
    }
    Ok(())
}

fn put_blocks(
    body: &CoreStmt,
    blocks: &[Items<Auto>],
    kept: &mut Items<Kept>,
) -> Result<(), NoMemory>
    ensures { OnOk result (kept.new ≡ spec.with_blocks body.now 0 blocks.now kept.old) }
{
    let mut block: u32 = 0;
    for autos in blocks {
        put_block(body, block, autos.as_slice(), kept)?;
        block = block.saturating_add(1);
    }
    Ok(())
}

/// The copies that a function keeps: of the first four objects, in the order of their slots, that are scalars within reach of
/// `sp`, that are never the operand of `&`, and of which a copy saves more words than it costs, in `t3` to `t6`.
///
/// # Errors
///
/// `NoMemory` alone.
pub fn fast_style(alloc: Global, f: &Fun) -> Result<Style, NoMemory>
    ensures { IfOk result (λ style. style ≡ spec.fast_style f.now) }
{
    let mut kept = Items::new(alloc);
    put_blocks(f.body.get(), f.blocks.as_slice(), &mut kept)?;
    Ok(Style {
        kept,
        enters_all: false,
    })
}
