// What holds of a function: its parameters, its blocks, where its objects stand in the frame, and what the frame costs.
ghost use Rattle.std.specs.Prelude.{◌≡◌, ◌≤◌, ◌<◌, ◌^◌, IfOk, IfSome, length, slice_get};
ghost use Rattle.sc_core_formed.specs.Frames as spec;

use crate::known::{is_known, signature_known};
use crate::names::Indexed;
use crate::open::{inside, outside};
use crate::statements::{Body, statement};
use sc_base::{Items, NoMemory, Shared};
use sc_check_operand::is_const;
use sc_core::{Auto, CoreStmt, Fun};
use sc_core_labels::{Targets, targets_of};
use sc_core_needs::{
    MAX_ARGUMENTS, Need, alike, is_parameter, is_result, need_of_statement, same_bool,
};
use sc_types::{CType, MAX_FRAME, Signature, Structs, is_object, size_of, slot_bytes};

/// Whether an object has a complete type, its size, and this place in the frame.
fn is_auto(structs: &Structs, at: u64, x: &Auto) -> bool
    ensures { result ≡ spec.is_auto structs.now at x.now }
{
    is_known(structs, &x.of)
        && is_object(&x.of, structs)
        && size_of(&x.of, structs) == x.slot.size
        && same_bool(is_const(&x.of), x.slot.constant)
        && u64::from(x.slot.offset) == at
}

/// The end of a block's objects, which stand one behind another from a place on.
fn block_end(structs: &Structs, from: u64, block: &[Auto]) -> Option<u64>
    requires { from < 2 ^ 40 }
    ensures same { result ≡ spec.block_end structs.now from block.now }
    ensures few { IfSome result (λ n. n < 2 ^ 40) }
{
    let mut at = from;
    for x in block {
        if !is_auto(structs, at, x) {
            return None;
        }
        at = u64::from(x.slot.offset) + slot_bytes(x.slot.size);
    }
    Some(at)
}

fn blocks_end(structs: &Structs, from: u64, blocks: &[Items<Auto>]) -> Option<u64>
    requires { from < 2 ^ 40 }
    ensures same { result ≡ spec.blocks_end structs.now from blocks.now }
    ensures few { IfSome result (λ n. n < 2 ^ 40) }
{
    let mut at = from;
    for block in blocks {
        match block_end(structs, at, block.as_slice()) {
            Some(end) => at = end,
            None => return None,
        }
    }
    Some(at)
}

/// Where a frame's objects begin: below them stand the arguments past the eighth of calls, and the values that expressions
/// keep.
fn objects_begin(need: Need) -> u64
    ensures same { result ≡ spec.objects_begin need }
    ensures few { result < 2 ^ 40 }
{
    4 * u64::from(need.arguments.saturating_sub(8)) + 4 * u64::from(need.room)
}

fn is_cost(end: u64, cost: u32) -> bool
    requires { end < 2 ^ 40 }
    ensures { result ≡ spec.is_cost end cost }
{
    (end + 8 + 15) / 16 * 16 == u64::from(cost) && cost <= MAX_FRAME
}

fn is_frame(structs: &Structs, f: &Fun) -> bool
    ensures { result ≡ spec.is_frame structs.now f.now }
{
    let begin = objects_begin(need_of_statement(f.body.get()));
    match blocks_end(structs, begin, f.blocks.as_slice()) {
        Some(end) => is_cost(end, f.cost),
        None => false,
    }
}

/// Whether the object of a parameter has its type.
fn takes(structs: &Structs, p: &CType, of: &CType) -> bool
    ensures { result ≡ spec.takes structs.now p.now of.now }
{
    is_parameter(structs, p) && alike(structs, p, of)
}

fn parameters(structs: &Structs, params: &[CType], autos: &[Auto]) -> bool
    ensures { result ≡ spec.parameters structs.now params.now autos.now }
{
    if params.len() != autos.len() {
        return false;
    }
    for (i, p) in params.iter().enumerate() {
        if !takes(structs, p, &autos[i].of) {
            return false;
        }
    }
    true
}

fn has_parameters(structs: &Structs, params: &[CType], blocks: &[Items<Auto>]) -> bool
    ensures { result ≡ spec.has_parameters structs.now params.now (slice_get blocks.now 0) }
{
    match blocks.get(0) {
        Some(autos) => parameters(structs, params, autos.as_slice()),
        None => false,
    }
}

fn is_block(s: &CoreStmt) -> bool
    ensures { result ≡ spec.is_block s.now }
{
    match s {
        CoreStmt::Block(_, _, _, _) => true,
        _ => false,
    }
}

/// Whether every block of the body has its number and its table.
fn has_blocks(m: &Indexed, f: &Fun, targets: &Targets) -> Result<bool, NoMemory>
    ensures { IfOk result (λ yes. yes ≡ spec.numbers_up_to (length f.now.blocks) (spec.body_end m.now.core.now f.now targets.now)) }
{
    let nothing = outside();
    let around = inside(0, &nothing);
    let body = Body {
        in_loop: false,
        in_switch: false,
    };
    match statement(m, f, targets, &around, body, f.body.get(), 1)? {
        Some(n) => Ok(n == f.blocks.len()),
        None => Ok(false),
    }
}

/// Whether each label of the body stands once, and every block has its number and its table.
fn has_body(m: &Indexed, f: &Fun) -> Result<bool, NoMemory>
    ensures { IfOk result (λ yes. yes ≡ spec.has_body m.now.core.now f.now) }
{
    match targets_of(m.alloc, f.body.get())? {
        Some(targets) => has_blocks(m, f, &targets),
        None => Ok(false),
    }
}

fn is_signature(structs: &Structs, f: &Signature) -> bool
    ensures { result ≡ spec.is_signature structs.now f.now }
{
    f.params.len() <= MAX_ARGUMENTS && is_result(structs, &f.result) && signature_known(structs, f)
}

/// Whether a function's parameters are block 0, and its body is a block.
fn has_start(m: &Indexed, f: &Fun) -> bool
    ensures { result ≡ spec.has_start m.now.core.now f.now }
{
    is_signature(&m.core.structs, &f.of)
        && has_parameters(&m.core.structs, f.of.params.as_slice(), f.blocks.as_slice())
        && is_block(f.body.get())
}

/// Whether a function is formed (ANSI 3.7.1): its parameters are block 0, its body is block 1.
fn is_function(m: &Indexed, f: &Fun) -> Result<bool, NoMemory>
    ensures { IfOk result (λ yes. yes ≡ spec.is_function m.now.core.now f.now) }
{
    if !has_start(m, f) {
        return Ok(false);
    }
    if !has_body(m, f)? {
        return Ok(false);
    }
    Ok(is_frame(&m.core.structs, f))
}

/// Whether all functions are.
pub(crate) fn functions(m: &Indexed, funs: &[Shared<Fun>]) -> Result<bool, NoMemory>
    ensures { IfOk result (λ yes. yes ≡ spec.functions m.now.core.now funs.now) }
{
    for f in funs {
        if !is_function(m, f.get())? {
            return Ok(false);
        }
    }
    Ok(true)
}
