// Labels to which `goto` goes (ANSI 3.6.1, 3.6.6.1).
ghost use Rattle.std.specs.Prelude.{◌≡◌, map, nat_eq, OnOk, IfOk};
ghost use Rattle.std.specs.List.{list_any};
ghost use Rattle.sc_check_labels.specs.Faults.{Says, GivesWith};
ghost use Rattle.sc_check_labels.specs.Jumps as spec;

use crate::fault::{LabelFault, LabelRule, refusal};
use crate::labels::{Labels, OpenList, Waiting};
use sc_base::{Items, Name, NoMemory, Stack};
use sc_core::LabelAt;
use std::alloc::Global;

/// Begins the list of the block with this number.
pub fn open_list(alloc: Global, f: &mut Labels, block: u32) -> Result<(), NoMemory>
    ensures { OnOk result (f.new ≡ spec.open_list block f.old) }
{
    let list = OpenList {
        block,
        labels: Items::new(alloc),
    };
    f.lists.push(list)
}

/// Ends the innermost list; the answer is the labels that stand in it.
pub fn close_list(alloc: Global, f: &mut Labels) -> Items<LabelAt>
    ensures { (result, f.new) ≡ spec.close_list f.old }
{
    match f.lists.pop() {
        Some(list) => list.labels,
        None => Items::new(alloc),
    }
}

/// The number of a label in its function.
pub fn number_label(alloc: Global, f: &mut Labels, name: &Name) -> Result<u32, NoMemory>
    ensures { IfOk result (λ n. (n, f.new) ≡ spec.numbered name.now f.old) }
{
    f.names.number(alloc, name)
}

/// A label of the innermost of these lists, where its statement has a place in it; the answer is the number of the list's block.
fn put_in(
    lists: &mut Stack<OpenList>,
    label: u32,
    place: Option<u32>,
) -> Result<Option<u32>, NoMemory>
    ensures { IfOk result (λ block. (block, lists.new) ≡ spec.put_in label place lists.old) }
{
    let Some(at) = place else {
        return Ok(None);
    };
    let Some(list) = lists.pop() else {
        return Ok(None);
    };
    let mut list = list;
    let block = list.block;
    list.labels.push(LabelAt { label, at })?;
    lists.push(list)?;
    Ok(Some(block))
}

/// The end of a statement with a label. `place` is its place in the list of the innermost block, where it stands there.
///
/// # Errors
///
/// `Constraint` (X7): another statement of the function has the label.
pub fn end_label(
    f: &mut Labels,
    line: u32,
    label: u32,
    place: Option<u32>,
) -> Result<(), LabelFault>
    ensures { GivesWith (spec.end_label line label place f.old) result f.new }
{
    if f.blocks.find(label).is_some() {
        return Err(refusal(LabelRule::Constraint, line));
    }
    let block = put_in(&mut f.lists, label, place)?;
    f.blocks.put(label, block)?;
    Ok(())
}

/// The blocks of these lists.
fn blocks_of(alloc: Global, lists: &[OpenList]) -> Result<Items<u32>, NoMemory>
    ensures { IfOk result (λ blocks. blocks ≡ map (λ l. l.block) lists.now) }
{
    let mut blocks = Items::new(alloc);
    for list in lists {
        blocks.push(list.block)?;
    }
    Ok(blocks)
}

/// A `goto` of this line; the answer is its label's number.
pub fn goto(alloc: Global, f: &mut Labels, line: u32, name: &Name) -> Result<u32, NoMemory>
    ensures { IfOk result (λ n. (n, f.new) ≡ spec.goto line name.now f.old) }
{
    let label = number_label(alloc, f, name)?;
    let blocks = blocks_of(alloc, f.lists.as_slice())?;
    f.waiting.push(Waiting {
        line,
        label,
        blocks,
    })?;
    Ok(label)
}

/// Whether a block is among these.
fn is_among(block: u32, blocks: &[u32]) -> bool
    ensures { result ≡ list_any (nat_eq block) blocks.now }
{
    for b in blocks {
        if block == *b {
            return true;
        }
    }
    false
}

fn check_goto(f: &Labels, g: &Waiting) -> Result<(), LabelFault>
    ensures { Says (spec.jumps_to f.now.blocks g.now) result }
{
    match f.blocks.find(g.label) {
        None => Err(refusal(LabelRule::Undeclared, g.line)),
        Some(None) => Err(refusal(LabelRule::GotoIn, g.line)),
        Some(Some(block)) => {
            if is_among(block, g.blocks.as_slice()) {
                Ok(())
            } else {
                Err(refusal(LabelRule::GotoIn, g.line))
            }
        }
    }
}

/// The end of the function, where each `goto` ends.
///
/// # Errors
///
/// Of the first in the text that breaks a rule:
/// - `Undeclared` (X6): its label is nowhere in the function.
/// - `GotoIn` (X9 `gotoin`): it is not inside a block in whose list its label stands.
pub fn check_gotos(f: &Labels) -> Result<(), LabelFault>
    ensures { Says (spec.all_jump f.now) result }
{
    for g in f.waiting.as_slice() {
        check_goto(f, g)?;
    }
    Ok(())
}
