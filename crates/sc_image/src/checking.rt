// Whether entries and functions may be linked.
ghost use Rattle.std.specs.Prelude.{IfOk};
ghost use Rattle.sc_image.specs.Linkable.{Tells};

use crate::distinct::{are_keys_distinct, are_places_distinct};
use crate::one_place::all_agree;
use crate::ordered::are_ordered;
use sc_base::{Key, NoMemory};
use sc_link::{Placed, literals_in, texts_in};
use std::alloc::Global;

/// Whether entries and functions may be linked. The answer is yes for what the generator makes: its functions are numbered
/// by their keys, and the texts and the literals of an object have a section each.
#[tactic(auto, using(crate::proofs::Linkables::linkable))]
pub(crate) fn are_linkable(
    alloc: Global,
    placed: &[Placed],
    functions: &[Key],
) -> Result<bool, NoMemory>
    ensures { IfOk result (Tells placed.now functions.now) }
{
    if !are_keys_distinct(alloc, functions)? {
        return Ok(false);
    }
    let texts = texts_in(alloc, placed)?;
    if !are_ordered(texts.as_slice()) {
        return Ok(false);
    }
    let literals = literals_in(alloc, placed)?;
    if !are_places_distinct(alloc, literals.as_slice())? {
        return Ok(false);
    }
    Ok(true)
}

/// The same of entries of which some are former ones, whose literals others may hold once more.
#[tactic(auto, using(crate::proofs::Linkables::linkable_again))]
pub(crate) fn may_be_linked(
    alloc: Global,
    placed: &[Placed],
    functions: &[Key],
) -> Result<bool, NoMemory>
    ensures { IfOk result (Tells placed.now functions.now) }
{
    if !are_keys_distinct(alloc, functions)? {
        return Ok(false);
    }
    let texts = texts_in(alloc, placed)?;
    if !are_ordered(texts.as_slice()) {
        return Ok(false);
    }
    let literals = literals_in(alloc, placed)?;
    if !all_agree(literals.as_slice()) {
        return Ok(false);
    }
    Ok(true)
}
