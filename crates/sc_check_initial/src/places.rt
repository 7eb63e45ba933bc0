// The places that the items of a list fill, and what they have filled (ANSI 3.5.7).
ghost use Rattle.std.specs.Prelude.{◌≡◌, ◌++◌, map, IfOk, OnOk};
ghost use Rattle.sc_check_declare.specs.Outcomes as outcomes;
ghost use Rattle.sc_check_places.specs.Places.{count_at_end};
ghost use Rattle.sc_check_initial.specs.Lists as spec;
ghost use Rattle.sc_check_initial.specs.Whole as object;

use crate::tree::{is_single, is_single_string, is_string};
use sc_base::{Duplicate, Items, NoMemory};
use sc_check_declare::Failure;
use sc_check_operand::object_size;
use sc_check_places::{Place, Walk, Zeros, takes};
use sc_core::AutoInit;
use sc_tree::Initializer;
use sc_types::{CType, Structs};
use std::alloc::Global;

/// What the items of a list have filled so far: the aggregates that are open, the innermost first, and the pieces in the
/// order of offsets.
#[derive(Drop)]
pub(crate) struct Filling {
    pub(crate) walk: Walk,
    pub(crate) pieces: Items<AutoInit>,
}

/// What a list in braces stands for at a place.
#[derive(Clone, Copy, Debug, PartialEq, Eq)]
pub(crate) enum Listing {
    /// The one expression in it, for a scalar or as a string for an array of characters.
    Single,
    Aggregate,
    Wrong,
}

impl Filling {
    pub(crate) fn new(alloc: Global) -> Filling
        ensures { result ≡ object.nothing }
    {
        Filling {
            walk: Walk::new(alloc),
            pieces: Items::new(alloc),
        }
    }
}

fn when(yes: bool, then: Listing, other: Listing) -> Listing
    ensures { result ≡ spec.when yes then other }
{
    if yes { then } else { other }
}

/// What a list stands for: a scalar takes one expression, with or without braces.
pub(crate) fn listing_of(of: &CType, items: &[Initializer]) -> Listing
    ensures { result ≡ spec.listing_of of.now (map spec.item items.now) }
{
    match of {
        CType::Array(_, _) => when(
            is_single_string(items) && takes(true, of),
            Listing::Single,
            Listing::Aggregate,
        ),
        CType::Struct(_, _) => Listing::Aggregate,
        CType::Void(_) | CType::Int(_, _) | CType::Pointer(_, _) | CType::Function(_) => {
            when(is_single(items), Listing::Single, Listing::Wrong)
        }
    }
}

/// One more than the aggregates that may be inside one another: no structure is inside itself, and a type has at most 32 arrays.
fn depth(structs: &Structs) -> u32
    ensures { result ≡ spec.depth structs.now }
{
    let count = structs.as_slice().len().min(67_108_864) as u32;
    count * 33 + 34
}

/// The place of the next item of the innermost list.
pub(crate) fn place_of(
    alloc: Global,
    structs: &Structs,
    walk: &mut Walk,
    item: &Initializer,
) -> Result<Place, Failure>
    ensures { outcomes.GivesWith ((spec.item item.now).place structs.now walk.old.levels) result walk.new.levels }
{
    match item {
        Initializer::Expression(line, e) => {
            walk.reach(alloc, structs, *line, is_string(e.get()), depth(structs))
        }
        Initializer::List(line, _) => walk.next(alloc, structs, *line),
    }
}

fn put_zeros(zeros: &[Zeros], pieces: &mut Items<AutoInit>) -> Result<(), NoMemory>
    ensures { OnOk result (pieces.new ≡ pieces.old ++ map spec.zero_piece zeros.now) }
{
    for z in zeros {
        pieces.push(AutoInit::Zero(z.at, z.count))?;
    }
    Ok(())
}

/// A list ends: the bytes of its aggregate that have no item are zero. The answer is how many places have one.
pub(crate) fn ended(alloc: Global, structs: &Structs, fill: &mut Filling) -> Result<u32, NoMemory>
    ensures count { IfOk result (λ n. n ≡ count_at_end fill.old.walk.levels) }
    ensures closed { OnOk result (fill.new ≡ spec.closed structs.now fill.old) }
{
    let closed = fill.walk.end(alloc, structs)?;
    put_zeros(closed.zeros.as_slice(), &mut fill.pieces)?;
    Ok(closed.count)
}

fn extent(structs: &Structs, of: &CType) -> u32
    ensures { result ≡ object.extent structs.now of.now }
{
    match object_size(structs, of) {
        Some(size) => size,
        None => 0,
    }
}

/// The place of a whole object. An array without size has no end yet.
pub(crate) fn whole(alloc: Global, structs: &Structs, of: &CType) -> Result<Place, NoMemory>
    ensures { IfOk result (λ p. p ≡ object.whole structs.now of.now) }
{
    let end = extent(structs, of);
    let of = of.copy(alloc)?;
    Ok(Place { of, at: 0, end })
}
