// The recursion over lists of initialisers (ANSI 3.5.7).
ghost use Rattle.std.specs.Prelude.{◌≤◌, length, drop, map};
ghost use Rattle.sc_check_scope.specs.Steps.{Fails, GivesWith};
ghost use Rattle.sc_check_initial.specs.Values.{Gives};
ghost use Rattle.sc_check_initial.specs.Lists as spec;

use crate::places::{Filling, Listing, ended, listing_of, place_of};
use crate::tree::all_typed;
use crate::value::put_expression;
use sc_check_declare::{Failure, Refused};
use sc_check_places::Place;
use sc_check_scope::{CheckFault, Problem, State, rule};
use sc_tree::Initializer;
use std::alloc::Global;

/// The refusal of items that have no place for this cause.
fn all_refused(alloc: Global, st: &mut State, items: &[Initializer], why: Refused) -> CheckFault
    ensures { Fails (spec.without_place (map spec.item items.now) why st.old) result }
{
    match all_typed(alloc, st, items) {
        Ok(()) => CheckFault::Found(Problem::Declaring(why)),
        Err(fault) => fault,
    }
}

/// The refusal of the items from one on that has no place, behind those of their own expressions.
fn without_place(
    alloc: Global,
    st: &mut State,
    items: &[Initializer],
    from: usize,
    failure: Failure,
) -> CheckFault
    requires { from ≤ length items.now }
    ensures { spec.Unplaced (map spec.item (drop from items.now)) failure st.old result }
{
    match failure {
        Failure::Refused(why) => all_refused(alloc, st, &items[from..], why),
        Failure::NoMemory => CheckFault::NoMemory,
    }
}

/// The items of a list, each in its place.
#[cycle(lists)]
fn put_items(
    alloc: Global,
    st: &mut State,
    fill: &mut Filling,
    items: &[Initializer],
) -> Result<(), CheckFault>
    ensures { Gives (spec.items (map spec.item items.now) (fill.old, st.old)) result (fill.new, st.new) }
{
    for (i, item) in items.iter().enumerate() {
        match place_of(alloc, &st.structs, &mut fill.walk, item) {
            Ok(p) => {
                put_at(alloc, st, true, fill, item, p)?;
            }
            Err(failure) => return Err(without_place(alloc, st, items, i, failure)),
        }
    }
    Ok(())
}

/// An initialiser at a place; the answer is the length that it gives an array without size. `constant` says whether an expression
/// has to be a constant; in the list of an aggregate each has.
#[cycle(lists)]
pub(crate) fn put_at(
    alloc: Global,
    st: &mut State,
    constant: bool,
    fill: &mut Filling,
    given: &Initializer,
    p: Place,
) -> Result<u32, CheckFault>
    ensures { GivesWith ((spec.item given.now).at constant p (fill.old, st.old)) result (fill.new, st.new) }
{
    match given {
        Initializer::Expression(line, e) => {
            put_expression(alloc, st, constant, *line, e.get(), &p, &mut fill.pieces)
        }
        Initializer::List(line, items) => {
            put_list(alloc, st, constant, fill, *line, items.as_slice(), p)
        }
    }
}

#[cycle(lists)]
fn put_list(
    alloc: Global,
    st: &mut State,
    constant: bool,
    fill: &mut Filling,
    line: u32,
    items: &[Initializer],
    p: Place,
) -> Result<u32, CheckFault>
    ensures { GivesWith (spec.list_at constant line (map spec.item items.now) p (fill.old, st.old)) result (fill.new, st.new) }
{
    match listing_of(&p.of, items) {
        Listing::Single => put_single(alloc, st, constant, fill, line, items, &p),
        Listing::Aggregate => {
            fill.walk.begin(line, true, p)?;
            put_items(alloc, st, fill, items)?;
            Ok(ended(alloc, &st.structs, fill)?)
        }
        Listing::Wrong => {
            all_typed(alloc, st, items)?;
            Err(rule(line))
        }
    }
}

/// The one expression of a list.
fn put_single(
    alloc: Global,
    st: &mut State,
    constant: bool,
    fill: &mut Filling,
    line: u32,
    items: &[Initializer],
    p: &Place,
) -> Result<u32, CheckFault>
    ensures { GivesWith (spec.single_at constant line (spec.single_of (map spec.item items.now)) p.now (fill.old, st.old)) result (fill.new, st.new) }
{
    match items {
        [Initializer::Expression(own, e)] => {
            put_expression(alloc, st, constant, *own, e.get(), p, &mut fill.pieces)
        }
        _ => Err(rule(line)),
    }
}
