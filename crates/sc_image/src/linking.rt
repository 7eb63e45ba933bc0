// The image of modules, from nothing.
ghost use Rattle.std.specs.Prelude.{◌≡◌, IfErr, IfOk, OnOk};
ghost use Rattle.sc_link.specs.Linked.{IsLinked};
ghost use Rattle.sc_image.specs.Linkable.{IsLinkable};
ghost use Rattle.sc_image.specs.Placing as spec;
ghost use Rattle.sc_image.specs.Refused.{IsShort};

use crate::checking::are_linkable;
use crate::module::Linking;
use crate::placing::place_modules;
use crate::room::full_area;
use sc_base::Key;
use sc_isa_image::Image;
use sc_link::{LinkFault, Placed, link};
use std::alloc::Global;

/// The image of modules, each placed behind those before it, with the functions by their numbers. `Space` names an area
/// that has no room for them.
pub fn image_of(alloc: Global, modules: &[Linking], functions: &[Key]) -> Result<Image, LinkFault>
    ensures linked { IfOk result (IsLinked (spec.placed_modules modules.now) functions.now) }
    ensures fits { OnOk result (spec.Fits modules.now functions.now) }
    ensures short { IfErr result (IsShort modules.now functions.now) }
{
    if let Some(area) = full_area(modules, functions) {
        return Err(LinkFault::Space(area));
    }
    match place_modules(alloc, modules) {
        Ok(placed) => link_placed(alloc, modules, placed.as_slice(), functions),
        Err(_) => Err(LinkFault::NoMemory),
    }
}

// The image of the entries of modules that fit. Entries that may not be linked come from no generator: for them there is
// no answer of its own.
fn link_placed(
    alloc: Global,
    modules: &[Linking],
    placed: &[Placed],
    functions: &[Key],
) -> Result<Image, LinkFault>
    requires same { placed.now ≡ spec.placed_modules modules.now }
    requires fits { spec.Fits modules.now functions.now }
    ensures linked { IfOk result (IsLinked (spec.placed_modules modules.now) functions.now) }
    ensures short { IfErr result (IsShort modules.now functions.now) }
{
    match are_linkable(alloc, placed, functions) {
        Ok(true) => link_all(alloc, modules, placed, functions),
        Ok(false) => Err(LinkFault::NoMemory),
        Err(_) => Err(LinkFault::NoMemory),
    }
}

// The image of the entries of modules that fit and may be linked.
#[tactic(auto, using(crate::proofs::Inside::linked_as, crate::proofs::Inside::refused_short))]
fn link_all(
    alloc: Global,
    modules: &[Linking],
    placed: &[Placed],
    functions: &[Key],
) -> Result<Image, LinkFault>
    requires same { placed.now ≡ spec.placed_modules modules.now }
    requires fits { spec.Fits modules.now functions.now }
    requires linkable { IsLinkable placed.now functions.now }
    ensures linked { IfOk result (IsLinked (spec.placed_modules modules.now) functions.now) }
    ensures short { IfErr result (IsShort modules.now functions.now) }
{
    let _ = modules;
    match link(alloc, placed, functions) {
        Ok(image) => Ok(image),
        Err(fault) => Err(fault),
    }
}
