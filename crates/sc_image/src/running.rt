// The modules of a run as they are placed since its start.
ghost use Rattle.std.specs.Prelude.{◌≡◌, ◌++◌, ◌∷◌, [], map, Some, IfErr, IfOk, MatchOption, option_copied};
ghost use Rattle.sc_link.specs.Linked.{IsLinked};
ghost use Rattle.sc_link.specs.Areas.{IsRefused};
ghost use Rattle.sc_image.specs.Linkable.{IsLinkable};
ghost use Rattle.sc_image.specs.Placing.{placed_modules};
ghost use Rattle.sc_image.specs.Refused.{IsShort};
ghost use Rattle.sc_image.specs.Running as spec;

use crate::adding::{behind_statics, behind_texts, entry_behind};
use crate::checking::may_be_linked;
use crate::keeping::kept_places;
use crate::module::Linking;
use crate::placing::place_modules;
use crate::room::full_area;
use sc_base::{Duplicate, Items, Key, Name, NoMemory};
use sc_isa_image::Image;
use sc_link::{Area, LinkFault, MOST_FUNCTIONS, Placed, STATICS_END, TEXTS_END, link};
use std::alloc::Global;
use std::marker::Model;

/// Where the modules of a run are placed since its start: all entries in their order, seen as the list of them. Former texts stay
/// where they are, since calls in progress may still use them; what is new is placed behind all others.
#[derive(Drop)]
pub struct Placements {
    entries: Items<Placed>,
}

impl Model for Placements {
    ghost use Rattle.std.specs.Prelude.{List};
    ghost use Rattle.sc_link.specs.declared.placed.Placed.{Placed};

    ghost Value = { List Placed };

    ghost view = { λ p. p.entries };
}

impl Placements {
    /// Modules as a run begins with them: each is placed behind those before it. `Space` names an area that has no room for them.
    pub fn start(
        alloc: Global,
        modules: &[Linking],
        functions: &[Key],
    ) -> Result<Placements, LinkFault>
        ensures placed { IfOk result (λ p. p ≡ placed_modules modules.now) }
        ensures short { IfErr result (IsShort modules.now functions.now) }
    {
        if let Some(area) = full_area(modules, functions) {
            return Err(LinkFault::Space(area));
        }
        match place_modules(alloc, modules) {
            Ok(entries) => Ok(Placements { entries }),
            Err(_) => Err(LinkFault::NoMemory),
        }
    }

    /// The first area, in the order of their addresses, that has no room for what is placed in it and for these functions: none
    /// where all of it is within its areas.
    pub fn full_area(&self, functions: &[Key]) -> Option<Area>
        ensures { MatchOption result (spec.AreWithin self.now functions.now) (spec.IsOver self.now functions.now) }
    {
        let placed = self.entries.as_slice();
        if functions.len() > MOST_FUNCTIONS {
            return Some(Area::Stubs);
        }
        if behind_texts(placed) > u64::from(TEXTS_END) {
            return Some(Area::Text);
        }
        if behind_statics(placed) > u64::from(STATICS_END) {
            return Some(Area::Static);
        }
        None
    }

    /// The entries.
    pub fn as_slice(&self) -> &[Placed]
        ensures { result.now ≡ self.now }
    {
        self.entries.as_slice()
    }

    /// The same list.
    pub fn copy(&self, alloc: Global) -> Result<Placements, NoMemory>
        ensures { IfOk result (λ p. p ≡ self.now) }
    {
        let entries = copies(alloc, self.entries.as_slice())?;
        Ok(Placements { entries })
    }

    /// A module more, or in the place of the present one of its name, whose entry becomes a former one. It is placed behind all
    /// others, but the objects with these keys stay where they are, and so do the literals of the module.
    ///
    /// # Errors
    ///
    /// `Space` names an area that has no room for it.
    pub fn with(
        &self,
        alloc: Global,
        module: &Linking,
        kept: &[Key],
        functions: &[Key],
    ) -> Result<Placements, LinkFault>
        ensures ok { IfOk result (λ p. p ≡ spec.with_module self.now «module».now kept.now) }
        ensures short { IfErr result (spec.IsShortOf self.now functions.now «module».now (spec.kept_places self.now «module».now kept.now)) }
    {
        let placed = self.entries.as_slice();
        match kept_places(alloc, placed, module, kept) {
            Ok(keeps) => with_entry(alloc, placed, module, keeps.as_slice(), functions),
            Err(_) => Err(LinkFault::NoMemory),
        }
    }

    /// A module in another form, or with the other of its objects, in the place of the present one of its name: its text is placed
    /// behind all others, its objects and literals stay where they are, section by section, and the entry before becomes a former
    /// one. Where no module of the name is present the list stays.
    ///
    /// # Errors
    ///
    /// `Space` names an area that has no room for it.
    pub fn formed(
        &self,
        alloc: Global,
        module: &Linking,
        functions: &[Key],
    ) -> Result<Placements, LinkFault>
        ensures ok { IfOk result (λ p. p ≡ spec.in_form «module».now self.now) }
        ensures short { IfErr result (spec.IsShortIn (spec.present «module».now.name self.now) self.now functions.now «module».now) }
    {
        let placed = self.entries.as_slice();
        match present(placed, &module.name) {
            Some(entry) => in_form(alloc, placed, entry, module, functions),
            None => match self.copy(alloc) {
                Ok(same) => Ok(same),
                Err(_) => Err(LinkFault::NoMemory),
            },
        }
    }

    /// The present module of a name is gone: its entry becomes a former one.
    pub fn without(&self, alloc: Global, name: &Name) -> Result<Placements, NoMemory>
        ensures { IfOk result (λ p. p ≡ spec.without name.now self.now) }
    {
        let entries = without(alloc, self.entries.as_slice(), name)?;
        Ok(Placements { entries })
    }

    /// The image of these entries and of the functions by their numbers. `Space` names an area that has no room.
    pub fn image(&self, alloc: Global, functions: &[Key]) -> Result<Image, LinkFault>
        ensures linked { IfOk result (IsLinked self.now functions.now) }
        ensures refused { IfErr result (IsRefused self.now functions.now) }
    {
        let placed = self.entries.as_slice();
        match may_be_linked(alloc, placed, functions) {
            Ok(true) => linked(alloc, placed, functions),
            Ok(false) => Err(LinkFault::NoMemory),
            Err(_) => Err(LinkFault::NoMemory),
        }
    }
}

// The image of entries that may be linked.
fn linked(alloc: Global, placed: &[Placed], functions: &[Key]) -> Result<Image, LinkFault>
    requires { IsLinkable placed.now functions.now }
    ensures linked { IfOk result (IsLinked placed.now functions.now) }
    ensures refused { IfErr result (IsRefused placed.now functions.now) }
{
    match link(alloc, placed, functions) {
        Ok(image) => Ok(image),
        Err(fault) => Err(fault),
    }
}

// An entry as it is, or as a former one.
fn retired_if(alloc: Global, entry: &Placed, retired: bool) -> Result<Placed, NoMemory>
    ensures { IfOk result (λ e. e ≡ spec.retired_if retired entry.now) }
{
    let home = entry.home.copy(alloc)?;
    let object = entry.object.share()?;
    let places = Vec::from_slice(alloc, entry.places.as_slice())?;
    Ok(Placed {
        number: entry.number,
        home,
        form: entry.form,
        object,
        places: Items::from_vec(places),
        retired: retired || entry.retired,
    })
}

// Second entries for all of a list.
fn copies(alloc: Global, placed: &[Placed]) -> Result<Items<Placed>, NoMemory>
    ensures { IfOk result (λ copies. copies ≡ placed.now) }
{
    let mut entries = Items::new(alloc);
    for entry in placed {
        entries.push(retired_if(alloc, entry, false)?)?;
    }
    Ok(entries)
}

// Whether an entry is the present one of a module.
fn is_present(name: &Name, entry: &Placed) -> bool
    ensures { result ≡ spec.is_present name.now entry.now }
{
    !entry.retired && entry.home.as_slice() == name.as_slice()
}

// The present entry of a module.
fn present<'a>(placed: &'a [Placed], name: &Name) -> Option<&'a Placed>
    ensures { option_copied result ≡ spec.present name.now placed.now }
{
    for entry in placed {
        if is_present(name, entry) {
            return Some(entry);
        }
    }
    None
}

// The entries of a list, that of a module as a former one.
fn without(alloc: Global, placed: &[Placed], name: &Name) -> Result<Items<Placed>, NoMemory>
    ensures { IfOk result (λ entries. entries ≡ spec.without name.now placed.now) }
{
    let mut entries = Items::new(alloc);
    for entry in placed {
        let gone = is_present(name, entry);
        entries.push(retired_if(alloc, entry, gone)?)?;
    }
    Ok(entries)
}

// The entries of a list with one more at its end, that of its module as a former one.
fn followed(alloc: Global, placed: &[Placed], entry: Placed) -> Result<Items<Placed>, NoMemory>
    ensures { IfOk result (λ entries. entries ≡ spec.without entry.home placed.now ++ entry ∷ []) }
{
    let mut entries = without(alloc, placed, &entry.home)?;
    entries.push(entry)?;
    Ok(entries)
}

// A module behind all that a list has placed.
fn with_entry(
    alloc: Global,
    placed: &[Placed],
    module: &Linking,
    keeps: &[Option<u32>],
    functions: &[Key],
) -> Result<Placements, LinkFault>
    ensures ok { IfOk result (λ p. p ≡ spec.with_entry placed.now «module».now keeps.now) }
    ensures short { IfErr result (spec.IsShortOf placed.now functions.now «module».now keeps.now) }
{
    let entry = match entry_behind(alloc, placed, functions, module, keeps) {
        Ok(entry) => entry,
        Err(fault) => return Err(fault),
    };
    match followed(alloc, placed, entry) {
        Ok(entries) => Ok(Placements { entries }),
        Err(_) => Err(LinkFault::NoMemory),
    }
}

// All places, as those that sections keep.
fn all_places(alloc: Global, places: &[u32]) -> Result<Vec<Option<u32>>, NoMemory>
    ensures { IfOk result (λ keeps. keeps.items ≡ map Some places.now) }
{
    let mut keeps = Vec::new(alloc);
    for place in places {
        keeps.push(Some(*place))?;
    }
    Ok(keeps)
}

// A module with another text, behind an entry of a list.
fn in_form(
    alloc: Global,
    placed: &[Placed],
    entry: &Placed,
    module: &Linking,
    functions: &[Key],
) -> Result<Placements, LinkFault>
    ensures ok { IfOk result (λ p. p ≡ spec.formed_by (Some entry.now) «module».now placed.now) }
    ensures short { IfErr result (spec.IsShortIn (Some entry.now) placed.now functions.now «module».now) }
{
    let Ok(keeps) = all_places(alloc, entry.places.as_slice()) else {
        return Err(LinkFault::NoMemory);
    };
    with_entry(alloc, placed, module, keeps.as_slice(), functions)
}
