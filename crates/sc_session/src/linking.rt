// The image of the modules that are present, and their forms.
ghost use Rattle.std.specs.Prelude.{◌≡◌, map, IfOk};
ghost use Rattle.sc_image.specs.Placing as placing;
ghost use Rattle.sc_session_forms.specs.Forms as forms;
ghost use Rattle.sc_session.specs.Linking as spec;
ghost use Rattle.sc_session.specs.Modules.{object_by as object_in};

use crate::choice::Choice;
use crate::present::{Present, is_named, object_by};
use sc_base::{Duplicate, Form, Items, Name, NoMemory};
use sc_core_held::Numbers;
use sc_image::{Linking, full_area, image_of};
use sc_isa_image::Image;
use sc_link::{Area as Place, LinkFault};
use sc_session_forms::functions_by;
use sc_words::Area;
use std::alloc::Global;

/// The module with a name gets a form, and the object that it runs in object form.
pub fn put_form(modules: &mut Vec<Present>, name: &Name, form: Form, choice: Choice)
    ensures { modules.new.items ≡ spec.with_form name.now form choice modules.old.items }
{
    for p in modules.iter_mut() {
        if is_named(name, p) {
            p.text.form = form;
            p.choice = choice;
        }
    }
}

// A module as it is linked in a form, with that object.
fn linked_so(alloc: Global, p: &Present, form: Form, choice: Choice) -> Result<Linking, NoMemory>
    ensures { IfOk result (λ l. l ≡ record { number = p.now.text.number; name = p.now.text.core.name; form = form; object = object_in choice p.now }) }
{
    Ok(Linking {
        number: p.text.number,
        name: p.text.core.get().name.copy(alloc)?,
        form,
        object: object_by(p, choice).share()?,
    })
}

// A module as it is linked.
pub(crate) fn linking(alloc: Global, p: &Present) -> Result<Linking, NoMemory>
    ensures { IfOk result (λ l. l ≡ spec.linking_of p.now) }
{
    linked_so(alloc, p, p.text.form, p.choice)
}

// Modules as they are linked.
pub(crate) fn linkings(alloc: Global, modules: &[Present]) -> Result<Items<Linking>, NoMemory>
    ensures { IfOk result (λ all. all ≡ map spec.linking_of modules.now) }
{
    let mut all = Items::new(alloc);
    for p in modules {
        all.push(linking(alloc, p)?)?;
    }
    Ok(all)
}

// A module as it is linked where the one with a name runs that object.
fn linking_formed(
    alloc: Global,
    name: &Name,
    choice: Choice,
    p: &Present,
) -> Result<Linking, NoMemory>
    ensures { IfOk result (λ l. l ≡ spec.linking_of (spec.formed name.now Form.Object choice p.now)) }
{
    if is_named(name, p) {
        linked_so(alloc, p, Form::Object, choice)
    } else {
        linking(alloc, p)
    }
}

// Modules as they are linked where the one with a name runs that object.
fn linkings_formed(
    alloc: Global,
    name: &Name,
    choice: Choice,
    modules: &[Present],
) -> Result<Items<Linking>, NoMemory>
    ensures { IfOk result (λ all. all ≡ map spec.linking_of (spec.with_form name.now Form.Object choice modules.now)) }
{
    let mut all = Items::new(alloc);
    for p in modules {
        all.push(linking_formed(alloc, name, choice, p)?)?;
    }
    Ok(all)
}

pub(crate) fn area_of(area: Place) -> Area
    ensures { result ≡ spec.area_of area }
{
    match area {
        Place::Stubs => Area::Stubs,
        Place::Text => Area::Text,
        Place::Static => Area::Static,
    }
}

/// The first area that has no room where the module with a name runs that object; none where all have.
pub fn full_with(
    alloc: Global,
    name: &Name,
    choice: Choice,
    modules: &[Present],
    numbers: &Numbers,
) -> Result<Option<Area>, NoMemory>
    ensures { IfOk result (λ full. spec.RoomSaid (spec.with_form name.now Form.Object choice modules.now) numbers.now full) }
{
    let all = linkings_formed(alloc, name, choice, modules)?;
    let functions = functions_by(alloc, numbers)?;
    match full_area(all.as_slice(), functions.as_slice()) {
        None => Ok(None),
        Some(area) => Ok(Some(area_of(area))),
    }
}

/// Why there is no image: an area has no room, or no memory was left.
#[derive(Clone, Copy)]
pub enum ImageFault {
    Space(Area),
    NoMemory,
}

pub(crate) fn image_fault(fault: LinkFault) -> ImageFault
    ensures { result ≡ spec.image_fault fault }
{
    match fault {
        LinkFault::Space(area) => ImageFault::Space(area_of(area)),
        LinkFault::NoMemory => ImageFault::NoMemory,
    }
}

/// The image of the modules that are present. They were found to have room as they were loaded, or as they got their forms: that an area
/// has none cannot be.
pub fn linked(alloc: Global, modules: &[Present], numbers: &Numbers) -> Result<Image, NoMemory>
    ensures { IfOk result (spec.IsImage modules.now numbers.now) }
{
    let Ok(all) = linkings(alloc, modules) else {
        return Err(NoMemory);
    };
    let Ok(functions) = functions_by(alloc, numbers) else {
        return Err(NoMemory);
    };
    match image_of(alloc, all.as_slice(), functions.as_slice()) {
        Ok(image) => Ok(image),
        Err(_) => Err(NoMemory),
    }
}
