// Which objects of static storage duration stay as one version follows another (ANSI 3.1.2.4, 3.1.2.6).
ghost use Rattle.std.specs.Prelude.{◌≡◌, ◌==◌, Some, IfOk};
ghost use Rattle.sc_meaning.specs.Versions as spec;
ghost use Rattle.sc_types.specs.Compatibility as types;

use crate::contents::same_contents;
use sc_base::{Key, NoMemory};
use sc_core_held::{Definition, Text, object_in};
use sc_types::compatible;
use std::alloc::Global;

// The types go together: structures of one text are the same by their numbers.
fn same_type(d: &Definition, e: &Definition) -> bool
    ensures { result ≡ types.compatible d.now.object.of d.now.text.core.structs e.now.object.of e.now.text.core.structs (d.now.text.number == e.now.text.number) }
{
    let t = d.text;
    let u = e.text;
    let one_text = t.number == u.number;
    compatible(
        &d.object.of,
        &t.core.get().structs,
        &e.object.of,
        &u.core.get().structs,
        one_text,
    )
}

fn stays(alloc: Global, d: &Definition, e: &Definition) -> Result<bool, NoMemory>
    ensures { IfOk result (λ stays. stays ≡ spec.stays (Some d.now) (Some e.now)) }
{
    if !same_type(d, e) {
        return Ok(false);
    }
    if d.object.constant || e.object.constant {
        return same_contents(alloc, d.object.init.as_slice(), e.object.init.as_slice());
    }
    Ok(true)
}

/// Whether the object of a key stays as one version follows another: both define it, with types that go together, and where
/// one of the two is `const` with the same initial contents.
pub fn is_kept(alloc: Global, old: &[Text], new: &[Text], key: &Key) -> Result<bool, NoMemory>
    ensures { IfOk result (λ kept. kept ≡ spec.is_kept old.now new.now key.now) }
{
    let Some(d) = object_in(old, key) else {
        return Ok(false);
    };
    let Some(e) = object_in(new, key) else {
        return Ok(false);
    };
    stays(alloc, &d, &e)
}
