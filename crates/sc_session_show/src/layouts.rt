// Where the parts of an object stand (ANSI 3.5.2.1).
ghost use Rattle.std.specs.Prelude.{◌≡◌, ◌+◌, ◌*◌, false, IfOk};
ghost use Rattle.sc_types.specs.Layouts.{rounded as multiple_from, joined as joined_layout};
ghost use Rattle.sc_session_show.specs.Contents as spec;

use sc_base::NoMemory;
use sc_types::{CType, Layout, Structs, align_of, is_object, size_of};

/// The layout before the first member of a structure or a union.
pub(crate) const BEGINNING: Layout = Layout { size: 0, align: 1 };

/// The layout of a type's objects; a type that has none takes no room.
#[tactic(auto, using(crate::proofs::LayoutLemmas::extent_of, crate::proofs::LayoutLemmas::no_extent))]
pub(crate) fn extent(t: &CType, structs: &Structs) -> Layout
    ensures { result ≡ spec.extent structs.now t.now }
{
    if is_object(t, structs) {
        Layout {
            size: size_of(t, structs),
            align: align_of(t, structs),
        }
    } else {
        BEGINNING
    }
}

pub(crate) fn sum(a: u32, b: u32) -> Result<u32, NoMemory>
    ensures { IfOk result (λ c. c ≡ a + b) }
{
    match a.checked_add(b) {
        Some(c) => Ok(c),
        None => Err(NoMemory),
    }
}

fn product(a: u32, b: u32) -> Result<u32, NoMemory>
    ensures { IfOk result (λ c. c ≡ a * b) }
{
    match a.checked_mul(b) {
        Some(c) => Ok(c),
        None => Err(NoMemory),
    }
}

/// The least multiple of an alignment that is not below a place.
pub(crate) fn rounded(place: u32, align: u32) -> Result<u32, NoMemory>
    ensures { IfOk result (λ n. n ≡ multiple_from place align) }
{
    if align == 0 {
        return Err(NoMemory);
    }
    let end = sum(place, align - 1)?;
    product(end / align, align)
}

/// One more member of a structure, behind those with a layout.
fn joined(before: Layout, own: Layout) -> Result<Layout, NoMemory>
    ensures { IfOk result (λ l. l ≡ joined_layout false before own) }
{
    let at = rounded(before.size, own.align)?;
    Ok(Layout {
        size: sum(at, own.size)?,
        align: before.align.max(own.align),
    })
}

/// What the next member of a structure stands behind; each member of a union begins where the first does.
pub(crate) fn behind_member(is_union: bool, end: Layout, own: Layout) -> Result<Layout, NoMemory>
    ensures { IfOk result (λ l. l ≡ spec.behind_member is_union end own) }
{
    if is_union {
        return Ok(end);
    }
    joined(end, own)
}
