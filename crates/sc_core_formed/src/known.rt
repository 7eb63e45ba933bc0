// The numbers of structures in a type.
ghost use Rattle.std.specs.Prelude.{◌≡◌, length, map};
ghost use Rattle.sc_core_formed.specs.Known as spec;

use sc_types::{CType, Member, Signature, StructDef, Structs};

/// Whether each structure and each union in a type is one of the first so many.
#[cycle(types)]
fn is_below(count: usize, of: &CType) -> bool
    ensures { result ≡ spec.is_below count of.now }
{
    match of {
        CType::Void(_) | CType::Int(_, _) => true,
        CType::Pointer(u, _) => is_below(count, u.get()),
        CType::Array(u, _) => is_below(count, u.get()),
        CType::Struct(id, _) => (*id as usize) < count,
        CType::Function(f) => signature_below(count, f.get()),
    }
}

#[cycle(types)]
fn signature_below(count: usize, f: &Signature) -> bool
    ensures { result ≡ spec.signature_below count f.now }
{
    is_below(count, &f.result) && all_below(count, f.params.as_slice())
}

#[cycle(types)]
fn all_below(count: usize, types: &[CType]) -> bool
    ensures { result ≡ spec.all (map (spec.is_below count) types.now) }
{
    for of in types {
        if !is_below(count, of) {
            return false;
        }
    }
    true
}

/// Whether each structure number in a type is one of the table.
pub(crate) fn is_known(structs: &Structs, of: &CType) -> bool
    ensures { result ≡ spec.is_known structs.now of.now }
{
    is_below(structs.as_slice().len(), of)
}

/// The same of what a function takes and gives.
pub(crate) fn signature_known(structs: &Structs, f: &Signature) -> bool
    ensures { result ≡ spec.signature_known structs.now f.now }
{
    signature_below(structs.as_slice().len(), f)
}

fn members_known(structs: &Structs, members: &[Member]) -> bool
    ensures { result ≡ spec.members_known structs.now members.now }
{
    for m in members {
        if !is_known(structs, &m.of) {
            return false;
        }
    }
    true
}

/// The same of the members of these structures.
pub(crate) fn table_known(structs: &Structs, defs: &[StructDef]) -> bool
    ensures { result ≡ spec.table_known structs.now defs.now }
{
    for def in defs {
        if let Some(members) = &def.members
            && !members_known(structs, members.as_slice())
        {
            return false;
        }
    }
    true
}
