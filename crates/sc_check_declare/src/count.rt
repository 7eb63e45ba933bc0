// How many types a type is made of: itself and all that stand in it.
ghost use Rattle.std.specs.Prelude.{◌≡◌, ◌-◌, map};
ghost use Rattle.sc_check_declare.specs.Counts as spec;

use sc_types::{CType, Signature};

/// The most types of which a type is made, itself among them. What stands in it twice is counted twice.
pub const MAX_TYPES: u32 = 1000;

/// What is left of a number when the types in a type are taken from it. No more types are looked at than that number.
#[cycle(types)]
fn less_types(left: u32, of: &CType) -> u32
    ensures { result ≡ left - spec.types_in of.now }
{
    if left == 0 {
        return 0;
    }
    match of {
        CType::Void(_) | CType::Int(_, _) | CType::Struct(_, _) => left - 1,
        CType::Pointer(target, _) => less_types(left - 1, target.get()),
        CType::Array(element, _) => less_types(left - 1, element.get()),
        CType::Function(signature) => less_signature(left - 1, signature.get()),
    }
}

#[cycle(types)]
fn less_signature(left: u32, f: &Signature) -> u32
    ensures { result ≡ left - spec.types_of f.now }
{
    less_all(less_types(left, &f.result), f.params.as_slice())
}

#[cycle(types)]
fn less_all(left: u32, types: &[CType]) -> u32
    ensures { result ≡ left - spec.sum (map spec.types_in types.now) }
{
    let mut left = left;
    for of in types {
        left = less_types(left, of);
    }
    left
}

/// Whether a type is made of at most `MAX_TYPES` types.
pub(crate) fn is_small(of: &CType) -> bool
    ensures { result ≡ spec.is_small of.now }
{
    less_types(MAX_TYPES + 1, of) > 0
}
