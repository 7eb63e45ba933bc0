// Answers that need no instruction: a form for a form.
ghost use Rattle.std.specs.Prelude.{◌≡◌, IfSome};
ghost use Rattle.sc_meaning.specs.Expressions as meaning;
ghost use Rattle.sc_flat_write.specs.Parts as spec;

use sc_points::Held;
use sc_types::CType;

/// An answer's member at an offset, if there is such an offset.
pub fn member_of(offset: u32, held: Held) -> Option<Held>
    ensures { IfSome result (λ h. h ≡ spec.member_of offset held) }
{
    match held {
        Held::In(register) => Some(Held::Beyond(register, offset)),
        Held::At(register) => Some(Held::Beyond(register, offset)),
        Held::Beyond(register, before) => {
            let further = before.checked_add(offset)?;
            Some(Held::Beyond(register, further))
        }
        Held::Named(block, object) => Some(Held::NamedBeyond(block, object, offset)),
        Held::NamedBeyond(block, object, before) => {
            let further = before.checked_add(offset)?;
            Some(Held::NamedBeyond(block, object, further))
        }
        Held::Void => Some(Held::Void),
    }
}

/// A member of the structure to which an answer points.
pub fn arrow_of(offset: u32, held: Held) -> Held
    ensures { result ≡ spec.arrow_of offset held }
{
    match held {
        Held::In(register) => Held::Beyond(register, offset),
        Held::At(register) => Held::Beyond(register, offset),
        Held::Beyond(register, _) => Held::Beyond(register, offset),
        Held::Named(block, object) => Held::NamedBeyond(block, object, offset),
        Held::NamedBeyond(block, object, _) => Held::NamedBeyond(block, object, offset),
        Held::Void => Held::Void,
    }
}

/// The place to which an answer points.
pub fn target_of(held: Held) -> Held
    ensures { result ≡ spec.target_of held }
{
    match held {
        Held::In(register) => Held::At(register),
        Held::At(register) => Held::At(register),
        Held::Beyond(register, _) => Held::At(register),
        Held::Named(block, object) => Held::Named(block, object),
        Held::NamedBeyond(block, object, _) => Held::Named(block, object),
        Held::Void => Held::Void,
    }
}

/// Whether a type is `void`.
pub fn is_void(t: &CType) -> bool
    ensures { result ≡ meaning.is_void t.now }
{
    match t {
        CType::Void(_) => true,
        CType::Int(_, _)
        | CType::Pointer(_, _)
        | CType::Array(_, _)
        | CType::Struct(_, _)
        | CType::Function(_) => false,
    }
}

/// Whether what a place of a type holds is read where it is used as a value, or its address is taken; else it stays a place.
pub fn is_read(t: &CType) -> bool
    ensures { result ≡ spec.is_read t.now }
{
    match t {
        CType::Void(_) => false,
        CType::Int(_, _) => true,
        CType::Pointer(_, _) => true,
        CType::Array(_, _) => true,
        CType::Struct(_, _) => false,
        CType::Function(_) => true,
    }
}
