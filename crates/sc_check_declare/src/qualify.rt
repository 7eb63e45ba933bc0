// The qualifier of types (ANSI 3.5.3).
ghost use Rattle.std.specs.Prelude.{◌≡◌, IfOk};
ghost use Rattle.sc_check_declare.specs.Qualifiers as spec;

use sc_base::{NoMemory, Shared};
use sc_types::CType;
use std::alloc::Global;

fn array(alloc: Global, element: CType, length: u32) -> Result<CType, NoMemory>
    ensures { IfOk result (λ t. t ≡ CType.Array element length) }
{
    Ok(CType::Array(Shared::new(alloc, element)?, length))
}

/// The `const` type. Of an array the elements are `const`; a function has no qualifier.
pub fn qualified(alloc: Global, of: &CType) -> Result<CType, NoMemory>
    ensures { IfOk result (λ t. t ≡ spec.qualified of.now) }
{
    match of {
        CType::Void(_) => Ok(CType::Void(true)),
        CType::Int(kind, _) => Ok(CType::Int(*kind, true)),
        CType::Pointer(target, _) => Ok(CType::Pointer(target.share()?, true)),
        CType::Array(element, length) => array(alloc, qualified(alloc, element.get())?, *length),
        CType::Struct(id, _) => Ok(CType::Struct(*id, true)),
        CType::Function(signature) => Ok(CType::Function(signature.share()?)),
    }
}

/// The type, `const` where specifiers say so.
pub fn with_const(alloc: Global, constant: bool, of: CType) -> Result<CType, NoMemory>
    ensures { IfOk result (λ t. t ≡ spec.with_const constant of) }
{
    if constant {
        qualified(alloc, &of)
    } else {
        Ok(of)
    }
}

/// The type without its own qualifier.
pub fn unqualified(of: CType) -> CType
    ensures { result ≡ spec.unqualified of }
{
    match of {
        CType::Void(_) => CType::Void(false),
        CType::Int(kind, _) => CType::Int(kind, false),
        CType::Pointer(target, _) => CType::Pointer(target, false),
        CType::Array(element, length) => CType::Array(element, length),
        CType::Struct(id, _) => CType::Struct(id, false),
        CType::Function(signature) => CType::Function(signature),
    }
}

/// Whether an object of this type is `const`: an array where its elements are.
pub fn is_constant(of: &CType) -> bool
    ensures { result ≡ spec.is_constant of.now }
{
    match of {
        CType::Void(constant) => *constant,
        CType::Int(_, constant) => *constant,
        CType::Pointer(_, constant) => *constant,
        CType::Array(element, _) => is_constant(element.get()),
        CType::Struct(_, constant) => *constant,
        CType::Function(_) => false,
    }
}
