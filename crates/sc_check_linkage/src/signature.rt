// The types that `main` and `printf` have (ANSI 2.1.2.2, 4.9.6.3).
ghost use Rattle.std.specs.Prelude.{◌≡◌, IfOk, true, not, ◌&&◌};
ghost use Rattle.sc_check_linkage.specs.Signatures as spec;

use sc_base::{Duplicate, Int, NoMemory, Shared};
use sc_types::{CType, Signature};
use std::alloc::Global;

fn is_plain(kind: Int) -> bool
    ensures { result ≡ spec.is_plain kind }
{
    match kind {
        Int::Int => true,
        _ => false,
    }
}

fn is_char(kind: Int) -> bool
    ensures { result ≡ spec.is_char kind }
{
    match kind {
        Int::Char => true,
        _ => false,
    }
}

fn is_int(of: &CType) -> bool
    ensures { result ≡ spec.is_int of.now }
{
    match of {
        CType::Int(kind, constant) => is_plain(*kind) && !*constant,
        _ => false,
    }
}

fn is_none(params: &[CType]) -> bool
    ensures { result ≡ spec.is_none params.now }
{
    params.is_empty()
}

/// Whether a type is that of `int main(void)`.
pub(crate) fn is_main(of: &CType) -> bool
    ensures { result ≡ spec.is_main of.now }
{
    match of {
        CType::Function(signature) => main_signature(signature.get()),
        _ => false,
    }
}

fn main_signature(s: &Signature) -> bool
    ensures { result ≡ (spec.is_int s.now.result && spec.is_none s.now.params) }
{
    is_int(&s.result) && is_none(s.params.as_slice())
}

fn is_constant_char(of: &CType) -> bool
    ensures { result ≡ spec.is_constant_char of.now }
{
    match of {
        CType::Int(kind, constant) => is_char(*kind) && *constant,
        _ => false,
    }
}

fn is_text(of: &CType) -> bool
    ensures { result ≡ spec.is_text of.now }
{
    match of {
        CType::Pointer(target, constant) => is_constant_char(target.get()) && !*constant,
        _ => false,
    }
}

fn is_one_text(params: &[CType]) -> bool
    ensures { result ≡ spec.is_one_text params.now }
{
    match params {
        [param] => is_text(param),
        _ => false,
    }
}

fn printf_signature(s: &Signature) -> bool
    ensures { result ≡ (spec.is_int s.now.result && spec.is_one_text s.now.params && not s.now.variadic) }
{
    is_int(&s.result) && is_one_text(s.params.as_slice()) && !s.variadic
}

/// Whether a type is that of `int printf(const char *)`.
pub(crate) fn is_printf(of: &CType) -> bool
    ensures { result ≡ spec.is_printf of.now }
{
    match of {
        CType::Function(signature) => printf_signature(signature.get()),
        _ => false,
    }
}

fn with_ellipsis(alloc: Global, s: &Signature) -> Result<CType, NoMemory>
    ensures { IfOk result (λ t. t ≡ CType.Function (record { result = s.now.result; params = s.now.params; variadic = true })) }
{
    let gives = s.result.copy(alloc)?;
    let params = s.params.copy(alloc)?;
    let signature = Signature {
        result: gives,
        params,
        variadic: true,
    };
    Ok(CType::Function(Shared::new(alloc, signature)?))
}

/// The same function with an ellipsis.
pub(crate) fn variadic(alloc: Global, of: &CType) -> Result<CType, NoMemory>
    ensures { IfOk result (λ t. t ≡ spec.variadic of.now) }
{
    match of {
        CType::Function(signature) => with_ellipsis(alloc, signature.get()),
        _ => of.copy(alloc),
    }
}
