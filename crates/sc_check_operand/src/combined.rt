// The composite type of two compatible types (ANSI 3.1.2.6).
ghost use Rattle.std.specs.Prelude.{◌≡◌, IfOk};
ghost use Rattle.sc_check_operand.specs.Composite as spec;

use sc_base::{Duplicate, Items, NoMemory, Shared};
use sc_types::{CType, Signature};
use std::alloc::Global;

fn known_length(n: u32, m: u32) -> u32
    ensures { result ≡ spec.known_length n m }
{
    if n == 0 { m } else { n }
}

fn pointer_to(alloc: Global, target: CType, c: bool) -> Result<CType, NoMemory>
    ensures { IfOk result (λ r. r ≡ CType.Pointer target c) }
{
    Ok(CType::Pointer(Shared::new(alloc, target)?, c))
}

fn array_of(alloc: Global, element: CType, n: u32) -> Result<CType, NoMemory>
    ensures { IfOk result (λ r. r ≡ CType.Array element n) }
{
    Ok(CType::Array(Shared::new(alloc, element)?, n))
}

fn function_of(alloc: Global, signature: Signature) -> Result<CType, NoMemory>
    ensures { IfOk result (λ r. r ≡ CType.Function signature) }
{
    Ok(CType::Function(Shared::new(alloc, signature)?))
}

/// The composite of two compatible types: the second, with the array sizes that only the first has.
#[cycle(composite)]
pub fn composite(alloc: Global, a: &CType, b: &CType) -> Result<CType, NoMemory>
    ensures { IfOk result (λ r. r ≡ spec.composite a.now b.now) }
{
    match a {
        CType::Pointer(x, _) => match b {
            CType::Pointer(y, d) => {
                let target = composite(alloc, x.get(), y.get())?;
                pointer_to(alloc, target, *d)
            }
            _ => b.copy(alloc),
        },
        CType::Array(x, n) => match b {
            CType::Array(y, m) => {
                let element = composite(alloc, x.get(), y.get())?;
                array_of(alloc, element, known_length(*n, *m))
            }
            _ => b.copy(alloc),
        },
        CType::Function(f) => match b {
            CType::Function(g) => {
                let signature = signatures(alloc, f.get(), g.get())?;
                function_of(alloc, signature)
            }
            _ => b.copy(alloc),
        },
        _ => b.copy(alloc),
    }
}

#[cycle(composite)]
fn signatures(alloc: Global, f: &Signature, g: &Signature) -> Result<Signature, NoMemory>
    ensures { IfOk result (λ r. r ≡ spec.joined_signature f.now g.now) }
{
    let result_type = composite(alloc, &f.result, &g.result)?;
    let params = parameters(alloc, f.params.as_slice(), g.params.as_slice())?;
    Ok(Signature {
        result: result_type,
        params,
        variadic: g.variadic,
    })
}

#[cycle(composite)]
fn parameters(alloc: Global, ps: &[CType], qs: &[CType]) -> Result<Items<CType>, NoMemory>
    ensures { IfOk result (λ r. r ≡ spec.joined_parameters ps.now qs.now) }
{
    let n = ps.len().min(qs.len());
    let mut joined = Items::new(alloc);
    for i in 0..n {
        let param = composite(alloc, &ps[i], &qs[i])?;
        joined.push(param)?;
    }
    Ok(joined)
}
