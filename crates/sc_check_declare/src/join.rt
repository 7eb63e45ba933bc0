// The composite of two compatible types (ANSI 3.1.2.6).
ghost use Rattle.std.specs.Prelude.{◌≡◌, IfOk};
ghost use Rattle.sc_check_declare.specs.Composites as spec;

use sc_base::{Duplicate, Items, NoMemory, Shared};
use sc_types::{CType, Signature};
use std::alloc::Global;

fn pointer(alloc: Global, target: CType, constant: bool) -> Result<CType, NoMemory>
    ensures { IfOk result (λ t. t ≡ CType.Pointer target constant) }
{
    Ok(CType::Pointer(Shared::new(alloc, target)?, constant))
}

fn array(alloc: Global, element: CType, length: u32) -> Result<CType, NoMemory>
    ensures { IfOk result (λ t. t ≡ CType.Array element length) }
{
    Ok(CType::Array(Shared::new(alloc, element)?, length))
}

fn function(alloc: Global, signature: Signature) -> Result<CType, NoMemory>
    ensures { IfOk result (λ t. t ≡ CType.Function signature) }
{
    Ok(CType::Function(Shared::new(alloc, signature)?))
}

/// What two compatible types say together: an array's size where one of them has it, in each part.
#[cycle(composite)]
pub fn composite(alloc: Global, a: &CType, b: &CType) -> Result<CType, NoMemory>
    ensures { IfOk result (λ t. t ≡ spec.composite a.now b.now) }
{
    match a {
        CType::Pointer(x, constant) => match b {
            CType::Pointer(y, _) => {
                pointer(alloc, composite(alloc, x.get(), y.get())?, *constant)
            }
            _ => b.copy(alloc),
        },
        CType::Array(x, n) => match b {
            CType::Array(y, m) => {
                array(alloc, composite(alloc, x.get(), y.get())?, (*n).max(*m))
            }
            _ => b.copy(alloc),
        },
        CType::Function(f) => match b {
            CType::Function(g) => function(alloc, signatures(alloc, f.get(), g.get())?),
            _ => b.copy(alloc),
        },
        _ => b.copy(alloc),
    }
}

#[cycle(composite)]
fn signatures(alloc: Global, f: &Signature, g: &Signature) -> Result<Signature, NoMemory>
    ensures { IfOk result (λ s. s ≡ spec.signature f.now g.now) }
{
    let result = composite(alloc, &f.result, &g.result)?;
    let params = parameters(alloc, f.params.as_slice(), g.params.as_slice())?;
    Ok(Signature {
        result,
        params,
        variadic: g.variadic,
    })
}

#[cycle(composite)]
fn parameters(alloc: Global, ps: &[CType], qs: &[CType]) -> Result<Items<CType>, NoMemory>
    ensures { IfOk result (λ all. all ≡ spec.parameters ps.now qs.now) }
{
    let mut all = Items::new(alloc);
    for (i, p) in ps.iter().enumerate() {
        let Some(q) = qs.get(i) else {
            return Ok(all);
        };
        all.push(composite(alloc, p, q)?)?;
    }
    Ok(all)
}
