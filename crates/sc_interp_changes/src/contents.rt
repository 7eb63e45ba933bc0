// Initial contents of two objects, compared byte by byte (ANSI 3.5.7).
ghost use Rattle.std.specs.Prelude.{◌≡◌, ◌++◌, ◌∷◌, [], replicate, IfOk};
ghost use Rattle.sc_core.specs.declared.module.Init.TheVariants as init;
ghost use Rattle.sc_meaning.specs.Versions as spec;

use sc_base::{Duplicate, Items, NoMemory};
use sc_core::Init;
use sc_interp_world::same_id;
use std::alloc::Global;

// So many bytes that are zero.
fn zero_bytes(n: u32, alloc: Global) -> Result<Items<Init>, NoMemory>
    ensures { IfOk result (λ bytes. bytes ≡ replicate n (init.Byte 0)) }
{
    let mut bytes = Items::new(alloc);
    for _ in 0..n {
        bytes.push(Init::Byte(0))?;
    }
    Ok(bytes)
}

fn one_piece(piece: Init, alloc: Global) -> Result<Items<Init>, NoMemory>
    ensures { IfOk result (λ pieces. pieces ≡ piece ∷ []) }
{
    let mut pieces = Items::new(alloc);
    pieces.push(piece)?;
    Ok(pieces)
}

// A run of zero bytes, byte by byte.
fn spread(piece: &Init, alloc: Global) -> Result<Items<Init>, NoMemory>
    ensures { IfOk result (λ pieces. pieces ≡ spec.spread piece.now) }
{
    match piece {
        Init::Byte(b) => one_piece(Init::Byte(*b), alloc),
        Init::Zeros(n) => zero_bytes(*n, alloc),
        Init::Address(id, at) => one_piece(Init::Address(id.copy(alloc)?, *at), alloc),
    }
}

fn spread_all(pieces: &[Init], alloc: Global) -> Result<Items<Init>, NoMemory>
    ensures { IfOk result (λ all. all ≡ spec.spread_all pieces.now) }
{
    let mut all = Items::new(alloc);
    for piece in pieces {
        all.append(spread(piece, alloc)?)?;
    }
    Ok(all)
}

fn same_piece(a: &Init, b: &Init) -> bool
    ensures { result ≡ spec.same_piece a.now b.now }
{
    match (a, b) {
        (Init::Byte(m), Init::Byte(n)) => *m == *n,
        (Init::Address(x, i), Init::Address(y, j)) => same_id(x, y) && *i == *j,
        _ => false,
    }
}

fn same_pieces(left: &[Init], right: &[Init]) -> bool
    ensures { result ≡ spec.same_pieces left.now right.now }
{
    let mut rest = right;
    for a in left {
        let [b, more @ ..] = rest else { return false };
        if !same_piece(a, b) {
            return false;
        }
        rest = more;
    }
    rest.is_empty()
}

/// Whether two objects have the same initial contents, byte by byte.
pub fn same_contents(alloc: Global, left: &[Init], right: &[Init]) -> Result<bool, NoMemory>
    ensures { IfOk result (λ same. same ≡ spec.same_contents left.now right.now) }
{
    let left = spread_all(left, alloc)?;
    let right = spread_all(right, alloc)?;
    Ok(same_pieces(left.as_slice(), right.as_slice()))
}
