// Which arguments a call gives away to their expansion.
ghost use Rattle.std.specs.Prelude.{◌≡◌, false, slice_set, IfOk};
ghost use Rattle.sc_macro.specs.Moving as spec;

use crate::macros::Part;
use sc_base::{Items, NoMemory};
use std::alloc::Global;

/// Takes the flag with this number away, where there is one.
fn unset(flags: &mut Items<bool>, number: usize)
    ensures { flags.new ≡ slice_set flags.old number false }
{
    if number < flags.len() {
        flags.set(number, false);
    }
}

fn keep_part(flags: &mut Items<bool>, part: &Part)
    ensures { flags.new ≡ spec.kept_by flags.old part.now }
{
    match part {
        Part::Word(_) => (),
        Part::Parameter { number, .. } => unset(flags, *number),
        Part::Quoted { number, .. } => unset(flags, *number),
    }
}

fn keep_parts(flags: &mut Items<bool>, parts: &[Part])
    ensures { flags.new ≡ spec.kept_by_all flags.old parts.now }
{
    let mut left = parts;
    'keeping: while let Some((part, rest)) = left.split_first() {
        keep_part(flags, part);
        left = rest;
    }
}

fn keep_chain(flags: &mut Items<bool>, chain: &[Part])
    ensures { flags.new ≡ spec.kept_by_chain flags.old chain.now }
{
    match chain {
        [Part::Parameter { .. }] => (),
        _ => keep_parts(flags, chain),
    }
}

/// Of the arguments that are wanted expanded, those that no `#` and no `##` wants as they are written. They need not be
/// copied.
pub fn movable(
    alloc: Global,
    wanted: &[bool],
    chains: &[Items<Part>],
) -> Result<Items<bool>, NoMemory>
    ensures { IfOk result (λ flags. flags ≡ spec.movable wanted.now chains.now) }
{
    let mut flags = Items::from_vec(Vec::from_slice(alloc, wanted)?);
    let mut left = chains;
    'keeping: while let Some((chain, rest)) = left.split_first() {
        keep_chain(&mut flags, chain.as_slice());
        left = rest;
    }
    Ok(flags)
}
