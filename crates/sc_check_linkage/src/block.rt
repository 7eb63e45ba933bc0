// The keys of a block's static objects.
ghost use Rattle.std.specs.Prelude.{◌≡◌, IfOk, decimal};
ghost use Rattle.sc_check_linkage.specs.Keys as spec;

use sc_base::{Duplicate, Key, Name, NoMemory};
use std::alloc::Global;

fn numeral(alloc: Global, count: u32) -> Result<Vec<u8>, NoMemory>
    ensures { IfOk result (λ digits. digits.items ≡ decimal count) }
{
    match count.to_string(alloc) {
        Ok(digits) => Ok(Vec::from_slice(alloc, digits.as_bytes())?),
        Err(_) => Err(NoMemory),
    }
}

fn block_name(
    alloc: Global,
    function: &Name,
    object: &Name,
    count: u32,
) -> Result<Vec<u8>, NoMemory>
    ensures { IfOk result (λ name. name.items ≡ spec.block_name function.now object.now count) }
{
    let digits = numeral(alloc, count)?;
    let mut name = Vec::from_slice(alloc, function.as_slice())?;
    name.extend_from_slice(b".")?;
    name.extend_from_slice(object.as_slice())?;
    name.extend_from_slice(b".")?;
    name.extend_from_slice(digits.as_slice())?;
    Ok(name)
}

/// The key of a `static` object of a block, which has internal linkage: `count` says how many of this name the function had
/// before. Names of the source have at most 63 bytes, so that the key's name has fewer than 255; a longer one is answered as want
/// of memory.
pub fn block_key(
    alloc: Global,
    home: &Name,
    function: &Name,
    object: &Name,
    count: u32,
) -> Result<Key, NoMemory>
    ensures { IfOk result (λ key. key ≡ spec.block_key home.now function.now object.now count) }
{
    let name = block_name(alloc, function, object, count)?;
    let module = Some(home.copy(alloc)?);
    match Name::new(alloc, name.as_slice()) {
        Ok(name) => Ok(Key { module, name }),
        Err(_) => Err(NoMemory),
    }
}
