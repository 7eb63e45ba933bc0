// Texts that grow by parts.
ghost use Rattle.std.specs.Prelude.{◌≡◌, ◌++◌, IfOk, OnOk, decimal};

use sc_base::NoMemory;
use std::alloc::Global;

/// Puts bytes behind a text.
pub fn put(text: &mut Vec<u8>, bytes: &[u8]) -> Result<(), NoMemory>
    ensures { OnOk result (text.new.items ≡ text.old.items ++ bytes.now) }
{
    text.extend_from_slice(bytes)?;
    Ok(())
}

/// Puts a number behind a text, in decimal.
pub fn put_number(text: &mut Vec<u8>, alloc: Global, number: u64) -> Result<(), NoMemory>
    ensures { OnOk result (text.new.items ≡ text.old.items ++ decimal number) }
{
    let digits = number.to_string(alloc)?;
    put(text, digits.as_bytes())
}

/// Words, and a number behind them.
pub fn with_number(alloc: Global, front: &[u8], number: u32) -> Result<Vec<u8>, NoMemory>
    ensures { IfOk result (λ text. text.items ≡ front.now ++ decimal number) }
{
    let mut text = Vec::from_slice(alloc, front)?;
    put_number(&mut text, alloc, u64::from(number))?;
    Ok(text)
}
