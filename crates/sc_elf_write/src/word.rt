// Numbers as bytes.
ghost use Rattle.std.specs.Prelude.{◌≡◌, ◌++◌, OnOk};
ghost use Rattle.sc_object.specs.Words.{half, word};

use sc_base::NoMemory;

/// Appends the low 16 bits of a number.
pub fn put_half(bytes: &mut Vec<u8>, n: usize) -> Result<(), NoMemory>
    ensures { OnOk result (bytes.new.items ≡ bytes.old.items ++ half n) }
{
    let two = [(n % 256) as u8, (n / 256 % 256) as u8];
    bytes.extend_from_slice(two.as_slice())?;
    Ok(())
}

/// Appends the low 32 bits of a number.
pub fn put_word(bytes: &mut Vec<u8>, n: usize) -> Result<(), NoMemory>
    ensures { OnOk result (bytes.new.items ≡ bytes.old.items ++ word n) }
{
    let four = [
        (n % 256) as u8,
        (n / 256 % 256) as u8,
        (n / 65536 % 256) as u8,
        (n / 16777216 % 256) as u8,
    ];
    bytes.extend_from_slice(four.as_slice())?;
    Ok(())
}
