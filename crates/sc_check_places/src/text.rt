// A string that initialises an array of characters (ANSI 3.5.7).
ghost use Rattle.std.specs.Prelude.{◌≡◌, ◌≤◌, length, IfOk};
ghost use Rattle.sc_check_declare.specs.Outcomes.{Meets};
ghost use Rattle.sc_check_places.specs.Texts as spec;

use sc_base::{Bytes, NoMemory};
use sc_check_declare::{Failure, Reason, refusal};
use sc_types::MAX_OBJECT;
use std::alloc::Global;

/// What a string gives an array of characters: the array's length, the bytes from its beginning, and how many zero
/// bytes follow.
#[derive(Drop)]
pub struct Text {
    pub length: u32,
    pub bytes: Bytes,
    pub zeros: u32,
}

fn terminated(alloc: Global, bytes: &[u8]) -> Result<Vec<u8>, NoMemory>
    ensures { IfOk result (λ all. all.items ≡ spec.terminated bytes.now) }
{
    let mut all = Vec::from_slice(alloc, bytes)?;
    all.push(0)?;
    Ok(all)
}

/// A string for an array of characters of this size, 0 where it is unknown: X7 where a byte other than the zero byte at its
/// end has no place, X10 `size` where the array is too large.
pub fn text_for(alloc: Global, line: u32, size: u32, bytes: &Bytes) -> Result<Text, Failure>
    ensures { Meets (spec.text line size bytes.now) result }
{
    let given = bytes.as_slice().len();
    if size != 0 && (size as usize) < given {
        return Err(refusal(Reason::Rule, line));
    }
    if size == 0 && given >= MAX_OBJECT as usize {
        return Err(refusal(Reason::Size, line));
    }
    let all = terminated(alloc, bytes.as_slice())?;
    Ok(fitted(size, all))
}

fn fitted(size: u32, all: Vec<u8>) -> Text
    requires { size ≡ 0 → length all.items ≤ MAX_OBJECT }
    ensures { result ≡ spec.fitted size all.items }
{
    let mut all = all;
    let given = all.len();
    if size == 0 {
        return Text {
            length: given as u32,
            bytes: Bytes::from_vec(all),
            zeros: 0,
        };
    }
    all.truncate(size as usize);
    Text {
        length: size,
        bytes: Bytes::from_vec(all),
        zeros: (size as usize).saturating_sub(given) as u32,
    }
}
