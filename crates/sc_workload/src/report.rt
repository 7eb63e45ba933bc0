// What is told of the run of the modules.
ghost use Rattle.std.specs.Prelude.{◌≡◌, IfOk, length};
ghost use Rattle.std.specs.List.{filter};
ghost use Rattle.sc_workload.specs.Made as spec;

use crate::text::{put, put_number, with_number};
use sc_base::NoMemory;
use std::alloc::Global;

fn line_feeds(text: &[u8]) -> usize
    ensures { result ≡ length (filter spec.is_line_feed text.now) }
{
    text.iter().filter(|b| **b == b'\n').count()
}

// How many modules there were, and how often they ran.
fn runs_told(alloc: Global, count: u32) -> Result<Vec<u8>, NoMemory>
    ensures { IfOk result (λ text. text.items ≡ spec.runs_told count) }
{
    let mut text = with_number(alloc, b"> made ", count)?;
    put(&mut text, b" modules ")?;
    put_number(&mut text, alloc, u64::from(count) + 2)?;
    put(&mut text, b" runs ")?;
    Ok(text)
}

/// The line that tells of so many modules whose commands were answered with this text.
pub fn made_line(alloc: Global, count: u32, answered: &[u8]) -> Result<Vec<u8>, NoMemory>
    ensures { IfOk result (λ line. line.items ≡ spec.made_line count answered.now) }
{
    let mut text = runs_told(alloc, count)?;
    put_number(&mut text, alloc, line_feeds(answered) as u64)?;
    put(&mut text, b" lines ")?;
    put_number(&mut text, alloc, answered.len() as u64)?;
    put(&mut text, b" bytes\n")?;
    Ok(text)
}
