// A text becomes lines.
ghost use Rattle.std.specs.Prelude.{◌≡◌, ◌≤◌, length, IfOk};
ghost use Rattle.sc_pp.specs.Closed.{Ready};
ghost use Rattle.sc_pp.specs.Scans as spec;

use crate::line::Line;
use crate::matching::matching;
use crate::splitter::lines_of;
use sc_base::{NoMemory, Stack};
use sc_lex::cut;
use std::alloc::Global;

/// The lines of a text, the first on top.
#[tactic(auto, unfolding(crate::specs::Scans::scanned))]
pub fn scan(alloc: Global, number: u32, text: &[u8]) -> Result<Stack<Line>, NoMemory>
    requires { length text.now ≤ 1048576 }
    ensures lines { IfOk result (λ lines. lines ≡ spec.scanned number text.now) }
    ensures ready { IfOk result (λ lines. Ready lines) }
{
    let whole = cut(alloc, text, number)?;
    let lines = lines_of(alloc, whole)?;
    matching(alloc, lines)
}
