// Each `#if` is told whether an `#endif` closes it.
ghost use Rattle.std.specs.Prelude.{◌≡◌, ◌<◌, [], IfOk};
ghost use Rattle.sc_pp.specs.Closed.{Ready};
ghost use Rattle.sc_pp.specs.Lines as spec;

use crate::line::Line;
use sc_base::{NoMemory, Stack};
use std::alloc::Global;

fn unmatched(count: usize, line: &Line) -> usize
    requires { count < usize.MAX }
    ensures { result ≡ spec.unmatched count line.now }
{
    match line {
        Line::If(_, _) => count.saturating_sub(1),
        Line::Endif(_) => count + 1,
        Line::Plain(_) => count,
        Line::Elif(_) => count,
        Line::Else(_) => count,
        Line::Broken(_) => count,
    }
}

fn matched(count: usize, line: Line) -> Line
    ensures { result ≡ spec.matched count line }
{
    match line {
        Line::If(directive, _) => Line::If(directive, count > 0),
        Line::Plain(directive) => Line::Plain(directive),
        Line::Elif(directive) => Line::Elif(directive),
        Line::Else(directive) => Line::Else(directive),
        Line::Endif(directive) => Line::Endif(directive),
        Line::Broken(refusal) => Line::Broken(refusal),
    }
}

/// Lines with the last on top, turned round: the first is on top then.
#[tactic(auto, using(crate::proofs::Matched::done_ready))]
pub fn matching(alloc: Global, lines: Stack<Line>) -> Result<Stack<Line>, NoMemory>
    ensures lines { IfOk result (λ done. done ≡ spec.matching 0 [] lines) }
    ensures ready { IfOk result (λ done. Ready done) }
{
    let mut lines = lines;
    let mut done = Stack::new(alloc);
    let mut count: usize = 0;
    'lines: while let Some(line) = lines.pop() {
        if count >= usize::MAX {
            return Err(NoMemory);
        }
        let next = unmatched(count, &line);
        done.push(matched(count, line))?;
        count = next;
    }
    Ok(done)
}
