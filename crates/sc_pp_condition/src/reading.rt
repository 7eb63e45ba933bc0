ghost use Rattle.std.specs.Prelude.{◌≡◌, ⊤, IfOk, IsErrOf};
ghost use Rattle.sc_pp_condition.specs.Machine.{step};
ghost use Rattle.sc_pp_condition.specs.Steps.{Finishes};
ghost use Rattle.sc_pp_condition.specs.Grammar.{IsExpression};
ghost use Rattle.sc_pp_condition.specs.declared.machine.Term.TheVariants as t;

use crate::machine::{self, Frame, State, Term, Trouble};
use crate::operand::Operand;
use sc_base::Stack;
use std::alloc::Global;

fn finish(frames: &mut Stack<Frame>, state: State) -> Result<Operand, Trouble>
    ensures { Finishes (step t.End (frames.old, state)) result }
{
    match machine::step(Term::End, frames, state) {
        Ok(State::Done(x)) => Ok(x),
        Ok(_) => Err(Trouble::Syntax),
        Err(trouble) => Err(trouble),
    }
}

/// What the terms come to where they are an expression of `#if` (ANSI 3.4, 3.8.1).
pub fn expression(alloc: Global, terms: &[Term]) -> Result<Operand, Trouble>
    // They are an expression that comes to this,
    ensures found { IfOk result (λ x. IsExpression terms.now x) }
    // and to nothing else.
    ensures only { IfOk result (λ x. (y : Operand) → IsExpression terms.now y → x ≡ y) }
    // Where the syntax is refused they are none.
    ensures syntax { IsErrOf result Trouble.Syntax → (x : Operand) → IsExpression terms.now x → ⊥ }
{
    let mut frames = Stack::new(alloc);
    let mut state = State::Need;
    for term in terms {
        match machine::step(*term, &mut frames, state) {
            Ok(next) => state = next,
            Err(trouble) => return Err(trouble),
        }
    }
    finish(&mut frames, state)
}
