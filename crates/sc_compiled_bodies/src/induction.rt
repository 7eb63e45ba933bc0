// The induction on trees. Each function here does nothing: its contract is the law.
ghost use Rattle.std.specs.Prelude.{List, suc, ℕ};
ghost use Rattle.sc_compiled_expressions.specs.Standing.{Home};
ghost use Rattle.sc_compiled_expressions.specs.Called.{CallsReturn};
ghost use Rattle.sc_compiled_bodies.specs.Induction.{ExpressionStep, ExpressionsGive};

/// What holds of all trees of one depth if it holds of those that are less deep, and of calls that return sooner, holds of all trees.
#[tactic(auto, using(crate::proofs::Trees::trees))]
pub fn trees_by_their_depth()
    ensures { (home : Home) (around : List ℕ) (most : ℕ) → ((deep : ℕ) → ExpressionStep home around most deep) → CallsReturn home.from most → (deep : ℕ) → ExpressionsGive home around (suc most) deep }
{}
