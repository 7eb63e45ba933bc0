// The line of an expression, and what of it is looked at before it is typed.
ghost use Rattle.std.specs.Prelude.{◌≡◌};
ghost use Rattle.sc_check_expr.specs.Typed as spec;

use sc_check_scope::{State, is_register};
use sc_tree::Expr;

/// The line of an expression's first token.
pub fn line_of(e: &Expr) -> u32
    ensures { result ≡ (spec.node e.now).line }
{
    match e {
        Expr::Name(line, _) => *line,
        Expr::Constant(line, _) => *line,
        Expr::String(line, _) => *line,
        Expr::OffsetOf(line, _, _) => *line,
        Expr::Index(line, _, _) => *line,
        Expr::Call(line, _, _) => *line,
        Expr::Member(line, _, _) => *line,
        Expr::Arrow(line, _, _) => *line,
        Expr::Postfix(line, _, _) => *line,
        Expr::Unary(line, _, _) => *line,
        Expr::SizeOf(line, _) => *line,
        Expr::SizeOfType(line, _) => *line,
        Expr::Cast(line, _, _) => *line,
        Expr::Binary(line, _, _, _) => *line,
        Expr::Conditional(line, _, _, _) => *line,
        Expr::Assign(line, _, _, _) => *line,
        Expr::Comma(line, _, _) => *line,
    }
}

/// Whether an expression is the name of an object that is declared `register`, or a member of one by `.` (ANSI 3.3.3.2).
pub(crate) fn in_register(st: &State, e: &Expr) -> bool
    ensures { result ≡ (spec.node e.now).register st.now }
{
    match e {
        Expr::Name(_, n) => is_register(st, n),
        Expr::Member(_, a, _) => in_register(st, a.get()),
        _ => false,
    }
}
