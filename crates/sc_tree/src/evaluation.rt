// The room of an expression.
ghost use Rattle.std.specs.Prelude.{◌≡◌, ◌<◌, ◌^◌, map};
ghost use Rattle.sc_tree.specs.Room.{room_of, in_order};

use crate::expression::Expr;
use sc_base::Shared;

/// How many words the evaluation of an expression keeps at once: 1 for a leaf, `sizeof` among them, and for an
/// operator or call the greatest sum of an operand's room and the number of operands before it. The function is the
/// first operand of a call.
#[cycle(room)]
pub fn room(e: &Expr) -> u32
    requires { room_of e.now < 2 ^ 32 }
    ensures { result ≡ room_of e.now }
{
    match e {
        Expr::Name(_, _) | Expr::Constant(_, _) | Expr::String(_, _) | Expr::OffsetOf(_, _, _) => 1,
        Expr::SizeOf(_, _) | Expr::SizeOfType(_, _) => 1,
        Expr::Member(_, a, _) | Expr::Arrow(_, a, _) => room(a.get()),
        Expr::Postfix(_, _, a) => room(a.get()),
        Expr::Unary(_, _, a) => room(a.get()),
        Expr::Cast(_, _, a) => room(a.get()),
        Expr::Index(_, a, b) | Expr::Comma(_, a, b) => room(a.get()).max(room(b.get()) + 1),
        Expr::Binary(_, _, a, b) => room(a.get()).max(room(b.get()) + 1),
        Expr::Assign(_, _, a, b) => room(a.get()).max(room(b.get()) + 1),
        Expr::Conditional(_, a, b, c) => room(a.get())
            .max(room(b.get()) + 1)
            .max(room(c.get()) + 2),
        Expr::Call(_, f, args) => room(f.get()).max(arguments(args.as_slice())),
    }
}

/// The room of the arguments, behind the function.
#[cycle(room)]
fn arguments(args: &[Shared<Expr>]) -> u32
    requires { in_order 1 (map room_of args.now) < 2 ^ 32 }
    ensures { result ≡ in_order 1 (map room_of args.now) }
{
    let mut most = 0;
    let mut before = 0;
    for arg in args {
        before += 1;
        most = most.max(room(arg.get()) + before);
    }
    most
}
