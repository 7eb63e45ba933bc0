// The sizes of a tree that the parser made.
ghost use Rattle.std.specs.Prelude.{◌≡◌, ◌+◌, ◌≤◌, true, IfOk};
ghost use Rattle.sc_tree.specs.Room.{room_of};
ghost use Rattle.sc_tree.specs.Nodes.{expression_nodes, init_declarator_nodes, initial_nodes, specifiers_nodes, unit_nodes};

use super::reading::answer;
use sc_base::{Items, NoMemory, Shared};
use sc_parse_expr::{Found, Refused};
use sc_tree::{
    Declaration, Declarator, Expr, External, InitDeclarator, Initializer, Specifiers, TypeWord,
    Unit, node_count, room,
};
use std::alloc::Global;
use std::test::Fail;

fn is_leaf(e: &Expr) -> bool
    ensures room { result ≡ true → room_of e.now ≡ 1 }
    ensures nodes { result ≡ true → expression_nodes e.now ≡ 1 }
{
    matches!(e, Expr::Name(_, _) | Expr::Constant(_, _))
}

fn is_small_sum(e: &Expr) -> bool
    ensures room { result ≡ true → room_of e.now ≤ 2 }
    ensures nodes { result ≡ true → expression_nodes e.now ≤ 3 }
{
    match e {
        Expr::Binary(_, _, a, b) => is_leaf(a.get()) && is_leaf(b.get()),
        _ => false,
    }
}

// A call of a name with a sum of two leaves, so that its sizes are small.
fn is_small_call(e: &Expr) -> bool
    ensures room { result ≡ true → room_of e.now ≤ 3 }
    ensures nodes { result ≡ true → initial_nodes e.now ≤ 6 }
{
    match e {
        Expr::Call(_, f, args) => match args.as_slice() {
            [a] => is_leaf(f.get()) && is_small_sum(a.get()),
            _ => false,
        },
        _ => false,
    }
}

fn specifiers(alloc: Global) -> Result<Specifiers, NoMemory>
    ensures { IfOk result (λ v. specifiers_nodes v ≡ 1) }
{
    let mut words = Items::new(alloc);
    words.push(TypeWord::Int)?;
    Ok(Specifiers {
        line: 1,
        storage: None,
        constant: false,
        words,
    })
}

fn declared(alloc: Global, tree: Shared<Expr>) -> InitDeclarator
    ensures { init_declarator_nodes result ≡ 1 + initial_nodes tree }
{
    InitDeclarator {
        line: 1,
        declarator: Declarator {
            line: 1,
            identifier: None,
            derivations: Items::new(alloc),
        },
        initializer: Some(Initializer::Expression(1, tree)),
    }
}

// The unit in which `int` and a declarator are initialised by the tree.
fn unit_with(alloc: Global, tree: Shared<Expr>) -> Result<Unit, NoMemory>
    ensures { IfOk result (λ u. unit_nodes u ≡ 2 + initial_nodes tree) }
{
    let mut declarators = Items::new(alloc);
    declarators.push(declared(alloc, tree))?;
    let declaration = Declaration {
        line: 1,
        specifiers: specifiers(alloc)?,
        declarators,
    };
    let mut items = Items::new(alloc);
    items.push(External::Declaration(declaration))?;
    Ok(Unit { items })
}

// The room of the tree, and the nodes of a unit with it.
fn sizes(alloc: Global, answer: Result<Found, Refused>) -> Option<(u32, u64)> {
    let Ok(found) = answer else {
        return None;
    };
    if !is_small_call(found.tree.get()) {
        return None;
    }
    let room = room(found.tree.get());
    match unit_with(alloc, found.tree) {
        Ok(unit) => Some((room, node_count(&unit))),
        Err(_) => None,
    }
}

#[test]
fn sizes_of_a_call(rt: HostRuntime) -> Result<(), Fail> {
    let alloc = rt.alloc();
    assert!(rt; sizes(alloc, answer(alloc, "f(n + 1)")) == Some((3, 8)));
    Ok(())
}
