// The places in statements.
ghost use Rattle.std.specs.Prelude.{◌≡◌, OnOk, map};
ghost use Rattle.sc_xref.specs.Walks as spec;

use crate::declarations::walk_block_declarations;
use crate::expressions::walk_expr;
use crate::walk::Walk;
use sc_base::{NoMemory, Shared};
use sc_tree::{Expr, Statement};
use std::alloc::Global;

fn walk_if(walk: &mut Walk, alloc: Global, e: &Option<Shared<Expr>>) -> Result<(), NoMemory>
    ensures { OnOk result (walk.new ≡ spec.expr_if e.now walk.old) }
{
    match e {
        Some(e) => walk_expr(walk, alloc, e.get()),
        None => Ok(()),
    }
}

/// A statement.
#[cycle(statements)]
pub fn walk_statement(walk: &mut Walk, alloc: Global, s: &Statement) -> Result<(), NoMemory>
    ensures { OnOk result (walk.new ≡ spec.statement_walk s.now walk.old) }
{
    match s {
        Statement::Block(_, declarations, statements) => {
            let before = walk.names.len();
            walk_block_declarations(walk, alloc, declarations.as_slice())?;
            walk_statements(walk, alloc, statements.as_slice())?;
            walk.names.truncate(before);
            Ok(())
        }
        Statement::Expression(_, e) => walk_expr(walk, alloc, e.get()),
        Statement::If(_, e, s, None) => {
            walk_expr(walk, alloc, e.get())?;
            walk_statement(walk, alloc, s.get())
        }
        Statement::If(_, e, s, Some(t)) => {
            walk_expr(walk, alloc, e.get())?;
            walk_statement(walk, alloc, s.get())?;
            walk_statement(walk, alloc, t.get())
        }
        Statement::Switch(_, e, s) => {
            walk_expr(walk, alloc, e.get())?;
            walk_statement(walk, alloc, s.get())
        }
        Statement::While(_, e, s) => {
            walk_expr(walk, alloc, e.get())?;
            walk_statement(walk, alloc, s.get())
        }
        Statement::Do(_, s, _, e) => {
            walk_statement(walk, alloc, s.get())?;
            walk_expr(walk, alloc, e.get())
        }
        Statement::For(_, a, b, c, s) => {
            walk_if(walk, alloc, a)?;
            walk_if(walk, alloc, b)?;
            walk_if(walk, alloc, c)?;
            walk_statement(walk, alloc, s.get())
        }
        Statement::Case(_, e, s) => {
            walk_expr(walk, alloc, e.get())?;
            walk_statement(walk, alloc, s.get())
        }
        Statement::Default(_, s) => walk_statement(walk, alloc, s.get()),
        Statement::Label(_, _, s) => walk_statement(walk, alloc, s.get()),
        Statement::Return(_, e) => walk_if(walk, alloc, e),
        Statement::Empty(_) => Ok(()),
        Statement::Goto(_, _) => Ok(()),
        Statement::Continue(_) => Ok(()),
        Statement::Break(_) => Ok(()),
    }
}

/// Statements, one after another.
#[cycle(statements)]
pub fn walk_statements(walk: &mut Walk, alloc: Global, ss: &[Statement]) -> Result<(), NoMemory>
    ensures { OnOk result (walk.new ≡ spec.steps (map spec.statement_walk ss.now) walk.old) }
{
    for s in ss {
        walk_statement(walk, alloc, s)?;
    }
    Ok(())
}
