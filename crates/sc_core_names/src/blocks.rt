// The names of a function's blocks.
ghost use Rattle.std.specs.Prelude.{◌≡◌, ◌++◌, ◌∷◌, [], map, OnOk, IfOk};
ghost use Rattle.sc_core_names.specs.Names.{joined, first_parameters};
ghost use Rattle.sc_core_names.specs.Scopes as spec;

use crate::names::{put_first, put_in_block};
use crate::table::DeclaredName;
use sc_base::{Items, NoMemory};
use sc_tree::{Block, Declaration, Derivation, Statement};
use std::alloc::Global;

fn scope_of(alloc: Global, declarations: &[Declaration]) -> Result<Items<DeclaredName>, NoMemory>
    ensures { IfOk result (λ scope. scope ≡ spec.scope_of declarations.now) }
{
    let mut names = Vec::new(alloc);
    for d in declarations {
        put_in_block(&mut names, alloc, d)?;
    }
    Ok(Items::from_vec(names))
}

fn put_scope(
    scopes: &mut Vec<Items<DeclaredName>>,
    alloc: Global,
    declarations: &[Declaration],
) -> Result<(), NoMemory>
    ensures { OnOk result (scopes.new.items ≡ scopes.old.items ++ spec.scope_of declarations.now ∷ []) }
{
    let scope = scope_of(alloc, declarations)?;
    scopes.push(scope)?;
    Ok(())
}

#[cycle(statements)]
fn put_statement(
    scopes: &mut Vec<Items<DeclaredName>>,
    alloc: Global,
    s: &Statement,
) -> Result<(), NoMemory>
    ensures { OnOk result (scopes.new.items ≡ scopes.old.items ++ spec.statement_scopes s.now) }
{
    match s {
        Statement::Block(_, declarations, statements) => {
            put_scope(scopes, alloc, declarations.as_slice())?;
            put_statements(scopes, alloc, statements.as_slice())
        }
        Statement::If(_, _, s, None) => put_statement(scopes, alloc, s.get()),
        Statement::If(_, _, s, Some(t)) => {
            put_statement(scopes, alloc, s.get())?;
            put_statement(scopes, alloc, t.get())
        }
        Statement::Switch(_, _, s) => put_statement(scopes, alloc, s.get()),
        Statement::While(_, _, s) => put_statement(scopes, alloc, s.get()),
        Statement::Do(_, s, _, _) => put_statement(scopes, alloc, s.get()),
        Statement::For(_, _, _, _, s) => put_statement(scopes, alloc, s.get()),
        Statement::Case(_, _, s) => put_statement(scopes, alloc, s.get()),
        Statement::Default(_, s) => put_statement(scopes, alloc, s.get()),
        Statement::Label(_, _, s) => put_statement(scopes, alloc, s.get()),
        _ => Ok(()),
    }
}

#[cycle(statements)]
fn put_statements(
    scopes: &mut Vec<Items<DeclaredName>>,
    alloc: Global,
    statements: &[Statement],
) -> Result<(), NoMemory>
    ensures { OnOk result (scopes.new.items ≡ scopes.old.items ++ joined (map spec.statement_scopes statements.now)) }
{
    for s in statements {
        put_statement(scopes, alloc, s)?;
    }
    Ok(())
}

fn parameters_of(alloc: Global, steps: &[Derivation]) -> Result<Items<DeclaredName>, NoMemory>
    ensures { IfOk result (λ scope. scope ≡ first_parameters steps.now) }
{
    let mut names = Vec::new(alloc);
    put_first(&mut names, alloc, steps)?;
    Ok(Items::from_vec(names))
}

/// The scopes of a function's blocks: its parameters, its body, and the blocks inside.
pub fn function_blocks(
    alloc: Global,
    steps: &[Derivation],
    body: &Block,
) -> Result<Items<Items<DeclaredName>>, NoMemory>
    ensures { IfOk result (λ scopes. scopes ≡ first_parameters steps.now ∷ spec.body_scopes body.now) }
{
    let parameters = parameters_of(alloc, steps)?;
    let mut scopes = Vec::new(alloc);
    scopes.push(parameters)?;
    put_scope(&mut scopes, alloc, body.declarations.as_slice())?;
    put_statements(&mut scopes, alloc, body.statements.as_slice())?;
    Ok(Items::from_vec(scopes))
}
