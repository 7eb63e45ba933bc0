// The labels that stand in the lists of a statement's blocks.
ghost use Rattle.std.specs.Prelude.{◌≡◌, ◌++◌, map, OnOk};
ghost use Rattle.sc_core_labels.specs.Targets as spec;

use sc_base::{NoMemory, Shared};
use sc_core::{CoreStmt, LabelAt};

fn put_list(found: &mut Vec<(u32, u32)>, block: u32, labels: &[LabelAt]) -> Result<(), NoMemory>
    ensures { OnOk result (found.new.items ≡ found.old.items ++ map (spec.target block) labels.now) }
{
    for l in labels {
        found.push((l.label, block))?;
    }
    Ok(())
}

/// Puts the labels behind those that are found.
#[cycle(statements)]
pub(crate) fn put_statement(found: &mut Vec<(u32, u32)>, s: &CoreStmt) -> Result<(), NoMemory>
    ensures { OnOk result (found.new.items ≡ found.old.items ++ spec.labels_of s.now) }
{
    match s {
        CoreStmt::Block(_, block, labels, items) => {
            put_list(found, *block, labels.as_slice())?;
            put_statements(found, items.as_slice())
        }
        CoreStmt::If(_, _, s, None) => put_statement(found, s.get()),
        CoreStmt::If(_, _, s, Some(t)) => {
            put_statement(found, s.get())?;
            put_statement(found, t.get())
        }
        CoreStmt::Switch(_, _, _, s) => put_statement(found, s.get()),
        CoreStmt::While(_, _, s) => put_statement(found, s.get()),
        CoreStmt::Do(_, s, _, _) => put_statement(found, s.get()),
        CoreStmt::For(_, _, _, _, s) => put_statement(found, s.get()),
        CoreStmt::Case(_, s) => put_statement(found, s.get()),
        CoreStmt::Default(_, s) => put_statement(found, s.get()),
        CoreStmt::Label(_, s) => put_statement(found, s.get()),
        _ => Ok(()),
    }
}

#[cycle(statements)]
fn put_statements(found: &mut Vec<(u32, u32)>, items: &[Shared<CoreStmt>]) -> Result<(), NoMemory>
    ensures { OnOk result (found.new.items ≡ found.old.items ++ spec.all_of (map spec.labels_of items.now)) }
{
    for s in items {
        put_statement(found, s.get())?;
    }
    Ok(())
}
