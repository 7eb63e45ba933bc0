// The external names that a module declares (ANSI 3.1.2.2).
ghost use Rattle.std.specs.Prelude.{◌≡◌, IfOk, OnOk};
ghost use Rattle.sc_session_conflicts.specs.Names as spec;

use indexmap::IndexSet;
use sc_base::{Duplicate, Name, NoMemory};
use sc_core::{Core, Declared};
use std::alloc::Global;

fn add_name(alloc: Global, names: &mut IndexSet<Name>, d: &Declared) -> Result<(), NoMemory>
    ensures { OnOk result (names.new.keys ≡ spec.with_name names.old.keys d.now) }
{
    if d.key.module.is_some() {
        return Ok(());
    }
    let name = d.key.name.copy(alloc)?;
    let _ = names.insert(name)?;
    Ok(())
}

fn add_names(
    alloc: Global,
    names: &mut IndexSet<Name>,
    declared: &[Declared],
) -> Result<(), NoMemory>
    ensures { OnOk result (names.new.keys ≡ spec.with_names names.old.keys declared.now) }
{
    for d in declared {
        add_name(alloc, names, d)?;
    }
    Ok(())
}

/// The external names that a module declares, each once.
pub fn external_names(alloc: Global, core: &Core) -> Result<IndexSet<Name>, NoMemory>
    ensures { IfOk result (λ names. names.keys ≡ spec.external_names core.now.declared) }
{
    let mut names = IndexSet::new(alloc);
    add_names(alloc, &mut names, core.declared.as_slice())?;
    Ok(names)
}
