// The object of a module by the second compiler.
ghost use Rattle.std.specs.Prelude.{◌≡◌, ◌≤◌, None, IfErr, IfOk, OnOk, length, map};
ghost use Rattle.sc_gen.specs.Definitions as definitions;
ghost use Rattle.sc_gen.specs.Limits as limits;
ghost use Rattle.sc_gen.specs.Making as making;
ghost use Rattle.sc_gen.specs.Sections as sections;
ghost use Rattle.sc_opt.specs.Fast.{fast_code};

use crate::kept::fast_style;
use sc_base::{Items, Name, NoMemory, Shared};
use sc_core::{Core, Fun};
use sc_gen::{Compiled, GenFault, Making, begun, finished, put_function};
use sc_gen_body::function;
use sc_gen_code::Symbolic;
use sc_object::Object;
use sc_opt_fold::fold_function;
use std::alloc::Global;

/// The text of a function, from its first word on: its constants are folded, and registers keep the copies of `fast_style`.
///
/// # Errors
///
/// `NoMemory` alone.
pub fn fast_text(alloc: Global, f: &Fun) -> Result<Items<Symbolic>, NoMemory>
    ensures { IfOk result (λ code. code ≡ fast_code f.now) }
{
    let style = fast_style(alloc, f)?;
    let folded = fold_function(alloc, f)?;
    function(alloc, &style, &folded)
}

fn put_fast(alloc: Global, home: &Name, f: &Fun, all: &mut Making) -> Result<(), GenFault>
    ensures ok { OnOk result (length (fast_code f.now) ≤ 131072) }
    ensures puts { OnOk result (making.PutsText home.now f.now (fast_code f.now) all.old all.new) }
    ensures err { IfErr result (limits.IsTextFault f.now (fast_code f.now)) }
{
    let code = fast_text(alloc, f)?;
    put_function(alloc, home, f, code.as_slice(), all)
}

fn put_functions(
    alloc: Global,
    home: &Name,
    funs: &[Shared<Fun>],
    all: &mut Making,
) -> Result<(), GenFault>
    ensures ok { OnOk result (limits.first_long fast_code funs.now ≡ None) }
    ensures puts { OnOk result (making.PutsAll (map (sections.function_section fast_code) funs.now) (map (definitions.function_definition fast_code home.now) funs.now) all.old all.new) }
    ensures err { IfErr result (limits.IsFirstLong fast_code funs.now) }
{
    for f in funs {
        put_fast(alloc, home, f.get(), all)?;
    }
    Ok(())
}

fn texts_of(alloc: Global, core: &Core) -> Result<Making, GenFault>
    ensures ok { IfOk result (making.HasTexts fast_code core.now) }
    ensures err { IfErr result (limits.IsFirstLong fast_code core.now.funs) }
{
    let mut all = begun(alloc);
    put_functions(alloc, &core.name, core.funs.as_slice(), &mut all)?;
    Ok(all)
}

/// The object of a checked module and its file, by the limits of `compile`.
pub fn compile_fast(alloc: Global, core: &Core) -> Result<Compiled, GenFault>
    ensures compiled { IfOk result (limits.IsCompiled fast_code core.now) }
    ensures err { IfErr result (limits.IsFault fast_code core.now) }
{
    let texts = texts_of(alloc, core)?;
    finished(alloc, core, texts)
}

/// The object of a checked module by the second compiler: its constants are folded, and registers keep copies of objects
/// where that pays. The limits are those of `generate`.
pub fn generate_fast(alloc: Global, core: &Core) -> Result<Object, GenFault>
    ensures object { IfOk result (limits.IsObject fast_code core.now) }
    ensures err { IfErr result (limits.IsFault fast_code core.now) }
{
    let Compiled { object, file: _ } = compile_fast(alloc, core)?;
    Ok(object)
}
