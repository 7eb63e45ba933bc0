// The folder of the modules.
ghost use Rattle.std.specs.Prelude.{◌≡◌, ℕ, List, IfOk, string_bytes};
ghost use Rattle.std.specs.BTreeMap.{get_by_text};
ghost use Rattle.sc_workload.specs.Made as spec;

use crate::file::made_file;
use sc_base::{Bytes, NoMemory};
use std::alloc::Global;
use std::collections::BTreeMap;

// The name of a module's file.
fn file_name(alloc: Global, index: u32) -> Result<String, NoMemory>
    ensures { IfOk result (λ name. string_bytes name ≡ spec.file_name index) }
{
    let digits = index.to_string(alloc)?;
    let mut name = String::from_str(alloc, "g")?;
    name.push_str(digits.as_str())?;
    name.push_str(".c")?;
    Ok(name)
}

/// The files of so many modules.
pub fn made_folder(alloc: Global, count: u32) -> Result<BTreeMap<String, Bytes>, NoMemory>
    ensures { IfOk result (λ files. (name : List ℕ) → get_by_text files name ≡ spec.made_folder count count name) }
{
    let mut files = BTreeMap::new(alloc);
    for index in 0..count {
        let name = file_name(alloc, index)?;
        let text = made_file(alloc, count, index)?;
        let _ = files.insert(name, text)?;
    }
    Ok(files)
}
