// What the grammar and the checker make of a unit.
use crate::output::{put_fault, put_line, put_unread};
use sc_base::{Fault, Name, NoMemory};
use sc_check::check;
use sc_core::Core;
use sc_outside::Folder;
use sc_parse::parse;
use sc_pp::{PpFault, preprocess};
use sc_tool_text::lines;
use sc_tree::Unit;
use std::alloc::Global;

/// Why a file gives no unit.
#[derive(Drop)]
pub enum Unread {
    Unread(PpFault),
    Refused(Fault),
    NoMemory,
}

/// The unit of a file.
pub fn unit_of(rt: &HostRuntime, alloc: Global, name: &str) -> Result<Unit, Unread> {
    let Ok(folder) = String::from_str(alloc, ".") else {
        return Err(Unread::NoMemory);
    };
    let mut files = Folder::new(alloc, rt, folder);
    let tokens = match preprocess(alloc, name, &mut files) {
        Ok(tokens) => tokens,
        Err(fault) => return Err(Unread::Unread(fault)),
    };
    let parsed = parse(alloc, tokens.as_slice());
    drop(tokens);
    match parsed {
        Ok(unit) => Ok(unit),
        Err(fault) => Err(Unread::Refused(fault)),
    }
}

/// The module of a unit. It has the file's name without what stands behind the first dot.
pub fn core_of(alloc: Global, name: &str, unit: &Unit) -> Result<Core, Fault> {
    let module = match name.split_once('.') {
        Some((module, _)) => module,
        None => name,
    };
    match Name::new(alloc, module.as_bytes()) {
        Ok(module) => check(alloc, &module, unit),
        Err(_) => Err(Fault::NoMemory),
    }
}

fn put_no_unit(
    alloc: Global,
    text: &mut Vec<u8>,
    name: &str,
    why: &Unread,
) -> Result<(), NoMemory> {
    match why {
        Unread::Unread(fault) => put_unread(alloc, text, name, fault),
        Unread::Refused(fault) => put_fault(alloc, text, name, fault),
        Unread::NoMemory => put_line(text, b"no memory"),
    }
}

/// `ok` and how many functions and declarations a unit has, or why it is none.
pub fn put_tree(
    rt: &HostRuntime,
    alloc: Global,
    text: &mut Vec<u8>,
    name: &str,
) -> Result<(), NoMemory> {
    match unit_of(rt, alloc, name) {
        Ok(unit) => {
            let count = unit.items.len();
            drop(unit);
            let line = format!(in alloc; "ok {count}")?;
            put_line(text, line.as_bytes())
        }
        Err(why) => put_no_unit(alloc, text, name, &why),
    }
}

/// The lines of a unit's module, or why it has none.
pub fn put_core(
    rt: &HostRuntime,
    alloc: Global,
    text: &mut Vec<u8>,
    name: &str,
) -> Result<(), NoMemory> {
    match unit_of(rt, alloc, name) {
        Ok(unit) => {
            let module = core_of(alloc, name, &unit);
            drop(unit);
            put_module(alloc, text, name, &module)
        }
        Err(why) => put_no_unit(alloc, text, name, &why),
    }
}

fn put_module(
    alloc: Global,
    text: &mut Vec<u8>,
    name: &str,
    module: &Result<Core, Fault>,
) -> Result<(), NoMemory> {
    match module {
        Ok(core) => {
            put_line(text, b"ok")?;
            let lines = lines(alloc, core)?;
            for line in lines.as_slice() {
                put_line(text, line.as_slice())?;
            }
            Ok(())
        }
        Err(fault) => put_fault(alloc, text, name, fault),
    }
}
