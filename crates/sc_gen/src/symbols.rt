// The symbols of an object, its relocations, and the frames of its functions (ELF gABI, "Symbol Table", "Relocation").
ghost use Rattle.std.specs.Prelude.{◌≡◌, ◌++◌, flat_map, map, Some, None, OnOk, IfOk};
ghost use Rattle.std.specs.HashMap.{get};
ghost use Rattle.std.specs.Option.{option_copied};
ghost use Rattle.sc_gen_expr.specs.Words.{target_eq};
ghost use Rattle.sc_gen.specs.Finding.{AddsHome, FindsHomes};
ghost use Rattle.sc_gen.specs.Objects as spec;

use crate::blocks::frame_table;
use crate::definitions::{Definition, Fixup, key_of};
use crate::sections::literal_name;
use sc_base::{Bytes, Duplicate, Items, Name, NoMemory, Shared};
use sc_check_operand::is_function;
use sc_core::{Declared, Fun};
use sc_core_needs::same_bool;
use sc_gen_code::Target;
use sc_gen_expr::{Targets, fitted};
use sc_object::{FrameTable, Reloc, Symbol};
use std::alloc::Global;
use std::collections::HashMap;

/// The section that defines a target, and the type and size of its symbol.
#[derive(Clone, Copy)]
pub struct Home {
    pub section: u32,
    pub kind: u8,
    pub size: u32,
}

/// What the sections of an object define, and where each target has its home: in the first of those that define it.
#[derive(Drop)]
pub(crate) struct Homes<'a> {
    pub all: &'a [Definition],
    pub homes: HashMap<Target, Home>,
    ghost finds: { FindsHomes (get target_eq homes) all.now },
}

fn is_global(target: &Target) -> bool
    ensures { result ≡ spec.is_global target.now }
{
    match target {
        Target::Named(key) => key.module.is_none(),
        Target::Literal(_) => false,
    }
}

fn target_name(alloc: Global, target: &Target) -> Result<Bytes, NoMemory>
    ensures { IfOk result (λ name. name ≡ spec.target_name target.now) }
{
    match target {
        Target::Named(key) => Bytes::from_slice(alloc, key.name.as_slice()),
        Target::Literal(n) => literal_name(alloc, *n),
    }
}

fn name(alloc: Global, global: bool, t: &Target, targets: &mut Targets) -> Result<(), NoMemory>
    ensures { OnOk result (targets.new ≡ spec.named global targets.old t.now) }
{
    if same_bool(is_global(t), global) {
        let _ = targets.mention(t.copy(alloc)?)?;
    }
    Ok(())
}

fn name_mentions(
    alloc: Global,
    global: bool,
    d: &Definition,
    targets: &mut Targets,
) -> Result<(), NoMemory>
    ensures { OnOk result (targets.new ≡ spec.named_all global targets.old (spec.mentions d.now)) }
{
    name(alloc, global, &d.target, targets)?;
    for x in d.fixups.as_slice() {
        name(alloc, global, &x.target, targets)?;
    }
    Ok(())
}

fn name_definitions(
    alloc: Global,
    global: bool,
    all: &[Definition],
    targets: &mut Targets,
) -> Result<(), NoMemory>
    ensures { OnOk result (targets.new ≡ spec.named_all global targets.old (flat_map spec.mentions all.now)) }
{
    for d in all {
        name_mentions(alloc, global, d, targets)?;
    }
    Ok(())
}

fn name_declaration(
    alloc: Global,
    global: bool,
    d: &Declared,
    targets: &mut Targets,
) -> Result<(), NoMemory>
    ensures { OnOk result (targets.new ≡ spec.named_all global targets.old (spec.declared_target d.now)) }
{
    if is_function(&d.of) {
        let target = Target::Named(d.key.copy(alloc)?);
        return name(alloc, global, &target, targets);
    }
    Ok(())
}

fn name_declared(
    alloc: Global,
    global: bool,
    declared: &[Declared],
    targets: &mut Targets,
) -> Result<(), NoMemory>
    ensures { OnOk result (targets.new ≡ spec.named_all global targets.old (flat_map spec.declared_target declared.now)) }
{
    for d in declared {
        name_declaration(alloc, global, d, targets)?;
    }
    Ok(())
}

fn name_all(
    alloc: Global,
    global: bool,
    all: &[Definition],
    declared: &[Declared],
    targets: &mut Targets,
) -> Result<(), NoMemory>
    ensures { OnOk result (targets.new ≡ spec.named_all global targets.old (flat_map spec.mentions all.now ++ flat_map spec.declared_target declared.now)) }
{
    name_definitions(alloc, global, all, targets)?;
    name_declared(alloc, global, declared, targets)
}

/// The targets of a module: the local ones, then the global ones, each in the order in which they are mentioned first.
pub(crate) fn targets_of(
    alloc: Global,
    all: &[Definition],
    declared: &[Declared],
) -> Result<Targets, NoMemory>
    ensures { IfOk result (λ t. t ≡ spec.targets_of all.now declared.now) }
{
    let mut targets = Targets::new(alloc);
    name_all(alloc, false, all, declared, &mut targets)?;
    name_all(alloc, true, all, declared, &mut targets)?;
    Ok(targets)
}

// The home of one target more, where it had none.
fn add(
    alloc: Global,
    homes: &mut HashMap<Target, Home>,
    n: usize,
    d: &Definition,
) -> Result<(), NoMemory>
    ensures { IfOk result (λ _. AddsHome (get target_eq homes.old) n d.now (get target_eq homes.new)) }
{
    let target = d.target.copy(alloc)?;
    if !homes.contains_key(&target) {
        homes.insert(
            target,
            Home {
                section: fitted(n),
                kind: d.kind,
                size: d.size,
            },
        )?;
    }
    Ok(())
}

fn by_target(alloc: Global, all: &[Definition]) -> Result<HashMap<Target, Home>, NoMemory>
    ensures { IfOk result (λ homes. FindsHomes (get target_eq homes) all.now) }
{
    let mut homes = HashMap::new(alloc);
    for (n, d) in all.iter().enumerate() {
        add(alloc, &mut homes, n, d)?;
    }
    Ok(homes)
}

/// The homes of what these sections define.
pub(crate) fn homes_of(alloc: Global, all: &[Definition]) -> Result<Homes<'_>, NoMemory>
    ensures { IfOk result (λ homes. homes.all.now ≡ all.now) }
{
    let homes = by_target(alloc, all)?;
    Ok(Homes { all, homes })
}

fn home_of(homes: &Homes, t: &Target) -> Option<Home>
    ensures { result ≡ spec.home_from 0 homes.now.all.now t.now }
{
    homes.homes.get(t).copied()
}

fn symbol(alloc: Global, homes: &Homes, t: &Target) -> Result<Symbol, NoMemory>
    ensures { IfOk result (λ s. s ≡ spec.symbol_of homes.now.all.now t.now) }
{
    let name = target_name(alloc, t)?;
    let global = is_global(t);
    match home_of(homes, t) {
        Some(h) => Ok(Symbol {
            name,
            section: Some(h.section),
            global,
            kind: h.kind,
            size: h.size,
        }),
        None => Ok(Symbol {
            name,
            section: None,
            global,
            kind: 0,
            size: 0,
        }),
    }
}

/// The symbols of targets, in their order.
pub(crate) fn symbols_of(
    alloc: Global,
    homes: &Homes,
    targets: &Targets,
) -> Result<Items<Symbol>, NoMemory>
    ensures { IfOk result (λ ss. ss ≡ map (spec.symbol_of homes.now.all.now) targets.now) }
{
    let mut all = Items::new(alloc);
    for t in targets.as_slice() {
        all.push(symbol(alloc, homes, t)?)?;
    }
    Ok(all)
}

fn number(targets: &Targets, t: &Target) -> u32
    ensures { result ≡ spec.symbol_number targets.now t.now }
{
    match targets.number(t) {
        Some(n) => fitted(n),
        None => fitted(targets.len()),
    }
}

fn reloc(targets: &Targets, section: usize, x: &Fixup) -> Reloc
    ensures { result ≡ spec.reloc_of targets.now section x.now }
{
    Reloc {
        section: fitted(section),
        at: x.at,
        kind: x.kind,
        symbol: number(targets, &x.target),
        addend: x.addend,
    }
}

fn put_relocs(
    targets: &Targets,
    section: usize,
    fixups: &[Fixup],
    all: &mut Items<Reloc>,
) -> Result<(), NoMemory>
    ensures { OnOk result (all.new ≡ all.old ++ map (spec.reloc_of targets.now section) fixups.now) }
{
    for x in fixups {
        all.push(reloc(targets, section, x))?;
    }
    Ok(())
}

/// The relocations, by the sections that they change.
pub(crate) fn relocs_of(
    alloc: Global,
    targets: &Targets,
    definitions: &[Definition],
) -> Result<Items<Reloc>, NoMemory>
    ensures { IfOk result (λ rs. rs ≡ spec.relocs_from targets.now 0 definitions.now) }
{
    let mut all = Items::new(alloc);
    for (n, d) in definitions.iter().enumerate() {
        put_relocs(targets, n, d.fixups.as_slice(), &mut all)?;
    }
    Ok(all)
}

fn frame(alloc: Global, home: &Name, targets: &Targets, f: &Fun) -> Result<FrameTable, NoMemory>
    ensures { IfOk result (λ table. table ≡ spec.frame_of home.now targets.now f.now) }
{
    let target = Target::Named(key_of(alloc, home, f)?);
    frame_table(alloc, number(targets, &target), f)
}

/// The frames of functions, in their order.
pub(crate) fn frames_of(
    alloc: Global,
    home: &Name,
    targets: &Targets,
    funs: &[Shared<Fun>],
) -> Result<Items<FrameTable>, NoMemory>
    ensures { IfOk result (λ frames. frames ≡ map (spec.frame_of home.now targets.now) funs.now) }
{
    let mut all = Items::new(alloc);
    for f in funs {
        all.push(frame(alloc, home, targets, f.get())?)?;
    }
    Ok(all)
}
