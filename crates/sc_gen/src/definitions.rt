// What the sections of an object define, and which of their bytes wait for the value of a target (RISC-V psABI).
ghost use Rattle.std.specs.Prelude.{◌≡◌, ◌≤◌, [], ◌∷◌, ◌++◌, length, OnOk, IfOk, pos};
ghost use Rattle.sc_gen_expr.specs.Words.{relocation};
ghost use Rattle.sc_gen.specs.Definitions as spec;

use crate::literals::{Literals, literal_number};
use crate::sections::{init_size, kind_of, size_of};
use sc_base::{Bytes, Duplicate, Items, Key, Name, NoMemory};
use sc_core::{Fun, Init, StaticObj};
use sc_gen_code::{Symbolic, Target};
use sc_gen_expr::{fitted, lower_kind};
use sc_object::SectionKind;
use sc_program::StaticId;
use std::alloc::Global;

/// Bytes of a section that wait for a value: their offset, the type of the relocation (RISC-V psABI), whose value it is, and
/// the addend.
#[derive(Drop)]
pub struct Fixup {
    pub at: u32,
    pub kind: u8,
    pub target: Target,
    pub addend: i32,
}

/// What a section defines: the target, the type and the size of its symbol, and the bytes that wait, in their order.
#[derive(Drop)]
pub struct Definition {
    pub target: Target,
    pub kind: u8,
    pub size: u32,
    pub fixups: Items<Fixup>,
}

/// The key of a function of this module.
pub fn key_of(alloc: Global, home: &Name, f: &Fun) -> Result<Key, NoMemory>
    ensures { IfOk result (λ key. key ≡ spec.key_of home.now f.now) }
{
    let name = f.name.copy(alloc)?;
    if f.external {
        Ok(Key { module: None, name })
    } else {
        let module = Some(home.copy(alloc)?);
        Ok(Key { module, name })
    }
}

fn put_fixup(
    alloc: Global,
    at: usize,
    kind: u8,
    target: &Target,
    fixups: &mut Items<Fixup>,
) -> Result<(), NoMemory>
    ensures { OnOk result (fixups.new ≡ fixups.old ++ spec.fixup at kind target.now (pos 0) ∷ []) }
{
    let target = target.copy(alloc)?;
    fixups.push(Fixup {
        at: fitted(at),
        kind,
        target,
        addend: 0,
    })
}

fn put_word(
    alloc: Global,
    at: usize,
    s: &Symbolic,
    fixups: &mut Items<Fixup>,
) -> Result<(), NoMemory>
    ensures { OnOk result (fixups.new ≡ fixups.old ++ spec.word_fixups at (relocation s.now)) }
{
    match s {
        Symbolic::Plain(_) => Ok(()),
        Symbolic::Upper(target) => put_fixup(alloc, at, 26, target, fixups),
        Symbolic::Lower(what, target) => put_fixup(alloc, at, lower_kind(*what), target, fixups),
        Symbolic::Call(target) => put_fixup(alloc, at, 19, target, fixups),
    }
}

fn text_fixups(alloc: Global, code: &[Symbolic]) -> Result<Items<Fixup>, NoMemory>
    requires { length code.now ≤ 131072 }
    ensures { IfOk result (λ fixups. fixups ≡ spec.text_fixups 0 code.now) }
{
    let mut fixups = Items::new(alloc);
    for (n, s) in code.iter().enumerate() {
        put_word(alloc, 4 * n, s, &mut fixups)?;
    }
    Ok(fixups)
}

/// What the text of a function defines.
pub fn text_definition(alloc: Global, key: Key, code: &[Symbolic]) -> Result<Definition, NoMemory>
    requires { length code.now ≤ 131072 }
    ensures { IfOk result (λ d. d ≡ spec.text_definition key code.now) }
{
    let fixups = text_fixups(alloc, code)?;
    let size = fitted(4 * code.len());
    Ok(Definition {
        target: Target::Named(key),
        kind: 2,
        size,
        fixups,
    })
}

fn target_of(alloc: Global, literals: &Literals, id: &StaticId) -> Result<Target, NoMemory>
    ensures { IfOk result (λ t. t ≡ spec.target_of literals.now.all.now id.now) }
{
    match id {
        StaticId::Named(key) => Ok(Target::Named(key.copy(alloc)?)),
        StaticId::Literal(_, bytes) => Ok(Target::Literal(literal_number(literals, bytes))),
    }
}

fn put_init(
    alloc: Global,
    literals: &Literals,
    at: u32,
    piece: &Init,
    fixups: &mut Items<Fixup>,
) -> Result<(), NoMemory>
    ensures { OnOk result (fixups.new ≡ fixups.old ++ spec.init_fixups literals.now.all.now at piece.now) }
{
    match piece {
        Init::Byte(_) => Ok(()),
        Init::Zeros(_) => Ok(()),
        Init::Address(what, n) => {
            let target = target_of(alloc, literals, what)?;
            fixups.push(Fixup {
                at: fitted(at as usize),
                kind: 1,
                target,
                addend: n.cast_signed(),
            })
        }
    }
}

fn data_fixups(
    alloc: Global,
    literals: &Literals,
    pieces: &[Init],
) -> Result<Items<Fixup>, NoMemory>
    ensures { IfOk result (λ fixups. fixups ≡ spec.data_fixups literals.now.all.now 0 pieces.now) }
{
    let mut fixups = Items::new(alloc);
    let mut at: u32 = 0;
    for piece in pieces {
        put_init(alloc, literals, at, piece, &mut fixups)?;
        at = at.saturating_add(init_size(piece));
    }
    Ok(fixups)
}

fn fixups_in(
    alloc: Global,
    kind: SectionKind,
    literals: &Literals,
    pieces: &[Init],
) -> Result<Items<Fixup>, NoMemory>
    ensures { IfOk result (λ fixups. fixups ≡ spec.fixups_in kind literals.now.all.now pieces.now) }
{
    match kind {
        SectionKind::Text => data_fixups(alloc, literals, pieces),
        SectionKind::Data => data_fixups(alloc, literals, pieces),
        SectionKind::Rodata => data_fixups(alloc, literals, pieces),
        SectionKind::Bss => Ok(Items::new(alloc)),
    }
}

/// What the section of an object of static storage duration defines.
pub fn object_definition(
    alloc: Global,
    literals: &Literals,
    x: &StaticObj,
) -> Result<Definition, NoMemory>
    ensures { IfOk result (λ d. d ≡ spec.object_definition literals.now.all.now x.now) }
{
    let pieces = x.init.as_slice();
    let fixups = fixups_in(alloc, kind_of(x), literals, pieces)?;
    let key = x.key.copy(alloc)?;
    Ok(Definition {
        target: Target::Named(key),
        kind: 1,
        size: size_of(pieces),
        fixups,
    })
}

/// What the section of a string literal defines, by its place among the module's.
pub fn literal_definition(alloc: Global, n: u32, bytes: &Bytes) -> Definition
    ensures { result ≡ spec.literal_definition n bytes.now }
{
    Definition {
        target: Target::Literal(n),
        kind: 1,
        size: fitted(bytes.as_slice().len()),
        fixups: Items::new(alloc),
    }
}
