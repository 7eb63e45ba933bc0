// The object of a module (ELF gABI, RISC-V psABI).
ghost use Rattle.std.specs.Prelude.{◌≡◌, ◌<◌, ◌≤◌, ℕ, List, None, Some, IfErr, IfOk, OnOk, length, map};
ghost use Rattle.sc_gen.specs.Limits as limits;
ghost use Rattle.sc_gen.specs.Making as making;
ghost use Rattle.sc_gen.specs.Definitions as definitions;
ghost use Rattle.sc_gen.specs.Sections as sections;
ghost use Rattle.sc_gen.specs.Objects as spec;
ghost use Rattle.sc_gen.specs.declared.module.GenFault.TheVariants as fault;

use crate::definitions::{
    Definition, key_of, literal_definition, object_definition, text_definition,
};
use crate::literals::{Literals, literals_of};
use crate::sections::{literal_section, object_section, text_section};
use crate::symbols::{frames_of, homes_of, relocs_of, symbols_of, targets_of};
use sc_base::{Bytes, Duplicate, Items, Name, NoMemory, Shared};
use sc_core::{Core, Fun, StaticObj};
use sc_elf_write::write_object;
use sc_gen_body::function;
use sc_gen_code::{Symbolic, plain_style};
use sc_gen_expr::fitted;
use sc_object::{Object, Section};
use std::alloc::Global;

/// The most words of a function's text, which are 524,288 bytes.
pub const MAX_WORDS: usize = 131_072;

/// The most bytes of an object's file.
pub const MAX_FILE: usize = 8_388_608;

/// Why there is no object: the text of this function is too long, the file would be, or no memory was left.
#[derive(Drop)]
pub enum GenFault {
    Text(Name),
    Object,
    NoMemory,
}

impl From<NoMemory> for GenFault {
    ghost use Rattle.sc_gen.specs.declared.module.GenFault.TheVariants as fault;

    ghost from_gives = { λ _ e. e ≡ fault.NoMemory };

    fn from(_: NoMemory) -> GenFault {
        GenFault::NoMemory
    }
}

/// An object so far: its sections, and what each of them defines.
#[derive(Drop)]
pub struct Making {
    pub sections: Items<Section>,
    pub definitions: Items<Definition>,
}

fn put(all: &mut Making, section: Section, definition: Definition) -> Result<(), NoMemory>
    ensures { OnOk result (making.Puts section definition all.old all.new) }
{
    all.sections.push(section)?;
    all.definitions.push(definition)
}

/// An object without sections.
pub fn begun(alloc: Global) -> Making
    ensures { result ≡ making.nothing }
{
    Making {
        sections: Items::new(alloc),
        definitions: Items::new(alloc),
    }
}

fn put_text(
    alloc: Global,
    home: &Name,
    f: &Fun,
    code: &[Symbolic],
    all: &mut Making,
) -> Result<(), NoMemory>
    requires { length code.now ≤ 131072 }
    ensures { OnOk result (making.PutsText home.now f.now code.now all.old all.new) }
{
    let key = key_of(alloc, home, f)?;
    let section = text_section(alloc, &f.name, code)?;
    let definition = text_definition(alloc, key, code)?;
    put(all, section, definition)
}

/// A function of the module `home` more, with its text: `Text` says that this has more than 524,288 bytes.
pub fn put_function(
    alloc: Global,
    home: &Name,
    f: &Fun,
    code: &[Symbolic],
    all: &mut Making,
) -> Result<(), GenFault>
    ensures ok { OnOk result (length code.now ≤ 131072) }
    ensures puts { OnOk result (making.PutsText home.now f.now code.now all.old all.new) }
    ensures err { IfErr result (limits.IsTextFault f.now code.now) }
{
    if code.len() <= MAX_WORDS {
        put_text(alloc, home, f, code, all)?;
        return Ok(());
    }
    Err(GenFault::Text(f.name.copy(alloc)?))
}

fn put_plain(alloc: Global, home: &Name, f: &Fun, all: &mut Making) -> Result<(), GenFault>
    ensures ok { OnOk result (length (limits.plain_code f.now) ≤ 131072) }
    ensures puts { OnOk result (making.PutsText home.now f.now (limits.plain_code f.now) all.old all.new) }
    ensures err { IfErr result (limits.IsTextFault f.now (limits.plain_code f.now)) }
{
    let style = plain_style(alloc);
    let code = function(alloc, &style, f)?;
    put_function(alloc, home, f, code.as_slice(), all)
}

fn put_functions(
    alloc: Global,
    home: &Name,
    funs: &[Shared<Fun>],
    all: &mut Making,
) -> Result<(), GenFault>
    ensures ok { OnOk result (limits.first_long limits.plain_code funs.now ≡ None) }
    ensures puts { OnOk result (making.PutsAll (map (sections.function_section limits.plain_code) funs.now) (map (definitions.function_definition limits.plain_code home.now) funs.now) all.old all.new) }
    ensures err { IfErr result (limits.IsFirstLong limits.plain_code funs.now) }
{
    for f in funs {
        put_plain(alloc, home, f.get(), all)?;
    }
    Ok(())
}

fn put_object(
    alloc: Global,
    literals: &Literals,
    x: &StaticObj,
    all: &mut Making,
) -> Result<(), NoMemory>
    ensures { OnOk result (making.Puts (sections.object_section x.now) (definitions.object_definition literals.now.all.now x.now) all.old all.new) }
{
    let section = object_section(alloc, x)?;
    let definition = object_definition(alloc, literals, x)?;
    put(all, section, definition)
}

fn put_objects(
    alloc: Global,
    literals: &Literals,
    objects: &[StaticObj],
    all: &mut Making,
) -> Result<(), NoMemory>
    ensures { OnOk result (making.PutsAll (map sections.object_section objects.now) (map (definitions.object_definition literals.now.all.now) objects.now) all.old all.new) }
{
    for x in objects {
        put_object(alloc, literals, x, all)?;
    }
    Ok(())
}

fn put_literal(alloc: Global, n: u32, bytes: &Bytes, all: &mut Making) -> Result<(), NoMemory>
    ensures { OnOk result (making.Puts (sections.literal_section n bytes.now) (definitions.literal_definition n bytes.now) all.old all.new) }
{
    let section = literal_section(alloc, n, bytes)?;
    put(all, section, literal_definition(alloc, n, bytes))
}

fn put_literals(alloc: Global, texts: &[Bytes], all: &mut Making) -> Result<(), NoMemory>
    ensures { OnOk result (making.PutsAll (sections.literal_sections 0 texts.now) (definitions.literal_definitions 0 texts.now) all.old all.new) }
{
    for (n, bytes) in texts.iter().enumerate() {
        put_literal(alloc, fitted(n), bytes, all)?;
    }
    Ok(())
}

fn put_data(alloc: Global, core: &Core, all: &mut Making) -> Result<(), NoMemory>
    ensures { OnOk result (making.PutsData core.now all.old all.new) }
{
    let texts = core.literals.as_slice();
    let literals = literals_of(alloc, texts)?;
    put_objects(alloc, &literals, core.objects.as_slice(), all)?;
    put_literals(alloc, texts, all)
}

fn texts_of(alloc: Global, core: &Core) -> Result<Making, GenFault>
    ensures ok { IfOk result (making.HasTexts limits.plain_code core.now) }
    ensures err { IfErr result (limits.IsFirstLong limits.plain_code core.now.funs) }
{
    let mut all = begun(alloc);
    put_functions(alloc, &core.name, core.funs.as_slice(), &mut all)?;
    Ok(all)
}

fn joined(alloc: Global, core: &Core, all: Making) -> Result<Object, NoMemory>
    ensures { IfOk result (λ o. o ≡ spec.object_by core.now all.sections all.definitions) }
{
    let Making {
        sections,
        definitions,
    } = all;
    let targets = targets_of(alloc, definitions.as_slice(), core.declared.as_slice())?;
    let homes = homes_of(alloc, definitions.as_slice())?;
    let symbols = symbols_of(alloc, &homes, &targets)?;
    let relocs = relocs_of(alloc, &targets, definitions.as_slice())?;
    let frames = frames_of(alloc, &core.name, &targets, core.funs.as_slice())?;
    Ok(Object {
        sections,
        symbols,
        relocs,
        frames,
    })
}

fn object_with(alloc: Global, core: &Core, texts: Making) -> Result<Object, NoMemory>
    ensures { IfOk result (λ o. o ≡ making.object_with core.now texts) }
{
    let mut all = texts;
    put_data(alloc, core, &mut all)?;
    joined(alloc, core, all)
}

/// An object, and the bytes of its file.
#[derive(Drop)]
pub struct Compiled {
    pub object: Object,
    pub file: Bytes,
}

/// The object of a module by the texts of its functions, with its file: `Object` says that this would have more than
/// 8,388,608 bytes.
pub fn finished(alloc: Global, core: &Core, texts: Making) -> Result<Compiled, GenFault>
    ensures filed { IfOk result (limits.IsFiled (making.object_with core.now texts)) }
    ensures err { IfErr result (limits.IsFileFault (making.object_with core.now texts)) }
{
    let object = object_with(alloc, core, texts)?;
    let file = write_object(alloc, &object)?;
    if file.len() > MAX_FILE {
        drop(object);
        return Err(GenFault::Object);
    }
    Ok(Compiled {
        object,
        file: Bytes::from_vec(file),
    })
}

/// The object of a checked module and its file: `Text` names the first function whose text has more than 524,288 bytes, and
/// `Object` says that the file would have more than 8,388,608.
pub fn compile(alloc: Global, core: &Core) -> Result<Compiled, GenFault>
    ensures compiled { IfOk result (limits.IsCompiled limits.plain_code core.now) }
    ensures err { IfErr result (limits.IsFault limits.plain_code core.now) }
{
    let texts = texts_of(alloc, core)?;
    finished(alloc, core, texts)
}

/// The object of a checked module, by the same limits.
pub fn generate(alloc: Global, core: &Core) -> Result<Object, GenFault>
    ensures object { IfOk result (limits.IsObject limits.plain_code core.now) }
    ensures err { IfErr result (limits.IsFault limits.plain_code core.now) }
{
    let Compiled { object, file: _ } = compile(alloc, core)?;
    Ok(object)
}
