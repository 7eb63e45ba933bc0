// Two modules with a function and a literal each.
use super::{Linking, image_of};
use sc_base::{Bytes, Form, Items, Key, Name, NoMemory, Shared};
use sc_isa_image::Image;
use sc_object::{FrameTable, Object, Section, SectionKind, Symbol};
use std::alloc::Global;
use std::test::Fail;

fn name(alloc: Global, bytes: &[u8]) -> Result<Name, NoMemory> {
    Name::new(alloc, bytes).map_err(|_| NoMemory)
}

fn key(alloc: Global, bytes: &[u8]) -> Result<Key, NoMemory> {
    let name = name(alloc, bytes)?;
    Ok(Key { module: None, name })
}

fn section(
    alloc: Global,
    named: &[u8],
    kind: SectionKind,
    held: &[u8],
) -> Result<Section, NoMemory> {
    let name = Bytes::from_slice(alloc, named)?;
    let bytes = Bytes::from_slice(alloc, held)?;
    Ok(Section {
        name,
        kind,
        bytes,
        size: 4,
    })
}

fn symbol(
    alloc: Global,
    named: &[u8],
    section: u32,
    global: bool,
    kind: u8,
) -> Result<Symbol, NoMemory> {
    let name = Bytes::from_slice(alloc, named)?;
    Ok(Symbol {
        name,
        section: Some(section),
        global,
        kind,
        size: 4,
    })
}

// A function of one instruction, `ret`, and a literal.
fn object(alloc: Global, function: &[u8]) -> Result<Object, NoMemory> {
    let mut sections = Items::new(alloc);
    sections.push(section(alloc, function, SectionKind::Text, &[0x67, 0x80, 0, 0])?)?;
    sections.push(section(alloc, b"$0", SectionKind::Rodata, b"abc\0")?)?;
    let mut symbols = Items::new(alloc);
    symbols.push(symbol(alloc, b"$0", 1, false, 1)?)?;
    symbols.push(symbol(alloc, function, 0, true, 2)?)?;
    let mut frames = Items::new(alloc);
    frames.push(FrameTable {
        symbol: 1,
        cost: 0,
        blocks: Items::new(alloc),
    })?;
    Ok(Object {
        sections,
        symbols,
        relocs: Items::new(alloc),
        frames,
    })
}

fn linking(
    alloc: Global,
    number: u32,
    module: &[u8],
    form: Form,
    function: &[u8],
) -> Result<Linking, NoMemory> {
    let name = name(alloc, module)?;
    let object = Shared::new(alloc, object(alloc, function)?)?;
    Ok(Linking {
        number,
        name,
        form,
        object,
    })
}

// `f` is interpreted, `g` and `h` are in object form.
fn modules(alloc: Global) -> Result<Items<Linking>, NoMemory> {
    let mut all = Items::new(alloc);
    all.push(linking(alloc, 0, b"a", Form::Source, b"f")?)?;
    all.push(linking(alloc, 1, b"b", Form::Object, b"g")?)?;
    all.push(linking(alloc, 2, b"c", Form::Object, b"h")?)?;
    Ok(all)
}

fn functions(alloc: Global, second: &[u8]) -> Result<Items<Key>, NoMemory> {
    let mut all = Items::new(alloc);
    all.push(key(alloc, b"f")?)?;
    all.push(key(alloc, second)?)?;
    all.push(key(alloc, b"h")?)?;
    Ok(all)
}

#[test]
fn modules_stand_one_behind_another(rt: HostRuntime) -> Result<(), Fail> {
    let alloc = rt.alloc();
    let modules = modules(alloc)?;
    let functions = functions(alloc, b"g")?;
    // an empty image has no function
    let image = match image_of(alloc, modules.as_slice(), functions.as_slice()) {
        Ok(image) => image,
        Err(_) => Image::new(alloc),
    };
    assert_eq!(rt; image.functions(), 3);
    assert_eq!(rt; image.word(0x0010_0000), Some(0x8067));
    assert_eq!(rt; image.word(0x0010_0004), Some(0x8067));
    assert_eq!(rt; image.word(0x0010_0008), None);
    let c = name(alloc, b"c")?;
    assert_eq!(rt; image.literal(&c, b"abc\0"), Some(0x0800_0010));
    Ok(())
}

#[test]
fn a_function_with_two_numbers(rt: HostRuntime) -> Result<(), Fail> {
    let alloc = rt.alloc();
    let modules = modules(alloc)?;
    let functions = functions(alloc, b"h")?;
    let image = image_of(alloc, modules.as_slice(), functions.as_slice());
    assert!(rt; image.is_err());
    Ok(())
}
