// Small images, and the words of stubs.
ghost use Rattle.std.specs.Prelude.{◌≡◌, IfOk};
ghost use Rattle.sc_isa_image.specs.Lookups.{text_at};
ghost use Rattle.sc_isa_image.specs.Texts.{starts_at};

use sc_base::{Bytes, Duplicate, Items, Key, Name, NoMemory};
use sc_isa_image::{Image, TextAt, call_stub, jump_stub, lower, upper};
use sc_object::{BlockTable, FrameTable};
use sc_program::Slot;
use std::alloc::Global;
use std::test::Fail;

fn name(alloc: Global, bytes: &[u8]) -> Result<Name, NoMemory> {
    Name::new(alloc, bytes).map_err(|_| NoMemory)
}

fn key(alloc: Global, bytes: &[u8]) -> Result<Key, NoMemory> {
    let name = name(alloc, bytes)?;
    Ok(Key { module: None, name })
}

// Gives a name the next function number, if it has none.
fn add(alloc: Global, image: &mut Image, bytes: &[u8]) -> Result<(), NoMemory> {
    let k = key(alloc, bytes)?;
    image.make_room(0, 0, 0, 1)?;
    if image.functions() < 65536 && !image.is_function(&k) && image.value(&k).is_none() {
        image.put_fun(k);
    }
    Ok(())
}

// Gives a name a value, if it has none.
fn add_value(alloc: Global, image: &mut Image, bytes: &[u8], at: u32) -> Result<(), NoMemory> {
    let k = key(alloc, bytes)?;
    image.make_room(0, 1, 0, 0)?;
    if image.value(&k).is_none() {
        image.put_value(k, at);
    }
    Ok(())
}

fn named(alloc: Global) -> Result<Image, NoMemory> {
    let mut image = Image::new(alloc);
    for bytes in [b"f".as_slice(), b"g".as_slice(), b"f".as_slice()] {
        add(alloc, &mut image, bytes)?;
    }
    add_value(alloc, &mut image, b"z", 0x08000000)?;
    Ok(image)
}

fn value(alloc: Global, image: &Image, bytes: &[u8]) -> Result<Option<u32>, NoMemory> {
    let k = key(alloc, bytes)?;
    Ok(image.value(&k))
}

// Takes a name's value away, if it has one.
fn take_value(alloc: Global, image: &mut Image, bytes: &[u8]) -> Result<(), NoMemory> {
    let k = key(alloc, bytes)?;
    if image.value(&k).is_some() {
        image.take_value(&k);
    }
    Ok(())
}

// Puts another word where there is one.
fn set_word(image: &mut Image, pc: u32, word: u32) {
    if image.word(pc).is_some() {
        image.set_word(pc, word);
    }
}

fn has_key(image: &Image, at: u32, bytes: &[u8]) -> bool {
    match image.key_of(at) {
        Some(k) => k.name.as_slice() == bytes,
        None => false,
    }
}

#[test]
fn values_by_key(rt: HostRuntime) -> Result<(), Fail> {
    let alloc = rt.alloc();
    let mut image = named(alloc)?;
    take_value(alloc, &mut image, b"g")?;
    for (bytes, want) in [
        (b"f".as_slice(), Some(0x00010000)),
        (b"g".as_slice(), None),
        (b"z".as_slice(), Some(0x08000000)),
        (b"y".as_slice(), None),
    ] {
        assert_eq!(rt; value(alloc, &image, bytes)?, want, "{bytes:?}");
    }
    Ok(())
}

#[test]
fn functions_by_stub(rt: HostRuntime) -> Result<(), Fail> {
    let mut image = named(rt.alloc())?;
    assert_eq!(rt; image.functions(), 2);
    assert!(rt; has_key(&image, 0x00010000, b"f"));
    assert!(rt; has_key(&image, 0x00010008, b"g"));
    set_word(&mut image, 0x0001000c, 7);
    for (pc, word, key) in [
        (0x00010000, Some(0x00100293), true),
        (0x00010004, Some(0x00000073), false),
        (0x00010008, Some(0x00100293), true),
        (0x0001000c, Some(7), false),
        (0x0001000a, None, false),
        (0x00010010, None, false),
        (0x0000fffc, None, false),
    ] {
        assert_eq!(rt; image.word(pc), word, "{pc}");
        assert_eq!(rt; image.key_of(pc).is_some(), key, "{pc}");
    }
    Ok(())
}

// A frame of one slot.
fn frame(alloc: Global) -> Result<FrameTable, NoMemory> {
    let slot = Slot {
        offset: 0,
        size: 4,
        constant: false,
    };
    let mut slots = Items::new(alloc);
    slots.push(slot)?;
    let mut blocks = Items::new(alloc);
    blocks.push(BlockTable { line: 1, slots })?;
    Ok(FrameTable {
        symbol: 1,
        cost: 16,
        blocks,
    })
}

// A text at 0x00100020.
fn text(alloc: Global) -> Result<TextAt, NoMemory>
    ensures { IfOk result (λ t. t.start ≡ 0x00100020) }
{
    let fun = key(alloc, b"f")?;
    let module = name(alloc, b"m")?;
    let frame = frame(alloc)?;
    let text = TextAt {
        fun,
        module,
        start: 0x00100020,
        frame,
    };
    text.copy(alloc)
}

// An image with one text of three words.
fn with_text(alloc: Global) -> Result<Image, NoMemory> {
    let mut image = Image::new(alloc);
    image.make_room(1, 0, 0, 0)?;
    let t = text(alloc)?;
    let words = vec![in alloc; 11, 22, 33]?;
    image.put_text(t, words);
    Ok(image)
}

fn begins(image: &Image, start: u32) -> bool
    ensures { result ≡ starts_at start (text_at image.now start) }
{
    match image.text_at(start) {
        Some(t) => t.start == start,
        None => false,
    }
}

// Takes away the text that begins at an address, if there is one.
fn take_text(image: &mut Image, start: u32) -> bool {
    let there = begins(image, start);
    if there {
        image.take_text(start);
    }
    there
}

#[test]
fn words_of_texts(rt: HostRuntime) -> Result<(), Fail> {
    let mut image = with_text(rt.alloc())?;
    set_word(&mut image, 0x00100024, 44);
    for (pc, word, cost) in [
        (0x0010001c, None, None),
        (0x00100020, Some(11), Some(16)),
        (0x00100022, None, Some(16)),
        (0x00100024, Some(44), Some(16)),
        (0x00100028, Some(33), Some(16)),
        (0x0010002c, None, None),
    ] {
        assert_eq!(rt; image.word(pc), word, "{pc}");
        assert_eq!(rt; image.text_at(pc).map(|t| t.frame.cost), cost, "{pc}");
    }
    for (start, there) in [(0x00100024, false), (0x00100020, true), (0x00100020, false)] {
        assert_eq!(rt; take_text(&mut image, start), there, "{start}");
    }
    Ok(())
}

// Places a literal of module `m`, unless it has a place.
fn add_literal(alloc: Global, bytes: &[u8]) -> Result<Image, NoMemory> {
    let mut image = Image::new(alloc);
    image.make_room(0, 0, 1, 0)?;
    let module = name(alloc, b"m")?;
    let bytes = Bytes::from_slice(alloc, bytes)?;
    image.put_literal(module, bytes, 0x08000000);
    Ok(image)
}

// Takes the place of a literal away, if it has one.
fn take_literal(image: &mut Image, module: &Name, bytes: &[u8]) -> Option<u32> {
    let at = image.literal(module, bytes)?;
    image.take_literal(at);
    Some(at)
}

#[test]
fn literals_by_bytes(rt: HostRuntime) -> Result<(), Fail> {
    let alloc = rt.alloc();
    let mut image = add_literal(alloc, b"ab")?;
    let module = name(alloc, b"m")?;
    let other = name(alloc, b"n")?;
    for (bytes, at) in [
        (b"abc".as_slice(), None),
        (b"ab".as_slice(), Some(0x08000000)),
        (b"ab".as_slice(), None),
    ] {
        assert_eq!(rt; take_literal(&mut image, &other, bytes), None, "{bytes:?}");
        assert_eq!(rt; take_literal(&mut image, &module, bytes), at, "{bytes:?}");
    }
    Ok(())
}

#[test]
fn stubs_and_addresses(rt: HostRuntime) {
    let [first, second] = call_stub();
    assert_eq!(rt; first.to_le_bytes(), [0x93, 0x02, 0x10, 0x00]);
    assert_eq!(rt; second.to_le_bytes(), [0x73, 0x00, 0x00, 0x00]);
    let [first, second] = jump_stub(0x00100820);
    assert_eq!(rt; first.to_le_bytes(), [0x37, 0x13, 0x10, 0x00]);
    assert_eq!(rt; second.to_le_bytes(), [0x67, 0x00, 0x03, 0x82]);
    for (at, high, low) in [
        (0x00100820, 0x101, -0x7e0),
        (0x001007ff, 0x100, 0x7ff),
        (0x00100800, 0x101, -0x800),
        (0, 0, 0),
        (0xffffffff, 0, -1),
    ] {
        assert_eq!(rt; upper(at), high, "{at}");
        assert_eq!(rt; lower(at), low, "{at}");
    }
}
