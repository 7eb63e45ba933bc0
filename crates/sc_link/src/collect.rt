// What the entries of a list place and define, as lists.
ghost use Rattle.std.specs.Prelude.{◌≡◌, ◌++◌, IfOk, OnOk, option_to_list};
ghost use Rattle.sc_link.specs.Entries as spec;

use crate::placed::{LiteralAt, Placed};
use crate::relocation::words_of;
use crate::symbol::{is_text, key_of, literal_of, place_of, section_of, static_of};
use sc_base::{Duplicate, Form, Items, Key, NoMemory};
use sc_isa_image::{Text, TextAt};
use sc_object::FrameTable;
use std::alloc::Global;

/// The texts of the entries in object form, before their relocations.
pub fn texts_in(alloc: Global, placed: &[Placed]) -> Result<Vec<Text>, NoMemory>
    ensures { IfOk result (λ texts. texts.items ≡ spec.texts_in placed.now) }
{
    let mut texts = Vec::new(alloc);
    for entry in placed {
        add_texts(alloc, &mut texts, entry)?;
    }
    Ok(texts)
}

/// Appends the texts of an entry, none where it is not in object form.
pub fn add_texts(alloc: Global, texts: &mut Vec<Text>, entry: &Placed) -> Result<(), NoMemory>
    ensures { OnOk result (texts.new.items ≡ texts.old.items ++ spec.texts_if entry.now) }
{
    match entry.form {
        Form::Source => Ok(()),
        Form::Object => add_all_texts(alloc, texts, entry),
    }
}

fn add_all_texts(alloc: Global, texts: &mut Vec<Text>, entry: &Placed) -> Result<(), NoMemory>
    ensures { OnOk result (texts.new.items ≡ texts.old.items ++ spec.texts_of entry.now) }
{
    for frame in entry.object.get().frames.as_slice() {
        add_text(alloc, texts, entry, frame)?;
    }
    Ok(())
}

fn add_text(
    alloc: Global,
    texts: &mut Vec<Text>,
    entry: &Placed,
    frame: &FrameTable,
) -> Result<(), NoMemory>
    ensures { OnOk result (texts.new.items ≡ texts.old.items ++ option_to_list (spec.text_of entry.now frame.now)) }
{
    if let Some(text) = text_of(alloc, entry, frame)? {
        texts.push(text)?;
    }
    Ok(())
}

// The text of the function that a frame is of.
fn text_of(alloc: Global, entry: &Placed, frame: &FrameTable) -> Result<Option<Text>, NoMemory>
    ensures { IfOk result (λ text. text ≡ spec.text_of entry.now frame.now) }
{
    let object = entry.object.get();
    let Some(symbol) = object.symbols.as_slice().get(frame.symbol as usize) else {
        return Ok(None);
    };
    let Some(section) = section_of(object, symbol) else {
        return Ok(None);
    };
    let Some(start) = place_of(entry, symbol) else {
        return Ok(None);
    };
    let Some(fun) = key_of(alloc, &entry.home, symbol)? else {
        return Ok(None);
    };
    if !is_text(section.kind) {
        return Ok(None);
    }
    let module = entry.home.copy(alloc)?;
    let frame = frame.copy(alloc)?;
    let words = Items::from_vec(words_of(alloc, section.bytes.as_slice())?);
    let at = TextAt {
        fun,
        module,
        start,
        frame,
    };
    Ok(Some(Text { at, words }))
}

/// The functions that present entries in object form define, with the places of their texts.
pub fn jumps_in(alloc: Global, placed: &[Placed]) -> Result<Vec<(Key, u32)>, NoMemory>
    ensures { IfOk result (λ jumps. jumps.items ≡ spec.jumps_in placed.now) }
{
    let mut jumps = Vec::new(alloc);
    for entry in placed {
        add_jumps(alloc, &mut jumps, entry)?;
    }
    Ok(jumps)
}

/// Appends the functions of an entry with the places of their texts, none where it is a former one or not in object
/// form.
pub fn add_jumps(alloc: Global, jumps: &mut Vec<(Key, u32)>, entry: &Placed) -> Result<(), NoMemory>
    ensures { OnOk result (jumps.new.items ≡ jumps.old.items ++ spec.jumps_if entry.now) }
{
    if entry.retired {
        return Ok(());
    }
    let mut texts = Vec::new(alloc);
    add_texts(alloc, &mut texts, entry)?;
    for text in &texts {
        let key = text.at.fun.copy(alloc)?;
        jumps.push((key, text.at.start))?;
    }
    Ok(())
}

/// The objects of static storage duration that present entries define, with their places.
pub fn statics_in(alloc: Global, placed: &[Placed]) -> Result<Vec<(Key, u32)>, NoMemory>
    ensures { IfOk result (λ statics. statics.items ≡ spec.statics_in placed.now) }
{
    let mut statics = Vec::new(alloc);
    for entry in placed {
        add_statics(alloc, &mut statics, entry)?;
    }
    Ok(statics)
}

/// Appends the objects of static storage duration of an entry with their places, none where it is a former one.
pub fn add_statics(
    alloc: Global,
    statics: &mut Vec<(Key, u32)>,
    entry: &Placed,
) -> Result<(), NoMemory>
    ensures { OnOk result (statics.new.items ≡ statics.old.items ++ spec.statics_if entry.now) }
{
    if entry.retired {
        return Ok(());
    }
    for symbol in entry.object.get().symbols.as_slice() {
        if let Some(object) = static_of(alloc, entry, symbol)? {
            statics.push(object)?;
        }
    }
    Ok(())
}

/// The literals of all entries with their places.
pub fn literals_in(alloc: Global, placed: &[Placed]) -> Result<Vec<LiteralAt>, NoMemory>
    ensures { IfOk result (λ literals. literals.items ≡ spec.literals_in placed.now) }
{
    let mut literals = Vec::new(alloc);
    for entry in placed {
        add_literals(alloc, &mut literals, entry)?;
    }
    Ok(literals)
}

/// Appends the literals of an entry with their places.
pub fn add_literals(
    alloc: Global,
    literals: &mut Vec<LiteralAt>,
    entry: &Placed,
) -> Result<(), NoMemory>
    ensures { OnOk result (literals.new.items ≡ literals.old.items ++ spec.literals_of entry.now) }
{
    for symbol in entry.object.get().symbols.as_slice() {
        if let Some(literal) = literal_of(alloc, entry, symbol)? {
            literals.push(literal)?;
        }
    }
    Ok(())
}

/// Second keys for all of a list.
pub fn copies(alloc: Global, keys: &[Key]) -> Result<Vec<Key>, NoMemory>
    ensures { IfOk result (λ copies. copies.items ≡ keys.now) }
{
    let mut copies = Vec::with_capacity(alloc, keys.len())?;
    for key in keys {
        copies.push(key.copy(alloc)?)?;
    }
    Ok(copies)
}
