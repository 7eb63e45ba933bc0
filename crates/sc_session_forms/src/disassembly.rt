// The words of a text in an image, as they are shown.
ghost use Rattle.std.specs.Prelude.{◌≡◌, ◌++◌, IfOk, OnOk};
ghost use Rattle.sc_isa.specs.Reading.{instr_of};
ghost use Rattle.sc_isa_image.specs.Lookups.{word_at};
ghost use Rattle.sc_session_forms.specs.Disassembly as spec;

use crate::halts::put_hexadecimal;
use sc_base::{Bytes, NoMemory};
use sc_disas::text;
use sc_isa::decode;
use sc_isa_image::Image;
use sc_session_texts::put;
use std::alloc::Global;

// The text of the instruction that a word is, where it is one.
fn put_instruction(shown: &mut Vec<u8>, alloc: Global, word: u32) -> Result<(), NoMemory>
    ensures { OnOk result (shown.new.items ≡ shown.old.items ++ spec.instruction_text (instr_of word)) }
{
    let Some(instruction) = decode(word) else {
        return Ok(());
    };
    let said = text(alloc, instruction)?;
    put(shown, b" ")?;
    put(shown, said.as_slice())
}

// An address, the word there, and its instruction.
fn put_line(shown: &mut Vec<u8>, alloc: Global, at: u32, word: u32) -> Result<(), NoMemory>
    ensures { OnOk result (shown.new.items ≡ shown.old.items ++ spec.code_line at word) }
{
    put(shown, b"> ")?;
    put_hexadecimal(shown, at)?;
    put(shown, b" ")?;
    put_hexadecimal(shown, word)?;
    put_instruction(shown, alloc, word)?;
    put(shown, b"\n")
}

// The line of an address, where a word stands there.
fn put_at(shown: &mut Vec<u8>, alloc: Global, image: &Image, at: u32) -> Result<(), NoMemory>
    ensures { OnOk result (shown.new.items ≡ shown.old.items ++ spec.line_at at (word_at image.now at)) }
{
    match image.word(at) {
        Some(word) => put_line(shown, alloc, at, word),
        None => Ok(()),
    }
}

/// The lines of an image from an address on, one for each of these words of a text.
pub fn code_lines(
    alloc: Global,
    image: &Image,
    start: u32,
    words: &[u32],
) -> Result<Bytes, NoMemory>
    ensures { IfOk result (λ lines. lines ≡ spec.code_lines image.now start words.now) }
{
    let mut shown = Vec::new(alloc);
    let mut at = start;
    let mut left = words;
    'showing: while let [_, rest @ ..] = left {
        put_at(&mut shown, alloc, image, at)?;
        at = at.wrapping_add(4);
        left = rest;
    }
    Ok(Bytes::from_vec(shown))
}
