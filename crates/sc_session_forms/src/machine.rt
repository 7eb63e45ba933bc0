// What `machine` shows.
ghost use Rattle.std.specs.Prelude.{◌≡◌, ◌++◌, ◌<◌, slice_get, IfOk, OnOk};
ghost use Rattle.sc_session_forms.specs.Machines as spec;

use crate::halts::put_hexadecimal;
use sc_base::{Bytes, NoMemory, Word};
use sc_interp_world::Machine;
use sc_session_texts::put;
use std::alloc::Global;

/// What a register without a word holds, of which there is none.
const ZERO: Word = Word { bits: 0, tag: 0 };

fn word_at(words: &[Word], r: u32) -> Word
    ensures { result ≡ spec.word_or_zero (slice_get words.now r) }
{
    match words.get(r as usize) {
        Some(word) => *word,
        None => ZERO,
    }
}

fn put_number(text: &mut Vec<u8>, alloc: Global, front: &[u8], n: u64) -> Result<(), NoMemory>
    ensures { OnOk result (text.new.items ≡ text.old.items ++ spec.numbered front.now n) }
{
    let digits = n.to_string(alloc)?;
    put(text, front)?;
    put(text, digits.as_bytes())
}

fn put_register(text: &mut Vec<u8>, alloc: Global, words: &[Word], r: u32) -> Result<(), NoMemory>
    ensures { OnOk result (text.new.items ≡ text.old.items ++ spec.register_text words.now r) }
{
    let word = word_at(words, r);
    put_number(text, alloc, b" x", u64::from(r))?;
    put(text, b" ")?;
    put_hexadecimal(text, word.bits)?;
    put_number(text, alloc, b" ", u64::from(word.tag))
}

// The four registers from one on, on a line.
#[tactic(auto, unfolding(crate::specs::Machines::four))]
fn put_four(text: &mut Vec<u8>, alloc: Global, words: &[Word], r: u32) -> Result<(), NoMemory>
    requires { r < 29 }
    ensures { OnOk result (text.new.items ≡ text.old.items ++ spec.four words.now r) }
{
    put(text, b">")?;
    put_register(text, alloc, words, r)?;
    put_register(text, alloc, words, r + 1)?;
    put_register(text, alloc, words, r + 2)?;
    put_register(text, alloc, words, r + 3)?;
    put(text, b"\n")
}

// The first sixteen registers.
fn put_lower(text: &mut Vec<u8>, alloc: Global, words: &[Word]) -> Result<(), NoMemory>
    ensures { OnOk result (text.new.items ≡ text.old.items ++ spec.lower words.now) }
{
    put_four(text, alloc, words, 0)?;
    put_four(text, alloc, words, 4)?;
    put_four(text, alloc, words, 8)?;
    put_four(text, alloc, words, 12)
}

// The other sixteen.
fn put_upper(text: &mut Vec<u8>, alloc: Global, words: &[Word]) -> Result<(), NoMemory>
    ensures { OnOk result (text.new.items ≡ text.old.items ++ spec.upper words.now) }
{
    put_four(text, alloc, words, 16)?;
    put_four(text, alloc, words, 20)?;
    put_four(text, alloc, words, 24)?;
    put_four(text, alloc, words, 28)
}

fn put_first(text: &mut Vec<u8>, alloc: Global, pc: u32, executed: u64) -> Result<(), NoMemory>
    ensures { OnOk result (text.new.items ≡ text.old.items ++ spec.first_line pc executed) }
{
    put(text, b"> pc ")?;
    put_hexadecimal(text, pc)?;
    put_number(text, alloc, b" exec ", executed)?;
    put(text, b"\n")
}

/// The lines of `machine`: the address of the next instruction with the count of those that were carried out, and the registers.
pub fn machine_lines(alloc: Global, machine: &Machine) -> Result<Bytes, NoMemory>
    ensures { IfOk result (λ lines. lines ≡ spec.machine_lines machine.now) }
{
    let mut text = Vec::new(alloc);
    put_first(&mut text, alloc, machine.pc, machine.executed)?;
    put_lower(&mut text, alloc, &machine.words)?;
    put_upper(&mut text, alloc, &machine.words)?;
    Ok(Bytes::from_vec(text))
}
