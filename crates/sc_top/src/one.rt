// What is given to one probe.
ghost use Rattle.std.specs.Prelude.{◌≡◌, ◌≢◌, ◌∷◌, []};
ghost use Rattle.sc_outside.specs.Causes.{Rose};
ghost use Rattle.sc_outside.specs.Told.{KeepsNote};
ghost use Rattle.sc_top.specs.Given.{Hears, HearsEntry};
ghost use Rattle.sc_top.specs.Spread.{puts, filled, notes_of};

use sc_base::{Note, Word};
use sc_interp_world::Entry;
use sc_outside::{Noted, Probe};

// Gives a note to the probe in the box.
fn note_in(probe: &mut Box<dyn Probe>, note: &Note) -> Noted
    ensures kept { KeepsNote (notes probe.old) (notes probe.new) note.now result }
    ensures lost { result ≢ Noted.Kept → Rose (faults probe.old) (faults probe.new) }
    ensures still { result ≡ Noted.Kept → faults probe.new ≡ faults probe.old }
{
    probe.note(note)
}

// Gives a note to a probe, and tells whether it was kept.
fn give_note(probe: &mut Box<dyn Probe>, note: &Note) -> bool
    ensures { Hears (notes probe.old) (notes probe.new) (faults probe.old) (faults probe.new) (note.now ∷ []) result }
{
    match note_in(probe, note) {
        Noted::Kept => true,
        Noted::Failed => false,
        Noted::NoMemory => false,
    }
}

// Gives so many stores of one size and one value, one behind the other, and tells whether all were kept.
fn give_puts(probe: &mut Box<dyn Probe>, at: u32, size: u8, count: u32, word: &Word) -> bool
    ensures { Hears (notes probe.old) (notes probe.new) (faults probe.old) (faults probe.new) (puts at size count word.now) result }
{
    let mut next = at;
    for _ in 0..count {
        let note = Note::Put {
            at: next,
            size,
            word: *word,
        };
        if !give_note(probe, &note) {
            return false;
        }
        next = next.wrapping_add(size as u32);
    }
    true
}

// Gives the notes of an entry, and tells whether all were kept.
fn give_entry(probe: &mut Box<dyn Probe>, entry: &Entry) -> bool
    ensures { HearsEntry (notes probe.old) (notes probe.new) (faults probe.old) (faults probe.new) entry.now result }
{
    match entry {
        Entry::One(note) => give_note(probe, note),
        Entry::Fill { at, count, byte } => give_fill(probe, *at, *count, *byte),
    }
}

// Gives bytes that were all put with one value: up to a multiple of four one by one, then four at once, then the last.
fn give_fill(probe: &mut Box<dyn Probe>, at: u32, count: u32, byte: u8) -> bool
    ensures { Hears (notes probe.old) (notes probe.new) (faults probe.old) (faults probe.new) (filled at count byte) result }
{
    let one = Word {
        bits: byte as u32,
        tag: 0,
    };
    let four = Word {
        bits: byte as u32 * 0x01010101,
        tag: 0,
    };
    let head = ((4 - at % 4) % 4).min(count);
    let words = (count - head) / 4;
    let behind = at.wrapping_add(head);
    let last = behind.wrapping_add(4 * words);
    if !give_puts(probe, at, 1, head, &one) {
        return false;
    }
    if !give_puts(probe, behind, 4, words, &four) {
        return false;
    }
    give_puts(probe, last, 1, (count - head) % 4, &one)
}

// Gives the notes of all entries, and tells whether all were kept. Behind one that was not kept it gives none.
pub fn give_entries(probe: &mut Box<dyn Probe>, entries: &[Entry]) -> bool
    ensures { Hears (notes probe.old) (notes probe.new) (faults probe.old) (faults probe.new) (notes_of entries.now) result }
{
    for entry in entries {
        if !give_entry(probe, entry) {
            return false;
        }
    }
    true
}
