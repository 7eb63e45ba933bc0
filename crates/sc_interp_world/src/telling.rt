// What the record is told of changes of memory: notes, by addresses.
ghost use Rattle.std.specs.Prelude.{◌≡◌, ◌≤◌, length, OnOk, IfOk};
ghost use Rattle.std.specs.List.{prefix_len};
ghost use Rattle.sc_base.specs.declared.note.Note.TheVariants as notes;
ghost use Rattle.sc_interp_world.specs.Recording as spec;

use crate::held::Held;
use crate::recorder::{Entry, Recorder};
use sc_base::{Kind, NoMemory, Note, Word};
use sc_meaning_values::Value;
use sc_mem_store::{Cell, Content};

/// From so many equal bytes in a row on they are one entry.
const MANY: usize = 8;

// How many bytes in front are this one.
fn equal_in_front(byte: u8, cells: &[Cell]) -> usize
    ensures count { result ≡ prefix_len (spec.is_byte byte) cells.now }
    ensures inside { result ≤ length cells.now }
{
    cells.iter().take_while(|cell| is_byte(cell, byte)).count()
}

// Whether it is this byte.
fn is_byte(cell: &Cell, byte: u8) -> bool
    ensures { result ≡ spec.is_byte byte cell.now }
{
    match &cell.content {
        Content::Unwritten => false,
        Content::Piece(_, _) => false,
        Content::Byte(b) => *b == byte,
    }
}

// Whether a byte is piece k of a pointer.
fn is_piece(cell: &Cell, v: &Value, k: u32) -> bool {
    match &cell.content {
        Content::Unwritten => false,
        Content::Byte(_) => false,
        Content::Piece(of, j) => *j == k && of.same(v),
    }
}

// Whether the first four bytes are the pieces of a pointer, in order.
fn is_whole(v: &Value, cells: &[Cell]) -> bool {
    let [a, b, c, d, ..] = cells else {
        return false;
    };
    is_piece(a, v, 0) && is_piece(b, v, 1) && is_piece(c, v, 2) && is_piece(d, v, 3)
}

// Byte k of a number.
fn byte_of(bits: u32, k: u32) -> u32 {
    match k {
        0 => bits % 256,
        1 => bits / 256 % 256,
        2 => bits / 65_536 % 256,
        _ => bits / 16_777_216 % 256,
    }
}

// One byte is put.
fn tell_byte(recorder: &mut Recorder, at: u32, bits: u32) -> Result<(), NoMemory>
    ensures { OnOk result (recorder.new ≡ spec.noted (notes.Put at 1 (spec.plain bits)) recorder.old) }
{
    recorder.add(Note::Put {
        at,
        size: 1,
        word: Word { bits, tag: 0 },
    })
}

// The first bytes are this one; how many of them were told.
fn tell_equal(recorder: &mut Recorder, at: u32, byte: u8, cells: &[Cell]) -> Result<usize, NoMemory>
    ensures record { IfOk result (λ _. recorder.new ≡ spec.equal_told (prefix_len (spec.is_byte byte) cells.now) at byte recorder.old) }
    ensures told { IfOk result (λ told. told ≡ spec.equal_count (prefix_len (spec.is_byte byte) cells.now)) }
{
    let n = equal_in_front(byte, cells);
    if n < MANY {
        tell_byte(recorder, at, u32::from(byte))?;
        return Ok(1);
    }
    let Ok(count) = u32::try_from(n) else {
        return Err(NoMemory);
    };
    recorder.put(Entry::Fill { at, count, byte })?;
    Ok(n)
}

// The first byte is piece k of a pointer; how many bytes were told. A piece without the others is told as the number that
// it is to code that reads it alone: no note says more.
#[tactic(auto, using(crate::proofs::RecordLemmas::adds_one))]
fn tell_piece(
    recorder: &mut Recorder,
    objects: &Held,
    at: u32,
    v: &Value,
    k: u32,
    cells: &[Cell],
) -> Result<usize, NoMemory>
    ensures { IfOk result (λ _. spec.Adds recorder.old recorder.new) }
{
    let word = objects.word(v)?;
    if at % 4 == 0 && is_whole(v, cells) {
        recorder.add(Note::Put { at, size: 4, word })?;
        return Ok(4);
    }
    tell_byte(recorder, at, byte_of(word.bits, k))?;
    Ok(1)
}

// The first of the bytes that are put at an address are told; how many. Of an unwritten one no note can be made: an object
// is born with such bytes.
#[tactic(auto, using(crate::proofs::RecordLemmas::adds_none, crate::proofs::RecordLemmas::adds_equal))]
fn tell_first(
    recorder: &mut Recorder,
    objects: &Held,
    at: u32,
    cells: &[Cell],
) -> Result<usize, NoMemory>
    ensures { IfOk result (λ _. spec.Adds recorder.old recorder.new) }
{
    let [first, ..] = cells else {
        return Ok(0);
    };
    match &first.content {
        Content::Unwritten => Ok(1),
        Content::Byte(byte) => tell_equal(recorder, at, *byte, cells),
        Content::Piece(v, k) => tell_piece(recorder, objects, at, v, *k, cells),
    }
}

impl Recorder {
    /// The last object was born.
    #[tactic(auto, using(crate::proofs::RecordLemmas::adds_none, crate::proofs::RecordLemmas::adds_one))]
    #[inline(never)]
    pub fn birth(&mut self, objects: &Held, size: u32, kind: Kind) -> Result<(), NoMemory>
        ensures { IfOk result (λ _. spec.Adds self.old self.new) }
    {
        let id = objects.objects().len();
        let Some(base) = objects.base(id) else {
            return Ok(());
        };
        self.add(Note::Birth {
            id,
            size,
            kind,
            base,
        })
    }

    /// Bytes are put into an object from an offset on.
    #[tactic(auto, using(crate::proofs::RecordLemmas::adds_none, crate::proofs::RecordLemmas::adds_more))]
    #[inline(never)]
    pub fn puts(
        &mut self,
        objects: &Held,
        id: u32,
        offset: u32,
        cells: &[Cell],
    ) -> Result<(), NoMemory>
        ensures { IfOk result (λ _. spec.Adds self.old self.new) }
    {
        let Some(base) = objects.base(id) else {
            return Ok(());
        };
        let mut at = base.wrapping_add(offset);
        let mut told = 0_usize;
        for k in 0..cells.len() {
            if told <= k {
                let more = tell_first(self, objects, at, &cells[k..])?;
                told = k.saturating_add(more);
            }
            at = at.wrapping_add(1);
        }
        Ok(())
    }

    /// A value was stored as `n` bytes of an object from an offset on.
    #[tactic(auto, using(crate::proofs::RecordLemmas::adds_none, crate::proofs::RecordLemmas::adds_one))]
    #[inline(never)]
    pub fn stores(
        &mut self,
        objects: &Held,
        id: u32,
        offset: u32,
        n: u32,
        v: &Value,
    ) -> Result<(), NoMemory>
        ensures { IfOk result (λ _. spec.Adds self.old self.new) }
    {
        let (Some(base), Ok(size)) = (objects.base(id), u8::try_from(n)) else {
            return Ok(());
        };
        let word = objects.word(v)?;
        self.keeps(base.wrapping_add(offset), size, word)
    }

    /// A word was stored as so many bytes from an address on. Only four bytes keep a pointer's tag.
    #[inline(never)]
    pub fn keeps(&mut self, at: u32, size: u8, word: Word) -> Result<(), NoMemory>
        ensures { OnOk result (self.new ≡ spec.noted (notes.Put at size (spec.stored_word size word)) self.old) }
    {
        let tag = if size == 4 { word.tag } else { 0 };
        self.add(Note::Put {
            at,
            size,
            word: Word {
                bits: word.bits,
                tag,
            },
        })
    }

    /// So many bytes went to an object and offset from an object and offset.
    #[tactic(auto, using(crate::proofs::RecordLemmas::adds_none, crate::proofs::RecordLemmas::adds_one))]
    #[inline(never)]
    pub fn copies(
        &mut self,
        objects: &Held,
        to: u32,
        at: u32,
        from: u32,
        off: u32,
        size: u32,
    ) -> Result<(), NoMemory>
        ensures { IfOk result (λ _. spec.Adds self.old self.new) }
    {
        match (objects.base(to), objects.base(from)) {
            (Some(target), Some(source)) => self.add(Note::Copy {
                to: target.wrapping_add(at),
                from: source.wrapping_add(off),
                size,
            }),
            _ => Ok(()),
        }
    }
}
