// What stands at the addresses of a world's memory.
ghost use Rattle.std.specs.Prelude.{◌≡◌, ◌++◌, ◌∷◌, [], length, IfOk, IfSome, IsSome, MatchOption, None};
ghost use Rattle.sc_interp_world.specs.Putting.{PutsAt};
ghost use Rattle.sc_meaning.specs.Beside.{kept_in, with_memory, word_of};
ghost use Rattle.sc_meaning.specs.World as spec;
ghost use Rattle.sc_mem.specs.Flat.{aligned_place, raw_read};
ghost use Rattle.sc_mem.specs.Words.{IsSize};
ghost use Rattle.sc_mem_store.specs.Holding.{value_at};
ghost use Rattle.sc_mem_store.specs.Living.{HasCells, IsBare, IsByteOf, IsLiveAt, IsLiving, IsTagAt};

use crate::event::{Change, Item};
use crate::world::World;
use sc_base::{Cell as Stored, Items, NoMemory, Word};
use sc_meaning_values::Value;
use sc_mem_store::{Landed, Place};
use std::snapshot::Snapshot;

impl World {
    /// The address of a live object's first byte: `None` where no live object has this number. It stays until the object
    /// dies. Also `None` behind a change that was given up for want of memory.
    pub fn base(&self, id: u32) -> Option<u32>
        ensures { IfSome result (λ _. IsLiving self.now.objects id) }
    {
        self.objects.base(id)
    }

    /// The byte of a live object that stands at an address: `None` where the byte there belongs to no live object, as just
    /// behind the last byte of one. Also `None` behind a change that was given up for want of memory.
    pub fn live_at(&self, address: u32) -> Option<Place>
        ensures lives { IfSome result (λ p. IsLiveAt self.now.objects p.id p.offset) }
        ensures place { IfSome result (λ p. IfSome self.now.beside.memory (λ m. IsByteOf m.flat.objects p.id p.offset address)) }
    {
        self.objects.live_at(address)
    }

    /// The tag of what stands at an address: that of functions at a function's stub, else the number of the live object that has
    /// the byte there or ends just in front of it. `None` where there is neither.
    pub fn tag_at(&self, address: u32) -> Option<u32>
        ensures { IfSome self.now.beside.memory (λ m. IsTagAt self.now.beside.functions m.flat.objects address result) }
    {
        self.objects.tag_at(address)
    }

    /// What the `size` bytes at an address hold, whether or not they are an object's: `None` exactly outside the static area,
    /// the heap and the stack, and where the address is no multiple of the size. An unwritten byte reads as 0, and only four
    /// bytes that are one pointer have a tag.
    pub fn load(&self, at: u32, size: u8) -> Option<Word>
        requires { IsSize size }
        ensures { MatchOption self.now.beside.memory (result ≡ None) (λ m. result ≡ raw_read m.flat at size) }
    {
        self.objects.load(at, size)
    }

    /// The value of a word: a number, the function whose stub begins there, or a place in the object that its tag names.
    pub fn value(&self, w: Word) -> Result<Value, NoMemory>
        ensures { IfOk result (λ v. IfSome self.now.beside.memory (λ m. v ≡ value_at self.now.beside.functions m.flat.objects w.tag w.bits)) }
    {
        self.objects.value(w)
    }

    /// The word of a value: of a place in an object its address, with the object's number as the tag.
    ///
    /// # Errors
    ///
    /// `NoMemory` for a function that has no stub and for a place in an object that was not born, which no run has.
    pub fn word(&self, v: &Value) -> Result<Word, NoMemory>
        ensures { IfOk result (λ w. IfSome self.now.beside.memory (λ m. w ≡ word_of self.now.beside.functions m.flat.objects v.now)) }
    {
        self.objects.word(v)
    }

    /// Writes a word to the `size` bytes at an address that belong to no live object, as compiled code does with what it
    /// saves on the stack. No object changes, and the trail keeps nothing of it. `None`, where nothing is written, if the first
    /// byte is a live object's, outside the static area, the heap and the stack, at no multiple of the size, or if the word
    /// has the tag of an object that was not born.
    pub fn keep(&mut self, at: u32, size: u8, w: Word) -> Result<Option<()>, NoMemory>
        requires { IsSize size }
        ensures same { self.new ≡ record self.old { beside = record self.old.beside { memory = self.new.beside.memory } } }
        ensures kept { IfOk result (λ kept. MatchOption kept (self.new ≡ self.old) (λ _. self.new ≡ record self.old { beside = with_memory (kept_in at size w) self.old.beside })) }
        ensures place { IfOk result (λ kept. IfSome kept (λ _. MatchOption self.old.beside.memory ⊥ (λ m. IsSome (aligned_place m.flat at size) × IsBare m.flat.objects at))) }
    {
        let kept = self.objects.keep(at, size, w)?;
        self.account.tell_kept(at, size, w, kept.is_some())?;
        Ok(kept)
    }

    /// The `n` cells of memory from an address on, whatever they are of.
    pub fn raw_cells(&self, from: u32, n: u32) -> Result<Items<Stored>, NoMemory>
        ensures { IfOk result (λ cells. IfSome self.now.beside.memory (λ m. (length cells ≡ n) × HasCells m.flat from cells)) }
    {
        self.objects.raw_cells(from, n)
    }

    // The trail keeps that a byte was put into an object.
    fn note_byte(&mut self, landed: &Landed) -> Result<(), NoMemory>
        ensures { IfOk result (λ _. self.new ≡ record self.old { trail = self.old.trail ++ spec.Put landed.now.id landed.now.offset (landed.now.byte ∷ []) ∷ [] }) }
    {
        let item = Item {
            change: Change::Byte(landed.id, landed.offset, Snapshot::of(&landed.byte)),
        };
        let kept = self.account.push(&item);
        drop(item);
        kept
    }

    /// One cell of memory is put at an address, as compiled code does that copies bytes or stores a word over the end of an object: into
    /// the live object that has the byte there, or beside all objects. No note tells it: who calls this tells the whole (`tell_stored`).
    ///
    /// # Errors
    ///
    /// `NoMemory` also outside the static area, the heap and the stack, and for a piece with the tag of an object that was not born.
    #[tactic(auto, using(crate::proofs::Putting::puts_beside))]
    pub fn put_raw(&mut self, at: u32, cell: Stored) -> Result<(), NoMemory>
        ensures { IfOk result (λ _. PutsAt at cell self.old self.new) }
    {
        match self.objects.put_raw(at, cell)? {
            None => Ok(()),
            Some(landed) => {
                let noted = self.note_byte(&landed);
                drop(landed);
                noted?;
                Ok(())
            }
        }
    }

    /// Tells that a word was stored as so many bytes from an address on, where changes of memory are told.
    pub fn tell_stored(&mut self, at: u32, size: u8, w: Word) -> Result<(), NoMemory>
        ensures { self.new ≡ self.old }
    {
        self.account.tell_kept(at, size, w, true)
    }
}
