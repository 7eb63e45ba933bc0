// The objects of a run.
ghost use Rattle.std.specs.Prelude.{◌≡◌, ◌+◌, ◌<◌, ◌≤◌, ◌∷◌, ◌++◌, [], false, length, OnErr, IfOk, IfSome, IsSome, MatchOption, MatchResult, None, Some};
ghost use Rattle.sc_objects.specs.declared.objects.Obj.{Obj};
ghost use Rattle.sc_objects.specs.Numbered.{IsLive};
ghost use Rattle.sc_mem.specs.Flat.{aligned_place, place, put, raw_read, with_death, written_at};
ghost use Rattle.sc_meaning.specs.Beside as words;
ghost use Rattle.sc_meaning.specs.Beside.{born_in, died_in, empty_memory, kept_in, put_in};
ghost use Rattle.sc_mem_store.specs.Holding.{IsTagged, value_at};
ghost use Rattle.sc_mem.specs.Safe.{IsSafe};
ghost use Rattle.sc_mem.specs.Words.{IsSize};
ghost use Rattle.sc_mem_store.specs.Changes.{changed, item_of};
ghost use Rattle.sc_mem_store.specs.Fetches.{IsFetched, IsRoom, IsWhole};
ghost use Rattle.sc_mem_store.specs.Living.{IsTagAt};
ghost use Rattle.sc_mem_store.specs.Puts.{IsPutBeside, IsPutInto};
ghost use Rattle.sc_mem_store.specs.Stray.{HasNoStray, HasNone, HasNoneThere};
ghost use Rattle.sc_meaning.specs.Values.{Pointer, cells_of, value_of_cells};
ghost use Rattle.sc_meaning.specs.Violations.{cells_read, load_rule};
ghost use Rattle.sc_meaning.specs.World.{Object, cells_at, ended, fresh, object_at, written};

use crate::bytes::{byte_of, bytes_at, cell_of, cells_from};
use crate::cell::Cell;
use crate::few::{Few, few_at};
use crate::history::{Change, History, Item};
use crate::machine::{Place, is_tag, place_at};
use crate::pointers::{tag_at, value_of, word_of};
use crate::span::span_of;
use crate::stray::are_stray_from;
use crate::values::value_byte;
use sc_base::{Cell as Stored, Items, Key, Kind, NoMemory, Shared, Word};
use sc_meaning_values::{Shape, Value};
use sc_mem::Memory;
use sc_objects::Obj;
use std::alloc::Global;
use std::marker::Model;
use std::snapshot::Snapshot;

/// What is known of an object beside its bytes: its size, its kind, and whether it lives.
#[derive(Clone, Copy, Debug, PartialEq, Eq)]
pub struct Facts {
    pub size: u32,
    pub kind: Kind,
    pub live: bool,
}

/// A byte of a live object that was put into it.
#[derive(Drop)]
pub struct Landed {
    pub id: u32,
    pub offset: u32,
    pub byte: Cell,
}

/// All objects that were born, in one memory: seen as the list of them, the dead ones with the bytes that they had. The
/// number of an object is its place in the list, counted from 1.
#[derive(Drop)]
pub struct Store {
    alloc: Global,
    memory: Memory,
    functions: Items<Shared<Key>>,
    history: History,
}

impl Model for Store {
    ghost use Rattle.sc_mem_store.specs.Kept.{Kept};

    ghost Value = { Kept };

    ghost view = { λ s. record { objects = s.history.objects; memory = s.memory; functions = s.functions } };

    ghost use Rattle.sc_mem_store.specs.Holding.{Holds};

    ghost invariant = { λ s. Holds s.history.objects s.memory.flat s.functions };
}

impl Store {
    ghost use Rattle.sc_mem_store.specs.Holding.{IsInside, IsReached};

    /// No object is born. The stack and the heap have these bytes, and the functions the numbers of their places in the list.
    #[tactic(auto, using(crate::proofs::Holding::holds_none))]
    pub fn new(
        alloc: Global,
        stack: u64,
        heap: u64,
        functions: Items<Shared<Key>>,
    ) -> Result<Store, NoMemory>
        ensures { IfOk result (λ s. s ≡ record { objects = []; memory = empty_memory stack heap; functions = functions }) }
    {
        if stack > 16777216 || heap > 67108864 {
            return Err(NoMemory);
        }
        let memory = Memory::new(alloc, stack as u32, heap as u32)?;
        Ok(Store {
            alloc,
            memory,
            functions,
            history: History::new(),
        })
    }

    /// How many objects were born.
    pub fn len(&self) -> u32
        ensures { result ≡ length self.now.objects }
    {
        self.memory.count()
    }

    /// The object with a number.
    #[tactic(auto, using(crate::proofs::Holding::found_held, crate::proofs::Holding::held_nowhere))]
    pub fn find(&self, id: u32) -> Option<Facts>
        ensures { MatchOption result (object_at self.now.objects id ≡ None) (λ f. (o : Object) × (object_at self.now.objects id ≡ Some o) × (f.size ≡ o.size) × (f.kind ≡ o.kind) × (f.live ≡ o.live)) }
    {
        match self.memory.find(id) {
            None => None,
            Some(object) => Some(Facts {
                size: object.size,
                kind: object.kind,
                live: object.live,
            }),
        }
    }

    /// The `n` bytes of a live object from an offset on, of which those outside the object are left out.
    #[tactic(auto, using(crate::proofs::Reading::read_result))]
    pub fn cells(&self, id: u32, at: u64, n: u32) -> Result<Items<Cell>, NoMemory>
        ensures { IfOk result (λ cells. cells ≡ cells_at self.now.objects id at n) }
    {
        let span = span_of(&self.memory, id, at, n)?;
        bytes_at(
            self.alloc,
            self.functions.as_slice(),
            &self.memory,
            span.base,
            span.count,
        )
    }

    /// The same for at most four bytes, without a list.
    #[tactic(auto, using(crate::proofs::Reading::read_result))]
    pub fn few(&self, id: u32, at: u64, n: u32) -> Result<Few, NoMemory>
        ensures { IfOk result (λ few. few ≡ cells_at self.now.objects id at n) }
    {
        let span = span_of(&self.memory, id, at, n)?;
        few_at(
            self.functions.as_slice(),
            &self.memory,
            span.base,
            span.count,
        )
    }

    /// A scalar of `n` bytes, `further` bytes from an offset on, where a load of it breaks no rule. `None` where it does, and perhaps where
    /// it does not.
    #[inline(always)]
    pub fn fetch(
        &self,
        id: u32,
        at: u32,
        further: u32,
        n: u32,
        pointer: bool,
    ) -> Result<Option<Value>, NoMemory>
        ensures { IfOk result (λ got. IfSome got (λ v. (load_rule self.now.objects (Pointer id at) further n pointer ≡ None) × (v ≡ value_of_cells (cells_read self.now.objects (Pointer id at) further n)))) }
    {
        match word_there(&self.memory, id, at, further, n, pointer) {
            None => Ok(None),
            Some(w) => {
                let v = value_of(self.functions.as_slice(), &self.memory, w.tag, w.bits)?;
                Ok(Some(v))
            }
        }
    }

    /// An object outside the heap is born at an address, its bytes unwritten.
    #[tactic(auto, using(crate::proofs::Holding::holds_born, crate::proofs::Memories::born_at))]
    pub fn birth(&mut self, size: u32, kind: Kind, base: u32) -> Result<(), NoMemory>
        ensures ok { IfOk result (λ _. self.new ≡ record { objects = self.old.objects ++ fresh size kind ∷ []; memory = born_in size kind (Some base) self.old.memory; functions = self.old.functions }) }
        ensures err { OnErr result (self.new ≡ self.old) }
    {
        self.memory.settle(size, kind, base)?;
        self.history = after(&self.history, Change::Birth(size, kind));
        Ok(())
    }

    /// An object of the heap is born in a block of its own, its bytes unwritten.
    #[tactic(auto, using(crate::proofs::Holding::holds_born, crate::proofs::Memories::born_block))]
    pub fn allocate(&mut self, size: u32) -> Result<(), NoMemory>
        ensures { IfOk result (λ _. self.new ≡ record { objects = self.old.objects ++ fresh size Kind.Heap ∷ []; memory = born_in size Kind.Heap None self.old.memory; functions = self.old.functions }) }
    {
        self.memory.allocate(size)?;
        self.history = after(&self.history, Change::Birth(size, Kind::Heap));
        Ok(())
    }

    /// A live object dies.
    #[tactic(auto, using(crate::proofs::Holding::holds_ended, crate::proofs::Holding::held_nowhere, crate::proofs::Memories::died_nowhere))]
    pub fn death(&mut self, id: u32) -> Result<(), NoMemory>
        ensures { IfOk result (λ _. self.new ≡ record { objects = ended self.old.objects id (object_at self.old.objects id); memory = died_in id self.old.memory; functions = self.old.functions }) }
    {
        let Some(object) = self.memory.find(id) else {
            return Ok(());
        };
        if !object.live {
            return Err(NoMemory);
        }
        end_object(&mut self.memory, id, object);
        self.history = after(&self.history, Change::Death(id));
        Ok(())
    }

    // A byte is written into a live object.
    #[tactic(auto, using(crate::proofs::Holding::holds_put, crate::proofs::Memories::put_one))]
    fn put_byte(&mut self, id: u32, at: u32, cell: &Cell) -> Result<(), NoMemory>
        ensures put { IfOk result (λ _. self.new ≡ record { objects = written self.old.objects id at (cell.now ∷ []) (object_at self.old.objects id); memory = put_in self.old.functions id at (cell.now ∷ []) self.old.memory; functions = self.old.functions }) }
        ensures inside { IfOk result (λ _. IsInside self.old.objects id at) }
        ensures reach { IfOk result (λ _. IsReached self.old.memory id at) }
    {
        let Some(object) = self.memory.find(id) else {
            return Err(NoMemory);
        };
        if !object.live || object.size <= at {
            return Err(NoMemory);
        }
        let Some(address) = object.base.checked_add(at) else {
            return Err(NoMemory);
        };
        let stored = cell_of(self.functions.as_slice(), &self.memory, cell)?;
        put_cell(&mut self.memory, address, stored)?;
        self.history = after(&self.history, Change::Put(id, at, Snapshot::of(cell)));
        Ok(())
    }

    /// Bytes are written into a live object from an offset on.
    #[tactic(auto, using(crate::proofs::Writing::put_nothing, crate::proofs::Writing::put_step, crate::proofs::Writing::put_all, crate::proofs::Memories::put_in_nothing, crate::proofs::Memories::put_done))]
    pub fn put(&mut self, id: u32, at: u32, cells: &[Cell]) -> Result<(), NoMemory>
        ensures { IfOk result (λ _. self.new ≡ record { objects = written self.old.objects id at cells.now (object_at self.old.objects id); memory = put_in self.old.functions id at cells.now self.old.memory; functions = self.old.functions }) }
    {
        let _ = self.memory.find(id);
        let mut next = at;
        for cell in cells {
            self.put_byte(id, next, cell)?;
            let Some(further) = next.checked_add(1) else {
                return Err(NoMemory);
            };
            next = further;
        }
        Ok(())
    }

    /// A value is stored as `n` bytes of a live object from an offset on, at most four.
    #[inline(always)]
    pub fn store(&mut self, id: u32, at: u32, n: u32, v: &Value) -> Result<(), NoMemory>
        ensures { IfOk result (λ _. self.new ≡ record { objects = written self.old.objects id at (cells_of n v.now) (object_at self.old.objects id); memory = put_in self.old.functions id at (cells_of n v.now) self.old.memory; functions = self.old.functions }) }
    {
        match size_of(n, v) {
            Some(size) => self.store_whole(id, at, size, v),
            None => self.store_bytes(id, at, n, v),
        }
    }

    // The same for what is a whole word, or a part of a number.
    #[inline(always)]
    fn store_whole(&mut self, id: u32, at: u32, size: u8, v: &Value) -> Result<(), NoMemory>
        requires { IsWhole size v.now }
        ensures { IfOk result (λ _. self.new ≡ record { objects = written self.old.objects id at (cells_of size v.now) (object_at self.old.objects id); memory = put_in self.old.functions id at (cells_of size v.now) self.old.memory; functions = self.old.functions }) }
    {
        let Some(address) = room_at(&self.memory, id, at, size) else {
            return Err(NoMemory);
        };
        let word = word_of(self.functions.as_slice(), &self.memory, v)?;
        put_word(&mut self.memory, id, at, address, size, word)?;
        self.history = after(&self.history, Change::Store(id, at, size, Snapshot::of(v)));
        Ok(())
    }

    // The same byte by byte.
    #[tactic(auto, using(crate::proofs::Writing::store_nothing, crate::proofs::Memories::store_nothing_in, crate::proofs::Memories::kept_is))]
    #[inline(never)]
    fn store_bytes(&mut self, id: u32, at: u32, n: u32, v: &Value) -> Result<(), NoMemory>
        ensures { IfOk result (λ _. self.new ≡ record { objects = written self.old.objects id at (cells_of n v.now) (object_at self.old.objects id); memory = put_in self.old.functions id at (cells_of n v.now) self.old.memory; functions = self.old.functions }) }
    {
        if n > 4 {
            return Err(NoMemory);
        }
        let _ = self.memory.find(id);
        let mut next = at;
        for k in 0..n {
            let cell = value_byte(self.alloc, v, k)?;
            self.put_byte(id, next, &cell)?;
            let Some(further) = next.checked_add(1) else {
                return Err(NoMemory);
            };
            next = further;
        }
        Ok(())
    }

    /// So many bytes go to a live object and offset from a live object and offset, as if by way of another place.
    pub fn copy(&mut self, to: u32, at: u32, from: u32, off: u32, n: u32) -> Result<(), NoMemory>
        ensures { IfOk result (λ _. self.new ≡ record { objects = written self.old.objects to at (cells_at self.old.objects from off n) (object_at self.old.objects to); memory = put_in self.old.functions to at (cells_at self.old.objects from off n) self.old.memory; functions = self.old.functions }) }
    {
        let cells = self.cells(from, u64::from(off), n)?;
        self.put(to, at, cells.as_slice())
    }
}

impl Store {
    /// How many functions have numbers.
    pub fn functions(&self) -> usize {
        self.functions.len()
    }

    // Whether an object that lives holds a pointer with the functions' tag that leads to no function.
    fn is_stray_in(&self, id: u32) -> Result<bool, NoMemory>
        ensures { IfOk result (λ has. has ≡ false → HasNone self.now.objects id) }
    {
        is_stray_there(self.functions.as_slice(), &self.memory, id)
    }

    /// Whether one that lives does.
    #[tactic(auto, using(crate::proofs::Strays::none_yet, crate::proofs::Strays::one_more, crate::proofs::Strays::none_at_all))]
    pub fn has_stray(&self) -> Result<bool, NoMemory>
        ensures { IfOk result (λ has. has ≡ false → HasNoStray self.now.objects) }
    {
        let count = self.len();
        'looking: for before in 0..count {
            if self.is_stray_in(before + 1)? {
                return Ok(true);
            }
        }
        Ok(false)
    }

    // One more function gets the next number.
    #[tactic(auto, using(crate::proofs::Numbering::holds_numbered))]
    fn number_one(&mut self, key: Shared<Key>) -> Result<(), NoMemory>
        requires { HasNoStray self.old.objects }
        ensures { MatchResult result (λ _. self.new ≡ record self.old { functions = self.old.functions ++ key ∷ [] }) (λ _. self.new ≡ self.old) }
    {
        self.functions.push(key)?;
        Ok(())
    }

    /// More functions get the next numbers. The words that were values of these functions before they had numbers
    /// are in no live object.
    pub fn number(&mut self, more: &[Shared<Key>]) -> Result<(), NoMemory>
        requires { HasNoStray self.old.objects }
        ensures same { self.new ≡ record self.old { functions = self.new.functions } }
        ensures more { IfOk result (λ _. self.new ≡ record self.old { functions = self.old.functions ++ more.now }) }
    {
        for key in more {
            self.number_one(key.share()?)?;
        }
        Ok(())
    }
}

impl Store {
    ghost use Rattle.sc_mem_store.specs.Living.{IsBare, IsByteOf, IsLiveAt, IsLiving};

    /// The address of a live object's first byte: `None` exactly where no live object has this number.
    #[tactic(auto, using(crate::proofs::Living::living))]
    pub fn base(&self, id: u32) -> Option<u32>
        ensures { IfSome result (λ _. IsLiving self.now.objects id) }
    {
        match self.memory.find(id) {
            None => None,
            Some(object) => { if object.live { Some(object.base) } else { None } }
        }
    }

    /// The byte of a live object that stands at an address: `None` exactly where the byte there belongs to no live object.
    #[tactic(auto, using(crate::proofs::Living::live_at, crate::proofs::Living::byte_there))]
    pub fn live_at(&self, address: u32) -> Option<Place>
        ensures lives { IfSome result (λ p. IsLiveAt self.now.objects p.id p.offset) }
        ensures place { IfSome result (λ p. IsByteOf self.now.memory.flat.objects p.id p.offset address) }
    {
        place_at(&self.memory, address)
    }

    /// The tag of what stands at an address: that of functions at a function's stub, else the number of the live object that has
    /// the byte there or ends just in front of it. `None` exactly where there is neither.
    pub fn tag_at(&self, address: u32) -> Option<u32>
        ensures { IsTagAt self.now.functions self.now.memory.flat.objects address result }
    {
        tag_at(self.functions.as_slice(), &self.memory, address)
    }

    /// What the `size` bytes at an address hold, without a test: `None` exactly outside the areas and where the address is
    /// no multiple of the size. An unwritten byte reads as 0, and only the four pieces of one pointer have a tag.
    pub fn load(&self, at: u32, size: u8) -> Option<Word>
        requires { IsSize size }
        ensures { result ≡ raw_read self.now.memory.flat at size }
    {
        self.memory.raw_load(at, size)
    }

    /// The value of a word: a number, the function whose stub begins there, or a place in the object that its tag names.
    pub fn value(&self, w: Word) -> Result<Value, NoMemory>
        ensures { IfOk result (λ v. v ≡ value_at self.now.functions self.now.memory.flat.objects w.tag w.bits) }
    {
        value_of(self.functions.as_slice(), &self.memory, w.tag, w.bits)
    }

    /// The word of a value.
    ///
    /// # Errors
    ///
    /// `NoMemory` for a function without a number and for a place in an object that was not born, which no run has.
    pub fn word(&self, v: &Value) -> Result<Word, NoMemory>
        ensures { IfOk result (λ w. w ≡ words.word_of self.now.functions self.now.memory.flat.objects v.now) }
    {
        word_of(self.functions.as_slice(), &self.memory, v)
    }

    /// Writes a word to the `size` bytes at an address that belong to no live object: the objects stay as they are. `None`,
    /// where nothing is changed, if they are a live object's, outside the areas, or at no multiple of the size, or if the
    /// word has the tag of an object that was not born.
    #[tactic(auto, using(crate::proofs::Living::holds_kept, crate::proofs::Memories::kept_stored))]
    pub fn keep(&mut self, at: u32, size: u8, w: Word) -> Result<Option<()>, NoMemory>
        requires { IsSize size }
        ensures kept { MatchResult result (λ kept. MatchOption kept (self.new ≡ self.old) (λ _. self.new ≡ record self.old { memory = kept_in at size w self.old.memory })) (λ _. self.new ≡ self.old) }
        ensures place { IfOk result (λ kept. IfSome kept (λ _. IsSome (aligned_place self.old.memory.flat at size) × IsBare self.old.memory.flat.objects at)) }
    {
        match place_at(&self.memory, at) {
            Some(_) => Ok(None),
            None => {
                // A word with the tag of an object to come would be that object's place once it is born.
                if is_tag(&self.memory, w.tag) {
                    self.memory.raw_store(at, size, w)
                } else {
                    Ok(None)
                }
            }
        }
    }
}

// Cells as they stand, whatever they are of.
impl Store {
    ghost use Rattle.sc_mem_store.specs.Living.{HasCells, IsBare, IsByteOf};

    /// The `n` cells from an address on.
    pub fn raw_cells(&self, from: u32, n: u32) -> Result<Items<Stored>, NoMemory>
        ensures { IfOk result (λ cells. (length cells ≡ n) × HasCells self.now.memory.flat from cells) }
    {
        cells_from(self.alloc, &self.memory, from, n)
    }

    // The byte of a live object that stands at an address, or that none does.
    fn place(&self, at: u32) -> Option<Place>
        ensures { MatchOption result (IsBare self.now.memory.flat.objects at) (λ p. IsByteOf self.now.memory.flat.objects p.id p.offset at) }
    {
        place_at(&self.memory, at)
    }

    // A cell is put where it belongs to no live object.
    fn put_beside(&mut self, at: u32, cell: Stored) -> Result<(), NoMemory>
        requires { IsBare self.old.memory.flat.objects at }
        ensures { IfOk result (λ _. IsPutBeside at cell self.old self.new) }
    {
        let Some(stored) = tagged(&self.memory, cell) else {
            return Err(NoMemory);
        };
        put_cell(&mut self.memory, at, stored)?;
        Ok(())
    }

    // A cell is put into a live object, as the byte that it stands for.
    fn put_inside(&mut self, place: Place, at: u32, cell: Stored) -> Result<Cell, NoMemory>
        requires { IsByteOf self.old.memory.flat.objects place.id place.offset at }
        ensures { IfOk result (λ c. IsPutInto place.id place.offset c at cell self.old self.new) }
    {
        let Some(stored) = tagged(&self.memory, cell) else {
            return Err(NoMemory);
        };
        let byte = byte_of(self.functions.as_slice(), &self.memory, stored)?;
        put_cell(&mut self.memory, at, stored)?;
        self.history = after(
            &self.history,
            Change::Put(place.id, place.offset, Snapshot::of(&byte)),
        );
        Ok(byte)
    }

    /// One cell is put at an address: into the live object that has the byte there, or, where none has it, beside all objects.
    ///
    /// # Errors
    ///
    /// `NoMemory` also outside the areas, and for a piece with the tag of an object that was not born.
    pub fn put_raw(&mut self, at: u32, cell: Stored) -> Result<Option<Landed>, NoMemory>
        ensures { IfOk result (λ put. MatchOption put (IsPutBeside at cell self.old self.new) (λ l. IsPutInto l.id l.offset l.byte at cell self.old self.new)) }
    {
        match self.place(at) {
            None => {
                self.put_beside(at, cell)?;
                Ok(None)
            }
            Some(place) => {
                let byte = self.put_inside(place, at, cell)?;
                Ok(Some(Landed {
                    id: place.id,
                    offset: place.offset,
                    byte,
                }))
            }
        }
    }
}

// A cell that is no piece, or one with a tag that there is.
fn tagged(memory: &Memory, cell: Stored) -> Option<Stored>
    ensures { IfSome result (λ x. (x ≡ cell) × IsTagged memory.now.flat.objects x) }
{
    match cell {
        Stored::Unwritten => Some(cell),
        Stored::Byte(_) => Some(cell),
        Stored::Frag { tag, .. } => {
            if is_tag(memory, tag) {
                Some(cell)
            } else {
                None
            }
        }
    }
}

// The word of a scalar in a live object, where a load of it breaks no rule.
#[inline(always)]
#[tactic(auto, using(crate::proofs::Fetching::fetched_pointer, crate::proofs::Fetching::fetched_number, crate::proofs::Fetching::fetched_null))]
fn word_there(
    memory: &Memory,
    id: u32,
    at: u32,
    further: u32,
    n: u32,
    pointer: bool,
) -> Option<Word>
    ensures word { IfSome result (λ w. IsFetched memory.now.flat id at further n pointer w) }
    ensures safe { IfSome result (λ w. IsSafe memory.now) }
{
    let Some(object) = memory.find(id) else {
        return None;
    };
    let Some(offset) = at.checked_add(further) else {
        return None;
    };
    let Some(end) = offset.checked_add(n) else {
        return None;
    };
    if !object.live || object.size < end || n == 0 || offset % n != 0 {
        return None;
    }
    let Some(address) = object.base.checked_add(offset) else {
        return None;
    };
    let Some(w) = memory.written(address, n) else {
        return None;
    };
    if w.tag != 0 {
        return if pointer { Some(w) } else { None };
    }
    if !pointer {
        return Some(w);
    }
    if w.bits == 0 && n == 4 { Some(w) } else { None }
}

// Whether an object that lives holds a pointer with the functions' tag that leads to no function.
#[tactic(auto, using(crate::proofs::Strays::lives_not, crate::proofs::Strays::dies, crate::proofs::Strays::lives))]
fn is_stray_there(functions: &[Shared<Key>], memory: &Memory, id: u32) -> Result<bool, NoMemory>
    ensures { IfOk result (λ has. has ≡ false → HasNoneThere memory.now.flat functions.now id) }
{
    let Some(object) = memory.find(id) else {
        return Ok(false);
    };
    if !object.live {
        return Ok(false);
    }
    are_stray_from(functions, memory, object.base, object.size)
}

// The objects after a change.
fn after(history: &History, change: Change) -> History
    ensures { result.objects ≡ changed history.now.objects (item_of change) }
{
    let item = Item { change };
    let changed = History::with(history, &item);
    drop(item);
    changed
}

// How many bytes a store of that many bytes of a value has, where they are a number's or four of a pointer.
#[inline(always)]
fn size_of(n: u32, v: &Value) -> Option<u8>
    ensures { IfSome result (λ size. (size ≡ n) × IsWhole size v.now) }
{
    match &v.shape {
        Shape::Number(_) => size_of_number(n),
        Shape::FunctionAt(_) => { if n == 4 { Some(4) } else { None } }
        Shape::Pointer(_, _) => { if n == 4 { Some(4) } else { None } }
    }
}

// How many bytes of a number are stored at once.
#[inline(always)]
#[tactic(auto, using(crate::proofs::Wholes::sizes))]
fn size_of_number(n: u32) -> Option<u8>
    ensures { IfSome result (λ size. (size ≡ n) × IsSize size) }
{
    match n {
        1 => Some(1),
        2 => Some(2),
        4 => Some(4),
        _ => None,
    }
}

// The address of so many bytes of a live object from an offset on.
#[inline(always)]
#[tactic(auto, using(crate::proofs::Wholes::room_so))]
fn room_at(memory: &Memory, id: u32, at: u32, size: u8) -> Option<u32>
    ensures { IfSome result (λ a. IsRoom memory.now.flat id at size a) }
{
    let Some(object) = memory.find(id) else {
        return None;
    };
    let Some(end) = at.checked_add(u32::from(size)) else {
        return None;
    };
    if !object.live || object.size < end {
        return None;
    }
    object.base.checked_add(at)
}

// A word is put there.
#[inline(always)]
#[tactic(auto, using(crate::proofs::Wholes::room_is))]
fn put_word(
    memory: &mut Memory,
    id: u32,
    at: u32,
    address: u32,
    size: u8,
    w: Word,
) -> Result<(), NoMemory>
    requires size { IsSize size }
    requires room { IsRoom memory.old.flat id at size address }
    ensures safe { IsSafe memory.old }
    ensures put { MatchResult result (λ _. (memory.new.flat ≡ put memory.old.flat address size w) × (memory.new.blocks ≡ memory.old.blocks)) (λ _. memory.new ≡ memory.old) }
{
    let _ = memory.find(id);
    memory.init(address, size, w)
}

// Another cell is put at an address.
fn put_cell(memory: &mut Memory, at: u32, cell: Stored) -> Result<(), NoMemory>
    ensures safe { IsSafe memory.old }
    ensures cell { MatchResult result (λ _. IsSome (place memory.old.flat at 1) × (memory.new.flat ≡ written_at memory.old.flat (place memory.old.flat at 1) (cell ∷ []))) (λ _. memory.new.flat ≡ memory.old.flat) }
    ensures blocks { IfOk result (λ _. memory.new.blocks ≡ memory.old.blocks) }
{
    match memory.set_cell(at, cell) {
        Ok(Some(())) => Ok(()),
        Ok(None) => Err(NoMemory),
        Err(fault) => Err(fault),
    }
}

// A live object dies, and its block is given back where it is allocated.
#[tactic(auto, using(crate::proofs::Memories::died_heap, crate::proofs::Memories::died_other))]
fn end_object(memory: &mut Memory, id: u32, object: Obj)
    requires { IsLive memory.old.flat.objects id object }
    ensures flat { memory.new.flat ≡ with_death memory.old.flat id }
    ensures all { memory.new ≡ died_in id memory.old }
{
    memory.death(id);
    match object.kind {
        Kind::Heap => memory.give(object.base),
        Kind::Static | Kind::Const | Kind::Literal | Kind::Auto => (),
    }
}
