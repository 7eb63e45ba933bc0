// The objects of a run, in the one memory that has their bytes at addresses.
ghost use Rattle.std.specs.Prelude.{◌≡◌, true, false, ◌∷◌, ◌++◌, [], length, Some, None, ⊤, IfOk, IfSome, IsSome, MatchOption, MatchResult};
ghost use Rattle.sc_meaning.specs.Beside.{born_in, died_in, empty_memory, kept_in, put_in, word_of};
ghost use Rattle.sc_mem.specs.Flat.{aligned_place, raw_read};
ghost use Rattle.sc_interp_world.specs.Keeping.{moving, IsPutBeside, IsPutInto};
ghost use Rattle.sc_meaning.specs.Values as value;
ghost use Rattle.sc_meaning.specs.World as spec;
ghost use Rattle.sc_mem.specs.Words.{IsSize};
ghost use Rattle.sc_mem_store.specs.Holding.{value_at};
ghost use Rattle.sc_mem_store.specs.Living.{HasCells, IsBare, IsByteOf, IsLiveAt, IsLiving, IsTagAt};

use sc_base::{Cell as Stored, Items, Key, Kind, NoMemory, Shared, Word};
use sc_meaning_values::Value;
use sc_mem_store::{Cell, Landed, Place, Store};
use std::alloc::Global;
use std::marker::Model;

/// All objects that were born, the first with number 1, in the memory that has their bytes. It is `shown` where compiled code
/// looks at it. Where none does contracts do not speak of addresses, so that nothing which the meaning has no word for
/// stands in the world of a run of interpreted modules.
#[derive(Drop)]
pub struct Held {
    store: Store,
    shown: bool,
}

impl Model for Held {
    ghost use Rattle.sc_interp_world.specs.Keeping.{Keeping, keeping};

    ghost Value = { Keeping };

    ghost view = { λ h. keeping h.shown h.store };
}

impl Held {
    /// No object is born. The stack and the heap have these bytes, and the functions the numbers of their places in the list.
    pub fn new(
        alloc: Global,
        stack: u64,
        heap: u64,
        functions: Items<Shared<Key>>,
    ) -> Result<Held, NoMemory>
        ensures { IfOk result (λ h. h ≡ record { objects = []; memory = Some (empty_memory stack heap); functions = functions }) }
    {
        let store = Store::new(alloc, stack, heap, functions)?;
        Ok(Held { store, shown: true })
    }

    /// The same, with a memory that is not seen.
    pub fn aside(
        alloc: Global,
        stack: u64,
        heap: u64,
        functions: Items<Shared<Key>>,
    ) -> Result<Held, NoMemory>
        ensures { IfOk result (λ h. h ≡ record { objects = []; memory = None; functions = [] }) }
    {
        let store = Store::new(alloc, stack, heap, functions)?;
        Ok(Held {
            store,
            shown: false,
        })
    }

    /// The objects.
    #[inline(always)]
    pub fn objects(&self) -> &Store
        ensures { result.now.objects ≡ self.now.objects }
    {
        &self.store
    }

    /// Whether the addresses of objects are seen.
    pub fn has_memory(&self) -> bool
        ensures { MatchOption self.now.memory (result ≡ false) (λ _. result ≡ true) }
    {
        self.shown
    }

    /// The memory is seen from here on. Nothing of the objects changes.
    pub fn reveal(&mut self)
        ensures { self.new.objects ≡ self.old.objects }
    {
        self.shown = true;
    }

    /// How many functions have numbers.
    pub fn functions(&self) -> usize {
        self.store.functions()
    }

    /// More functions get the next numbers. Nothing of the objects changes.
    ///
    /// # Errors
    ///
    /// `NoMemory` also where a live object holds a word with the functions' tag that leads to no function, which only compiled
    /// code can have stored in an undefined step: it may be one of these functions now.
    pub fn number(&mut self, more: &[Shared<Key>]) -> Result<(), NoMemory>
        ensures same { self.new ≡ record self.old { functions = self.new.functions } }
        ensures none { MatchOption self.old.memory (self.new ≡ self.old) (λ _. ⊤) }
        ensures more { IfOk result (λ _. MatchOption self.old.memory (self.new ≡ self.old) (λ _. self.new ≡ record self.old { functions = self.old.functions ++ more.now })) }
    {
        if more.is_empty() {
            return Ok(());
        }
        if self.store.has_stray()? {
            return Err(NoMemory);
        }
        self.store.number(more)
    }

    /// An object outside the heap is born at an address, its bytes unwritten.
    pub fn birth(&mut self, size: u32, kind: Kind, base: u32) -> Result<(), NoMemory>
        ensures { IfOk result (λ _. self.new ≡ moving (λ os. os ++ spec.fresh size kind ∷ []) (born_in size kind (Some base)) self.old) }
    {
        self.store.birth(size, kind, base)
    }

    /// An object of the heap is born in a block of its own, its bytes unwritten.
    pub fn allocate(&mut self, size: u32) -> Result<(), NoMemory>
        ensures { IfOk result (λ _. self.new ≡ moving (λ os. os ++ spec.fresh size Kind.Heap ∷ []) (born_in size Kind.Heap None) self.old) }
    {
        self.store.allocate(size)
    }

    /// An object dies.
    pub fn death(&mut self, id: u32) -> Result<(), NoMemory>
        ensures { IfOk result (λ _. self.new ≡ moving (λ os. spec.ended os id (spec.object_at os id)) (died_in id) self.old) }
    {
        self.store.death(id)
    }

    /// Bytes are written into an object from an offset on.
    pub fn put(&mut self, id: u32, at: u32, new: Items<Cell>) -> Result<(), NoMemory>
        ensures { IfOk result (λ _. self.new ≡ moving (λ os. spec.written os id at new (spec.object_at os id)) (put_in self.old.functions id at new) self.old) }
    {
        self.store.put(id, at, new.as_slice())
    }

    /// A value is stored as `n` bytes of an object from an offset on.
    #[inline(always)]
    pub fn store(&mut self, id: u32, at: u32, n: u32, v: &Value) -> Result<(), NoMemory>
        ensures { IfOk result (λ _. self.new ≡ moving (λ os. spec.written os id at (value.cells_of n v.now) (spec.object_at os id)) (put_in self.old.functions id at (value.cells_of n v.now)) self.old) }
    {
        self.store.store(id, at, n, v)
    }

    /// So many bytes go to an object and offset from an object and offset.
    pub fn copy(&mut self, to: u32, at: u32, from: u32, off: u32, n: u32) -> Result<(), NoMemory>
        ensures { IfOk result (λ _. self.new ≡ moving (λ os. spec.written os to at (spec.cells_at self.old.objects from off n) (spec.object_at os to)) (put_in self.old.functions to at (spec.cells_at self.old.objects from off n)) self.old) }
    {
        self.store.copy(to, at, from, off, n)
    }
}

impl Held {
    /// The address of a live object's first byte: `None` where no live object has this number.
    pub fn base(&self, id: u32) -> Option<u32>
        ensures { IfSome result (λ _. IsLiving self.now.objects id) }
    {
        self.store.base(id)
    }

    /// The byte of a live object that stands at an address: `None` where the byte there belongs to no live object.
    pub fn live_at(&self, address: u32) -> Option<Place>
        ensures lives { IfSome result (λ p. IsLiveAt self.now.objects p.id p.offset) }
        ensures place { IfSome result (λ p. IfSome self.now.memory (λ m. IsByteOf m.flat.objects p.id p.offset address)) }
    {
        self.store.live_at(address)
    }

    /// The tag of what stands at an address: that of functions at a function's stub, else the number of the live object that has
    /// the byte there or ends just in front of it.
    pub fn tag_at(&self, address: u32) -> Option<u32>
        ensures { IfSome self.now.memory (λ m. IsTagAt self.now.functions m.flat.objects address result) }
    {
        self.store.tag_at(address)
    }

    /// What the `size` bytes at an address hold, without a test.
    #[inline(always)]
    pub fn load(&self, at: u32, size: u8) -> Option<Word>
        requires { IsSize size }
        ensures { MatchOption self.now.memory (result ≡ None) (λ m. result ≡ raw_read m.flat at size) }
    {
        load_in(self.shown, &self.store, at, size)
    }

    /// The value of a word.
    pub fn value(&self, w: Word) -> Result<Value, NoMemory>
        ensures { IfOk result (λ v. IfSome self.now.memory (λ m. v ≡ value_at self.now.functions m.flat.objects w.tag w.bits)) }
    {
        self.store.value(w)
    }

    /// The word of a value.
    pub fn word(&self, v: &Value) -> Result<Word, NoMemory>
        ensures { IfOk result (λ w. IfSome self.now.memory (λ m. w ≡ word_of self.now.functions m.flat.objects v.now)) }
    {
        self.store.word(v)
    }

    /// The `n` cells of memory from an address on.
    pub fn raw_cells(&self, from: u32, n: u32) -> Result<Items<Stored>, NoMemory>
        ensures { IfOk result (λ cells. IfSome self.now.memory (λ m. (length cells ≡ n) × HasCells m.flat from cells)) }
    {
        self.store.raw_cells(from, n)
    }

    /// One cell of memory is put at an address: into the live object that has the byte there, or beside all objects.
    pub fn put_raw(&mut self, at: u32, cell: Stored) -> Result<Option<Landed>, NoMemory>
        ensures { IfOk result (λ put. MatchOption put (IsPutBeside at cell self.old self.new) (λ l. IsPutInto l.id l.offset l.byte at cell self.old self.new)) }
    {
        self.store.put_raw(at, cell)
    }

    /// Writes a word to the `size` bytes at an address that belong to no live object, where there are such bytes.
    #[inline(always)]
    pub fn keep(&mut self, at: u32, size: u8, w: Word) -> Result<Option<()>, NoMemory>
        requires { IsSize size }
        ensures kept { MatchResult result (λ kept. MatchOption kept (self.new ≡ self.old) (λ _. self.new ≡ moving (λ os. os) (kept_in at size w) self.old)) (λ _. self.new ≡ self.old) }
        ensures place { IfOk result (λ kept. IfSome kept (λ _. MatchOption self.old.memory ⊥ (λ m. IsSome (aligned_place m.flat at size) × IsBare m.flat.objects at))) }
    {
        keep_in(self.shown, &mut self.store, at, size, w)
    }
}

// What bytes hold where they are seen.
#[inline(always)]
fn load_in(shown: bool, store: &Store, at: u32, size: u8) -> Option<Word>
    requires { IsSize size }
    ensures seen { shown ≡ true → result ≡ raw_read store.now.memory.flat at size }
    ensures unseen { shown ≡ false → result ≡ None }
{
    if shown { store.load(at, size) } else { None }
}

// A word is kept beside the objects of a memory that is seen.
#[inline(always)]
fn keep_in(
    shown: bool,
    store: &mut Store,
    at: u32,
    size: u8,
    w: Word,
) -> Result<Option<()>, NoMemory>
    requires { IsSize size }
    ensures kept { MatchResult result (λ kept. MatchOption kept (store.new ≡ store.old) (λ _. store.new ≡ record store.old { memory = kept_in at size w store.old.memory })) (λ _. store.new ≡ store.old) }
    ensures place { IfOk result (λ kept. IfSome kept (λ _. (shown ≡ true) × IsSome (aligned_place store.old.memory.flat at size) × IsBare store.old.memory.flat.objects at)) }
{
    if shown {
        store.keep(at, size, w)
    } else {
        Ok(None)
    }
}
