// The world of a run, and the single changes to it.
ghost use Rattle.std.specs.Prelude.{◌≡◌, true, false, not, ℕ, ◌+◌, ◌-◌, ◌∷◌, ◌++◌, [], List, length, reverse, IfOk, IfSome, MatchOption, ⊤, slice_index, slice_set, replicate};
ghost use Rattle.sc_meaning.specs.Beside.{born_in, empty_memory, nothing_beside, with_memory};
ghost use Rattle.sc_meaning.specs.Values as value;
ghost use Rattle.sc_meaning.specs.World as spec;
ghost use Rattle.sc_interp_world.specs.Keeping.{beside_of};
ghost use Rattle.sc_interp_world.specs.Happenings.{item_of};
ghost use Rattle.sc_interp_world.specs.Outputs.{bytes_moved, output};
ghost use Rattle.sc_interp_world.specs.Told.{Other, step_of};

use crate::account::Account;
use crate::event::{Change, Event, Item, Showing};
use crate::held::Held;
use crate::names::Names;
use crate::object::{Born, Frame};
use crate::places::Places;
use sc_base::{Bytes, Duplicate, Items, Key, Kind, Name, NoMemory, Shared, Stack};
use sc_meaning::Spot;
use sc_meaning_values::Value;
use sc_mem_store::{Cell, Store};
use sc_program::StaticId;
use std::alloc::Global;
use std::marker::Model;
use std::snapshot::Snapshot;

/// The classes of the heap's blocks.
const CLASSES: usize = 29;

/// Where the stack ends.
const STACK_END: u32 = 0x2000_0000;

/// Where a program stands in memory: its functions by their numbers, and the addresses of its static objects and literals.
#[derive(Drop)]
pub struct Layout {
    pub functions: Items<Shared<Key>>,
    pub places: Names,
}

/// The world of a run: what is there, and all that happened so far.
#[derive(Drop)]
pub struct World {
    alloc: Global,
    stack: u64,
    heap: u64,
    pub(crate) objects: Held,
    places: Places,
    used: u64,
    free: Items<u64>,
    made: u64,
    input: Stack<u8>,
    seed: u32,
    pub(crate) frames: Stack<Frame>,
    names: Names,
    enters: u64,
    count: u64,
    begun: u64,
    pub(crate) account: Account,
}

impl Model for World {
    ghost use Rattle.sc_meaning.specs.World as spec;
    ghost use Rattle.sc_interp_world.specs.Keeping.{beside_of};

    ghost Value = { spec.World };

    ghost view = { λ w. record { stack = w.stack; heap = w.heap; objects = w.objects.objects; used = w.used; free = w.free; made = w.made; input = w.input; seed = w.seed; frames = w.frames; names = w.names; enters = w.enters; count = w.count; begun = w.begun; trail = w.account; beside = beside_of w.objects w.places.seen } };
}

// One more.
fn more(n: u64) -> Result<u64, NoMemory>
    ensures { IfOk result (λ m. m ≡ n + 1) }
{
    let Some(m) = n.checked_add(1) else {
        return Err(NoMemory)
    };
    Ok(m)
}

// The innermost call gets a line.
fn put_line(frames: &mut Stack<Frame>, line: u32) -> Result<(), NoMemory>
    ensures { IfOk result (λ _. frames.new ≡ spec.on_innermost (λ f. record f { line = line }) frames.old) }
{
    if let Some(mut frame) = frames.pop() {
        frame.line = line;
        frames.push(frame)?;
    }
    Ok(())
}

// A block is entered in the innermost call.
fn put_block(frames: &mut Stack<Frame>, born: Born) -> Result<(), NoMemory>
    ensures { IfOk result (λ _. frames.new ≡ spec.on_innermost (λ f. record f { blocks = f.blocks ++ born ∷ [] }) frames.old) }
{
    if let Some(mut frame) = frames.pop() {
        frame.blocks.push(born)?;
        frames.push(frame)?;
    }
    Ok(())
}

// The last block of the innermost call is left.
fn drop_block(frames: &mut Stack<Frame>) -> Result<(), NoMemory>
    ensures { IfOk result (λ _. frames.new ≡ spec.on_innermost (λ f. record f { blocks = spec.without_last f.blocks }) frames.old) }
{
    if let Some(mut frame) = frames.pop() {
        let kept = frame.blocks.len().saturating_sub(1);
        frame.blocks.truncate(kept);
        frames.push(frame)?;
    }
    Ok(())
}

// The address of what stands so far above the low end of the innermost frame, where so many bytes of the stack are used.
fn frame_address(used: u64, offset: u32) -> Result<u32, NoMemory>
    ensures { IfOk result (λ at. at ≡ 0x20000000 - used + offset) }
{
    let Some(low) = u64::from(STACK_END).checked_sub(used) else {
        return Err(NoMemory);
    };
    match u32::try_from(low + u64::from(offset)) {
        Ok(at) => Ok(at),
        Err(_) => Err(NoMemory),
    }
}

// The address of a place outside the heap.
fn address_of(places: &Names, used: u64, spot: &Spot) -> Result<u32, NoMemory>
    ensures { IfOk result (λ at. spec.address places.now used spot.now ≡ Some at) }
{
    match spot {
        Spot::Slot(offset) => frame_address(used, *offset),
        Spot::Named(id) => match places.named(id) {
            None => Err(NoMemory),
            Some(at) => Ok(at),
        },
        Spot::Block => Err(NoMemory),
    }
}

// Another count of free blocks of a class.
fn put_free(free: &mut Items<u64>, k: u32, n: u64)
    ensures { free.new ≡ slice_set free.old k n }
{
    let k = k as usize;
    if k < free.len() {
        free.set(k, n);
    }
}

// No class has a free block.
fn no_block(alloc: Global) -> Result<Items<u64>, NoMemory>
    ensures { IfOk result (λ free. free ≡ replicate 29 0) }
{
    let counts = Vec::from_elem(alloc, 0, CLASSES)?;
    Ok(Items::from_vec(counts))
}

impl World {
    /// A world in which nothing is there yet, and objects will stand at addresses. Where it is heard all that happens is recorded,
    /// behind the note `Start`.
    ///
    /// # Errors
    ///
    /// `NoMemory` also where it is heard and the stack's or the heap's bytes are no number of 32 bits.
    pub fn new(
        alloc: Global,
        stack: u64,
        heap: u64,
        input: Items<u8>,
        layout: Layout,
        heard: bool,
    ) -> Result<World, NoMemory>
        ensures { IfOk result (λ w. w ≡ record { stack = stack; heap = heap; objects = []; used = 0; free = replicate 29 0; made = 0; input = input; seed = 1; frames = []; names = []; enters = 0; count = 0; begun = 0; trail = []; beside = record { functions = layout.functions; places = layout.places; memory = Some (empty_memory stack heap) } }) }
    {
        let Layout { functions, places } = layout;
        let account = Account::of(alloc, stack, heap, functions.as_slice(), heard)?;
        let objects = Held::new(alloc, stack, heap, functions)?;
        let seen = Places::seen(alloc, places);
        World::with(alloc, stack, heap, input, objects, seen, account)
    }

    /// That of a run without compiled code. Objects will stand at addresses, which are not seen. Where it is heard all that happens is
    /// recorded, behind the note `Start`.
    ///
    /// # Errors
    ///
    /// `NoMemory` also where it is heard and the stack's or the heap's bytes are no number of 32 bits.
    pub fn aside(
        alloc: Global,
        stack: u64,
        heap: u64,
        input: Items<u8>,
        layout: Layout,
        heard: bool,
    ) -> Result<World, NoMemory>
        ensures { IfOk result (λ w. w ≡ record { stack = stack; heap = heap; objects = []; used = 0; free = replicate 29 0; made = 0; input = input; seed = 1; frames = []; names = []; enters = 0; count = 0; begun = 0; trail = []; beside = nothing_beside }) }
    {
        let Layout { functions, places } = layout;
        let account = Account::of(alloc, stack, heap, functions.as_slice(), heard)?;
        let objects = Held::aside(alloc, stack, heap, functions)?;
        let unseen = Places::unseen(alloc, places);
        World::with(alloc, stack, heap, input, objects, unseen, account)
    }

    // A world in which only these objects are there, and nothing happened.
    fn with(
        alloc: Global,
        stack: u64,
        heap: u64,
        input: Items<u8>,
        objects: Held,
        places: Places,
        account: Account,
    ) -> Result<World, NoMemory>
        requires { account ≡ [] }
        ensures { IfOk result (λ w. w ≡ record { stack = stack; heap = heap; objects = objects.objects; used = 0; free = replicate 29 0; made = 0; input = input; seed = 1; frames = []; names = []; enters = 0; count = 0; begun = 0; trail = []; beside = beside_of objects places.seen }) }
    {
        let free = no_block(alloc)?;
        let mut left = Stack::new(alloc);
        left.push_all(input)?;
        Ok(World {
            alloc,
            stack,
            heap,
            objects,
            places,
            used: 0,
            free,
            made: 0,
            input: left,
            seed: 1,
            frames: Stack::new(alloc),
            names: Names::new(alloc),
            enters: 0,
            count: 0,
            begun: 0,
            account,
        })
    }

    /// The addresses of objects are seen from here on, as compiled code comes into a run. Nothing else changes.
    pub fn reveal(&mut self)
        ensures { self.new ≡ record self.old { beside = self.new.beside } }
    {
        if !self.objects.has_memory() {
            self.objects.reveal();
            self.places.reveal(self.alloc);
        }
    }

    /// Whether objects stand at addresses that are seen.
    pub fn shows_memory(&self) -> bool
        ensures { MatchOption self.now.beside.memory (result ≡ false) (λ _. result ≡ true) }
    {
        self.objects.has_memory()
    }

    /// How many functions have numbers.
    pub fn functions(&self) -> usize {
        self.objects.functions()
    }

    /// More functions get the next numbers. Nothing else changes.
    ///
    /// # Errors
    ///
    /// `NoMemory` also where a live object holds a word with the functions' tag that leads to no function.
    pub fn number(&mut self, more: &[Shared<Key>]) -> Result<(), NoMemory>
        ensures same { self.new ≡ record self.old { beside = record self.old.beside { functions = self.new.beside.functions } } }
        ensures none { MatchOption self.old.beside.memory (self.new ≡ self.old) (λ _. ⊤) }
        ensures more { IfOk result (λ _. MatchOption self.old.beside.memory (self.new ≡ self.old) (λ _. self.new ≡ record self.old { beside = record self.old.beside { functions = self.old.beside.functions ++ more.now } })) }
    {
        self.objects.number(more)?;
        self.account.number(more)
    }

    /// The function at which a run begins is told by the greatest number, 4,294,967,295, if it has none: it is no function of
    /// the program. Nothing changes but how it is told.
    pub fn name_entry(&mut self, key: &Key) -> Result<(), NoMemory>
        ensures { self.new ≡ self.old }
    {
        self.account.name_entry(key)
    }

    /// Static objects and literals that are born from here on stand at these addresses. Nothing else changes.
    pub fn set_places(&mut self, places: Names)
        ensures { MatchOption self.old.beside.memory (self.new ≡ self.old) (λ _. self.new ≡ record self.old { beside = record self.old.beside { places = places } }) }
    {
        if self.objects.has_memory() {
            self.places.seen = places;
        } else {
            self.places.unseen = places;
        }
    }

    /// The allocator of the run.
    pub fn alloc(&self) -> Global {
        self.alloc
    }

    /// The bytes that the stack may have.
    pub fn stack(&self) -> u64
        ensures { result ≡ self.now.stack }
    {
        self.stack
    }

    /// The bytes that the heap may have.
    pub fn heap(&self) -> u64
        ensures { result ≡ self.now.heap }
    {
        self.heap
    }

    /// The objects, of which the first has number 1.
    #[inline(always)]
    pub fn objects(&self) -> &Store
        ensures { result.now.objects ≡ self.now.objects }
    {
        self.objects.objects()
    }

    /// The bytes of the stack that are used.
    pub fn used(&self) -> u64
        ensures { result ≡ self.now.used }
    {
        self.used
    }

    /// The heap's bytes that were made blocks.
    pub fn made(&self) -> u64
        ensures { result ≡ self.now.made }
    {
        self.made
    }

    /// How many heap blocks of a class are free.
    pub fn free_of(&self, k: u32) -> u64
        ensures { result ≡ spec.free_of self.now.free k }
    {
        match self.free.as_slice().get(k as usize) {
            Some(n) => *n,
            None => 0,
        }
    }

    /// The innermost call.
    pub fn innermost(&self) -> Option<&Frame>
        ensures { MatchOption result (self.now.frames ≡ []) (λ top. (below : List spec.Frame) × (self.now.frames ≡ top.now ∷ below)) }
    {
        self.frames.top()
    }

    /// The active calls, from the outermost in.
    pub fn frames(&self) -> &[Frame]
        ensures { reverse result.now ≡ self.now.frames }
    {
        self.frames.as_slice()
    }

    /// The object with a name.
    pub fn named(&self, id: &StaticId) -> Option<u32>
        ensures { result ≡ spec.named_in self.now.names id.now }
    {
        self.names.named(id)
    }

    /// The object with the name that a key is.
    pub fn keyed(&self, key: &Key) -> Option<u32>
        ensures { result ≡ spec.named_in self.now.names (StaticId.Named key.now) }
    {
        self.names.keyed(key)
    }

    /// The object of a module's literal with these bytes.
    pub fn literal(&self, home: &Name, bytes: &Bytes) -> Option<u32>
        ensures { result ≡ spec.named_in self.now.names (StaticId.Literal home.now bytes.now) }
    {
        self.names.literal(home, bytes)
    }

    /// How many calls were entered.
    pub fn enters(&self) -> u64
        ensures { result ≡ self.now.enters }
    {
        self.enters
    }

    /// How many events passed.
    pub fn count(&self) -> u64
        ensures { result ≡ self.now.count }
    {
        self.count
    }

    /// How many statements have begun and not ended.
    pub fn begun(&self) -> u64
        ensures { result ≡ self.now.begun }
    {
        self.begun
    }

    /// The next byte of the input.
    pub fn next_input(&self) -> Option<u8>
        ensures { MatchOption result (self.now.input ≡ []) (λ b. (rest : List ℕ) × (self.now.input ≡ b ∷ rest)) }
    {
        match self.input.top() {
            None => None,
            Some(b) => Some(*b),
        }
    }

    /// The last random number.
    pub fn seed(&self) -> u32
        ensures { result ≡ self.now.seed }
    {
        self.seed
    }

    /// The bytes that were written so far.
    pub fn output(&self) -> &[u8]
        ensures { result.now ≡ output self.now.trail }
    {
        self.account.written()
    }

    /// The units of work that were done so far.
    pub fn work_done(&self) -> u64
        ensures { result ≡ spec.work self.now.trail }
    {
        self.account.work()
    }

    /// The bytes that births and copies of structures touched so far.
    pub fn moved(&self) -> u64
        ensures { result ≡ bytes_moved self.now.trail }
    {
        self.account.moved()
    }

    // The trail keeps what happened, which no note on a call or a line tells.
    #[inline(always)]
    fn note(&mut self, change: Change) -> Result<(), NoMemory>
        requires { step_of (item_of change) ≡ Other }
        ensures { IfOk result (λ _. self.new ≡ record self.old { trail = self.old.trail ++ item_of change ∷ [] }) }
    {
        let item = Item { change };
        let kept = self.account.push(&item);
        drop(item);
        kept
    }

    /// Some units of work.
    pub fn work(&mut self, n: u32) -> Result<(), NoMemory>
        ensures { IfOk result (λ _. self.new ≡ spec.pass (spec.Work n) self.old) }
    {
        self.account.worked(n)
    }

    /// One unit of work.
    pub fn tick(&mut self) -> Result<(), NoMemory>
        ensures { IfOk result (λ _. self.new ≡ spec.tick self.old) }
    {
        self.work(1)
    }

    /// A statement begins.
    pub fn begin(&mut self) -> Result<(), NoMemory>
        ensures { IfOk result (λ _. self.new ≡ spec.pass spec.Begin self.old) }
    {
        self.begun = more(self.begun)?;
        self.note(Change::Begin)
    }

    /// A statement ends.
    pub fn end(&mut self) -> Result<(), NoMemory>
        ensures { IfOk result (λ _. self.new ≡ spec.pass spec.End self.old) }
    {
        self.begun = self.begun.saturating_sub(1);
        self.note(Change::End)
    }

    /// A call goes out of a text, which is work.
    pub fn goes_out(&mut self) -> Result<(), NoMemory>
        ensures { IfOk result (λ _. self.new ≡ spec.pass spec.GoesOut self.old) }
    {
        self.note(Change::GoesOut)
    }

    /// A call comes back to a text, which is work.
    pub fn comes_back(&mut self) -> Result<(), NoMemory>
        ensures { IfOk result (λ _. self.new ≡ spec.pass spec.ComesBack self.old) }
    {
        self.note(Change::ComesBack)
    }

    /// The line that is reached next is that of this object's declarator, the initialiser of which comes behind it.
    pub fn declares(&mut self, id: u32) -> Result<(), NoMemory>
        ensures { IfOk result (λ _. self.new ≡ spec.pass (spec.Declares id) self.old) }
    {
        self.note(Change::Declares(id))
    }

    /// An event passes.
    pub fn happens(&mut self, event: Event) -> Result<(), NoMemory>
        ensures { IfOk result (λ _. self.new ≡ spec.pass (spec.Happens event) self.old) }
    {
        self.count = more(self.count)?;
        match &event.showing {
            Showing::Enter(_, _) => self.enters = more(self.enters)?,
            Showing::At(_, line, _) => put_line(&mut self.frames, *line)?,
            Showing::Leave => (),
            Showing::Out(_) => (),
        }
        self.account.happens(event)
    }

    // Where an object outside the heap will stand.
    fn base_for(&self, spot: &Spot) -> Result<u32, NoMemory>
        ensures { IfOk result (λ base. IfSome self.now.beside.memory (λ _. spec.address self.now.beside.places self.now.used spot.now ≡ Some base)) }
    {
        if self.objects.has_memory() {
            address_of(&self.places.seen, self.used, spot)
        } else {
            address_of(&self.places.unseen, self.used, spot)
        }
    }

    // Memory and the objects get one more.
    #[tactic(auto, using(crate::proofs::Moving::born_there))]
    fn bear(&mut self, size: u32, kind: Kind, spot: &Spot) -> Result<(), NoMemory>
        ensures { IfOk result (λ _. self.new ≡ record self.old { objects = self.old.objects ++ spec.fresh size kind ∷ []; beside = with_memory (born_in size kind (spec.address self.old.beside.places self.old.used spot.now)) self.old.beside }) }
    {
        match spot {
            Spot::Block => match kind {
                Kind::Heap => self.objects.allocate(size),
                Kind::Static | Kind::Const | Kind::Literal | Kind::Auto => Err(NoMemory),
            },
            Spot::Slot(_) | Spot::Named(_) => {
                let base = self.base_for(spot)?;
                self.objects.birth(size, kind, base)
            }
        }
    }

    /// An object is born in its place, its bytes unwritten.
    pub fn birth(&mut self, size: u32, kind: Kind, spot: &Spot) -> Result<(), NoMemory>
        ensures { IfOk result (λ _. self.new ≡ spec.pass (spec.Birth size kind spot.now) self.old) }
    {
        self.bear(size, kind, spot)?;
        self.note(Change::Birth(size, kind, Snapshot::of(spot)))?;
        self.account.tell_birth(&self.objects, size, kind)
    }

    /// An object dies.
    pub fn death(&mut self, id: u32) -> Result<(), NoMemory>
        ensures { IfOk result (λ _. self.new ≡ spec.pass (spec.Death id) self.old) }
    {
        self.objects.death(id)?;
        self.note(Change::Death(id))?;
        self.account.tell_death(id)
    }

    /// Bytes are written into an object from an offset on.
    pub fn put(&mut self, id: u32, at: u32, new: Items<Cell>) -> Result<(), NoMemory>
        ensures { IfOk result (λ _. self.new ≡ spec.pass (spec.Put id at new) self.old) }
    {
        self.note(Change::Put(id, at, Snapshot::of(&new)))?;
        self.account
            .tell_put(&self.objects, id, at, new.as_slice())?;
        self.objects.put(id, at, new)
    }

    /// A value is stored as `n` bytes of an object from an offset on.
    pub fn store(&mut self, id: u32, at: u32, n: u32, v: &Value) -> Result<(), NoMemory>
        ensures { IfOk result (λ _. self.new ≡ spec.pass (spec.Put id at (value.cells_of n v.now)) self.old) }
    {
        self.note(Change::Store(id, at, n, Snapshot::of(v)))?;
        self.objects.store(id, at, n, v)?;
        self.account.tell_store(&self.objects, id, at, n, v)
    }

    /// So many bytes go to an object and offset from an object and offset.
    pub fn copy(&mut self, to: u32, at: u32, from: u32, off: u32, n: u32) -> Result<(), NoMemory>
        ensures { IfOk result (λ _. self.new ≡ spec.pass (spec.Copy to at from off n) self.old) }
    {
        self.objects.copy(to, at, from, off, n)?;
        self.note(Change::Copy(to, at, from, off, n))?;
        self.account.tell_copy(&self.objects, to, at, from, off, n)
    }

    /// A free heap block of a class is taken.
    pub fn take_free(&mut self, k: u32) -> Result<(), NoMemory>
        ensures { IfOk result (λ _. self.new ≡ spec.pass (spec.TakeFree k) self.old) }
    {
        let left = self.free_of(k).saturating_sub(1);
        put_free(&mut self.free, k, left);
        self.note(Change::TakeFree(k))
    }

    /// A heap block of this size is made and taken.
    pub fn take_new(&mut self, size: u64) -> Result<(), NoMemory>
        ensures { IfOk result (λ _. self.new ≡ spec.pass (spec.TakeNew size) self.old) }
    {
        let Some(made) = self.made.checked_add(size) else {
            return Err(NoMemory)
        };
        self.made = made;
        self.note(Change::TakeNew(size))
    }

    /// A heap block of a class is given back.
    pub fn give(&mut self, k: u32) -> Result<(), NoMemory>
        ensures { IfOk result (λ _. self.new ≡ spec.pass (spec.Give k) self.old) }
    {
        let left = more(self.free_of(k))?;
        put_free(&mut self.free, k, left);
        self.note(Change::Give(k))
    }

    /// So many bytes of the stack are used from here on.
    pub fn use_stack(&mut self, n: u64) -> Result<(), NoMemory>
        ensures { IfOk result (λ _. self.new ≡ spec.pass (spec.Stack n) self.old) }
    {
        self.used = n;
        self.note(Change::Stack(n))
    }

    /// A byte of the input is read.
    pub fn read(&mut self) -> Result<(), NoMemory>
        ensures { IfOk result (λ _. self.new ≡ spec.pass spec.Read self.old) }
    {
        let _ = self.input.pop();
        self.note(Change::Read)
    }

    /// The next random number comes from this one.
    pub fn reseed(&mut self, n: u32) -> Result<(), NoMemory>
        ensures { IfOk result (λ _. self.new ≡ spec.pass (spec.Seed n) self.old) }
    {
        self.seed = n;
        self.note(Change::Seed(n))
    }

    /// A call becomes active.
    pub fn push(&mut self, frame: Frame) -> Result<(), NoMemory>
        ensures { IfOk result (λ _. self.new ≡ spec.pass (spec.Push frame) self.old) }
    {
        self.account.enter(&frame)?;
        self.frames.push(frame)
    }

    /// The innermost call is no longer active.
    pub fn pop(&mut self) -> Result<(), NoMemory>
        ensures { IfOk result (λ _. self.new ≡ spec.pass spec.Pop self.old) }
    {
        drop(self.frames.pop());
        self.account.leave()
    }

    /// A block is entered in the innermost call.
    pub fn open_block(&mut self, born: Born) -> Result<(), NoMemory>
        ensures { IfOk result (λ _. self.new ≡ spec.pass (spec.OpenBlock born) self.old) }
    {
        self.note(Change::OpenBlock(Snapshot::of(&born)))?;
        put_block(&mut self.frames, born)
    }

    /// The last block of the innermost call is left.
    pub fn close_block(&mut self) -> Result<(), NoMemory>
        ensures { IfOk result (λ _. self.new ≡ spec.pass spec.CloseBlock self.old) }
    {
        drop_block(&mut self.frames)?;
        self.note(Change::CloseBlock)
    }

    /// An object has this name from here on.
    pub fn name(&mut self, id: StaticId, object: u32) -> Result<(), NoMemory>
        ensures { IfOk result (λ _. self.new ≡ spec.pass (spec.Name id object) self.old) }
    {
        self.names.put(id.copy(self.alloc)?, object)?;
        self.note(Change::Name(id, object))
    }

    /// No object has this name from here on.
    pub fn unname(&mut self, id: StaticId) -> Result<(), NoMemory>
        ensures { IfOk result (λ _. self.new ≡ spec.pass (spec.Unname id) self.old) }
    {
        self.names.take(&id);
        self.note(Change::Unname(id))
    }
}
