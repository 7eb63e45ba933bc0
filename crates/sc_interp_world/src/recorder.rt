// What was told of a run so far, where somebody listens.
ghost use Rattle.std.specs.Prelude.{◌≡◌, ◌+◌, ◌-◌, ◌^◌, ◌++◌, ◌∷◌, [], false, true, not, ◌&&◌, Some, min, OnOk, IfOk};
ghost use Rattle.sc_base.specs.declared.note.Note.TheVariants as notes;
ghost use Rattle.sc_program.specs.declared.storage.StaticId.TheVariants as id;
ghost use Rattle.sc_meaning.specs.World.{named_in};
ghost use Rattle.sc_interp_world.specs.Recording as spec;
ghost use Rattle.sc_interp_world.specs.Told.{Enters, IsNumbered, Numbers};
ghost use Rattle.sc_interp_world.specs.declared.recorder.Entry.TheVariants as entry;

use crate::names::Names;
use crate::object::Frame;
use sc_base::{Duplicate, Items, Key, NoMemory, Note, Shared, Stack, Word};
use sc_program::StaticId;
use std::alloc::Global;
use std::mem;

/// Where the stack ends, at which register 2 stands as a run begins.
const STACK_END: u32 = 0x2000_0000;

/// Where compiled code returns to that was called from outside.
const OUTSIDE: u32 = 0x0000_F000;

/// The number of the program counter among the registers.
const PC: u8 = 32;

const ZERO: Word = Word { bits: 0, tag: 0 };

// A number without a tag.
fn plain(bits: u32) -> Word
    ensures { result ≡ spec.plain bits }
{
    Word { bits, tag: 0 }
}

/// An entry of a run's record: a note, or bytes that were all put with one value, in one piece: `count` bytes from `at`
/// on. A large piece of memory that is filled is one entry.
#[derive(Clone, Copy, Debug, PartialEq, Eq)]
pub enum Entry {
    One(Note),
    Fill { at: u32, count: u32, byte: u8 },
}

/// The registers as compiled code last left them, and how many instructions were carried out since the start.
#[derive(Clone, Copy, Debug)]
pub struct Machine {
    pub pc: u32,
    pub words: [Word; 32],
    pub executed: u64,
}

impl Machine {
    /// The machine as a run begins: all registers are 0, but for the stack's, and the next instruction is where calls from outside
    /// return to.
    pub fn new() -> Machine {
        let mut words = [ZERO; 32];
        words[2] = plain(STACK_END);
        Machine {
            pc: OUTSIDE,
            words,
            executed: 0,
        }
    }
}

/// What was told of a run so far: whether somebody listens, and is to be spared the changes of memory; the functions'
/// numbers, and how many there are; the functions of the active calls, the innermost last; the function that was left or
/// the library function that was called last; the entries that nobody took yet; and the machine. Where nobody listens only
/// the machine is kept.
#[derive(Drop)]
pub struct Recorder {
    alloc: Global,
    listens: bool,
    hushed: bool,
    functions: Names,
    numbered: u32,
    active: Stack<u32>,
    last: u32,
    entries: Items<Entry>,
    machine: Machine,
}

// The functions get the next numbers; how many have one then. A function that has one keeps it.
fn number_all(
    alloc: Global,
    functions: &mut Names,
    numbered: u32,
    more: &[Shared<Key>],
) -> Result<u32, NoMemory>
    ensures { IfOk result (λ _. Numbers functions.old functions.new) }
{
    let mut next = numbered;
    for key in more {
        let key = key.get();
        if functions.keyed(key).is_none() {
            functions.put(StaticId::Named(key.copy(alloc)?), next)?;
        }
        let Some(further) = next.checked_add(1) else {
            return Err(NoMemory);
        };
        next = further;
    }
    Ok(next)
}

impl Recorder {
    /// Nobody listens. It takes no memory.
    pub fn unheard(alloc: Global) -> Recorder
        ensures { (result.listens ≡ false) × (result.entries ≡ []) × (result.active ≡ []) }
    {
        Recorder {
            alloc,
            listens: false,
            hushed: false,
            functions: Names::new(alloc),
            numbered: 0,
            active: Stack::new(alloc),
            last: 0,
            entries: Items::new(alloc),
            machine: Machine::new(),
        }
    }

    /// Somebody listens to a run that begins with this much stack and heap in bytes. The functions have the numbers of their
    /// places in the list.
    pub fn heard(
        alloc: Global,
        stack: u64,
        heap: u64,
        functions: &[Shared<Key>],
    ) -> Result<Recorder, NoMemory>
        ensures { IfOk result (λ r. (r.listens ≡ true) × (r.entries ≡ entry.One (notes.Start stack heap) ∷ []) × (r.active ≡ [])) }
    {
        let (Ok(stack), Ok(heap)) = (u32::try_from(stack), u32::try_from(heap)) else {
            return Err(NoMemory);
        };
        let mut recorder = Recorder::unheard(alloc);
        recorder.listens = true;
        recorder.number(functions)?;
        recorder.add(Note::Start { stack, heap })?;
        Ok(recorder)
    }

    /// Whether somebody listens.
    #[inline(always)]
    pub fn listens(&self) -> bool
        ensures { result ≡ self.now.listens }
    {
        self.listens
    }

    /// Whether somebody listens who is not to be spared the changes of memory.
    #[inline(always)]
    pub fn hears_changes(&self) -> bool
        ensures { result ≡ (self.now.listens && not self.now.hushed) }
    {
        self.listens && !self.hushed
    }

    /// From here on changes of memory are told, or are not.
    pub fn hush(&mut self, yes: bool)
        ensures { self.new ≡ record self.old { hushed = yes } }
    {
        self.hushed = yes;
    }

    /// More functions get the next numbers. A function that has one keeps it.
    pub fn number(&mut self, more: &[Shared<Key>]) -> Result<(), NoMemory>
        ensures same { (self.new.listens ≡ self.old.listens) × (self.new.entries ≡ self.old.entries) × (self.new.active ≡ self.old.active) }
        ensures numbers { IfOk result (λ _. Numbers self.old.functions self.new.functions) }
    {
        self.numbered = number_all(self.alloc, &mut self.functions, self.numbered, more)?;
        Ok(())
    }

    /// The function at which a run begins is told by the greatest number, if it has none: it is no function of the program.
    pub fn name_entry(&mut self, key: &Key) -> Result<(), NoMemory>
        ensures same { (self.new.listens ≡ self.old.listens) × (self.new.entries ≡ self.old.entries) × (self.new.active ≡ self.old.active) }
        ensures numbers { IfOk result (λ _. Numbers self.old.functions self.new.functions) }
    {
        if self.functions.keyed(key).is_none() {
            self.functions
                .put(StaticId::Named(key.copy(self.alloc)?), u32::MAX)?;
        }
        Ok(())
    }

    // The number of a function.
    fn number_of(&self, key: &Key) -> Result<u32, NoMemory>
        ensures named { IfOk result (λ fun. named_in self.now.functions (id.Named key.now) ≡ Some fun) }
        ensures same { IfOk result (λ fun. fun ≡ spec.number_in self.now.functions key.now) }
    {
        match self.functions.keyed(key) {
            Some(fun) => Ok(fun),
            // It cannot be: a function that a present text defines or mentions has a number.
            None => Err(NoMemory),
        }
    }

    /// One more entry.
    pub fn put(&mut self, entry: Entry) -> Result<(), NoMemory>
        ensures { OnOk result (self.new ≡ spec.with_entry entry self.old) }
    {
        self.entries.push(entry)
    }

    /// One more note.
    pub fn add(&mut self, note: Note) -> Result<(), NoMemory>
        ensures { OnOk result (self.new ≡ spec.noted note self.old) }
    {
        self.put(Entry::One(note))
    }

    /// The entries so far, which are none afterwards.
    pub fn take(&mut self) -> Items<Entry>
        ensures taken { result ≡ self.old.entries }
        ensures none { self.new ≡ record self.old { entries = [] } }
    {
        mem::replace(&mut self.entries, Items::new(self.alloc))
    }

    /// A call becomes active.
    #[inline(never)]
    pub fn enter(&mut self, frame: &Frame) -> Result<(), NoMemory>
        ensures entered { OnOk result (self.new ≡ spec.entered (spec.number_in self.old.functions frame.now.key) frame.now self.old) }
        ensures numbered { IfOk result (λ _. IsNumbered self.old.functions (Enters frame.now.key frame.now.form)) }
    {
        let fun = self.number_of(&frame.key)?;
        self.active.push(fun)?;
        self.add(Note::Enter {
            fun,
            form: frame.form,
        })
    }

    /// The innermost call is no longer active.
    #[inline(never)]
    pub fn leave(&mut self) -> Result<(), NoMemory>
        ensures { OnOk result (self.new ≡ spec.left_in self.old.active self.old) }
    {
        match self.active.pop() {
            None => Ok(()),
            Some(fun) => {
                self.last = fun;
                self.add(Note::Leave { fun })
            }
        }
    }

    /// A line of the innermost call is reached.
    #[inline(never)]
    pub fn reach(&mut self, line: u32) -> Result<(), NoMemory>
        ensures { OnOk result (self.new ≡ spec.reached_in self.old.active line self.old) }
    {
        match self.active.top().copied() {
            None => Ok(()),
            Some(fun) => self.add(Note::At { fun, line }),
        }
    }

    /// A library function is called.
    #[inline(never)]
    pub fn call_library(&mut self, key: &Key) -> Result<(), NoMemory>
        ensures { OnOk result (self.new ≡ spec.called_in (spec.number_in self.old.functions key.now) self.old) }
    {
        let fun = self.number_of(key)?;
        self.last = fun;
        self.add(Note::Lib { fun })
    }
}

impl Recorder {
    /// The machine.
    pub fn machine(&self) -> &Machine
        ensures { result.now ≡ self.now.machine }
    {
        &self.machine
    }

    /// So many instructions more were carried out. The count stays at 2^64 - 1.
    pub fn count(&mut self, n: u64)
        ensures { self.new ≡ record self.old { machine = record self.old.machine { executed = min (self.old.machine.executed + n) (2 ^ 64 - 1) } } }
    {
        self.machine.executed = self.machine.executed.saturating_add(n);
    }

    /// Compiled code left the registers so.
    pub fn leave_code(&mut self, pc: u32, words: &[Word; 32])
        ensures { self.new ≡ record self.old { machine = record self.old.machine { pc = pc; words = words.now } } }
    {
        self.machine.pc = pc;
        self.machine.words = *words;
    }

    // A register is set, where it held another word.
    fn set_register(&mut self, r: u8, word: Word, was: Word) -> Result<(), NoMemory>
        ensures { OnOk result (self.new ≡ spec.set_register r word was self.old) }
    {
        if word == was {
            return Ok(());
        }
        self.add(Note::SetReg { r, word })
    }

    // The registers that are not the machine's are set, in ascending order.
    fn set_registers(&mut self, pc: u32, words: &[Word; 32]) -> Result<(), NoMemory>
        ensures { OnOk result (self.new ≡ spec.set_all pc words.now self.old) }
    {
        for r in 0..PC {
            let was = self.machine.words[r as usize];
            self.set_register(r, words[r as usize], was)?;
        }
        let was = plain(self.machine.pc);
        self.set_register(PC, plain(pc), was)
    }

    /// An interpreted frame calls object text, with these registers.
    #[inline(never)]
    pub fn enter_code(&mut self, key: &Key, pc: u32, words: &[Word; 32]) -> Result<(), NoMemory>
        ensures { OnOk result (self.new ≡ spec.set_all pc words.now (spec.noted (notes.Call (spec.number_in self.old.functions key.now)) self.old)) }
    {
        let fun = self.number_of(key)?;
        self.add(Note::Call { fun })?;
        self.set_registers(pc, words)
    }

    /// A call gives back to object text, with these registers.
    #[inline(never)]
    pub fn return_to_code(&mut self, pc: u32, words: &[Word; 32]) -> Result<(), NoMemory>
        ensures { OnOk result (self.new ≡ spec.set_all pc words.now (spec.noted (notes.Back self.old.last) self.old)) }
    {
        self.add(Note::Back { fun: self.last })?;
        self.set_registers(pc, words)
    }
}
