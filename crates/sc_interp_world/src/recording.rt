// A world tells what happens in it, where somebody listens. None of it is seen in the world itself.
ghost use Rattle.std.specs.Prelude.{◌≡◌, true};
ghost use Rattle.sc_interp_world.specs.Recording.{Plain, family};
ghost use Rattle.sc_interp_world.specs.Told.{TellsBehind};

use crate::account::Taken;
use crate::recorder::Machine;
use crate::world::World;
use sc_base::{Key, NoMemory, Note, Word};

impl World {
    /// Whether what happens is recorded.
    #[inline(always)]
    pub fn is_recorded(&self) -> bool {
        self.account.is_recorded()
    }

    /// One more note, where somebody listens: none of a call, a line or a register, and none of what passes between the forms: those are told as they happen.
    pub fn record(&mut self, note: Note) -> Result<(), NoMemory>
        requires { family note ≡ Plain }
        ensures { self.new ≡ self.old }
    {
        self.account.add(note)
    }

    /// A library function is called, where somebody listens.
    ///
    /// # Errors
    ///
    /// `NoMemory` also where the function has no number, which cannot be: the text that calls it mentions it.
    #[inline(always)]
    pub fn record_library(&mut self, key: &Key) -> Result<(), NoMemory>
        ensures { self.new ≡ self.old }
    {
        self.account.call_library(key)
    }

    /// While hushed, changes of memory are not recorded: an instruction's own note tells them.
    pub fn hush(&mut self, yes: bool)
        ensures { self.new ≡ self.old }
    {
        self.account.hush(yes);
    }

    /// What was recorded since it was last taken. No entry is left behind it. Where it is whole, the entries that tell of calls and
    /// lines are the notes by which all that happened is told, but for those that were taken before.
    pub fn take_record(&mut self) -> Taken
        ensures same { self.new ≡ self.old }
        ensures rest { result.whole ≡ true → TellsBehind result.before result.entries self.old.trail }
    {
        self.account.take()
    }

    /// The registers as compiled code last left them, and the count of instructions.
    pub fn machine(&self) -> &Machine {
        self.account.machine()
    }

    /// So many instructions more were carried out, also where nobody listens. The count stays at 2^64 - 1.
    #[inline(always)]
    pub fn executed(&mut self, n: u64)
        ensures { self.new ≡ self.old }
    {
        self.account.count(n);
    }

    /// Compiled code is left with these registers, also where nobody listens.
    pub fn leave_code(&mut self, pc: u32, words: &[Word; 32])
        ensures { self.new ≡ self.old }
    {
        self.account.leave_code(pc, words);
    }

    /// An interpreted frame calls this function of object text, which begins with these registers. Where somebody listens, the
    /// call is recorded, and each register that is not the machine's.
    ///
    /// # Errors
    ///
    /// `NoMemory` also where the function has no number, which cannot be.
    pub fn enter_code(&mut self, key: &Key, pc: u32, words: &[Word; 32]) -> Result<(), NoMemory>
        ensures { self.new ≡ self.old }
    {
        self.account.enter_code(key, pc, words)
    }

    /// The function that was left or that the library gave last gives back to object text, which goes on with these registers.
    /// Where somebody listens, that is recorded, and each register that is not the machine's.
    pub fn return_to_code(&mut self, pc: u32, words: &[Word; 32]) -> Result<(), NoMemory>
        ensures { self.new ≡ self.old }
    {
        self.account.return_to_code(pc, words)
    }
}
