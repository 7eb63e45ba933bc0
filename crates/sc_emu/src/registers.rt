// The registers, each with the tag of what it points to.
ghost use Rattle.std.specs.Prelude.{◌≡◌, ◌<◌, replicate};
ghost use Rattle.sc_emu.specs.Operations.{plain as plain_of};
ghost use Rattle.sc_emu.specs.Registers.{register, with_word};

use sc_base::Word;
use std::marker::Model;

const ZERO: Word = Word { bits: 0, tag: 0 };

/// A number without a tag.
#[inline(always)]
pub fn plain(bits: u32) -> Word
    ensures { result ≡ plain_of bits }
{
    Word { bits, tag: 0 }
}

/// The 32 registers and the address of the next instruction. Register 0 is always 0, without a tag.
#[derive(Drop)]
pub struct Regs {
    pc: u32,
    words: [Word; 32],
}

impl Model for Regs {
    ghost use Rattle.sc_emu.specs.Registers.{AreRegisters, Registers};

    ghost Value = { Registers };

    ghost view = { λ r. record { pc = r.pc; words = r.words } };

    ghost invariant = { λ r. AreRegisters r.words };
}

impl Regs {
    /// All registers are 0, and the next instruction is at 0.
    pub fn new() -> Regs
        ensures { result ≡ record { pc = 0; words = replicate 32 (plain_of 0) } }
    {
        Regs {
            pc: 0,
            words: [ZERO; 32],
        }
    }

    /// The address of the next instruction.
    #[inline(always)]
    pub fn pc(&self) -> u32
        ensures { result ≡ self.now.pc }
    {
        self.pc
    }

    /// Puts the next instruction at an address.
    #[inline(always)]
    pub fn set_pc(&mut self, pc: u32)
        ensures { self.new ≡ record { pc = pc; words = self.old.words } }
    {
        self.pc = pc;
    }

    /// What a register holds.
    #[inline(always)]
    pub fn get(&self, r: u8) -> Word
        requires { r < 32 }
        ensures { result ≡ register self.now r }
    {
        self.words[r as usize]
    }

    /// What all registers hold, by their numbers.
    pub fn words(&self) -> &[Word; 32]
        ensures { result.now ≡ self.now.words }
    {
        &self.words
    }

    /// Puts a word into a register. Register 0 stays as it is.
    #[tactic(auto, using(crate::proofs::Zero::written_back, crate::proofs::Zero::registers_kept))]
    #[inline(always)]
    pub fn set(&mut self, r: u8, w: Word)
        requires { r < 32 }
        ensures { self.new ≡ record { pc = self.old.pc; words = with_word self.old.words r w } }
    {
        self.words[r as usize] = w;
        self.words[0] = ZERO;
    }
}
