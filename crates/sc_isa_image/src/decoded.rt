// Words beside the instructions that they are.
ghost use Rattle.std.specs.Prelude.{◌≡◌, IfSome};
ghost use Rattle.sc_isa.specs.Reading.{instr_of};
ghost use Rattle.sc_isa.specs.Table.{IsSound};

use sc_isa::{Instr, decode};
use std::marker::Model;

/// A word that was decoded once, seen as the word.
#[derive(Drop)]
pub struct Decoded {
    word: u32,
    instruction: Option<Instr>,
}

impl Model for Decoded {
    ghost use Rattle.std.specs.Prelude.{ℕ};
    ghost use Rattle.sc_isa_image.specs.Slots.{IsReading};

    ghost Value = { ℕ };

    ghost view = { λ d. d.word };

    ghost invariant = { λ d. IsReading d.word d.instruction };
}

impl Decoded {
    /// A word, decoded.
    pub fn new(word: u32) -> Decoded
        ensures { result ≡ word }
    {
        Decoded {
            word,
            instruction: decode(word),
        }
    }

    /// The word.
    #[inline(always)]
    pub fn word(&self) -> u32
        ensures { result ≡ self.now }
    {
        self.word
    }

    /// The instruction that the word is.
    #[inline(always)]
    pub fn instruction(&self) -> Option<Instr>
        ensures value { result ≡ instr_of self.now }
        ensures sound { IfSome result (λ i. IsSound i) }
    {
        self.instruction
    }
}
