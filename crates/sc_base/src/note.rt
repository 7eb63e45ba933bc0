// What a probe is told of a run, one note for each thing that happens.

use crate::{Form, Items, Kind, Word};

/// The notes of a run, in order.
pub type Notes = Items<Note>;

/// One thing that happens in a run. `fun` is a function's number.
#[derive(Clone, Copy, Debug, PartialEq, Eq)]
pub enum Note {
    /// A run begins, with this much stack and heap in bytes.
    Start {
        stack: u32,
        heap: u32,
    },
    /// An interpreted frame calls object text.
    Call {
        fun: u32,
    },
    /// A call gives back to object text.
    Back {
        fun: u32,
    },
    Enter {
        fun: u32,
        form: Form,
    },
    Leave {
        fun: u32,
    },
    At {
        fun: u32,
        line: u32,
    },
    /// A library function is called.
    Lib {
        fun: u32,
    },
    /// An instruction is executed.
    Exec {
        pc: u32,
        word: u32,
    },
    /// A store of 1, 2 or 4 bytes.
    Put {
        at: u32,
        size: u8,
        word: Word,
    },
    Birth {
        id: u32,
        size: u32,
        kind: Kind,
        base: u32,
    },
    Death {
        id: u32,
    },
    /// Cells are copied as they are.
    Copy {
        to: u32,
        from: u32,
        size: u32,
    },
    /// Register `r` is set; 32 is the program counter.
    SetReg {
        r: u8,
        word: Word,
    },
    /// Register a0 gets a tag.
    Tag {
        word: Word,
    },
}
