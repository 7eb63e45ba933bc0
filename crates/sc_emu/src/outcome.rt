// What a step comes to.

/// Why there is no next state: no word at the address; the address is no multiple of 4; the word is no instruction of
/// the table; a load or store at no multiple of its size, or outside the areas; a service's number or test that fails.
/// Of the first five the first that holds is told, an address that is no multiple of 4 before one without a word.
#[derive(Clone, Copy, Debug, PartialEq, Eq)]
pub enum Crash {
    BadFetch,
    Misfetch,
    Illegal,
    Misaligned,
    Outside,
    Service,
}

/// What a step did: it went on; it was an `ecall`, with the service's number; the next instruction is where calls from
/// outside return to; there is no next state; or memory ran out at a store. In the last three nothing is changed.
#[derive(Clone, Copy, Debug, PartialEq, Eq)]
pub enum Step {
    Went,
    Service(u32),
    AtReturn,
    Stopped(Crash),
    NoMemory,
}

/// The same in one byte, without the service's number: what the functions below a step hand on.
#[derive(Clone, Copy)]
pub enum Done {
    Finished,
    Asked,
    NoWord,
    NoInstruction,
    Unaligned,
    NoArea,
    NoRoom,
}
