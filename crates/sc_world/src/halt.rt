// What a go answers.

/// Why a go halts: a function was entered at which a stop is set; a line was reached at which a stop is set, or the walk halts;
/// the run is over; or so many turns were taken, which are those of the go or, by its last step, more, and none brought it to such a
/// place. Function, module and line are in the innermost call.
#[derive(Clone, Copy)]
pub enum Halt {
    Entered,
    AtLine,
    Ended,
    Paused(u64),
}

/// What a go comes to: why it halts, and how many bytes of all that the program wrote went out.
#[derive(Clone, Copy)]
pub struct Halted {
    pub halt: Halt,
    pub sent: usize,
}
