// Instructions on registers.

ghost use Rattle.std.specs.Prelude.{◌≡◌, None};

use sc_base::Key;
use sc_interp_machine::{Pair, Single, Store};
use sc_points::Held;
use sc_types::CType;

/// What is done. The first number is the register that gets what it gives, where it gives something; the last one of `And`, `Or` and
/// `Choice` is the label at which it goes on where the first operand decides, and where it is zero.
#[derive(Drop)]
pub enum Operation {
    /// A number.
    Constant(u32, u32),
    /// The place of a literal of the text, by its place among them.
    Literal(u32, u32),
    /// The place of an object of static storage duration.
    Static(u32, Key),
    /// A function's place.
    Function(u32, Key),
    /// What is done with one answer.
    Alone(u32, Single, Held),
    /// What is done with two values.
    Both(u32, Pair, Held, Held),
    /// What is done with a place and a value.
    Stores(u32, Store, Held, Held),
    /// So many bytes of a structure go to a place from another one.
    Copies(u32, Held, Held),
    And(u32, CType, Held, u32),
    Or(u32, CType, Held, u32),
    Choice(CType, Held, u32),
    /// Nothing.
    Pass,
}

/// An operation behind so much work; it goes on at the next place, or at a label.
#[derive(Drop)]
pub struct Instruction {
    pub work: u32,
    pub operation: Operation,
    pub label: Option<u32>,
}

impl Instruction {
    /// An operation that goes on at the next place.
    pub fn next(work: u32, operation: Operation) -> Instruction
        ensures { result ≡ record { work = work; operation = operation; label = None } }
    {
        Instruction {
            work,
            operation,
            label: None,
        }
    }
}
