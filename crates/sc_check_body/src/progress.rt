// What the text of a unit has given up to a place, and what is open there.
ghost use Rattle.std.specs.Prelude.{◌≡◌, ◌++◌, OnOk, IfOk};
ghost use Rattle.sc_check_body.specs.Progress as spec;

use crate::tables::Counts;
use sc_base::{Duplicate, Items, Name, NoMemory, Shared};
use sc_check_labels::Labels;
use sc_check_linkage::{Birth, Links, Local};
use sc_check_scope::State;
use sc_core::{CoreStmt, Fun, Init, StaticObj};
use sc_types::CType;
use std::alloc::Global;

/// A unit that is being checked: its module's name; what is in scope; the names with linkage, and beside each the contents that an
/// initialiser gives its object; what is born, in the order of the text, with how many of the literals it tells; the objects of
/// blocks with static storage duration; and the functions.
#[derive(Drop)]
pub struct Translation {
    pub home: Name,
    pub st: State,
    pub links: Links,
    pub contents: Items<Option<Items<Init>>>,
    pub noted: Items<Birth>,
    pub literals: usize,
    pub objects: Items<StaticObj>,
    pub funs: Items<Shared<Fun>>,
}

/// Notes the literals from one number on, before another.
fn note_from(noted: &mut Items<Birth>, from: usize, to: usize) -> Result<(), NoMemory>
    ensures { OnOk result (noted.new ≡ noted.old ++ spec.literals from to) }
{
    for at in from..to {
        let Ok(number) = u32::try_from(at) else {
            return Err(NoMemory);
        };
        noted.push(Birth::Literal(number))?;
    }
    Ok(())
}

impl Translation {
    /// Nothing yet, at the beginning of a unit, which takes no memory.
    pub fn new(alloc: Global, home: Name) -> Translation
        ensures { result ≡ spec.beginning home }
    {
        Translation {
            home,
            st: State::new(alloc),
            links: Links::new(alloc),
            contents: Items::new(alloc),
            noted: Items::new(alloc),
            literals: 0,
            objects: Items::new(alloc),
            funs: Items::new(alloc),
        }
    }

    /// Notes the literals that have appeared since.
    pub fn note_literals(&mut self) -> Result<(), NoMemory>
        ensures { OnOk result (self.new ≡ spec.note_literals self.old) }
    {
        let count = self.st.literals.len();
        note_from(&mut self.noted, self.literals, count)?;
        self.literals = count;
        Ok(())
    }

    /// Notes a birth behind the literals that have appeared before it; the answer is its place in the order of births.
    pub fn note(&mut self, birth: Birth) -> Result<usize, NoMemory>
        ensures { IfOk result (λ place. (place, self.new) ≡ spec.note birth self.old) }
    {
        self.note_literals()?;
        let place = self.noted.len();
        self.noted.push(birth)?;
        Ok(place)
    }
}

/// A function whose body is being checked: its name, the type of its result, the objects of each block so far, how many static
/// objects of each name its blocks have had, and its labels.
#[derive(Drop)]
pub struct Body {
    pub name: Name,
    pub result: CType,
    pub blocks: Items<Items<Local>>,
    pub counts: Counts,
    pub labels: Labels,
}

impl Body {
    /// The body of the function with this name, whose result has this type and whose parameters are these objects.
    pub fn new(
        alloc: Global,
        name: &Name,
        gives: &CType,
        parameters: Items<Local>,
    ) -> Result<Body, NoMemory>
        ensures { IfOk result (λ body. body ≡ spec.first_body name.now gives.now parameters) }
    {
        let mut blocks = Items::new(alloc);
        blocks.push(parameters)?;
        let name = name.copy(alloc)?;
        let result = gives.copy(alloc)?;
        Ok(Body {
            name,
            result,
            blocks,
            counts: Counts::new(alloc),
            labels: Labels::new(alloc),
        })
    }
}

/// A block whose declarations are being checked: its number, its objects, and its initialised automatic objects.
#[derive(Drop)]
pub struct OpenBlock {
    pub number: u32,
    pub locals: Items<Local>,
    pub initialized: Items<Shared<CoreStmt>>,
}

impl OpenBlock {
    /// The block with this number, of which nothing is declared yet. It takes no memory.
    pub fn new(alloc: Global, number: u32) -> OpenBlock
        ensures { result ≡ spec.open_block number }
    {
        OpenBlock {
            number,
            locals: Items::new(alloc),
            initialized: Items::new(alloc),
        }
    }
}

/// Where a statement stands: whether it is in a loop, whether in a loop or a `switch`; its place in the list of the innermost
/// `switch`'s body, where it stands there; and its place in the list of the innermost block, where it stands there.
#[derive(Clone, Copy, Debug, PartialEq, Eq)]
pub struct Around {
    pub in_loop: bool,
    pub may_break: bool,
    pub at: Option<u32>,
    pub place: Option<u32>,
}

impl Around {
    /// The body of a function.
    pub const OUTSIDE: Around = Around {
        in_loop: false,
        may_break: false,
        at: None,
        place: None,
    };

    /// A part of a statement here, which is in no list.
    pub fn part(self) -> Around
        ensures { result ≡ spec.part self }
    {
        Around {
            at: None,
            place: None,
            ..self
        }
    }

    /// The body of a loop here.
    pub fn looped(self) -> Around
        ensures { result ≡ spec.looped self }
    {
        Around {
            in_loop: true,
            may_break: true,
            at: None,
            place: None,
        }
    }

    /// The body of a `switch` here.
    pub fn switched(self) -> Around
        ensures { result ≡ spec.switched self }
    {
        Around {
            may_break: true,
            at: None,
            place: None,
            ..self
        }
    }

    /// The body of a `switch` that is no block, and so a list of itself alone.
    pub fn alone(self) -> Around
        ensures { result ≡ spec.alone self }
    {
        Around {
            at: Some(0),
            ..self
        }
    }

    /// A statement at this place of a block's list; `switched` says whether the block is the body of a `switch`.
    pub fn listed(self, switched: bool, at: u32) -> Around
        ensures { result ≡ spec.listed switched at self }
    {
        let place = Some(at);
        Around {
            at: if switched { place } else { None },
            place,
            ..self
        }
    }
}
