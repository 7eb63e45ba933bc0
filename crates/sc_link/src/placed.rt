// A module in the list that is linked.

use sc_base::{Bytes, Form, Items, Name, NoMemory, Shared};
use sc_object::Object;

/// An entry of the list that is linked: the number of the module's text, the module's name, its form, its object, with a
/// place for each section of it, and whether the entry is a former text that calls in progress may still use.
#[derive(Drop)]
pub struct Placed {
    pub number: u32,
    pub home: Name,
    pub form: Form,
    pub object: Shared<Object>,
    pub places: Items<u32>,
    pub retired: bool,
}

/// A string literal by its module and its bytes, with its place.
#[derive(Drop)]
pub struct LiteralAt {
    pub module: Name,
    pub bytes: Bytes,
    pub at: u32,
}

/// An area of addresses: the stubs of functions, their texts, and the objects of static storage duration.
#[derive(Clone, Copy, Debug, PartialEq, Eq)]
pub enum Area {
    Stubs,
    Text,
    Static,
}

/// How many functions have a number at most.
pub const MOST_FUNCTIONS: usize = 65536;

/// Where the texts begin, and the address behind their area.
pub const TEXTS: u32 = 0x0010_0000;

pub const TEXTS_END: u32 = 0x0410_0000;

/// Where the objects of static storage duration begin, and the address behind their area.
pub const STATICS: u32 = 0x0800_0000;

pub const STATICS_END: u32 = 0x0810_0000;

/// Why there is no image: a place outside its area, or no memory.
#[derive(Clone, Copy, Debug, PartialEq, Eq)]
pub enum LinkFault {
    Space(Area),
    NoMemory,
}

impl From<NoMemory> for LinkFault {
    fn from(_: NoMemory) -> LinkFault {
        LinkFault::NoMemory
    }
}
