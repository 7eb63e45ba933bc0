// A module that may be linked.
ghost use Rattle.std.specs.Prelude.{◌≡◌};
ghost use Rattle.sc_incr.specs.Modules.{chosen};

use sc_base::{Form, Items, Key, Name, Shared};
use sc_object::Object;

/// Which object of a module is linked: the one that each module has, or the one of the compiler that optimises.
#[derive(Clone, Copy, Debug, PartialEq, Eq)]
pub enum Choice {
    Plain,
    Fast,
}

/// A module that may be linked: the number of its text; its name; the functions that it names, its own and others, each
/// once and in the order of their first mention; its objects, and which of them is linked; and its form.
#[derive(Drop)]
pub struct Module {
    pub number: u32,
    pub name: Name,
    pub functions: Items<Key>,
    pub plain: Shared<Object>,
    pub fast: Option<Shared<Object>>,
    pub choice: Choice,
    pub form: Form,
}

impl Module {
    /// The object that is linked.
    pub fn chosen(&self) -> &Shared<Object>
        ensures { result.now ≡ chosen self.now }
    {
        match self.choice {
            Choice::Plain => &self.plain,
            Choice::Fast => match &self.fast {
                None => &self.plain,
                Some(fast) => fast,
            },
        }
    }
}
