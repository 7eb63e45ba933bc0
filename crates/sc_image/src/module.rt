// A module that is linked.
ghost use Rattle.std.specs.Prelude.{◌≡◌};
ghost use Rattle.sc_link.specs.Entries as entries;

use sc_base::{Form, Name, Shared};
use sc_object::Object;

/// A module that is linked: the number of its text, its name, the form in which it runs, and its object.
#[derive(Drop)]
pub struct Linking {
    pub number: u32,
    pub name: Name,
    pub form: Form,
    pub object: Shared<Object>,
}

/// Whether the texts of a module in this form are placed.
pub fn is_object(form: Form) -> bool
    ensures { result ≡ entries.is_object form }
{
    match form {
        Form::Object => true,
        Form::Source => false,
    }
}
