// Storage classes and where they may stand (ANSI 3.5.1).
ghost use Rattle.std.specs.Prelude.{◌≡◌};
ghost use Rattle.sc_check_declare.specs.Storages as spec;

use sc_tree::Storage;

/// Where specifiers stand.
#[derive(Clone, Copy, Debug, PartialEq, Eq)]
pub enum Place {
    /// A declaration at file scope.
    File,
    /// A declaration in a block of anything but a function.
    Block,
    /// The declaration of a function in a block.
    BlockFunction,
    Parameter,
    /// The definition of a function.
    Definition,
}

/// Whether specifiers at this place may have this storage class, or none.
pub fn may_stand(place: Place, storage: Option<Storage>) -> bool
    ensures { result ≡ spec.may_stand place storage }
{
    match storage {
        None => true,
        Some(Storage::Typedef) => match place {
            Place::File | Place::Block => true,
            Place::BlockFunction | Place::Parameter | Place::Definition => false,
        },
        Some(Storage::Extern) => match place {
            Place::File | Place::Block | Place::BlockFunction | Place::Definition => true,
            Place::Parameter => false,
        },
        Some(Storage::Static) => match place {
            Place::File | Place::Block | Place::Definition => true,
            Place::BlockFunction | Place::Parameter => false,
        },
        Some(Storage::Auto) => match place {
            Place::Block => true,
            Place::File | Place::BlockFunction | Place::Parameter | Place::Definition => false,
        },
        Some(Storage::Register) => match place {
            Place::Block | Place::Parameter => true,
            Place::File | Place::BlockFunction | Place::Definition => false,
        },
    }
}
