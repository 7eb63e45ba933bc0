// Why commands are refused.
use sc_base::{Bytes, Name, Refusal};

/// A limit of the workspace.
#[derive(Clone, Copy, Debug, PartialEq, Eq)]
pub enum Area {
    /// 64 modules.
    Modules,
    /// 65,536 functions in a session.
    Stubs,
    /// 67,108,864 bytes of text.
    Text,
    /// 1,048,576 bytes of static objects.
    Static,
}

/// Why a command is refused.
#[derive(Debug, Drop)]
pub enum Denied {
    /// The first word is no command.
    UnknownCommand,
    /// The further words are not the command's, or the line is too long.
    BadArguments,
    /// The module is absent.
    NoModule,
    /// A module of that name is present.
    ModuleThere,
    /// The module's text is refused.
    Translation(Refusal),
    /// Two modules would define the external name: the other one.
    Doubled(Name, Name),
    /// Two modules would declare the external name with types that are not compatible: the other one.
    Clash(Name, Name),
    /// The file is not there.
    NoFile(Bytes),
    /// The file is not the module's kept object: the first offset at which they differ or the shorter ends, and whether the file is
    /// an object of the first version.
    NotOurs(u32, bool),
    /// A run is active, and no other can begin.
    RunActive,
    /// There is no run.
    NoRun,
    /// The run is not at a stop.
    NotAtStop,
    /// No module defines `main`.
    NoMain,
    /// A limit would be exceeded.
    Space(Area),
    /// The file could not be read or written.
    FileFault(Bytes),
    /// The name stands for nothing that can be shown.
    NotVisible(Name),
    /// There is no probe of that number.
    NoProbe(u32),
    /// There is no stop of that number.
    NoStop(u32),
    /// The file has more than 8,388,608 bytes.
    TooLong(Bytes),
    /// The innermost active call is not one of a module that runs as its object.
    NotObject,
    /// No module that runs as its object defines the function: the module, where one is named, and the function.
    NoText(Option<Name>, Name),
    /// No module declares the name as a function or an object at file scope.
    NotDeclared(Name),
}
