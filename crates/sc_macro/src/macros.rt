// The table of macros.
ghost use Rattle.std.specs.Prelude.{◌≡◌, ℕ, List, [], ◌∷◌, Some, None, is_some, if◌then◌else◌, nat_eq, OnOk, OnErr, IfOk};
ghost use Rattle.std.specs.Option.{option_map};
ghost use Rattle.std.specs.Str.{bytes_eq};
ghost use Rattle.sc_macro.specs.Table as spec;

use indexmap::IndexMap;
use sc_base::{Bytes, Items, Name, NoMemory};
use sc_lex::{Token, TokenKind};
use std::alloc::Global;

/// A part of a replacement list (ANSI 3.8.3). `space` says whether white space stands before it.
#[derive(Drop)]
pub enum Part {
    Word(Token),
    /// A parameter, by its number from 0.
    Parameter { number: usize, space: bool },
    /// `#` and a parameter.
    Quoted { number: usize, space: bool },
}

/// What replaces a macro's name: its replacement list without or with arguments, the line of the name, or the name of
/// its file.
#[derive(Clone, Copy, Debug, PartialEq, Eq)]
pub enum MacroKind {
    Object,
    Function,
    Line,
    File,
}

/// A macro's definition. The replacement list stands there twice: as it was written, for a later definition of the
/// same name, and read into chains of the parts that `##` joins.
#[derive(Drop)]
pub struct Macro {
    pub kind: MacroKind,
    pub parameters: Items<Bytes>,
    pub replacement: Items<Token>,
    pub chains: Items<Items<Part>>,
    /// For each parameter, whether its argument is wanted expanded: where it stands outside `#` and `##`.
    pub wanted: Items<bool>,
}

/// The macros, a finite map from names to definitions, and the names of the files.
#[derive(Drop)]
pub struct Macros {
    pub(crate) entries: IndexMap<Bytes, Macro>,
    pub(crate) files: IndexMap<u32, Bytes>,
}

/// Whether a name may be neither defined nor undefined: `__LINE__`, `__FILE__`, `__STDC__` and `defined` (ANSI 3.8.8).
pub fn is_fixed(name: &[u8]) -> bool
    ensures { result ≡ spec.is_fixed name.now }
{
    name == b"__LINE__".as_slice()
        || name == b"__FILE__".as_slice()
        || name == b"__STDC__".as_slice()
        || name == b"defined".as_slice()
}

/// A definition without a replacement list.
fn predefined(alloc: Global, kind: MacroKind) -> Macro
    ensures { result ≡ spec.predefined kind }
{
    Macro {
        kind,
        parameters: Items::new(alloc),
        replacement: Items::new(alloc),
        chains: Items::new(alloc),
        wanted: Items::new(alloc),
    }
}

/// The token `1`.
fn one(alloc: Global) -> Result<Token, NoMemory>
    ensures { IfOk result (λ t. t ≡ spec.one) }
{
    let text = Bytes::from_slice(alloc, b"1")?;
    Ok(Token {
        kind: TokenKind::Number,
        text,
        file: 0,
        line: 0,
        space: false,
    })
}

/// The definition of `__STDC__`.
fn standard(alloc: Global) -> Result<Macro, NoMemory>
    ensures { IfOk result (λ m. m ≡ spec.standard) }
{
    let mut made = predefined(alloc, MacroKind::Object);
    made.replacement.push(one(alloc)?)?;
    let mut chain = Items::new(alloc);
    chain.push(Part::Word(one(alloc)?))?;
    made.chains.push(chain)?;
    Ok(made)
}

impl Macros {
    /// The table with `__LINE__`, `__FILE__` and `__STDC__` alone, and no file named.
    pub fn new(alloc: Global) -> Result<Macros, NoMemory>
        ensures macros { IfOk result (λ m. spec.table m ≡ spec.start) }
        ensures files { IfOk result (λ m. spec.files m ≡ []) }
    {
        let mut entries = IndexMap::new(alloc);
        entries.insert(
            Bytes::from_slice(alloc, b"__LINE__")?,
            predefined(alloc, MacroKind::Line),
        )?;
        entries.insert(
            Bytes::from_slice(alloc, b"__FILE__")?,
            predefined(alloc, MacroKind::File),
        )?;
        entries.insert(Bytes::from_slice(alloc, b"__STDC__")?, standard(alloc)?)?;
        Ok(Macros {
            entries,
            files: IndexMap::new(alloc),
        })
    }

    /// Takes a name's definition away, where it has one; a fixed name keeps its own. It takes no memory.
    pub fn undef(&mut self, name: &Name)
        ensures table { spec.table self.new ≡ spec.undefined (spec.table self.old) name.now }
        ensures map { (n : List ℕ) → spec.meaning (spec.table self.new) n ≡ spec.meaning_without (spec.table self.old) name.now n }
        ensures files { spec.files self.new ≡ spec.files self.old }
    {
        if !is_fixed(name.as_slice()) {
            self.entries.swap_remove(name.as_bytes());
        }
    }

    /// Sets the name that `__FILE__` gives for a token of a file. Before that it is the empty one.
    pub fn name_file(&mut self, alloc: Global, file: u32, name: &[u8]) -> Result<(), NoMemory>
        ensures ok { OnOk result ((f : ℕ) → spec.file_name (spec.files self.new) f ≡ (if nat_eq f file then name.now else spec.file_name (spec.files self.old) f)) }
        ensures err { OnErr result (spec.files self.new ≡ spec.files self.old) }
        ensures table { spec.table self.new ≡ spec.table self.old }
    {
        let name = Bytes::from_slice(alloc, name)?;
        self.files.insert(file, name)?;
        Ok(())
    }

    /// Whether a name is that of a macro.
    pub fn is_defined(&self, name: &Bytes) -> bool
        ensures { result ≡ is_some (spec.meaning (spec.table self.now) name.now) }
    {
        self.entries.contains_key(name)
    }

    /// The macro of a name, with its number.
    pub(crate) fn find(&self, name: &Bytes) -> Option<(usize, &Macro)>
        ensures { option_map (λ p. (p.0, p.1.now)) result ≡ spec.found (spec.table self.now) name.now }
    {
        let (number, _, definition) = self.entries.get_full(name)?;
        Some((number, definition))
    }

    /// The name of a file, the empty one where none was set.
    pub(crate) fn file_name(&self, file: u32) -> &[u8]
        ensures { result.now ≡ spec.file_name (spec.files self.now) file }
    {
        match self.files.get(&file) {
            Some(name) => name.as_slice(),
            None => &[],
        }
    }
}
