// Lists of specifiers (ANSI 3.5, 3.5.2).
ghost use Rattle.std.specs.Prelude.{◌≡◌, [], ◌++◌, ◌∷◌, None, OnOk, length};
ghost use Rattle.sc_check_scope.specs.Steps.{Says};
ghost use Rattle.sc_check_scope.specs.Words as spec;

use crate::fault::CheckFault;
use sc_base::{Items, NoMemory};
use sc_check_declare::{DeclaredType, Word, named_type, words_type};
use std::alloc::Global;

/// What a type word gives: a keyword, or a type.
#[derive(Drop)]
pub enum Specified {
    Basic(Word),
    Named(DeclaredType),
}

/// The type words of a list: the keywords, and the type of the last word that names one by itself.
#[derive(Drop)]
pub struct Words {
    pub basic: Items<Word>,
    pub named: Option<DeclaredType>,
}

impl Words {
    /// No words, which takes no memory.
    pub fn new(alloc: Global) -> Words
        ensures { result ≡ spec.no_words }
    {
        Words {
            basic: Items::new(alloc),
            named: None,
        }
    }

    /// One more word.
    pub fn push(&mut self, word: Specified) -> Result<(), NoMemory>
        ensures { OnOk result (self.new ≡ spec.with_word self.old word) }
    {
        match word {
            Specified::Basic(w) => self.basic.push(w),
            Specified::Named(t) => {
                self.named = Some(t);
                Ok(())
            }
        }
    }
}

/// The type of a list of so many type words (ANSI 3.5.2).
///
/// # Errors
///
/// `Rule` (X7): the words are none of the standard's lists.
pub fn list_type(
    alloc: Global,
    line: u32,
    constant: bool,
    count: usize,
    words: Words,
) -> Result<DeclaredType, CheckFault>
    ensures { Says (spec.list_type line constant count words) result }
{
    let Words { basic, named } = words;
    match named {
        Some(t) => Ok(named_type(alloc, line, constant, count, t)?),
        None => Ok(words_type(line, constant, basic.as_slice())?),
    }
}
