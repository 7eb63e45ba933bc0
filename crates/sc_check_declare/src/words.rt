// Type words and the types that lists of them stand for (ANSI 3.5.2).
ghost use Rattle.std.specs.Prelude.{◌≡◌};
ghost use Rattle.sc_check_declare.specs.Words as spec;
ghost use Rattle.sc_check_declare.specs.Outcomes.{Meets};

use crate::derivation::DeclaredType;
use crate::failure::{Failure, Reason, refusal};
use crate::qualify::with_const;
use sc_base::Int;
use sc_types::CType;
use std::alloc::Global;

/// A type word that is a keyword.
#[derive(Clone, Copy, Debug, PartialEq, Eq)]
pub enum Word {
    Void,
    Char,
    Short,
    Int,
    Long,
    Signed,
    Unsigned,
}

/// A type that type words alone name.
#[derive(Clone, Copy, Debug, PartialEq, Eq)]
pub enum BasicType {
    Void,
    Integer(Int),
}

/// How often each word stands in a list, in the order of `Word`.
type Counts = (usize, usize, usize, usize, usize, usize, usize);

/// The standard's lists without floating types, each as its counts, and the type of each.
const LISTS: [(Counts, BasicType); 21] = [
    ((1, 0, 0, 0, 0, 0, 0), BasicType::Void),
    ((0, 1, 0, 0, 0, 0, 0), BasicType::Integer(Int::Char)),
    ((0, 1, 0, 0, 0, 1, 0), BasicType::Integer(Int::SChar)),
    ((0, 1, 0, 0, 0, 0, 1), BasicType::Integer(Int::UChar)),
    ((0, 0, 1, 0, 0, 0, 0), BasicType::Integer(Int::Short)),
    ((0, 0, 1, 0, 0, 1, 0), BasicType::Integer(Int::Short)),
    ((0, 0, 1, 1, 0, 0, 0), BasicType::Integer(Int::Short)),
    ((0, 0, 1, 1, 0, 1, 0), BasicType::Integer(Int::Short)),
    ((0, 0, 1, 0, 0, 0, 1), BasicType::Integer(Int::UShort)),
    ((0, 0, 1, 1, 0, 0, 1), BasicType::Integer(Int::UShort)),
    ((0, 0, 0, 1, 0, 0, 0), BasicType::Integer(Int::Int)),
    ((0, 0, 0, 0, 0, 1, 0), BasicType::Integer(Int::Int)),
    ((0, 0, 0, 1, 0, 1, 0), BasicType::Integer(Int::Int)),
    ((0, 0, 0, 0, 0, 0, 1), BasicType::Integer(Int::UInt)),
    ((0, 0, 0, 1, 0, 0, 1), BasicType::Integer(Int::UInt)),
    ((0, 0, 0, 0, 1, 0, 0), BasicType::Integer(Int::Long)),
    ((0, 0, 0, 0, 1, 1, 0), BasicType::Integer(Int::Long)),
    ((0, 0, 0, 1, 1, 0, 0), BasicType::Integer(Int::Long)),
    ((0, 0, 0, 1, 1, 1, 0), BasicType::Integer(Int::Long)),
    ((0, 0, 0, 0, 1, 0, 1), BasicType::Integer(Int::ULong)),
    ((0, 0, 0, 1, 1, 0, 1), BasicType::Integer(Int::ULong)),
];

fn rank(word: Word) -> u8
    ensures { result ≡ spec.rank word }
{
    match word {
        Word::Void => 0,
        Word::Char => 1,
        Word::Short => 2,
        Word::Int => 3,
        Word::Long => 4,
        Word::Signed => 5,
        Word::Unsigned => 6,
    }
}

fn count(word: Word, words: &[Word]) -> usize
    ensures { result ≡ spec.count word words.now }
{
    words
        .iter()
        .filter(|other| rank(**other) == rank(word))
        .count()
}

fn tally(words: &[Word]) -> Counts
    ensures { result ≡ spec.tally words.now }
{
    (
        count(Word::Void, words),
        count(Word::Char, words),
        count(Word::Short, words),
        count(Word::Int, words),
        count(Word::Long, words),
        count(Word::Signed, words),
        count(Word::Unsigned, words),
    )
}

fn same(a: Counts, b: Counts) -> bool
    ensures { result ≡ spec.same a b }
{
    a.0 == b.0 && a.1 == b.1 && a.2 == b.2 && a.3 == b.3 && a.4 == b.4 && a.5 == b.5 && a.6 == b.6
}

fn first_of(lists: &[(Counts, BasicType)], counts: Counts) -> Option<BasicType>
    ensures { result ≡ spec.first_of lists.now counts }
{
    for list in lists {
        if same(list.0, counts) {
            return Some(list.1);
        }
    }
    None
}

/// The type that these words name in whatever order they stand; none where they are none of the standard's lists.
pub fn type_words(words: &[Word]) -> Option<BasicType>
    ensures { result ≡ spec.type_words words.now }
{
    first_of(&LISTS, tally(words))
}

/// The type of a list of such words: X7 where there is none.
pub fn words_type(line: u32, constant: bool, words: &[Word]) -> Result<DeclaredType, Failure>
    ensures { Meets (spec.words_type line constant words.now) result }
{
    match type_words(words) {
        Some(BasicType::Void) => Ok(DeclaredType {
            of: CType::Void(constant),
            depth: 0,
        }),
        Some(BasicType::Integer(kind)) => Ok(DeclaredType {
            of: CType::Int(kind, constant),
            depth: 0,
        }),
        None => Err(refusal(Reason::Rule, line)),
    }
}

/// The type of a list of type words one of which names the type by itself: a structure, an enumeration or a typedef name.
/// X7 where it is not the only one.
pub fn named_type(
    alloc: Global,
    line: u32,
    constant: bool,
    words: usize,
    named: DeclaredType,
) -> Result<DeclaredType, Failure>
    ensures { Meets (spec.named_type line constant words named) result }
{
    if words != 1 {
        return Err(refusal(Reason::Rule, line));
    }
    let depth = named.depth;
    let of = with_const(alloc, constant, named.of)?;
    Ok(DeclaredType { of, depth })
}
