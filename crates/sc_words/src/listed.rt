// Whether words are options, those with a value with one that is right.
ghost use Rattle.std.specs.Prelude.{◌≡◌, ◌≤◌, length, IfSome, map, option_map, string_bytes};
ghost use Rattle.sc_words.specs.Options.{is_flag, is_listed, is_value, fits, taken, flag_taken, all, given};
ghost use Rattle.sc_words.specs.Listing.{behind};

use crate::range::{heap_in, make_in, stack_in, turns_in};

// Which options may still be given.
#[derive(Clone, Copy)]
pub struct Left {
    stack: bool,
    heap: bool,
    turns: bool,
    dir: bool,
    make: bool,
    trace: bool,
    coverage: bool,
    count: bool,
}

// Those that may be given after this one, where it may be given.
fn taken(left: Left, name: &[u8]) -> Option<Left>
    ensures { result ≡ taken left name.now }
{
    if name == b"--stack".as_slice() {
        return left.stack.then_some(Left {
            stack: false,
            ..left
        });
    }
    if name == b"--heap".as_slice() {
        return left.heap.then_some(Left {
            heap: false,
            ..left
        });
    }
    if name == b"--turns".as_slice() {
        return left.turns.then_some(Left {
            turns: false,
            ..left
        });
    }
    if name == b"--dir".as_slice() {
        return left.dir.then_some(Left { dir: false, ..left });
    }
    if name == b"--make".as_slice() {
        return left.make.then_some(Left {
            make: false,
            ..left
        });
    }
    flag_taken(left, name)
}

// The same of a flag.
fn flag_taken(left: Left, name: &[u8]) -> Option<Left>
    ensures { result ≡ flag_taken left name.now }
{
    if name == b"--trace".as_slice() {
        return left.trace.then_some(Left {
            trace: false,
            ..left
        });
    }
    if name == b"--coverage".as_slice() {
        return left.coverage.then_some(Left {
            coverage: false,
            ..left
        });
    }
    if name == b"--count".as_slice() {
        return left.count.then_some(Left {
            count: false,
            ..left
        });
    }
    None
}

fn is_flag(name: &[u8]) -> bool
    ensures { result ≡ is_flag name.now }
{
    name == b"--trace".as_slice()
        || name == b"--coverage".as_slice()
        || name == b"--count".as_slice()
}

fn is_value(word: &[u8]) -> bool
    ensures { result ≡ is_value word.now }
{
    match word {
        [first, ..] => *first != b'-',
        [] => true,
    }
}

// Whether the value of an option is right.
fn fits(name: &[u8], value: &[u8]) -> bool
    ensures { result ≡ fits name.now value.now }
{
    if name == b"--stack".as_slice() {
        return stack_in(value).is_some();
    }
    if name == b"--heap".as_slice() {
        return heap_in(value).is_some();
    }
    if name == b"--turns".as_slice() {
        return turns_in(value).is_some();
    }
    if name == b"--make".as_slice() {
        return make_in(value).is_some();
    }
    !value.is_empty()
}

// The words behind an option of this name and its value, where it has one; none where that is wrong or missing.
fn behind<'a>(name: &[u8], words: &'a [String]) -> Option<&'a [String]>
    ensures behind { option_map (λ rest. map string_bytes rest.now) result ≡ behind name.now (map string_bytes words.entry.now) }
    ensures fewer { IfSome result (λ rest. length rest.now ≤ length words.entry.now) }
{
    if is_flag(name) {
        return Some(words);
    }
    let (value, rest) = words.split_first()?;
    let value = value.as_bytes();
    if is_value(value) && fits(name, value) {
        Some(rest)
    } else {
        None
    }
}

/// Whether the words are options, each at most once: a flag alone, and any other with a value behind it that fits it and
/// does not begin with `-`.
pub fn are_listed(words: &[String]) -> bool
    ensures { result ≡ is_listed all (given (map string_bytes words.now)) }
{
    let mut left = Left {
        stack: true,
        heap: true,
        turns: true,
        dir: true,
        make: true,
        trace: true,
        coverage: true,
        count: true,
    };
    let mut rest = words;
    'options: while let Some((name, words)) = rest.split_first() {
        let name = name.as_bytes();
        let Some(fewer) = taken(left, name) else {
            return false;
        };
        let Some(words) = behind(name, words) else {
            return false;
        };
        left = fewer;
        rest = words;
    }
    true
}
