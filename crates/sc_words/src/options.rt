// What the words behind the program's name ask for.
ghost use Rattle.std.specs.Prelude.{◌≡◌, ◌↔◌, None, Some, IfOk, IsErrOf, map, option_map, string_bytes};
ghost use Rattle.sc_words.specs.Options.{options_of, number_or, modules_or, folder_or, stack_range, heap_range, turns_range};
ghost use Rattle.sc_words.specs.CommandLine.{options_found};

use crate::command_line::{Found, found_in};
use crate::listed::are_listed;
use crate::range::{heap_in, make_in, stack_in, turns_in};
use sc_base::Bytes;
use std::alloc::Global;

/// What the workspace was asked for: the bytes of the stack and of the heap, the turns of each go, the folder, how many
/// modules it is to make and run in place of reading commands, and which probes it has.
#[derive(Debug, Drop, PartialEq, Eq)]
pub struct Options {
    /// 4,096 to 16,777,216 bytes, a multiple of 16; 1,048,576 where nothing is said.
    pub stack: u32,
    /// Up to 67,108,864 bytes, a multiple of 16; 4,194,304 where nothing is said.
    pub heap: u32,
    /// 1 to 1,000,000,000 turns; 50,000,000 where nothing is said.
    pub turns: u64,
    /// Not empty; `.` where nothing is said.
    pub dir: Bytes,
    /// 1 to 64 modules; none where nothing is said.
    pub make: Option<u32>,
    /// A probe keeps the notes of runs.
    pub trace: bool,
    /// A probe counts how often each line is reached.
    pub coverage: bool,
    /// A probe counts the notes of runs by kind.
    pub count: bool,
}

/// Why words ask for nothing.
#[derive(Clone, Copy, Debug, PartialEq, Eq)]
pub enum WordsFault {
    /// The words are not in the language.
    Bad,
    NoMemory,
}

fn stack_or(value: Option<&str>) -> Option<u32>
    ensures { result ≡ number_or 1048576 stack_range (option_map (λ text. text.now) value.entry) }
{
    match value {
        Some(value) => stack_in(value.as_bytes()),
        None => Some(1048576),
    }
}

fn heap_or(value: Option<&str>) -> Option<u32>
    ensures { result ≡ number_or 4194304 heap_range (option_map (λ text. text.now) value.entry) }
{
    match value {
        Some(value) => heap_in(value.as_bytes()),
        None => Some(4194304),
    }
}

fn turns_or(value: Option<&str>) -> Option<u64>
    ensures { result ≡ number_or 50000000 turns_range (option_map (λ text. text.now) value.entry) }
{
    match value {
        Some(value) => turns_in(value.as_bytes()),
        None => Some(50000000),
    }
}

fn modules_or(value: Option<&str>) -> Option<Option<u32>>
    ensures { result ≡ modules_or (option_map (λ text. text.now) value.entry) }
{
    match value {
        Some(value) => match make_in(value.as_bytes()) {
            Some(count) => Some(Some(count)),
            None => None,
        },
        None => Some(None),
    }
}

fn folder_or<'a>(value: Option<&'a str>) -> &'a [u8]
    ensures { result.now ≡ folder_or (option_map (λ text. text.now) value.entry) }
{
    match value {
        Some(value) => value.as_bytes(),
        None => b".",
    }
}

// What was found for the options asks for.
fn options_from(alloc: Global, found: Found) -> Result<Options, WordsFault>
    ensures ok { IfOk result (λ options. options_found found.entry ≡ Some options) }
    ensures bad { IsErrOf result WordsFault.Bad ↔ (options_found found.entry ≡ None) }
{
    let Some(stack) = stack_or(found.stack) else {
        return Err(WordsFault::Bad);
    };
    let Some(heap) = heap_or(found.heap) else {
        return Err(WordsFault::Bad);
    };
    let Some(turns) = turns_or(found.turns) else {
        return Err(WordsFault::Bad);
    };
    let Some(make) = modules_or(found.make) else {
        return Err(WordsFault::Bad);
    };
    match Bytes::from_slice(alloc, folder_or(found.dir)) {
        Ok(dir) => Ok(Options {
            stack,
            heap,
            turns,
            dir,
            make,
            trace: found.trace,
            coverage: found.coverage,
            count: found.count,
        }),
        Err(_) => Err(WordsFault::NoMemory),
    }
}

/// What the words behind the program's name ask for. They are options in any order, each at most once: with a value
/// behind it `--stack N` and `--heap N` (bytes, multiples of 16), `--turns N`, `--dir D` and `--make N` (modules), and
/// alone `--trace`, `--coverage` and `--count`. A value does not begin with `-`, and a number has 1 to 10 decimal digits.
pub fn read_words(alloc: Global, words: &[String]) -> Result<Options, WordsFault>
    ensures ok { IfOk result (λ options. options_of (map string_bytes words.now) ≡ Some options) }
    ensures bad { IsErrOf result WordsFault.Bad ↔ (options_of (map string_bytes words.now) ≡ None) }
{
    if !are_listed(words) {
        return Err(WordsFault::Bad);
    }
    match found_in(alloc, words) {
        Ok(found) => options_from(alloc, found),
        Err(_) => Err(WordsFault::NoMemory),
    }
}
