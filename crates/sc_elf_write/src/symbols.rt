// The table of symbols as bytes (gABI, "Symbol Table").
ghost use Rattle.std.specs.Prelude.{◌≡◌, ◌<◌, ◌^◌, ◌++◌, IfOk, OnOk, length, filter};
ghost use Rattle.sc_object.specs.Parts.{info_of, number_of, symbol_entry, with_symbol, symbol_table, is_local};

use crate::word::{put_half, put_word};
use sc_base::{Bytes, NoMemory};
use sc_object::{Symbol, SymbolTable};
use std::alloc::Global;

fn number_of(section: Option<u32>) -> usize
    ensures { result ≡ number_of section }
{
    match section {
        Some(n) => n as usize + 1,
        None => 0,
    }
}

fn info_of(s: &Symbol) -> u8
    ensures { result ≡ info_of s.now }
{
    if s.global {
        16 + s.kind % 16
    } else {
        s.kind % 16
    }
}

fn put_symbol(bytes: &mut Vec<u8>, name: usize, s: &Symbol) -> Result<(), NoMemory>
    ensures { OnOk result (bytes.new.items ≡ bytes.old.items ++ symbol_entry name s.now) }
{
    put_word(bytes, name)?;
    put_word(bytes, 0)?;
    put_word(bytes, s.size as usize)?;
    bytes.push(info_of(s))?;
    bytes.push(0)?;
    put_half(bytes, number_of(s.section))
}

fn with_symbol(table: SymbolTable, s: &Symbol) -> Result<SymbolTable, NoMemory>
    ensures { IfOk result (λ t. t ≡ with_symbol table s.now) }
{
    let SymbolTable { entries, names } = table;
    let mut entries = entries.into_vec();
    let mut names = names.into_vec();
    put_symbol(&mut entries, names.len(), s)?;
    names.extend_from_slice(s.name.as_slice())?;
    names.push(0)?;
    Ok(SymbolTable {
        entries: Bytes::from_vec(entries),
        names: Bytes::from_vec(names),
    })
}

/// The entries and the names of symbols.
pub fn symbol_table(alloc: Global, symbols: &[Symbol]) -> Result<SymbolTable, NoMemory>
    ensures { IfOk result (λ t. t ≡ symbol_table symbols.now) }
{
    let mut table = SymbolTable {
        entries: Bytes::from_slice(alloc, [0; 16].as_slice())?,
        names: Bytes::from_slice(alloc, [0].as_slice())?,
    };
    for symbol in symbols {
        table = with_symbol(table, symbol)?;
    }
    Ok(table)
}

fn count_locals(symbols: &[Symbol]) -> usize
    ensures { result ≡ length (filter is_local symbols.now) }
{
    symbols.iter().filter(|s| !s.global).count()
}

/// How many symbols are of local binding; no more than there are.
pub fn local_count(symbols: &[Symbol]) -> usize
    ensures count { result ≡ length (filter is_local symbols.now) }
    ensures bound { result < 2 ^ 63 }
{
    let all = symbols.len();
    let locals = count_locals(symbols);
    if locals < all { locals } else { all }
}
