// A refusal as text.

use crate::words::{put, put_number};
use sc_base::{Bytes, NoMemory, Refusal, X};
use std::alloc::Global;

fn number_of(kind: &X) -> &'static [u8] {
    match kind {
        X::X1 => b"X1",
        X::X2 => b"X2",
        X::X3 => b"X3",
        X::X4 => b"X4",
        X::X5 => b"X5",
        X::X6 => b"X6",
        X::X7 => b"X7",
        X::X8 => b"X8",
        X::X9(_) => b"X9",
        X::X10(_) => b"X10",
    }
}

fn put_detail(text: &mut Vec<u8>, word: &Bytes) -> Result<(), NoMemory> {
    text.push(b' ')?;
    put(text, word.as_slice())
}

fn put_kind(text: &mut Vec<u8>, kind: &X) -> Result<(), NoMemory> {
    put(text, number_of(kind))?;
    match kind {
        X::X9(word) => put_detail(text, word),
        X::X10(word) => put_detail(text, word),
        _ => Ok(()),
    }
}

/// A refusal as its kind, its word where it has one, and its place: `X7 m.c:3`. One that names no file is in `name`; where that is
/// empty too, the line stands alone, as in `X9 main 3`.
pub fn refusal(alloc: Global, name: &[u8], refusal: &Refusal) -> Result<Bytes, NoMemory> {
    let mut text = Vec::new(alloc);
    put_kind(&mut text, &refusal.kind)?;
    text.push(b' ')?;
    let own = refusal.file.as_slice();
    let file = if own.is_empty() { name } else { own };
    if !file.is_empty() {
        put(&mut text, file)?;
        text.push(b':')?;
    }
    put_number(alloc, &mut text, refusal.line)?;
    Ok(Bytes::from_vec(text))
}
