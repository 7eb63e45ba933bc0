// The sections of a file, as they stand in it.
ghost use Rattle.std.specs.Prelude.{◌≡◌, ◌+◌, IfOk};
ghost use Rattle.sc_elf_read.specs.Pieces.{held_by, filled, piece_in, behind_piece, pieces_in};
ghost use Rattle.sc_elf_read.specs.Parsed.{file_pieces};

use crate::bytes::{behind, front, half_at, word_at};
use sc_base::{Bytes, Items, NoMemory};
use std::alloc::Global;

/// A section of a file: what its header says, but for names and places, and its contents.
#[derive(Drop)]
pub struct Piece {
    pub kind: u32,
    pub flags: u32,
    pub bytes: Bytes,
    pub size: u32,
    pub info: u32,
}

// How many bytes of a section stand in the file.
fn held_by(kind: u32, size: u32) -> usize
    ensures { result ≡ held_by kind size }
{
    if kind == 8 { 0 } else { size as usize }
}

// A number up to the next multiple of 4.
fn filled(n: u32) -> usize
    ensures { result ≡ filled n }
{
    let n = n as usize;
    n + (4 - n % 4) % 4
}

fn piece_in(alloc: Global, headers: &[u8], contents: &[u8]) -> Result<Piece, NoMemory>
    ensures { IfOk result (λ p. p ≡ piece_in headers.now contents.now) }
{
    let kind = word_at(headers, 4);
    let size = word_at(headers, 20);
    Ok(Piece {
        kind,
        flags: word_at(headers, 8),
        bytes: Bytes::from_slice(alloc, front(contents, held_by(kind, size)))?,
        size,
        info: word_at(headers, 28),
    })
}

fn behind_piece<'a>(piece: &Piece, contents: &'a [u8]) -> &'a [u8]
    ensures { result.now ≡ behind_piece piece.now contents.now }
{
    let held = if piece.kind == 8 { 0 } else { piece.size };
    behind(contents, filled(held))
}

#[tactic(auto, using(crate::proofs::Loops::pieces_step, crate::proofs::Loops::pieces_end))]
fn pieces_in(
    alloc: Global,
    count: usize,
    headers: &[u8],
    contents: &[u8],
) -> Result<Items<Piece>, NoMemory>
    ensures { IfOk result (λ ps. ps ≡ pieces_in count headers.now contents.now) }
{
    let mut all = Items::new(alloc);
    let mut headers_left = headers;
    let mut contents_left = contents;
    for turn in 0..count {
        let piece = piece_in(alloc, headers_left, contents_left)?;
        contents_left = behind_piece(&piece, contents_left);
        headers_left = behind(headers_left, 40);
        all.push(piece)?;
    }
    Ok(all)
}

/// The sections of a file but for the null section.
pub fn file_pieces(alloc: Global, bytes: &[u8]) -> Result<Items<Piece>, NoMemory>
    ensures { IfOk result (λ ps. ps ≡ file_pieces bytes.now) }
{
    let count = half_at(bytes, 48).saturating_sub(1) as usize;
    let headers = behind(bytes, word_at(bytes, 32) as usize + 40);
    pieces_in(alloc, count, headers, behind(bytes, 52))
}
