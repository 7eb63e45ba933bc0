// Words as cells, and cells as words.
ghost use Rattle.std.specs.Prelude.{◌≡◌, ◌+◌, ◌^◌, ◌<◌, ◌≤◌, ◌∷◌, [], length, map, slice_index, IfSome, MatchResult};
ghost use Rattle.sc_base.specs.declared.memory.Cell.TheVariants.{Byte};
ghost use Rattle.sc_mem.specs.Words.{IsSize, IsWritten, byte_of, bytes_of, cells_of, tag_of, word_of};
ghost use Rattle.sc_mem.specs.Words.{is_piece as piece};
ghost use Rattle.sc_cells.specs.Range.{range_of, with_range};

use sc_base::{Cell, NoMemory, Word};
use sc_cells::Cells;

/// A cell as a byte.
pub fn byte_of_cell(cell: Cell) -> u8
    ensures { result ≡ byte_of cell }
{
    match cell {
        Cell::Unwritten => 0,
        Cell::Byte(byte) => byte,
        Cell::Frag { whole, k, .. } => byte_of_number(whole, k),
    }
}

// Byte k of a number, the lowest first.
fn byte_of_number(bits: u32, k: u8) -> u8
    ensures { result ≡ slice_index (bytes_of bits) k }
{
    match k {
        0 => (bits % 256) as u8,
        1 => (bits / 256 % 256) as u8,
        2 => (bits / 65536 % 256) as u8,
        3 => (bits / 16777216 % 256) as u8,
        _ => 0,
    }
}

/// The tag of four cells: that of the pointer whose pieces they are in order, else 0.
pub fn tag_of_cells(a: Cell, b: Cell, c: Cell, d: Cell) -> u32
    ensures { result ≡ tag_of (a ∷ b ∷ c ∷ d ∷ []) }
{
    let Cell::Frag { whole, tag, k } = a else {
        return 0;
    };
    if k == 0
        && is_piece(b, whole, tag, 1)
        && is_piece(c, whole, tag, 2)
        && is_piece(d, whole, tag, 3)
    {
        tag
    } else {
        0
    }
}

// Whether a cell is this piece of this pointer.
fn is_piece(cell: Cell, bits: u32, of: u32, j: u8) -> bool
    ensures { result ≡ piece bits of j cell }
{
    match cell {
        Cell::Frag { whole, tag, k } => whole == bits && tag == of && k == j,
        _ => false,
    }
}

fn word_of_one(a: Cell) -> Word
    ensures { result ≡ word_of (a ∷ []) }
{
    Word {
        bits: u32::from(byte_of_cell(a)),
        tag: 0,
    }
}

fn word_of_two(a: Cell, b: Cell) -> Word
    ensures word { result ≡ word_of (a ∷ b ∷ []) }
    ensures small { result.bits < 65536 }
{
    Word {
        bits: u32::from(byte_of_cell(a)) + 256 * u32::from(byte_of_cell(b)),
        tag: 0,
    }
}

fn word_of_four(a: Cell, b: Cell, c: Cell, d: Cell) -> Word
    ensures { result ≡ word_of (a ∷ b ∷ c ∷ d ∷ []) }
{
    let low = word_of_two(a, b).bits;
    let high = word_of_two(c, d).bits;
    Word {
        bits: low + 65536 * high,
        tag: tag_of_cells(a, b, c, d),
    }
}

/// The word in the `n` cells from a place on.
#[inline(always)]
pub fn load_word(cells: &Cells, i: u32, n: u8) -> Word
    requires size { IsSize n }
    requires inside { i + n ≤ length cells.now }
    requires fits { i < 2 ^ 31 }
    ensures { result ≡ word_of (range_of cells.now i n) }
{
    match whole_word(cells, i, n) {
        Some(word) => word,
        None => load_cells(cells, i, n),
    }
}

// The word that four cells are whole, where it is found at once.
#[inline(always)]
fn whole_word(cells: &Cells, i: u32, n: u8) -> Option<Word>
    requires { i + n ≤ length cells.now }
    ensures { IfSome result (λ w. w ≡ word_of (range_of cells.now i n)) }
{
    if n == 4 { four_cells(cells, i) } else { None }
}

#[inline(always)]
fn four_cells(cells: &Cells, i: u32) -> Option<Word>
    requires { i + 4 ≤ length cells.now }
    ensures { IfSome result (λ w. w ≡ word_of (range_of cells.now i 4)) }
{
    match cells.word(i) {
        Some(word) => Some(word),
        None => None,
    }
}

// A byte of a number as a word.
#[inline(always)]
fn plain_word(a: Cell) -> Option<Word>
    ensures { IfSome result (λ w. IsWritten (a ∷ []) w) }
{
    match a {
        Cell::Byte(a) => Some(Word {
            bits: u32::from(a),
            tag: 0,
        }),
        Cell::Unwritten => None,
        Cell::Frag { .. } => None,
    }
}

// Two bytes of a number as a word.
fn plain_half(a: Cell, b: Cell) -> Option<Word>
    ensures { IfSome result (λ w. IsWritten (a ∷ b ∷ []) w) }
{
    match (a, b) {
        (Cell::Byte(a), Cell::Byte(b)) => Some(Word {
            bits: u32::from(a) + 256 * u32::from(b),
            tag: 0,
        }),
        _ => None,
    }
}

#[inline(always)]
fn written_one(cells: &Cells, i: u32) -> Option<Word>
    requires { i + 1 ≤ length cells.now }
    ensures { IfSome result (λ w. IsWritten (range_of cells.now i 1) w) }
{
    let a = cells.read(i);
    plain_word(a)
}

fn written_two(cells: &Cells, i: u32) -> Option<Word>
    requires inside { i + 2 ≤ length cells.now }
    requires fits { i < 2 ^ 31 }
    ensures { IfSome result (λ w. IsWritten (range_of cells.now i 2) w) }
{
    let a = cells.read(i);
    let b = cells.read(i + 1);
    plain_half(a, b)
}

#[inline(always)]
fn written_four(cells: &Cells, i: u32) -> Option<Word>
    requires { i + 4 ≤ length cells.now }
    ensures { IfSome result (λ w. IsWritten (range_of cells.now i 4) w) }
{
    match cells.word(i) {
        Some(word) => Some(word),
        None => None,
    }
}

/// The word in the `n` cells from a place on, where all of them are bytes of a number, or the four pieces of one pointer. It may answer
/// `None` where they are.
#[inline(always)]
pub fn written_word(cells: &Cells, i: u32, n: u32) -> Option<Word>
    requires inside { i + n ≤ length cells.now }
    requires fits { i < 2 ^ 31 }
    ensures { IfSome result (λ w. IsWritten (range_of cells.now i n) w) }
{
    if n == 4 {
        return written_four(cells, i);
    }
    if n == 1 {
        return written_one(cells, i);
    }
    if n == 2 {
        return written_two(cells, i);
    }
    None
}

// The same cell by cell.
#[inline(never)]
fn load_cells(cells: &Cells, i: u32, n: u8) -> Word
    requires size { IsSize n }
    requires inside { i + n ≤ length cells.now }
    requires fits { i < 2 ^ 31 }
    ensures { result ≡ word_of (range_of cells.now i n) }
{
    let a = cells.read(i);
    if n == 1 {
        return word_of_one(a);
    }
    let b = cells.read(i + 1);
    if n == 2 {
        return word_of_two(a, b);
    }
    let c = cells.read(i + 2);
    let d = cells.read(i + 3);
    word_of_four(a, b, c, d)
}

/// Writes a word to the `n` cells from a place on: a whole pointer as its pieces, all else as bytes. Where memory runs
/// out nothing is changed.
#[inline(always)]
pub fn store_word(cells: &mut Cells, i: u32, n: u8, w: Word) -> Result<(), NoMemory>
    requires size { IsSize n }
    requires inside { i + n ≤ length cells.old }
    ensures cells { MatchResult result (λ _. cells.new ≡ with_range cells.old i (cells_of n w)) (λ _. cells.new ≡ cells.old) }
    ensures len { length cells.new ≡ length cells.old }
{
    if n == 4 {
        store_whole(cells, i, w)
    } else if n == 2 {
        cells.write_row(i, &[byte_cell(w.bits, 0), byte_cell(w.bits, 1)])
    } else {
        cells.write_row(i, &[byte_cell(w.bits, 0)])
    }
}

// Writes the four cells of a whole word.
#[inline(always)]
fn store_whole(cells: &mut Cells, i: u32, w: Word) -> Result<(), NoMemory>
    requires { i + 4 ≤ length cells.old }
    ensures cells { MatchResult result (λ _. cells.new ≡ with_range cells.old i (cells_of 4 w)) (λ _. cells.new ≡ cells.old) }
    ensures len { length cells.new ≡ length cells.old }
{
    cells.put_word(i, w)
}

fn byte_cell(bits: u32, k: u8) -> Cell
    ensures { result ≡ Cell.Byte (slice_index (bytes_of bits) k) }
{
    Cell::Byte(byte_of_number(bits, k))
}
