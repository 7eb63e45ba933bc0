// A page of cells, of which each four in a row stand as a word and which of its cells are written, where they are that.
ghost use Rattle.std.specs.Prelude.{◌≡◌, ◌↔◌, ◌+◌, ◌*◌, ◌/◌, ◌%◌, ◌<◌, ◌≤◌, ◌∷◌, [], ℕ, Bool, List, length, replicate, slice_index_or, slice_set, IfOk, IfSome, IsTrue, MatchResult};
ghost use Rattle.sc_base.specs.declared.memory.Cell.{Cell as One};
ghost use Rattle.sc_cells.specs.Pages.{IsPutIn, StandsFor, cell_if, four_in, four_of, four_set, found, whole_cells, wiped};
ghost use Rattle.sc_cells.specs.Pages.{blank as no_cell_written};
ghost use Rattle.sc_cells.specs.Pages.{untaken, with_cells};

use sc_base::{Cell, NoMemory, Word};
use std::alloc::Global;
use std::marker::Model;

/// How many cells a page has.
pub const PAGE: usize = 8192;

/// Four cells in a row.
#[derive(Clone, Copy)]
enum Quad {
    /// Those of a word.
    Whole(Word),
    /// Those of a word that are written, and else unwritten ones.
    Part(Word, [bool; 4]),
    /// What the page's second list has for them.
    Mixed,
}

/// No cells or 8,192, seen as the list of them. Each four in a row stand as a quad. Those that are no word's stand in `loose`,
/// which is taken with the first of them.
#[derive(Drop)]
pub struct Page {
    quads: Vec<Quad>,
    loose: Vec<Cell>,
}

impl Model for Page {
    ghost use Rattle.sc_cells.specs.Pages.{IsPage, Sheet, sheet};

    ghost Value = { Sheet };

    ghost view = { λ p. sheet p.quads.items p.loose.items };

    ghost invariant = { λ p. IsPage p.quads.items p.loose.items };
}

impl Page {
    /// No cells.
    pub fn new(alloc: Global) -> Page
        ensures { result ≡ untaken }
    {
        Page {
            quads: Vec::new(alloc),
            loose: Vec::new(alloc),
        }
    }

    /// 8,192 cells, none of them written.
    pub fn blank(alloc: Global) -> Result<Page, NoMemory>
        ensures { IfOk result (λ page. page ≡ no_cell_written) }
    {
        let quads = no_quads(alloc, PAGE / 4)?;
        Ok(Page {
            quads,
            loose: Vec::new(alloc),
        })
    }

    /// How many cells there are.
    #[inline(always)]
    pub fn len(&self) -> usize
        ensures { result ≡ length self.now.cells }
    {
        4 * self.quads.len()
    }

    #[inline(always)]
    pub fn is_empty(&self) -> bool
        ensures { IsTrue result ↔ (length self.now.cells ≡ 0) }
    {
        self.len() == 0
    }

    /// The cell at a place. There are unwritten ones behind the last.
    #[inline(always)]
    pub fn cell(&self, j: usize) -> Cell
        ensures { result ≡ slice_index_or self.now.cells j One.Unwritten }
    {
        if j / 4 < self.quads.len() {
            cell_in(self.quads[j / 4], self.loose.as_slice(), j)
        } else {
            Cell::Unwritten
        }
    }

    /// Takes room for all cells, whatever they are.
    #[inline(never)]
    pub fn make_room(&mut self, alloc: Global) -> Result<(), NoMemory>
        ensures { MatchResult result (λ _. (self.new.cells ≡ self.old.cells) × (self.new.room ≡ length self.old.cells)) (λ _. self.new ≡ self.old) }
    {
        if self.loose.len() != 0 {
            return Ok(());
        }
        let loose = no_cells(alloc, 4 * self.quads.len())?;
        self.loose = loose;
        Ok(())
    }

    /// Puts another cell at a place of a page that has room for it.
    pub fn set(&mut self, j: usize, c: Cell)
        requires inside { j < length self.old.cells }
        requires room { self.old.room ≡ length self.old.cells }
        ensures { self.new ≡ with_cells self.old (slice_set self.old.cells j c) }
    {
        let four = self.with_cell(j, c);
        match quad_of(four) {
            Some(quad) => self.put_quad(j / 4, quad),
            None => self.put_loose(j / 4, four),
        }
    }

    /// Puts another cell at a place, and takes room for it where it needs some.
    pub fn write(&mut self, alloc: Global, j: usize, c: Cell) -> Result<(), NoMemory>
        requires { j < length self.old.cells }
        ensures cells { MatchResult result (λ _. self.new.cells ≡ slice_set self.old.cells j c) (λ _. self.new ≡ self.old) }
    {
        match with_byte_in(self.quads[j / 4], j % 4, c) {
            Some(quad) => {
                self.quads[j / 4] = quad;
                Ok(())
            }
            None => self.write_slowly(alloc, j, c),
        }
    }

    // The same, whatever the cell is and those beside it.
    #[inline(never)]
    fn write_slowly(&mut self, alloc: Global, j: usize, c: Cell) -> Result<(), NoMemory>
        requires { j < length self.old.cells }
        ensures cells { MatchResult result (λ _. self.new.cells ≡ slice_set self.old.cells j c) (λ _. self.new ≡ self.old) }
    {
        let four = self.with_cell(j, c);
        self.put_four(alloc, j / 4, four)
    }

    /// Puts two other cells at places of the same four.
    pub fn write_two(&mut self, alloc: Global, j: usize, a: Cell, b: Cell) -> Result<(), NoMemory>
        requires inside { j < length self.old.cells }
        requires near { j % 4 < 3 }
        ensures cells { MatchResult result (λ _. self.new.cells ≡ slice_set (slice_set self.old.cells j a) (j + 1) b) (λ _. self.new ≡ self.old) }
    {
        let four = self.with_two(j, a, b);
        self.put_four(alloc, j / 4, four)
    }

    /// Makes a cell unwritten. It takes no memory.
    #[inline(always)]
    pub fn wipe(&mut self, j: usize)
        requires { j < length self.old.cells }
        ensures { self.new ≡ with_cells self.old (slice_set self.old.cells j One.Unwritten) }
    {
        self.quads[j / 4] = wiped(self.quads[j / 4], j % 4);
        wipe_loose(&mut self.loose, j);
    }

    /// Makes the four cells from a place on unwritten. It takes no memory.
    #[inline(always)]
    pub fn wipe_four(&mut self, j: usize)
        requires aligned { j % 4 ≡ 0 }
        requires inside { j < length self.old.cells }
        ensures { self.new ≡ with_cells self.old (four_set self.old.cells j One.Unwritten One.Unwritten One.Unwritten One.Unwritten) }
    {
        self.quads[j / 4] = unwritten();
    }

    /// The word as which the four cells from a place on stand.
    #[inline(always)]
    pub fn word(&self, j: usize) -> Option<Word>
        ensures aligned { IfSome result (λ w. j % 4 ≡ 0) }
        ensures word { IfSome result (λ w. four_of self.now.cells j ≡ whole_cells w) }
    {
        if j % 4 != 0 {
            return None;
        }
        match self.quads.get(j / 4) {
            Some(quad) => whole(*quad),
            None => None,
        }
    }

    /// Puts the cells of a word at the four places from `j` on.
    #[inline(always)]
    pub fn put_word(&mut self, j: usize, w: Word)
        requires aligned { j % 4 ≡ 0 }
        requires inside { j < length self.old.cells }
        ensures { self.new ≡ with_cells self.old (four_in self.old.cells j (whole_cells w)) }
    {
        self.quads[j / 4] = Quad::Whole(w);
    }

    // The four cells of which one is at a place, with another cell there.
    #[inline(always)]
    fn with_cell(&self, j: usize, c: Cell) -> [Cell; 4]
        requires { j < length self.now.cells }
        ensures inside { 4 * (j / 4) + 4 ≤ length self.now.cells }
        ensures count { length result ≡ 4 }
        ensures four { four_in self.now.cells (4 * (j / 4)) result ≡ slice_set self.now.cells j c }
    {
        let mut four = four_of_quad(self.quads[j / 4], self.loose.as_slice(), 4 * (j / 4));
        four[j % 4] = c;
        four
    }

    #[inline(always)]
    fn with_two(&self, j: usize, a: Cell, b: Cell) -> [Cell; 4]
        requires inside { j < length self.now.cells }
        requires near { j % 4 < 3 }
        ensures inside { 4 * (j / 4) + 4 ≤ length self.now.cells }
        ensures count { length result ≡ 4 }
        ensures four { four_in self.now.cells (4 * (j / 4)) result ≡ slice_set (slice_set self.now.cells j a) (j + 1) b }
    {
        let mut four = four_of_quad(self.quads[j / 4], self.loose.as_slice(), 4 * (j / 4));
        four[j % 4] = a;
        four[j % 4 + 1] = b;
        four
    }

    #[inline(always)]
    fn put_four(&mut self, alloc: Global, q: usize, four: [Cell; 4]) -> Result<(), NoMemory>
        requires inside { 4 * q + 4 ≤ length self.old.cells }
        requires four { length four ≡ 4 }
        ensures { MatchResult result (λ _. self.new.cells ≡ four_in self.old.cells (4 * q) four) (λ _. self.new ≡ self.old) }
    {
        match quad_of(four) {
            Some(quad) => {
                self.put_quad(q, quad);
                Ok(())
            }
            None => {
                self.make_room(alloc)?;
                self.put_loose(q, four);
                Ok(())
            }
        }
    }

    #[inline(always)]
    fn put_quad(&mut self, q: usize, quad: Quad)
        requires { 4 * q + 4 ≤ length self.old.cells }
        ensures { (four : List One) → length four ≡ 4 → StandsFor four quad → self.new ≡ with_cells self.old (four_in self.old.cells (4 * q) four) }
    {
        self.quads[q] = quad;
    }

    #[inline(never)]
    fn put_loose(&mut self, q: usize, four: [Cell; 4])
        requires inside { 4 * q + 4 ≤ length self.old.cells }
        requires four { length four ≡ 4 }
        requires room { self.old.room ≡ length self.old.cells }
        ensures { self.new ≡ with_cells self.old (four_in self.old.cells (4 * q) four) }
    {
        let [a, b, c, d] = four;
        self.quads[q] = Quad::Mixed;
        self.loose[4 * q] = a;
        self.loose[4 * q + 1] = b;
        self.loose[4 * q + 2] = c;
        self.loose[4 * q + 3] = d;
    }
}

fn no_quads(alloc: Global, count: usize) -> Result<Vec<Quad>, NoMemory>
    ensures { IfOk result (λ quads. quads.items ≡ replicate count (Quad.Part (record { bits = 0; tag = 0 }) (Bool.false ∷ Bool.false ∷ Bool.false ∷ Bool.false ∷ []))) }
{
    let quads = Vec::from_elem(alloc, unwritten(), count)?;
    Ok(quads)
}

// Four unwritten cells.
#[inline(always)]
fn unwritten() -> Quad
    ensures { result ≡ Quad.Part (record { bits = 0; tag = 0 }) (Bool.false ∷ Bool.false ∷ Bool.false ∷ Bool.false ∷ []) }
{
    Quad::Part(Word { bits: 0, tag: 0 }, [false, false, false, false])
}

fn no_cells(alloc: Global, count: usize) -> Result<Vec<Cell>, NoMemory>
    ensures { IfOk result (λ cells. cells.items ≡ replicate count One.Unwritten) }
{
    let cells = Vec::from_elem(alloc, Cell::Unwritten, count)?;
    Ok(cells)
}

// The cell at place j of a page, of which a quad has four.
#[inline(always)]
fn cell_in(quad: Quad, loose: &[Cell], j: usize) -> Cell
    ensures { result ≡ found quad (j % 4) (slice_index_or loose.now j One.Unwritten) }
{
    match quad {
        Quad::Whole(w) => cell_of_word(w, j % 4),
        Quad::Part(w, written) => cell_of_part(written[j % 4], w, j % 4),
        Quad::Mixed => loose_cell(loose, j),
    }
}

// The four cells from place j on, which a quad has.
#[inline(always)]
fn four_of_quad(quad: Quad, loose: &[Cell], j: usize) -> [Cell; 4]
    requires { j < 8192 }
    ensures { result ≡ found quad (j % 4) (slice_index_or loose.now j One.Unwritten) ∷ found quad ((j + 1) % 4) (slice_index_or loose.now (j + 1) One.Unwritten) ∷ found quad ((j + 2) % 4) (slice_index_or loose.now (j + 2) One.Unwritten) ∷ found quad ((j + 3) % 4) (slice_index_or loose.now (j + 3) One.Unwritten) ∷ [] }
{
    [
        cell_in(quad, loose, j),
        cell_in(quad, loose, j + 1),
        cell_in(quad, loose, j + 2),
        cell_in(quad, loose, j + 3),
    ]
}

fn loose_cell(loose: &[Cell], j: usize) -> Cell
    ensures { result ≡ slice_index_or loose.now j One.Unwritten }
{
    match loose.get(j) {
        Some(cell) => *cell,
        None => Cell::Unwritten,
    }
}

#[inline(always)]
fn cell_of_part(written: bool, w: Word, k: usize) -> Cell
    requires { k < 4 }
    ensures { result ≡ cell_if written w k }
{
    if written {
        cell_of_word(w, k)
    } else {
        Cell::Unwritten
    }
}

#[inline(always)]
fn wipe_loose(loose: &mut Vec<Cell>, j: usize)
    ensures { loose.new.items ≡ slice_set loose.old.items j One.Unwritten }
{
    if j < loose.len() {
        loose[j] = Cell::Unwritten;
    }
}

// The word of which four cells are those.
#[inline(always)]
fn whole(quad: Quad) -> Option<Word>
    ensures { IfSome result (λ w. quad ≡ Quad.Whole w) }
{
    match quad {
        Quad::Whole(w) => Some(w),
        Quad::Part(_, _) => None,
        Quad::Mixed => None,
    }
}

// Four cells of which that at place k is unwritten.
#[inline(always)]
fn wiped(quad: Quad, k: usize) -> Quad
    requires { k < 4 }
    ensures { result ≡ wiped quad k }
{
    match quad {
        Quad::Whole(w) => part_without(w, [true, true, true, true], k),
        Quad::Part(w, written) => part_without(w, written, k),
        Quad::Mixed => Quad::Mixed,
    }
}

#[inline(always)]
fn part_without(w: Word, written: [bool; 4], k: usize) -> Quad
    requires { k < 4 }
    ensures { result ≡ Quad.Part w (slice_set written k Bool.false) }
{
    let mut left = written;
    left[k] = false;
    Quad::Part(w, left)
}

// Four cells of a number with a byte at place k, where that is what is put.
#[inline(always)]
fn with_byte_in(quad: Quad, k: usize, c: Cell) -> Option<Quad>
    requires { k < 4 }
    ensures { IfSome result (λ new. IsPutIn quad k c new) }
{
    match (quad, c) {
        (Quad::Whole(w), Cell::Byte(byte)) => whole_with_byte(w, k, byte),
        (Quad::Part(w, written), Cell::Byte(byte)) => part_with_byte(w, written, k, byte),
        _ => None,
    }
}

#[inline(always)]
fn part_with_byte(w: Word, written: [bool; 4], k: usize, byte: u8) -> Option<Quad>
    requires { k < 4 }
    ensures { IfSome result (λ new. IsPutIn (Quad.Part w written) k (One.Byte byte) new) }
{
    if w.tag != 0 {
        return None;
    }
    let mut more = written;
    more[k] = true;
    Some(marked(with_byte(w, k, byte), more))
}

// The cells of a word that are written, which are a whole word if all of them are.
#[inline(always)]
fn marked(w: Word, written: [bool; 4]) -> Quad
    ensures { (k : ℕ) (loose : One) → k < 4 → found result k loose ≡ found (Quad.Part w written) k loose }
{
    if written[0] && written[1] && written[2] && written[3] {
        return Quad::Whole(w);
    }
    Quad::Part(w, written)
}

#[inline(always)]
fn whole_with_byte(w: Word, k: usize, byte: u8) -> Option<Quad>
    requires { k < 4 }
    ensures { IfSome result (λ new. IsPutIn (Quad.Whole w) k (One.Byte byte) new) }
{
    if w.tag != 0 {
        return None;
    }
    Some(Quad::Whole(with_byte(w, k, byte)))
}

// A number with another byte at place k.
#[inline(always)]
#[tactic(auto, using(crate::proofs::Words::byte_first, crate::proofs::Words::byte_second, crate::proofs::Words::byte_third, crate::proofs::Words::byte_last))]
fn with_byte(w: Word, k: usize, byte: u8) -> Word
    requires number { w.tag ≡ 0 }
    requires place { k < 4 }
    ensures { whole_cells result ≡ slice_set (whole_cells w) k (One.Byte byte) }
{
    let a = (w.bits % 256) as u8;
    let b = (w.bits / 256 % 256) as u8;
    let c = (w.bits / 65536 % 256) as u8;
    let d = (w.bits / 16777216 % 256) as u8;
    if k == 0 {
        return number(byte, b, c, d);
    }
    if k == 1 {
        return number(a, byte, c, d);
    }
    if k == 2 {
        return number(a, b, byte, d);
    }
    number(a, b, c, byte)
}

// The quad as which four cells stand, where they need no room of their own.
#[inline(always)]
fn quad_of(four: [Cell; 4]) -> Option<Quad>
    requires { length four ≡ 4 }
    ensures { IfSome result (λ quad. StandsFor four quad) }
{
    let [a, b, c, d] = four;
    match word_of(a, b, c, d) {
        Some(w) => Some(Quad::Whole(w)),
        None => part_of(a, b, c, d),
    }
}

#[inline(never)]
fn part_of(a: Cell, b: Cell, c: Cell, d: Cell) -> Option<Quad>
    ensures { IfSome result (λ quad. StandsFor (a ∷ b ∷ c ∷ d ∷ []) quad) }
{
    let w = likely_word(a, b, c, d);
    let first = is_of(a, w, 0)?;
    let second = is_of(b, w, 1)?;
    let third = is_of(c, w, 2)?;
    let fourth = is_of(d, w, 3)?;
    Some(Quad::Part(w, [first, second, third, fourth]))
}

// A word of which the written ones of four cells are, if there is one.
fn likely_word(a: Cell, b: Cell, c: Cell, d: Cell) -> Word {
    for cell in [a, b, c, d] {
        if let Cell::Frag { whole, tag, .. } = cell {
            return Word { bits: whole, tag };
        }
    }
    number(byte(a), byte(b), byte(c), byte(d))
}

fn byte(cell: Cell) -> u8 {
    match cell {
        Cell::Byte(byte) => byte,
        _ => 0,
    }
}

// Whether a cell is written, where it is unwritten or that at place k of a word.
fn is_of(cell: Cell, w: Word, k: usize) -> Option<bool>
    requires { k < 4 }
    ensures { IfSome result (λ written. cell ≡ cell_if written w k) }
{
    match (cell, cell_of_word(w, k)) {
        (Cell::Unwritten, _) => Some(false),
        (Cell::Byte(x), Cell::Byte(y)) => { if x == y { Some(true) } else { None } }
        (Cell::Frag { whole, tag, k }, of) => {
            if is_piece(of, whole, tag, k) {
                Some(true)
            } else {
                None
            }
        }
        _ => None,
    }
}

#[inline(always)]
#[tactic(auto, using(crate::proofs::Words::piece_at, crate::proofs::Words::first_byte, crate::proofs::Words::second_byte, crate::proofs::Words::third_byte, crate::proofs::Words::last_byte))]
fn cell_of_word(w: Word, k: usize) -> Cell
    requires { k < 4 }
    ensures { result ≡ slice_index_or (whole_cells w) k One.Unwritten }
{
    if w.tag != 0 {
        return piece(w, k as u8);
    }
    if k == 0 {
        return Cell::Byte((w.bits % 256) as u8);
    }
    if k == 1 {
        return Cell::Byte((w.bits / 256 % 256) as u8);
    }
    if k == 2 {
        return Cell::Byte((w.bits / 65536 % 256) as u8);
    }
    Cell::Byte((w.bits / 16777216 % 256) as u8)
}

/// The whole word that four cells of a page are, where they are one.
#[inline(always)]
pub fn word_of(a: Cell, b: Cell, c: Cell, d: Cell) -> Option<Word>
    ensures { IfSome result (λ w. a ∷ b ∷ c ∷ d ∷ [] ≡ whole_cells w) }
{
    match (a, b, c, d) {
        (Cell::Byte(a), Cell::Byte(b), Cell::Byte(c), Cell::Byte(d)) => { Some(number(a, b, c, d)) }
        _ => pointer(a, b, c, d),
    }
}

#[inline(always)]
fn number(a: u8, b: u8, c: u8, d: u8) -> Word
    ensures { One.Byte a ∷ One.Byte b ∷ One.Byte c ∷ One.Byte d ∷ [] ≡ whole_cells result }
{
    Word {
        bits: u32::from(a) + 256 * u32::from(b) + 65536 * u32::from(c) + 16777216 * u32::from(d),
        tag: 0,
    }
}

fn pointer(a: Cell, b: Cell, c: Cell, d: Cell) -> Option<Word>
    ensures { IfSome result (λ w. a ∷ b ∷ c ∷ d ∷ [] ≡ whole_cells w) }
{
    let Cell::Frag { whole, tag, k } = a else {
        return None;
    };
    let is_whole = tag != 0
        && k == 0
        && is_piece(b, whole, tag, 1)
        && is_piece(c, whole, tag, 2)
        && is_piece(d, whole, tag, 3);
    if is_whole {
        Some(Word { bits: whole, tag })
    } else {
        None
    }
}

// Whether a cell is this piece of this pointer.
#[inline(always)]
fn is_piece(cell: Cell, bits: u32, of: u32, j: u8) -> bool
    ensures { IsTrue result → cell ≡ One.Frag bits of j }
{
    match cell {
        Cell::Frag { whole, tag, k } => whole == bits && tag == of && k == j,
        _ => false,
    }
}

/// The cells of a whole word.
#[inline(always)]
pub fn cells_of_word(w: Word) -> [Cell; 4]
    ensures { result ≡ whole_cells w }
{
    if w.tag == 0 {
        [
            Cell::Byte((w.bits % 256) as u8),
            Cell::Byte((w.bits / 256 % 256) as u8),
            Cell::Byte((w.bits / 65536 % 256) as u8),
            Cell::Byte((w.bits / 16777216 % 256) as u8),
        ]
    } else {
        [piece(w, 0), piece(w, 1), piece(w, 2), piece(w, 3)]
    }
}

#[inline(always)]
fn piece(w: Word, k: u8) -> Cell
    ensures { result ≡ One.Frag w.bits w.tag k }
{
    Cell::Frag {
        whole: w.bits,
        tag: w.tag,
        k,
    }
}
