// Cells in pages, of which those that nothing was written to take no room.
ghost use Rattle.std.specs.Prelude.{◌≡◌, ℕ, ◌+◌, ◌*◌, ◌/◌, ◌%◌, ◌<◌, ◌≤◌, ◌^◌, ◌⊎◌, ◌∷◌, [], List, length, replicate, slice_index_or, slice_set, IfOk, IfSome, IsTrue, MatchResult, OnOk};
ghost use Rattle.sc_base.specs.declared.memory.Cell.{Cell as One};
ghost use Rattle.sc_cells.specs.Pages.{AreRoomy, Grows, IsPaged, IsRoomy, IsTaken, Rewritten, SameShape, Sheet, at_place, blank, cells_in, four_in, four_set, page_of, set_page, set_place, sheet_of, untaken, whole_cells, with_cells, with_page};
ghost use Rattle.sc_cells.specs.Range.{range_of, with_range};

use crate::page::{PAGE, Page, cells_of_word};
use sc_base::{Cell, NoMemory, Word};
use std::alloc::Global;

/// This many pages, none of them taken.
pub fn blank_pages(alloc: Global, count: usize) -> Result<Vec<Page>, NoMemory>
    ensures { IfOk result (λ pages. pages.items ≡ replicate count untaken) }
{
    let mut pages = Vec::with_capacity(alloc, count)?;
    'making: for n in 0..count {
        pages.push(Page::new(alloc))?;
    }
    Ok(pages)
}

/// The cell at a place.
#[inline(always)]
pub fn cell_at(pages: &[Page], i: usize) -> Cell
    ensures { result ≡ at_place pages.now i }
{
    match pages.get(i / PAGE) {
        Some(page) => page.cell(i % PAGE),
        None => Cell::Unwritten,
    }
}

// A cell of a row.
#[inline(always)]
fn cell_of(row: &[Cell], j: usize) -> Cell
    ensures { result ≡ slice_index_or row.now j One.Unwritten }
{
    match row.get(j) {
        Some(cell) => *cell,
        None => Cell::Unwritten,
    }
}

/// Puts another cell at a place of a page that has room for it.
#[inline(always)]
pub fn put_at(pages: &mut Vec<Page>, i: usize, c: Cell)
    requires inside { i / 8192 < length pages.old.items }
    requires roomy { IsRoomy pages.old.items (i / 8192) }
    ensures { pages.new.items ≡ set_place pages.old.items i c }
{
    put_in(&mut pages[i / PAGE], i % PAGE, c);
}

#[inline(always)]
fn put_in(page: &mut Page, j: usize, c: Cell)
    requires inside { j < length page.old.cells }
    requires room { page.old.room ≡ length page.old.cells }
    ensures { page.new ≡ with_cells page.old (slice_set page.old.cells j c) }
{
    page.set(j, c);
}

#[inline(always)]
fn wipe_in(page: &mut Page, j: usize)
    requires { j < length page.old.cells }
    ensures { page.new ≡ with_cells page.old (slice_set page.old.cells j One.Unwritten) }
{
    page.wipe(j);
}

// How many cells a page has.
#[inline(always)]
fn page_len(pages: &[Page], p: usize) -> usize
    ensures { result ≡ length (page_of pages.now p) }
{
    match pages.get(p) {
        Some(page) => page.len(),
        None => 0,
    }
}

/// Takes a page, where it was not.
#[inline(always)]
pub fn take_page(alloc: Global, pages: &mut Vec<Page>, p: usize) -> Result<(), NoMemory>
    requires { p < length pages.old.items }
    ensures { MatchResult result (λ _. pages.new.items ≡ with_page pages.old.items p) (λ _. pages.new.items ≡ pages.old.items) }
{
    if pages[p].is_empty() {
        fill_page(alloc, &mut pages[p])
    } else {
        Ok(())
    }
}

#[inline(never)]
fn fill_page(alloc: Global, page: &mut Page) -> Result<(), NoMemory>
    ensures { MatchResult result (λ _. page.new ≡ blank) (λ _. page.new ≡ page.old) }
{
    *page = Page::blank(alloc)?;
    Ok(())
}

// Takes a page, and room for whatever is put into it.
fn take_roomy(alloc: Global, pages: &mut Vec<Page>, p: usize) -> Result<(), NoMemory>
    requires inside { p < length pages.old.items }
    requires whole { (length (page_of pages.old.items p) ≡ 0) ⊎ IsTaken pages.old.items p }
    ensures grows { Grows pages.old.items pages.new.items }
    ensures roomy { OnOk result (IsRoomy pages.new.items p) }
{
    take_page(alloc, pages, p)?;
    make_room(alloc, &mut pages[p])
}

fn make_room(alloc: Global, page: &mut Page) -> Result<(), NoMemory>
    ensures { MatchResult result (λ _. (page.new.cells ≡ page.old.cells) × (page.new.room ≡ length page.old.cells)) (λ _. page.new ≡ page.old) }
{
    page.make_room(alloc)
}

/// Takes the pages of the `n` cells from a place on, and room for whatever is put there.
pub fn take_pages(alloc: Global, pages: &mut Vec<Page>, at: usize, n: usize) -> Result<(), NoMemory>
    requires inside { at + n ≤ 8192 * length pages.old.items }
    requires small { at + n < 2 ^ 62 }
    requires whole { (p : ℕ) → (length (page_of pages.old.items p) ≡ 0) ⊎ IsTaken pages.old.items p }
    ensures grows { Grows pages.old.items pages.new.items }
    ensures roomy { OnOk result (AreRoomy pages.new.items at n) }
{
    let first = at / PAGE;
    let end = if n == 0 {
        first
    } else {
        (at + n - 1) / PAGE + 1
    };
    take_from(alloc, pages, first, end)
}

fn take_from(alloc: Global, pages: &mut Vec<Page>, first: usize, end: usize) -> Result<(), NoMemory>
    requires order { first ≤ end }
    requires inside { end ≤ length pages.old.items }
    requires whole { (p : ℕ) → (length (page_of pages.old.items p) ≡ 0) ⊎ IsTaken pages.old.items p }
    ensures grows { Grows pages.old.items pages.new.items }
    ensures roomy { OnOk result ((p : ℕ) → first ≤ p → p < end → IsRoomy pages.new.items p) }
{
    'taking: for p in first..end {
        take_roomy(alloc, pages, p)?;
    }
    Ok(())
}

/// Puts cells at the places from `at` on, whose pages have room for them.
pub fn put_row(pages: &mut Vec<Page>, at: usize, row: &[Cell])
    requires inside { at + length row.now ≤ 8192 * length pages.old.items }
    requires small { at + length row.now < 2 ^ 62 }
    requires roomy { AreRoomy pages.old.items at (length row.now) }
    ensures { Rewritten pages.old.items pages.new.items (at + length row.now) at (λ _. row.now) }
{
    'putting: for k in 0..row.len() {
        put_at(pages, at + k, cell_of(row, k));
    }
}

/// Copies from the lowest cell on, for a target that does not begin above its source.
pub fn copy_upward(pages: &mut Vec<Page>, to: usize, from: usize, n: usize)
    requires below { to ≤ from }
    requires inside { from + n ≤ 8192 * length pages.old.items }
    requires small { from + n < 2 ^ 62 }
    requires roomy { AreRoomy pages.old.items to n }
    ensures { Rewritten pages.old.items pages.new.items (from + n) to (λ all. range_of all from n) }
{
    'copying: for k in 0..n {
        let c = cell_at(pages.as_slice(), from + k);
        put_at(pages, to + k, c);
    }
}

/// Copies from the highest cell down, for a target that does not begin below its source.
pub fn copy_downward(pages: &mut Vec<Page>, to: usize, from: usize, n: usize)
    requires above { from ≤ to }
    requires inside { to + n ≤ 8192 * length pages.old.items }
    requires small { to + n < 2 ^ 62 }
    requires roomy { AreRoomy pages.old.items to n }
    ensures { Rewritten pages.old.items pages.new.items (to + n) to (λ all. range_of all from n) }
{
    'copying: for k in (0..n).rev() {
        let c = cell_at(pages.as_slice(), from + k);
        put_at(pages, to + k, c);
    }
}

/// Makes the `n` cells from a place on unwritten, and takes no page.
pub fn wipe(pages: &mut Vec<Page>, at: usize, n: usize)
    requires inside { at + n ≤ 8192 * length pages.old.items }
    requires small { at + n < 2 ^ 62 }
    requires whole { (p : ℕ) → (length (page_of pages.old.items p) ≡ 0) ⊎ IsTaken pages.old.items p }
    ensures { Rewritten pages.old.items pages.new.items (at + n) at (λ _. replicate n One.Unwritten) }
{
    let mut k = 0;
    'wiping: while k < n {
        k = wipe_some(pages, at, k, n);
    }
}

// Makes more of them unwritten, of which the first k are: all that a page has of them if it was not taken, the four of a word, or one.
#[inline(always)]
fn wipe_some(pages: &mut Vec<Page>, at: usize, k: usize, n: usize) -> usize
    requires more { k < n }
    requires inside { at + n ≤ 8192 * length pages.old.items }
    requires small { at + n < 2 ^ 62 }
    requires whole { (length (page_of pages.old.items ((at + k) / 8192)) ≡ 0) ⊎ IsTaken pages.old.items ((at + k) / 8192) }
    ensures more { k < result }
    ensures most { result ≤ n }
    ensures wiped { (first : List Sheet) → Rewritten first pages.old.items (at + n) at (λ _. replicate k One.Unwritten) → Rewritten first pages.new.items (at + n) at (λ _. replicate result One.Unwritten) }
{
    let p = (at + k) / PAGE;
    let j = (at + k) % PAGE;
    let len = page_len(pages.as_slice(), p);
    if len == 0 {
        return k + least(PAGE - j, n - k);
    }
    if j % 4 == 0 && k + 4 <= n {
        wipe_four_in(&mut pages[p], j);
        return k + 4;
    }
    wipe_in(&mut pages[p], j);
    k + 1
}

fn least(a: usize, b: usize) -> usize
    ensures a { result ≤ a }
    ensures b { result ≤ b }
    ensures one { (result ≡ a) ⊎ (result ≡ b) }
{
    if a < b { a } else { b }
}

#[inline(always)]
fn wipe_four_in(page: &mut Page, j: usize)
    requires aligned { j % 4 ≡ 0 }
    requires inside { j < length page.old.cells }
    ensures { page.new ≡ with_cells page.old (four_set page.old.cells j One.Unwritten One.Unwritten One.Unwritten One.Unwritten) }
{
    page.wipe_four(j);
}

/// Puts cells at the places from `at` on. Where memory runs out all cells stay as they are.
pub fn write_cells(
    alloc: Global,
    pages: &mut Vec<Page>,
    at: usize,
    row: &[Cell],
) -> Result<(), NoMemory>
    requires inside { at + length row.now ≤ 8192 * length pages.old.items }
    requires small { at + length row.now < 2 ^ 62 }
    requires whole { (p : ℕ) → (length (page_of pages.old.items p) ≡ 0) ⊎ IsTaken pages.old.items p }
    ensures paged { (size : ℕ) → IsPaged pages.old.items size → IsPaged pages.new.items size }
    ensures cells { (size : ℕ) → at + length row.now ≤ size → MatchResult result (λ _. cells_in size pages.new.items ≡ with_range (cells_in size pages.old.items) at row.now) (λ _. cells_in size pages.new.items ≡ cells_in size pages.old.items) }
{
    match row {
        [c] => write_cell(alloc, pages, at, *c),
        [a, b] => {
            if at % 4 < 3 {
                write_two(alloc, pages, at, *a, *b)
            } else {
                write_any(alloc, pages, at, row)
            }
        }
        _ => write_any(alloc, pages, at, row),
    }
}

// The same for a row of cells of several words, which gets room first.
#[inline(never)]
fn write_any(alloc: Global, pages: &mut Vec<Page>, at: usize, row: &[Cell]) -> Result<(), NoMemory>
    requires inside { at + length row.now ≤ 8192 * length pages.old.items }
    requires small { at + length row.now < 2 ^ 62 }
    requires whole { (p : ℕ) → (length (page_of pages.old.items p) ≡ 0) ⊎ IsTaken pages.old.items p }
    ensures paged { (size : ℕ) → IsPaged pages.old.items size → IsPaged pages.new.items size }
    ensures cells { (size : ℕ) → at + length row.now ≤ size → MatchResult result (λ _. cells_in size pages.new.items ≡ with_range (cells_in size pages.old.items) at row.now) (λ _. cells_in size pages.new.items ≡ cells_in size pages.old.items) }
{
    match take_pages(alloc, pages, at, row.len()) {
        Ok(()) => {
            put_row(pages, at, row);
            Ok(())
        }
        Err(e) => Err(e),
    }
}

/// Takes the page of a cell and puts another one there. Where memory runs out all cells stay as they are.
pub fn write_cell(alloc: Global, pages: &mut Vec<Page>, at: usize, c: Cell) -> Result<(), NoMemory>
    requires inside { at + 1 ≤ 8192 * length pages.old.items }
    requires small { at + 1 < 2 ^ 62 }
    requires whole { (p : ℕ) → (length (page_of pages.old.items p) ≡ 0) ⊎ IsTaken pages.old.items p }
    ensures paged { (size : ℕ) → IsPaged pages.old.items size → IsPaged pages.new.items size }
    ensures cells { (size : ℕ) → at + 1 ≤ size → MatchResult result (λ _. cells_in size pages.new.items ≡ with_range (cells_in size pages.old.items) at (c ∷ [])) (λ _. cells_in size pages.new.items ≡ cells_in size pages.old.items) }
{
    take_page(alloc, pages, at / PAGE)?;
    write_in(alloc, &mut pages[at / PAGE], at % PAGE, c)
}

#[inline(always)]
fn write_in(alloc: Global, page: &mut Page, j: usize, c: Cell) -> Result<(), NoMemory>
    requires { j < length page.old.cells }
    ensures { MatchResult result (λ _. page.new.cells ≡ slice_set page.old.cells j c) (λ _. page.new ≡ page.old) }
{
    page.write(alloc, j, c)
}

// The same for two cells of one word.
fn write_two(
    alloc: Global,
    pages: &mut Vec<Page>,
    at: usize,
    a: Cell,
    b: Cell,
) -> Result<(), NoMemory>
    requires inside { at + 2 ≤ 8192 * length pages.old.items }
    requires near { at % 4 < 3 }
    requires whole { (p : ℕ) → (length (page_of pages.old.items p) ≡ 0) ⊎ IsTaken pages.old.items p }
    ensures paged { (size : ℕ) → IsPaged pages.old.items size → IsPaged pages.new.items size }
    ensures cells { (size : ℕ) → at + 2 ≤ size → MatchResult result (λ _. cells_in size pages.new.items ≡ with_range (cells_in size pages.old.items) at (a ∷ b ∷ [])) (λ _. cells_in size pages.new.items ≡ cells_in size pages.old.items) }
{
    take_page(alloc, pages, at / PAGE)?;
    write_two_in(alloc, &mut pages[at / PAGE], at % PAGE, a, b)
}

#[inline(always)]
fn write_two_in(alloc: Global, page: &mut Page, j: usize, a: Cell, b: Cell) -> Result<(), NoMemory>
    requires inside { j < length page.old.cells }
    requires near { j % 4 < 3 }
    ensures { MatchResult result (λ _. page.new.cells ≡ slice_set (slice_set page.old.cells j a) (j + 1) b) (λ _. page.new ≡ page.old) }
{
    page.write_two(alloc, j, a, b)
}

/// Takes the pages of a target and copies cells there. Where memory runs out all cells stay as they are.
pub fn copy_cells(
    alloc: Global,
    pages: &mut Vec<Page>,
    to: usize,
    from: usize,
    n: usize,
) -> Result<(), NoMemory>
    requires target { to + n ≤ 8192 * length pages.old.items }
    requires source { from + n ≤ 8192 * length pages.old.items }
    requires small { to + n < 2 ^ 62 }
    requires low { from + n < 2 ^ 62 }
    requires whole { (p : ℕ) → (length (page_of pages.old.items p) ≡ 0) ⊎ IsTaken pages.old.items p }
    ensures paged { (size : ℕ) → IsPaged pages.old.items size → IsPaged pages.new.items size }
    ensures cells { (size : ℕ) → to + n ≤ size → from + n ≤ size → MatchResult result (λ _. cells_in size pages.new.items ≡ with_range (cells_in size pages.old.items) to (range_of (cells_in size pages.old.items) from n)) (λ _. cells_in size pages.new.items ≡ cells_in size pages.old.items) }
{
    match take_pages(alloc, pages, to, n) {
        Ok(()) => {
            copy_taken(pages, to, from, n);
            Ok(())
        }
        Err(e) => Err(e),
    }
}

fn copy_taken(pages: &mut Vec<Page>, to: usize, from: usize, n: usize)
    requires target { to + n ≤ 8192 * length pages.old.items }
    requires source { from + n ≤ 8192 * length pages.old.items }
    requires small { to + n < 2 ^ 62 }
    requires low { from + n < 2 ^ 62 }
    requires roomy { AreRoomy pages.old.items to n }
    ensures shape { SameShape pages.old.items pages.new.items }
    ensures cells { (size : ℕ) → to + n ≤ size → from + n ≤ size → cells_in size pages.new.items ≡ with_range (cells_in size pages.old.items) to (range_of (cells_in size pages.old.items) from n) }
{
    if to <= from {
        copy_upward(pages, to, from, n);
    } else {
        copy_downward(pages, to, from, n);
    }
}

/// Puts the cells of a whole word at the four places from `at` on, and takes their pages. Where memory runs out all
/// cells stay as they are.
#[inline(always)]
pub fn write_word(alloc: Global, pages: &mut Vec<Page>, at: usize, w: Word) -> Result<(), NoMemory>
    requires inside { at + 4 ≤ 8192 * length pages.old.items }
    requires small { at + 4 < 2 ^ 62 }
    requires whole { (p : ℕ) → (length (page_of pages.old.items p) ≡ 0) ⊎ IsTaken pages.old.items p }
    ensures paged { (size : ℕ) → IsPaged pages.old.items size → IsPaged pages.new.items size }
    ensures cells { (size : ℕ) → at + 4 ≤ size → MatchResult result (λ _. cells_in size pages.new.items ≡ with_range (cells_in size pages.old.items) at (whole_cells w)) (λ _. cells_in size pages.new.items ≡ cells_in size pages.old.items) }
{
    if at % 4 == 0 {
        write_aligned(alloc, pages, at, w)
    } else {
        write_any(alloc, pages, at, &cells_of_word(w))
    }
}

#[inline(always)]
fn write_aligned(alloc: Global, pages: &mut Vec<Page>, at: usize, w: Word) -> Result<(), NoMemory>
    requires inside { at + 4 ≤ 8192 * length pages.old.items }
    requires aligned { at % 4 ≡ 0 }
    requires whole { (p : ℕ) → (length (page_of pages.old.items p) ≡ 0) ⊎ IsTaken pages.old.items p }
    ensures paged { (size : ℕ) → IsPaged pages.old.items size → IsPaged pages.new.items size }
    ensures cells { (size : ℕ) → at + 4 ≤ size → MatchResult result (λ _. cells_in size pages.new.items ≡ with_range (cells_in size pages.old.items) at (whole_cells w)) (λ _. cells_in size pages.new.items ≡ cells_in size pages.old.items) }
{
    take_page(alloc, pages, at / PAGE)?;
    put_word_at(pages, at, w);
    Ok(())
}

#[inline(always)]
fn page_at(pages: &[Page], p: usize) -> &Page
    requires { p < length pages.now }
    ensures { result.now ≡ sheet_of pages.now p }
{
    &pages[p]
}

// Puts the cells of a whole word in a page that was taken.
#[inline(always)]
fn put_word_at(pages: &mut Vec<Page>, i: usize, w: Word)
    requires inside { i + 4 ≤ 8192 * length pages.old.items }
    requires aligned { i % 4 ≡ 0 }
    requires taken { IsTaken pages.old.items (i / 8192) }
    ensures { pages.new.items ≡ set_page pages.old.items (i / 8192) (four_in (page_of pages.old.items (i / 8192)) (i % 8192) (whole_cells w)) }
{
    put_word_in(&mut pages[i / PAGE], i % PAGE, w);
}

#[inline(always)]
fn put_word_in(page: &mut Page, j: usize, w: Word)
    requires aligned { j % 4 ≡ 0 }
    requires inside { j < length page.old.cells }
    ensures { page.new ≡ with_cells page.old (four_in page.old.cells j (whole_cells w)) }
{
    page.put_word(j, w);
}

/// The whole word that the four cells from a place on are, where they stand as one.
#[inline(always)]
pub fn word_at(pages: &[Page], i: usize) -> Option<Word>
    requires { i / 8192 < length pages.now }
    ensures { (size : ℕ) → i + 4 ≤ size → IfSome result (λ w. range_of (cells_in size pages.now) i 4 ≡ whole_cells w) }
{
    page_at(pages, i / PAGE).word(i % PAGE)
}
