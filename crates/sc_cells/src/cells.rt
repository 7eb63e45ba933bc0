// A list of cells of a fixed length.
ghost use Rattle.std.specs.Prelude.{◌≡◌, ◌+◌, ◌<◌, ◌≤◌, length, replicate, slice_get, slice_set, IfOk, IfSome, MatchResult, Some};
ghost use Rattle.sc_base.specs.declared.memory.Cell.{Cell as One};
ghost use Rattle.sc_cells.specs.Pages.{whole_cells};
ghost use Rattle.sc_cells.specs.Range.{range_of, with_range};

use crate::page::{PAGE, Page};
use crate::pages::{
    blank_pages, cell_at, copy_cells, wipe, word_at, write_cell, write_cells, write_word,
};
use sc_base::{Cell, NoMemory, Word};
use std::alloc::Global;
use std::marker::Model;

/// As many cells as were asked for, seen as the list of them. What writes cells may answer want of memory, and changes
/// nothing then; what reads or clears them never does. They stand in pages of 4,096, and a page is taken when it is
/// first written. A cell takes 4 bytes, and 16 more in a page that holds pieces of pointers which are parts of no one word.
#[derive(Drop)]
pub struct Cells {
    alloc: Global,
    size: usize,
    pages: Vec<Page>,
}

impl Model for Cells {
    ghost use Rattle.std.specs.Prelude.{◌<◌, ◌^◌, List};
    ghost use Rattle.sc_base.specs.declared.memory.Cell.{Cell};
    ghost use Rattle.sc_cells.specs.Pages.{IsPaged, cells_in};

    ghost Value = { List Cell };

    ghost view = { λ c. cells_in c.size c.pages.items };

    ghost invariant = { λ c. IsPaged c.pages.items c.size };
}

impl Cells {
    /// This many cells, none of them written, and no page taken.
    #[tactic(auto, using(crate::proofs::Paged::blank_cells, crate::proofs::Paged::blank_paged))]
    pub fn new(alloc: Global, size: u32) -> Result<Cells, NoMemory>
        ensures { IfOk result (λ cells. cells ≡ replicate size One.Unwritten) }
    {
        let size = size as usize;
        let pages = blank_pages(alloc, size / PAGE + 1)?;
        Ok(Cells { alloc, size, pages })
    }

    /// The cell at a place, counted from 0.
    #[inline(always)]
    pub fn read(&self, at: u32) -> Cell
        requires { at < length self.now }
        ensures { slice_get self.now at ≡ Some result }
    {
        cell_at(self.pages.as_slice(), at as usize)
    }

    /// The whole word that the four cells from a place on are: the bytes of a number, or the pieces of a pointer. It may
    /// answer `None` where they are one, too, as where the place is no multiple of 4.
    #[inline(always)]
    pub fn word(&self, at: u32) -> Option<Word>
        requires { at + 4 ≤ length self.now }
        ensures { IfSome result (λ w. range_of self.now at 4 ≡ whole_cells w) }
    {
        word_at(self.pages.as_slice(), at as usize)
    }

    /// Puts another cell at a place.
    pub fn write(&mut self, at: u32, c: Cell) -> Result<(), NoMemory>
        requires { at < length self.old }
        ensures { MatchResult result (λ _. self.new ≡ slice_set self.old at c) (λ _. self.new ≡ self.old) }
    {
        write_cell(self.alloc, &mut self.pages, at as usize, c)
    }

    /// Puts other cells at the places from `at` on, all of them or none.
    pub fn write_row(&mut self, at: u32, row: &[Cell]) -> Result<(), NoMemory>
        requires { at + length row.now ≤ length self.old }
        ensures cells { MatchResult result (λ _. self.new ≡ with_range self.old at row.now) (λ _. self.new ≡ self.old) }
        ensures len { length self.new ≡ length self.old }
    {
        write_cells(self.alloc, &mut self.pages, at as usize, row)
    }

    /// Puts the four cells of a whole word at the places from `at` on, all of them or none.
    #[inline(always)]
    pub fn put_word(&mut self, at: u32, w: Word) -> Result<(), NoMemory>
        requires { at + 4 ≤ length self.old }
        ensures cells { MatchResult result (λ _. self.new ≡ with_range self.old at (whole_cells w)) (λ _. self.new ≡ self.old) }
        ensures len { length self.new ≡ length self.old }
    {
        write_word(self.alloc, &mut self.pages, at as usize, w)
    }

    /// Copies the `n` cells from `from` on to the places from `to` on, as if by way of another place.
    pub fn copy(&mut self, to: u32, from: u32, n: u32) -> Result<(), NoMemory>
        requires target { to + n ≤ length self.old }
        requires source { from + n ≤ length self.old }
        ensures cells { MatchResult result (λ _. self.new ≡ with_range self.old to (range_of self.old from n)) (λ _. self.new ≡ self.old) }
        ensures len { length self.new ≡ length self.old }
    {
        copy_cells(
            self.alloc,
            &mut self.pages,
            to as usize,
            from as usize,
            n as usize,
        )
    }

    /// Makes the `n` cells from `at` on unwritten. No page is taken.
    pub fn clear(&mut self, at: u32, n: u32)
        requires { at + n ≤ length self.old }
        ensures cells { self.new ≡ with_range self.old at (replicate n One.Unwritten) }
        ensures len { length self.new ≡ length self.old }
    {
        wipe(&mut self.pages, at as usize, n as usize);
    }
}
