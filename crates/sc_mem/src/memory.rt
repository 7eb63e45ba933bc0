// One memory: its cells by address, its objects by number, and its heap.
ghost use Rattle.std.specs.Prelude.{◌≡◌, ◌⊎◌, ◌↔◌, ℕ, ◌+◌, ◌-◌, ◌<◌, ◌≤◌, length, OnErr, Err, [], replicate, IfOk, MatchOption, MatchResult, IfSome, IsSome, Some, None, pos};
ghost use Rattle.sc_base.specs.declared.note.Note.TheVariants.{Start, Put, Birth, Death, Copy};
ghost use Rattle.sc_mem.specs.Words.{IsSize, IsWritten};
ghost use Rattle.sc_objects.specs.declared.objects.Obj.{Obj};
ghost use Rattle.sc_objects.specs.Numbered.{IsLive};
ghost use Rattle.sc_objects.specs.Blocks.{Blocks};
ghost use Rattle.sc_mem.specs.Safe.{Stands};
ghost use Rattle.std.specs.Prelude.{IsTrue};

use crate::access::{constant, reach, rule_in};
use crate::areas::{HEAP, STACK_END, STATIC_BYTES, near_place, place};
use crate::arithmetic::{moved, offset};
use crate::comparison::{difference, equality, freeing, order, ordering, overlap, truth};
use crate::fault::StoreFault;
use crate::words::{load_word, store_word, written_word};
use sc_base::{Cell, Kind, NoMemory, Rule, Word};
use sc_cells::Cells;
use sc_objects::{BirthFault, Heap, Obj, Objects};
use std::alloc::Global;
use std::cmp::Ordering;
use std::marker::Model;

/// The memory of a run: the cells of the static area, the heap and the stack, all objects by number, and the heap's
/// blocks. Each live object lies in an area, with a byte between any two, and each allocated one in a taken block.
#[derive(Drop)]
pub struct Memory {
    heap_bytes: u32,
    stack: u32,
    cells: Cells,
    objects: Objects,
    heap: Heap,
}

impl Model for Memory {
    ghost use Rattle.sc_mem.specs.Safe.{Store};

    ghost Value = { Store };

    ghost use Rattle.sc_mem.specs.Safe.{store_of, IsSafe};

    ghost view = { λ m. store_of m.heap_bytes m.stack m.cells m.objects m.heap };

    ghost invariant = { λ m. IsSafe (store_of m.heap_bytes m.stack m.cells m.objects m.heap) };
}

impl Memory {
    ghost use Rattle.sc_objects.specs.Numbered.{IsObjectAt, object_of};
    ghost use Rattle.sc_mem.specs.Flat.{Flat, aligned_place, apply, cells_at, fresh, place as place_of, raw_read};
    ghost use Rattle.sc_mem.specs.Safe.{IsSafe};

    /// A memory with stack and heap of these sizes in bytes, in which nothing lives and no cell is written, as after the
    /// note `Start`.
    pub fn new(alloc: Global, stack: u32, heap: u32) -> Result<Memory, NoMemory>
        requires stack { stack ≤ 16777216 }
        requires heap { heap ≤ 67108864 }
        ensures flat { IfOk result (λ m. m.flat ≡ fresh stack heap) }
        ensures start { IfOk result (λ m. (before : Flat) → m.flat ≡ apply before (Start stack heap)) }
        ensures blocks { IfOk result (λ m. m.blocks ≡ record { bytes = heap; used = 0; taken = []; free = replicate 29 [] }) }
    {
        let cells = Cells::new(alloc, STATIC_BYTES + heap + stack)?;
        let objects = Objects::new(alloc)?;
        let blocks = Heap::new(alloc, heap)?;
        Ok(Memory {
            heap_bytes: heap,
            stack,
            cells,
            objects,
            heap: blocks,
        })
    }

    /// What the `size` bytes at an address hold, without a test: `None` exactly outside the areas and where the
    /// address is no multiple of the size. An unwritten cell reads as 0, a pointer's piece as its byte, and only the
    /// four pieces of one pointer have a tag.
    #[inline(always)]
    pub fn raw_load(&self, at: u32, size: u8) -> Option<Word>
        requires { IsSize size }
        ensures { result ≡ raw_read self.now.flat at size }
    {
        let cells = &self.cells;
        if at % u32::from(size) != 0 {
            return None;
        }
        match near_place(self.heap_bytes, self.stack, at, u32::from(size)) {
            None => None,
            Some(i) => Some(load_word(cells, i, size)),
        }
    }

    /// The word in the `n` bytes at an address, where all of them are bytes of a number, or the four pieces of one pointer. It may
    /// answer `None` where they are.
    #[inline(always)]
    #[tactic(auto, using(crate::proofs::Written::placed_written))]
    pub fn written(&self, at: u32, n: u32) -> Option<Word>
        ensures { IfSome result (λ w. IsSome (place_of self.now.flat at n) × IsWritten (cells_at self.now.flat at n) w) }
    {
        let cells = &self.cells;
        match near_place(self.heap_bytes, self.stack, at, n) {
            None => None,
            Some(i) => match written_word(cells, i, n) {
                Some(word) => Some(word),
                None => None,
            },
        }
    }

    /// Writes the `size` bytes at an address, without a test, as the note `Put` does: `None` exactly outside the
    /// areas and where the address is no multiple of the size. Nothing is changed then, nor where memory runs out.
    #[inline(always)]
    pub fn raw_store(&mut self, at: u32, size: u8, w: Word) -> Result<Option<()>, NoMemory>
        requires { IsSize size }
        ensures { MatchResult result (λ done. MatchOption done ((aligned_place self.old.flat at size ≡ None) × (self.new ≡ self.old)) (λ _. IsSome (aligned_place self.old.flat at size) × (self.new.flat ≡ apply self.old.flat (Put at size w)) × (self.new.blocks ≡ self.old.blocks))) (λ _. IsSome (aligned_place self.old.flat at size) × (self.new ≡ self.old)) }
    {
        if at % u32::from(size) != 0 {
            return Ok(None);
        }
        let Some(i) = near_place(self.heap_bytes, self.stack, at, u32::from(size)) else {
            return Ok(None);
        };
        store_word(&mut self.cells, i, size, w)?;
        Ok(Some(()))
    }

    /// Copies `n` cells as they are, without a test and as if by way of another place, as the note `Copy` does:
    /// `None` exactly where one of the two ranges is outside the areas. Nothing is changed then, nor where memory runs
    /// out.
    pub fn raw_copy(&mut self, to: u32, from: u32, n: u32) -> Result<Option<()>, NoMemory>
        ensures none { MatchResult result (λ done. MatchOption done ((place_of self.old.flat to n ≡ None) ⊎ (place_of self.old.flat from n ≡ None)) (λ _. IsSome (place_of self.old.flat to n) × IsSome (place_of self.old.flat from n))) (λ _. IsSome (place_of self.old.flat to n) × IsSome (place_of self.old.flat from n)) }
        ensures copy { MatchResult result (λ done. MatchOption done (self.new ≡ self.old) (λ _. (self.new.flat ≡ apply self.old.flat (Copy to from n)) × (self.new.blocks ≡ self.old.blocks))) (λ _. self.new ≡ self.old) }
    {
        let Some(to) = place(self.heap_bytes, self.stack, to, n) else {
            return Ok(None);
        };
        let Some(from) = place(self.heap_bytes, self.stack, from, n) else {
            return Ok(None);
        };
        self.cells.copy(to, from, n)?;
        Ok(Some(()))
    }

    /// The object with a number: `None` exactly for a number that is not born.
    pub fn find(&self, id: u32) -> Option<Obj>
        ensures object { result ≡ object_of self.now.flat.objects id }
        ensures safe { IsSafe self.now }
    {
        self.objects.find(id)
    }

    /// The number of the one live object with `base <= address <= base + size`.
    pub fn at(&self, address: u32) -> Option<u32>
        ensures object { IsObjectAt self.now.flat.objects address result }
        ensures safe { IsSafe self.now }
    {
        self.objects.at(address)
    }
}

impl Memory {
    ghost use Rattle.sc_mem.specs.Flat.{Flat, apply, cells_at};
    ghost use Rattle.sc_mem.specs.Words.{word_of};
    ghost use Rattle.sc_mem.specs.Faults.{IsFaultOf};
    ghost use Rattle.sc_mem.specs.Violations.{copy_rule, load_rule, offset_in, shift_rule, store_rule, target};

    /// A checked load of 1, 2 or 4 bytes through a pointer, of a pointer or of a number: the first of U4, U3, U2,
    /// U10, U1 and U15 that it breaks, else what the bytes hold.
    pub fn load(&self, p: Word, size: u8, pointer: bool) -> Result<Word, Rule>
        requires { IsSize size }
        ensures { MatchResult result (λ w. (load_rule self.now.flat p size pointer ≡ None) × (w ≡ word_of (cells_at self.now.flat p.bits size))) (λ rule. load_rule self.now.flat p size pointer ≡ Some rule) }
    {
        let n = u32::from(size);
        if let Some(rule) = reach(&self.objects, p, n) {
            return Err(rule);
        }
        if p.bits % n != 0 {
            return Err(Rule::U10);
        }
        // An object lies in an area, so its bytes have a place.
        let Some(i) = place(self.heap_bytes, self.stack, p.bits, n) else {
            return Ok(Word { bits: 0, tag: 0 });
        };
        match rule_in(&self.cells, i, size, pointer) {
            Some(rule) => Err(rule),
            None => Ok(load_word(&self.cells, i, size)),
        }
    }

    /// A pointer plus `n` elements of `size` bytes: the first of U15, U3 and U5 that it breaks, else the pointer to
    /// that place, in the same object. Null plus 0 is null.
    pub fn shift(&self, p: Word, n: i64, size: u32) -> Result<Word, Rule>
        ensures { MatchResult result (λ w. (shift_rule self.now.flat p n size ≡ None) × (pos (offset_in self.now.flat.objects w) ≡ target (offset_in self.now.flat.objects p) n size) × (w.tag ≡ p.tag)) (λ rule. shift_rule self.now.flat p n size ≡ Some rule) }
    {
        let objects = &self.objects;
        if p.tag == 0 {
            return if p.bits != 0 {
                Err(Rule::U15)
            } else if n < 0 || 0 < n {
                Err(Rule::U5)
            } else {
                Ok(p)
            };
        }
        let Some(object) = objects.find(p.tag) else {
            return Err(Rule::U5);
        };
        if !object.live {
            return Err(Rule::U3);
        }
        match moved(offset(objects, p), n, size, object.size) {
            Some(further) => Ok(Word {
                bits: object.base + further,
                tag: p.tag,
            }),
            None => Err(Rule::U5),
        }
    }

    /// A checked store of 1, 2 or 4 bytes through a pointer, as the note `Put` does it: the first of U4, U3, U2, U10
    /// and U11 that it breaks. After a fault nothing is changed.
    pub fn store(&mut self, p: Word, size: u8, w: Word) -> Result<(), StoreFault>
        requires { IsSize size }
        ensures rule { MatchResult result (λ _. store_rule self.old.flat p size ≡ None) (IsFaultOf (store_rule self.old.flat p size)) }
        ensures put { MatchResult result (λ _. (self.new.flat ≡ apply self.old.flat (Put p.bits size w)) × (self.new.blocks ≡ self.old.blocks)) (λ _. self.new ≡ self.old) }
    {
        let n = u32::from(size);
        if let Some(rule) = reach(&self.objects, p, n) {
            return Err(StoreFault::Broken(rule));
        }
        if p.bits % n != 0 {
            return Err(StoreFault::Broken(Rule::U10));
        }
        if constant(&self.objects, p) {
            return Err(StoreFault::Broken(Rule::U11));
        }
        self.put(p.bits, size, w)?;
        Ok(())
    }

    /// Writes an initial value where nothing is tested, as the note `Put` does it. Where memory runs out nothing is
    /// changed.
    pub fn init(&mut self, at: u32, size: u8, w: Word) -> Result<(), NoMemory>
        requires size { IsSize size }
        requires live { (id : ℕ) × (o : Obj) × IsLive self.old.flat.objects id o × (o.base ≤ at) × (at + size ≤ o.base + o.size) }
        ensures { MatchResult result (λ _. (self.new.flat ≡ apply self.old.flat (Put at size w)) × (self.new.blocks ≡ self.old.blocks)) (λ _. self.new ≡ self.old) }
    {
        self.put(at, size, w)
    }

    // The effect of `Put`, aligned or not.
    fn put(&mut self, at: u32, size: u8, w: Word) -> Result<(), NoMemory>
        requires { IsSize size }
        ensures { MatchResult result (λ _. (self.new.flat ≡ apply self.old.flat (Put at size w)) × (self.new.blocks ≡ self.old.blocks)) (λ _. self.new ≡ self.old) }
    {
        match place(self.heap_bytes, self.stack, at, u32::from(size)) {
            Some(i) => store_word(&mut self.cells, i, size, w),
            None => Ok(()),
        }
    }

    /// A checked copy of `n` cells from one pointer to another, as the note `Copy` does it: the first of U4, U3 and U2
    /// that the source breaks, then of U4, U3, U2 and U11 that the target breaks. After a fault nothing is changed.
    pub fn copy(&mut self, to: Word, from: Word, n: u32) -> Result<(), StoreFault>
        ensures rule { MatchResult result (λ _. copy_rule self.old.flat to from n ≡ None) (IsFaultOf (copy_rule self.old.flat to from n)) }
        ensures copy { MatchResult result (λ _. (self.new.flat ≡ apply self.old.flat (Copy to.bits from.bits n)) × (self.new.blocks ≡ self.old.blocks)) (λ _. self.new ≡ self.old) }
    {
        if let Some(rule) = reach(&self.objects, from, n) {
            return Err(StoreFault::Broken(rule));
        }
        if let Some(rule) = reach(&self.objects, to, n) {
            return Err(StoreFault::Broken(rule));
        }
        if constant(&self.objects, to) {
            return Err(StoreFault::Broken(Rule::U11));
        }
        self.move_cells(to.bits, from.bits, n)?;
        Ok(())
    }

    // The effect of `Copy`.
    fn move_cells(&mut self, to: u32, from: u32, n: u32) -> Result<(), NoMemory>
        ensures { MatchResult result (λ _. (self.new.flat ≡ apply self.old.flat (Copy to from n)) × (self.new.blocks ≡ self.old.blocks)) (λ _. self.new ≡ self.old) }
    {
        let source = place(self.heap_bytes, self.stack, from, n);
        let target = place(self.heap_bytes, self.stack, to, n);
        match (target, source) {
            (Some(target), Some(source)) => self.cells.copy(target, source, n),
            _ => Ok(()),
        }
    }
}

impl Memory {
    ghost use Rattle.sc_mem.specs.Violations.{reach_rule};
    ghost use Rattle.sc_mem.specs.Comparisons.{difference_rule, elements_of, equality_rule, free_rule, is_overlapping, is_same, order_of, order_rule, truth_of, truth_rule, write_rule};

    /// Whether a pointer is not null, or the first of U15 and U3 that the test breaks.
    pub fn truth(&self, p: Word) -> Result<bool, Rule>
        ensures { MatchResult result (λ is. (truth_rule self.now.flat.objects p ≡ None) × (is ≡ truth_of p)) (λ rule. truth_rule self.now.flat.objects p ≡ Some rule) }
    {
        match truth(&self.objects, p) {
            Some(rule) => Err(rule),
            None => Ok(p.bits != 0 || p.tag != 0),
        }
    }

    /// Whether two pointers are equal, or the first of U15 and U3 that the test breaks. Two pointers into different
    /// objects are never equal.
    pub fn equal(&self, p: Word, q: Word) -> Result<bool, Rule>
        ensures { MatchResult result (λ is. (equality_rule self.now.flat.objects p q ≡ None) × (is ≡ is_same p q)) (λ rule. equality_rule self.now.flat.objects p q ≡ Some rule) }
    {
        match equality(&self.objects, p, q) {
            Some(rule) => Err(rule),
            None => Ok(p.bits == q.bits && p.tag == q.tag),
        }
    }

    /// The order of two pointers into one object, or of null and null, or the first of U15, U3 and U6 that it breaks.
    pub fn order(&self, p: Word, q: Word) -> Result<Ordering, Rule>
        ensures { MatchResult result (λ is. (order_rule self.now.flat.objects p q ≡ None) × (is ≡ order_of self.now.flat.objects p q)) (λ rule. order_rule self.now.flat.objects p q ≡ Some rule) }
    {
        match order(&self.objects, p, q) {
            Some(rule) => Err(rule),
            None => Ok(ordering(&self.objects, p, q)),
        }
    }

    /// How many elements of `size` bytes lie from `q` to `p`, or the first of U15, U3, U6 and U5 that the difference
    /// breaks. Null minus null is 0.
    pub fn difference(&self, p: Word, q: Word, size: u32) -> Result<i64, Rule>
        requires { 0 < size }
        ensures { MatchResult result (λ n. (difference_rule self.now.flat.objects p q size ≡ None) × (n ≡ elements_of self.now.flat.objects p q size)) (λ rule. difference_rule self.now.flat.objects p q size ≡ Some rule) }
    {
        difference(&self.objects, p, q, size)
    }

    /// The first of U4, U3 and U2 that a read of `n` bytes breaks which tests neither alignment nor bytes.
    pub fn reads(&self, p: Word, n: u32) -> Option<Rule>
        ensures { result ≡ reach_rule self.now.flat.objects p n }
    {
        reach(&self.objects, p, n)
    }

    /// The first of U4, U3, U2 and U11 that a write of `n` bytes breaks which tests no alignment.
    pub fn writes(&self, p: Word, n: u32) -> Option<Rule>
        ensures { result ≡ write_rule self.now.flat.objects p n }
    {
        if let Some(rule) = reach(&self.objects, p, n) {
            return Some(rule);
        }
        if constant(&self.objects, p) {
            return Some(Rule::U11);
        }
        None
    }

    /// Whether `n` bytes from `p` on and `m` bytes from `q` on have a byte in common (U18).
    pub fn overlaps(&self, p: Word, n: u32, q: Word, m: u32) -> bool
        ensures { result ≡ is_overlapping self.now.flat.objects p n q m }
    {
        overlap(&self.objects, p, n, q, m)
    }

    /// U14, where a pointer is neither null nor the start of a live allocated object, so that it cannot be freed.
    pub fn frees(&self, p: Word) -> Option<Rule>
        ensures { result ≡ free_rule self.now.flat.objects p }
    {
        freeing(&self.objects, p)
    }
}

impl Memory {
    ghost use Rattle.sc_objects.specs.Numbered.{IsClear, object_of};
    ghost use Rattle.sc_objects.specs.Blocks.{KeepsTaken, class_at, given};
    ghost use Rattle.sc_mem.specs.Flat.{Flat, apply, place as place_of};
    ghost use Rattle.sc_mem.specs.Safe.{IsAllocated, IsReady, IsReleased, IsSafe, Stands, TakesAt};

    /// A new live object, by its number, as the note `Birth` does it: its cells are unwritten. It lies in an area with
    /// a byte between it and every live object, an allocated one at the start of a taken block and with a byte of the
    /// block to spare, every other one outside the heap. After a fault memory is as before.
    pub fn birth(&mut self, size: u32, kind: Kind, base: u32) -> Result<u32, BirthFault>
        requires clear { IsClear self.old.flat.objects base size }
        requires area { IsSome (place_of self.old.flat base size) }
        requires stands { Stands self.old.blocks kind base size }
        ensures id { IfOk result (λ id. id ≡ length self.old.flat.objects + 1) }
        ensures birth { IfOk result (λ id. (self.new.flat ≡ apply self.old.flat (Birth id size kind base)) × (self.new.blocks ≡ self.old.blocks)) }
        ensures fault { OnErr result (self.new ≡ self.old) }
        ensures limit { (result ≡ Err BirthFault.Limit) ↔ (length self.old.flat.objects ≡ 4000000000) }
    {
        match self.objects.birth(size, kind, base) {
            Ok(id) => {
                if let Some(i) = place(self.heap_bytes, self.stack, base, size) {
                    self.cells.clear(i, size);
                }
                Ok(id)
            }
            Err(fault) => Err(fault),
        }
    }

    /// Ends the life of a live object, as the note `Death` does it. The block of an allocated one can be given back
    /// then. It takes no memory.
    pub fn death(&mut self, id: u32)
        requires { (o : Obj) × IsLive self.old.flat.objects id o }
        ensures flat { self.new.flat ≡ apply self.old.flat (Death id) }
        ensures blocks { self.new.blocks ≡ self.old.blocks }
        ensures released { (o : Obj) → object_of self.old.flat.objects id ≡ Some o → IsAllocated o → IsReleased self.new o.base }
    {
        self.objects.death(id);
    }

    /// The address of a heap block for `n` bytes, in which an allocated object of `n` bytes can be born: `None` exactly
    /// where the heap has none. All blocks that were taken still are. Where memory runs out all is as before.
    pub fn take(&mut self, n: u32) -> Result<Option<u32>, NoMemory>
        requires { 0 < n }
        ensures taken { MatchResult result (λ got. TakesAt self.old.blocks n got self.new.blocks) (λ _. self.new.blocks ≡ self.old.blocks) }
        ensures ready { IfOk result (λ got. IfSome got (λ base. IsReady self.new base n)) }
        ensures keeps { KeepsTaken self.old.blocks self.new.blocks }
        ensures flat { self.new.flat ≡ self.old.flat }
    {
        match self.heap.take(n) {
            Ok(Some(block)) => Ok(Some(HEAP + block)),
            Ok(None) => Ok(None),
            Err(fault) => Err(fault),
        }
    }

    /// Gives back the taken block at an address, in which no live object is. It takes no memory.
    pub fn give(&mut self, base: u32)
        requires { IsReleased self.old base }
        ensures given { (k : ℕ) × (class_at self.old.blocks (base - 0x10000000) ≡ Some k) × (self.new.blocks ≡ given self.old.blocks (base - 0x10000000) k) }
        ensures flat { self.new.flat ≡ self.old.flat }
    {
        self.heap.give(base - HEAP);
    }
}

impl Memory {
    ghost use Rattle.std.specs.Prelude.{IsTrue, true, ◌∷◌, ◌%◌};
    ghost use Rattle.sc_objects.specs.Numbered.{IsClear};
    ghost use Rattle.sc_objects.specs.Blocks.{Blocks, IsClass, Takes};
    ghost use Rattle.sc_mem.specs.Flat.{cell_at, place as place_of, with_birth, written_at};
    ghost use Rattle.sc_mem.specs.Safe.{IsBirth, IsSafe, Stands};

    /// The cell at an address: `None` exactly outside the areas.
    pub fn cell(&self, at: u32) -> Option<Cell>
        ensures { result ≡ cell_at self.now.flat at }
    {
        let cells = &self.cells;
        let i = place(self.heap_bytes, self.stack, at, 1)?;
        Some(cells.read(i))
    }

    /// How many objects were born.
    pub fn count(&self) -> u32
        ensures { result ≡ length self.now.flat.objects }
    {
        let objects = &self.objects;
        objects.len()
    }

    /// Puts another cell at an address, without a test: `None` exactly outside the areas. Nothing is changed then, nor
    /// where memory runs out.
    pub fn set_cell(&mut self, at: u32, cell: Cell) -> Result<Option<()>, NoMemory>
        ensures safe { IsSafe self.old }
        ensures cell { MatchResult result (λ done. MatchOption done ((place_of self.old.flat at 1 ≡ None) × (self.new ≡ self.old)) (λ _. IsSome (place_of self.old.flat at 1) × (self.new.flat ≡ written_at self.old.flat (place_of self.old.flat at 1) (cell ∷ [])) × (self.new.blocks ≡ self.old.blocks))) (λ _. IsSome (place_of self.old.flat at 1) × (self.new ≡ self.old)) }
    {
        let Some(i) = place(self.heap_bytes, self.stack, at, 1) else {
            return Ok(None);
        };
        self.cells.write_row(i, &[cell])?;
        Ok(Some(()))
    }

    // Whether an object outside the heap can be born at an address that is a multiple of 4.
    fn is_free(&self, base: u32, size: u32) -> bool
        ensures safe { IsSafe self.now }
        ensures free { IsTrue result → (base % 4 ≡ 0) × IsClear self.now.flat.objects base size × IsSome (place_of self.now.flat base size) × ((base + size < 0x10000000) ⊎ (0x10000000 + self.now.blocks.bytes < base)) }
    {
        let objects = &self.objects;
        let end = u64::from(base) + u64::from(size);
        if end > u64::from(STACK_END) || base % 4 != 0 {
            return false;
        }
        if end >= u64::from(HEAP) && base <= HEAP + self.heap_bytes {
            return false;
        }
        match place(self.heap_bytes, self.stack, base, size) {
            None => false,
            Some(_) => objects.is_clear(base, size),
        }
    }

    /// A new live object outside the heap at an address, where memory finds the place fit for it, in the next number. After a
    /// fault memory is as before.
    pub fn settle(&mut self, size: u32, kind: Kind, base: u32) -> Result<(), NoMemory>
        ensures birth { IfOk result (λ _. IsBirth self.old.flat self.new.flat size kind) }
        ensures at { IfOk result (λ _. (self.new.flat ≡ with_birth self.old.flat (record { size = size; kind = kind; base = base; live = true })) × (self.new.blocks ≡ self.old.blocks)) }
        ensures safe { IsSafe self.old }
        ensures fault { OnErr result (self.new ≡ self.old) }
    {
        if !self.is_free(base, size) || !stands_outside(kind) {
            return Err(NoMemory);
        }
        match self.birth(size, kind, base) {
            Ok(_) => Ok(()),
            Err(_) => Err(NoMemory),
        }
    }

    /// A new live allocated object in a block of its own, in the next number. After a fault all objects are as before.
    pub fn allocate(&mut self, size: u32) -> Result<(), NoMemory>
        ensures birth { IfOk result (λ _. IsBirth self.old.flat self.new.flat size Kind.Heap) }
        ensures block { IfOk result (λ _. (k place : ℕ) × IsClass size k × Takes self.old.blocks k (Some place) self.new.blocks × (self.new.flat ≡ with_birth self.old.flat (record { size = size; kind = Kind.Heap; base = 0x10000000 + place; live = true }))) }
        ensures safe { IsSafe self.old }
        ensures fault { OnErr result (self.new.flat ≡ self.old.flat) }
    {
        if size == 0 || self.heap_bytes < size {
            return Err(NoMemory);
        }
        let Some(base) = self.take(size)? else {
            return Err(NoMemory);
        };
        if base % 4 != 0 {
            return Err(NoMemory);
        }
        match self.birth(size, Kind::Heap, base) {
            Ok(_) => Ok(()),
            Err(_) => Err(NoMemory),
        }
    }
}

// Whether objects of a kind stand outside the heap.
fn stands_outside(kind: Kind) -> bool
    ensures { IsTrue result → (b : Blocks) (base size : ℕ) → (base + size < 0x10000000) ⊎ (0x10000000 + b.bytes < base) → Stands b kind base size }
{
    match kind {
        Kind::Heap => false,
        Kind::Static => true,
        Kind::Const => true,
        Kind::Literal => true,
        Kind::Auto => true,
    }
}
