// Accesses to a memory with 4,096 bytes of stack and 128 of heap, against values worked out by hand.
use sc_base::{Kind, NoMemory, Rule, Word};
use sc_mem::{Memory, StoreFault};
use std::alloc::Global;
use std::cmp::Ordering;
use std::test::Fail;

const NULL: Word = Word { bits: 0, tag: 0 };

// The start of the first object that is allocated.
const FIRST: Word = Word {
    bits: 0x10000000,
    tag: 1,
};

fn word(bits: u32, tag: u32) -> Word {
    Word { bits, tag }
}

fn small(alloc: Global) -> Result<Memory, NoMemory> {
    Memory::new(alloc, 4096, 128)
}

// A memory whose stack has the pointer 0x10203040 to object 3 at 0x1FFFFFF8.
fn with_pointer(alloc: Global) -> Result<Memory, NoMemory> {
    let mut m = small(alloc)?;
    let _ = m.raw_store(0x1FFFFFF8, 4, word(0x10203040, 3))?;
    Ok(m)
}

#[test]
fn words_without_a_test(rt: HostRuntime) -> Result<(), Fail> {
    let m = with_pointer(rt.alloc())?;
    for (at, want) in [
        (0x1FFFFFF8, Some(word(0x10203040, 3))),
        (0x1FFFFFF4, Some(NULL)),
        (0x1FFFFFFA, None),
        (0x20000000, None),
        (0x1FFFF000, Some(NULL)),
        (0x1FFFEFFC, None),
        (0x1000007C, Some(NULL)),
        (0x10000080, None),
        (0x080FFFFC, Some(NULL)),
        (0x08100000, None),
        (0x07FFFFFC, None),
    ] {
        assert_eq!(rt; m.raw_load(at, 4), want, "{at}");
    }
    Ok(())
}

#[test]
fn bytes_without_a_test(rt: HostRuntime) -> Result<(), Fail> {
    let m = with_pointer(rt.alloc())?;
    for (at, want) in [
        (0x1FFFFFF8, 0x40),
        (0x1FFFFFF9, 0x30),
        (0x1FFFFFFB, 0x10),
        (0x1FFFFFFC, 0),
    ] {
        assert_eq!(rt; m.raw_load(at, 1), Some(word(want, 0)), "{at}");
    }
    Ok(())
}

// A pointer is copied by way of an odd address, and then loses a byte.
#[test]
fn copies_without_a_test(rt: HostRuntime) -> Result<(), Fail> {
    let mut m = with_pointer(rt.alloc())?;
    for (to, from, want) in [
        (0x10000001, 0x1FFFFFF8, Some(())),
        (0x10000010, 0x10000001, Some(())),
        (0x10000010, 0x1000007D, None),
    ] {
        assert_eq!(rt; m.raw_copy(to, from, 4)?, want, "{to} {from}");
    }
    for (at, want) in [
        (0x10000014, word(0x10203040, 3)),
        (0x10000010, word(0x10203007, 0)),
    ] {
        let _ = m.raw_store(at, 1, word(7, 3))?;
        assert_eq!(rt; m.raw_load(0x10000010, 4), Some(want), "{at}");
    }
    Ok(())
}

// Allocates an object of at least four bytes, the first four of which are 5, 0, 0 and 0: its number, or none where the
// heap has no block for it.
fn allocate(m: &mut Memory, n: u32) -> Result<Option<u32>, Fail> {
    if n < 4 {
        return Ok(None);
    }
    let Some(base) = m.take(n)? else {
        return Ok(None);
    };
    let Ok(id) = m.birth(n, Kind::Heap, base) else {
        return Err(Fail::from("no memory"));
    };
    m.init(base, 4, word(5, 0))?;
    Ok(Some(id))
}

// Frees an allocated object, if it lives.
fn free(m: &mut Memory, id: u32) -> bool {
    let Some(object) = m.find(id) else {
        return false;
    };
    let Kind::Heap = object.kind else {
        return false;
    };
    if !object.live {
        return false;
    }
    m.death(id);
    m.give(object.base);
    true
}

// A memory with one object, an allocated one of 8 bytes.
fn one(alloc: Global) -> Result<Memory, Fail> {
    let mut m = small(alloc)?;
    allocate(&mut m, 8)?;
    Ok(m)
}

#[test]
fn a_block_serves_again(rt: HostRuntime) -> Result<(), Fail> {
    let mut m = small(rt.alloc())?;
    for (freed, want) in [(false, Some(1)), (true, Some(2)), (false, None)] {
        assert_eq!(rt; free(&mut m, 1), freed);
        assert_eq!(rt; allocate(&mut m, 100)?, want);
    }
    Ok(())
}

#[test]
fn objects_by_address(rt: HostRuntime) -> Result<(), Fail> {
    let m = one(rt.alloc())?;
    for (address, want) in [
        (0x0FFFFFFF, None),
        (0x10000000, Some(1)),
        (0x10000008, Some(1)),
        (0x10000009, None),
    ] {
        assert_eq!(rt; m.at(address), want, "{address}");
    }
    assert!(rt; m.find(2).is_none());
    Ok(())
}

#[test]
fn checked_loads(rt: HostRuntime) -> Result<(), Fail> {
    let m = one(rt.alloc())?;
    for (bits, tag, want) in [
        (0x10000000, 1, Ok(word(5, 0))),
        (0x10000004, 1, Err(Rule::U1)),
        (0x10000002, 1, Err(Rule::U10)),
        (0x10000006, 1, Err(Rule::U2)),
        (0x0FFFFFFF, 1, Err(Rule::U2)),
        (0x10000000, 0, Err(Rule::U2)),
        (0, 0, Err(Rule::U4)),
    ] {
        assert_eq!(rt; m.load(word(bits, tag), 4, false), want, "{bits} {tag}");
    }
    Ok(())
}

// An unwritten byte that a raw store writes can be read then, and its neighbours not.
#[test]
fn a_byte_that_only_a_raw_store_wrote(rt: HostRuntime) -> Result<(), Fail> {
    let mut m = one(rt.alloc())?;
    let _ = m.raw_store(0x10000005, 1, word(9, 0))?;
    for (bits, want) in [
        (0x10000004, Err(Rule::U1)),
        (0x10000005, Ok(word(9, 0))),
        (0x10000006, Err(Rule::U1)),
    ] {
        assert_eq!(rt; m.load(word(bits, 1), 1, false), want, "{bits}");
    }
    Ok(())
}

fn broken(rule: Rule) -> Result<(), StoreFault> {
    Err(StoreFault::Broken(rule))
}

#[test]
fn checked_stores(rt: HostRuntime) -> Result<(), Fail> {
    let mut m = one(rt.alloc())?;
    for (bits, want) in [
        (0x10000004, Ok(())),
        (0x10000006, broken(Rule::U2)),
        (0x10000002, broken(Rule::U10)),
    ] {
        assert_eq!(rt; m.store(word(bits, 1), 4, FIRST), want, "{bits}");
    }
    Ok(())
}

// A pointer that is copied is a pointer, and no number.
#[test]
fn checked_copies(rt: HostRuntime) -> Result<(), Fail> {
    let mut m = one(rt.alloc())?;
    let _ = m.store(word(0x10000004, 1), 4, FIRST);
    for (to, want) in [(0x10000000, Ok(())), (0x10000006, broken(Rule::U2))] {
        assert_eq!(rt; m.copy(word(to, 1), word(0x10000004, 1), 4), want, "{to}");
    }
    for (as_pointer, want) in [(true, Ok(FIRST)), (false, Err(Rule::U15))] {
        assert_eq!(rt; m.load(FIRST, 4, as_pointer), want);
    }
    Ok(())
}

#[test]
fn pointer_arithmetic(rt: HostRuntime) -> Result<(), Fail> {
    let mut m = one(rt.alloc())?;
    for (bits, tag, n, size, want) in [
        (0x10000000, 1, 2, 4, Ok(word(0x10000008, 1))),
        (0x10000008, 1, -2, 4, Ok(word(0x10000000, 1))),
        (0x10000000, 1, 9, 1, Err(Rule::U5)),
        (0x10000000, 1, -1, 1, Err(Rule::U5)),
        (0x10000000, 1, i64::MAX, u32::MAX, Err(Rule::U5)),
        (0, 0, 0, 4, Ok(word(0, 0))),
        (0, 0, 1, 4, Err(Rule::U5)),
        (7, 0, 0, 4, Err(Rule::U15)),
    ] {
        assert_eq!(rt; m.shift(word(bits, tag), n, size), want, "{bits} {n}");
    }
    assert!(rt; free(&mut m, 1));
    assert_eq!(rt; m.shift(word(0x10000000, 1), 0, 1), Err(Rule::U3));
    Ok(())
}

// A memory with one object, a constant one of 8 bytes at the start of the static area, the first four of which are 5,
// 0, 0 and 0.
fn constant(alloc: Global) -> Result<Memory, Fail> {
    let mut m = Memory::new(alloc, 4096, 128)?;
    if m.birth(8, Kind::Const, 0x08000000).is_err() {
        return Err(Fail::from("no memory"));
    }
    let _ = m.raw_store(0x08000000, 4, word(5, 0))?;
    Ok(m)
}

#[test]
fn a_constant_object_is_only_read(rt: HostRuntime) -> Result<(), Fail> {
    let mut m = constant(rt.alloc())?;
    let first = word(0x08000000, 1);
    for (bits, want) in [
        (0x08000000, broken(Rule::U11)),
        (0x08000002, broken(Rule::U10)),
        (0x08000008, broken(Rule::U2)),
    ] {
        assert_eq!(rt; m.store(word(bits, 1), 4, word(6, 0)), want, "{bits}");
    }
    assert_eq!(rt; m.copy(word(0x08000004, 1), first, 4), broken(Rule::U11));
    assert_eq!(rt; m.writes(word(0x08000003, 1), 4), Some(Rule::U11));
    assert_eq!(rt; m.reads(word(0x08000003, 1), 4), None);
    assert_eq!(rt; m.load(first, 4, false), Ok(word(5, 0)));
    Ok(())
}

// Three allocated objects of 8 bytes, at 0x10000000, 0x10000010 and 0x10000020. The third is freed, and a fourth stands
// in its place.
fn four(alloc: Global) -> Result<Memory, Fail> {
    let mut m = small(alloc)?;
    for _ in 0..3 {
        allocate(&mut m, 8)?;
    }
    free(&mut m, 3);
    allocate(&mut m, 8)?;
    Ok(m)
}

// How two pointers compare where no object is dead and none is a number: their order, and the elements of four bytes
// between them.
#[test]
fn pointers_into_one_object(rt: HostRuntime) -> Result<(), Fail> {
    let m = four(rt.alloc())?;
    for (p, q, order, difference) in [
        (word(0x10000004, 1), FIRST, Ordering::Greater, Ok(1)),
        (FIRST, FIRST, Ordering::Equal, Ok(0)),
        (FIRST, word(0x10000008, 1), Ordering::Less, Ok(-2)),
        (word(0x10000001, 1), FIRST, Ordering::Greater, Err(Rule::U5)),
        (FIRST, word(0x10000001, 1), Ordering::Less, Err(Rule::U5)),
        (NULL, NULL, Ordering::Equal, Ok(0)),
    ] {
        assert_eq!(rt; m.equal(p, q), Ok(order == Ordering::Equal), "{p:?} {q:?}");
        assert_eq!(rt; m.order(p, q), Ok(order), "{p:?} {q:?}");
        assert_eq!(rt; m.difference(p, q, 4), difference, "{p:?} {q:?}");
    }
    Ok(())
}

// Pointers without an order: whether they are equal, and the rule that an order and a difference break.
#[test]
fn pointers_without_an_order(rt: HostRuntime) -> Result<(), Fail> {
    let m = four(rt.alloc())?;
    let dead = word(0x10000020, 3);
    for (p, q, equal, rule) in [
        (FIRST, word(0x10000010, 2), Ok(false), Rule::U6),
        (NULL, FIRST, Ok(false), Rule::U6),
        (FIRST, NULL, Ok(false), Rule::U6),
        (word(7, 0), FIRST, Err(Rule::U15), Rule::U15),
        (dead, word(7, 0), Err(Rule::U15), Rule::U15),
        (word(0x10000020, 4), dead, Err(Rule::U3), Rule::U3),
    ] {
        assert_eq!(rt; m.equal(p, q), equal, "{p:?} {q:?}");
        assert_eq!(rt; m.order(p, q), Err(rule), "{p:?} {q:?}");
        assert_eq!(rt; m.difference(p, q, 4), Err(rule), "{p:?} {q:?}");
    }
    Ok(())
}

// What a load and a truth test give, and whether the pointer can be freed.
#[test]
fn pointers_by_number(rt: HostRuntime) -> Result<(), Fail> {
    let m = four(rt.alloc())?;
    let five = word(5, 0);
    for (bits, tag, load, truth, frees) in [
        (0x10000020, 4, Ok(five), Ok(true), true),
        (0x10000020, 3, Err(Rule::U3), Err(Rule::U3), false),
        (0x10000000, 1, Ok(five), Ok(true), true),
        (0x10000004, 1, Err(Rule::U1), Ok(true), false),
        (0x10000000, 0, Err(Rule::U2), Err(Rule::U15), false),
        (0, 0, Err(Rule::U4), Ok(false), true),
    ] {
        let p = word(bits, tag);
        assert_eq!(rt; m.load(p, 4, false), load, "{p:?}");
        assert_eq!(rt; m.truth(p), truth, "{p:?}");
        assert_eq!(rt; m.frees(p).is_none(), frees, "{p:?}");
    }
    Ok(())
}

#[test]
fn ranges_with_a_byte_in_common(rt: HostRuntime) -> Result<(), Fail> {
    let memory = small(rt.alloc())?;
    for (p, n, q, m, want) in [
        (word(100, 1), 4, word(104, 1), 4, false),
        (word(100, 1), 5, word(104, 1), 4, true),
        (word(104, 1), 4, word(100, 1), 4, false),
        (word(104, 1), 4, word(100, 1), 5, true),
        (word(100, 1), 4, word(100, 2), 4, false),
        (word(100, 1), 8, word(104, 1), 0, false),
    ] {
        assert_eq!(rt; memory.overlaps(p, n, q, m), want, "{p:?} {n} {q:?} {m}");
    }
    Ok(())
}
