// The heap's worked cases, and births and deaths by number and by address.
ghost use Rattle.std.specs.Prelude.{◌≡◌, length, IfOk};

use sc_base::{Kind, NoMemory};
use sc_objects::{BirthFault, Heap, Obj, Objects};
use std::alloc::Global;
use std::test::Fail;

// Takes a block and gives it back.
fn take_and_give(heap: &mut Heap, n: u32) -> Result<Option<u32>, NoMemory> {
    if n == 0 {
        return Ok(None);
    }
    let got = heap.take(n)?;
    if let Some(base) = got {
        heap.give(base);
    }
    Ok(got)
}

// How many blocks of this size a heap gives before it has none.
fn blocks(alloc: Global, bytes: u32, n: u32) -> Result<u32, NoMemory> {
    let mut heap = Heap::new(alloc, bytes)?;
    let mut count = 0;
    for _ in 0..100000 {
        if n == 0 || heap.take(n)?.is_none() {
            return Ok(count);
        }
        count += 1u32.min(u32::MAX - count);
    }
    Ok(count)
}

#[test]
fn a_heap_takes_by_classes(rt: HostRuntime) -> Result<(), Fail> {
    let mut heap = Heap::new(rt.alloc(), 128)?;
    assert_eq!(rt; take_and_give(&mut heap, 100)?, Some(0));
    assert_eq!(rt; heap.take(100)?, Some(0));
    assert_eq!(rt; heap.take(100)?, None);
    assert_eq!(rt; heap.take(1)?, None);
    let mut small = Heap::new(rt.alloc(), 128)?;
    assert_eq!(rt; small.take(16)?, Some(0));
    assert_eq!(rt; small.take(15)?, Some(32));
    assert_eq!(rt; small.take(31)?, Some(48));
    assert_eq!(rt; take_and_give(&mut small, 31)?, Some(80));
    assert_eq!(rt; small.take(15)?, Some(112));
    assert_eq!(rt; small.take(16)?, Some(80));
    assert_eq!(rt; small.take(u32::MAX)?, None);
    for (bytes, n, count) in [
        (4194304, 100, 32768),
        (4096, 15, 256),
        (4096, 16, 128),
        (64, 64, 0),
    ] {
        assert_eq!(rt; blocks(rt.alloc(), bytes, n)?, count, "{bytes} {n}");
    }
    Ok(())
}

// Three objects are born, and the second dies.
fn three(alloc: Global) -> Result<Objects, BirthFault> {
    let mut objects = Objects::new(alloc).map_err(|_| BirthFault::NoMemory)?;
    let _ = objects.birth(4, Kind::Static, 100)?;
    let second = objects.birth(8, Kind::Auto, 200)?;
    let _ = objects.birth(1, Kind::Heap, 300)?;
    objects.death(second);
    Ok(objects)
}

#[test]
fn objects_by_number_and_address(rt: HostRuntime) -> Result<(), Fail> {
    let objects = three(rt.alloc()).map_err(|_| Fail::from("no memory"))?;
    for (id, want) in [
        (0, None),
        (1, Some((4, 100, true))),
        (2, Some((8, 200, false))),
        (3, Some((1, 300, true))),
        (4, None),
    ] {
        let got = objects.find(id).map(|o| (o.size, o.base, o.live));
        assert_eq!(rt; got, want, "{id}");
    }
    for (address, want) in [
        (99, None),
        (100, Some(1)),
        (104, Some(1)),
        (105, None),
        (200, None),
        (300, Some(3)),
        (301, Some(3)),
        (302, None),
    ] {
        assert_eq!(rt; objects.at(address), want, "{address}");
    }
    Ok(())
}
