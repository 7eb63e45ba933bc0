use super::*;
use std::alloc::Global;
use std::test::Fail;

#[test]
fn a_name_has_1_to_255_bytes(rt: HostRuntime) -> Result<(), Fail> {
    let alloc = rt.alloc();
    let long = vec![in alloc; b'a'; 256]?;
    assert_eq!(rt; Name::new(alloc, b"").err(), Some(NameFault::Empty));
    assert_eq!(rt;
        Name::new(alloc, long.as_slice()).err(),
        Some(NameFault::TooLong)
    );
    assert!(rt; Name::new(alloc, &long.as_slice()[..255]).is_ok());
    Ok(())
}

fn named(alloc: Global, bytes: &[u8]) -> Result<Name, NoMemory> {
    Name::new(alloc, bytes).map_err(|_| NoMemory)
}

#[test]
fn copies_equal_what_they_copy(rt: HostRuntime) -> Result<(), Fail> {
    let alloc = rt.alloc();
    let key = Key {
        module: Some(named(alloc, b"m")?),
        name: named(alloc, b"f")?,
    };
    assert!(rt; key.copy(alloc)? == key);
    let text = Bytes::from_vec(b"abc".to_vec(alloc)?);
    assert!(rt; text.copy(alloc)? == text);
    let mut list: Items<Bytes> = Items::new(alloc);
    list.push(text)?;
    let copy = list.copy(alloc)?;
    assert_eq!(rt; copy.len(), 1);
    let tree = Shared::new(alloc, copy)?;
    let again = tree.copy(alloc)?;
    assert!(rt; again.get().as_slice() == list.as_slice());
    Ok(())
}

#[test]
fn lists_and_stacks_hold_what_is_put_in(rt: HostRuntime) -> Result<(), Fail> {
    let alloc = rt.alloc();
    let mut list = Items::from_vec(vec![in alloc; 1u8, 2, 3]?);
    let mut more: Items<u8> = Items::new(alloc);
    more.push(4)?;
    list.append(more)?;
    list.truncate(3);
    assert_eq!(rt; list.len(), 3);
    list.set(0, 9);
    assert_eq!(rt; list.as_slice(), [9, 2, 3].as_slice());
    assert_eq!(rt; list.pop(), Some(3));
    let mut stack: Stack<u8> = Stack::new(alloc);
    stack.push(7)?;
    stack.push_all(list)?;
    assert_eq!(rt; stack.as_slice(), [7, 2, 9].as_slice());
    assert_eq!(rt; stack.top().copied(), Some(9));
    assert_eq!(rt; stack.pop(), Some(9));
    assert_eq!(rt; stack.len(), 2);
    Ok(())
}
