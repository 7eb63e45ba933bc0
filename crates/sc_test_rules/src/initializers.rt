// Lists of initialisers as the standard has them, in short.
use sc_base::{Bytes, Int, Items, Name, NoMemory, Shared};
use sc_check_declare::{Failure, Reason};
use sc_check_places::{Place, Text, Walk, Zeros, text_for};
use sc_types::{CType, Member, Structs, is_object, size_of};
use std::alloc::Global;
use std::process::Abort;
use std::test::Fail;

// A type (`i` int, `c` char, what is made of it: a digit an array of so many, 0 of unknown size; `x` a structure of char and int,
// `y` one of x, char [4] and int, `z` one of int [3] and int, `u` a union of char [2] and int, `w` a structure of it and int), the items of its list (`e` an expression, `s` a string), and
// what they do: the offset of a place, `z`, an offset and a count for bytes that are zero, `=` and how many places of the list have items;
// or why the list is refused.
const LISTS: &str = "\
i4 {eee} 0 4 8 z12.4 =3
i0 {eee} 0 4 8 =3
i2 {eee} 0 4 X7
i34 {{eee}{eee}{eee}} 0 4 8 =3 12 16 20 =3 24 28 32 =3 z36.12 =3
i34 {eeeeeeeee} 0 4 8 12 16 20 24 28 32 z36.12 =3
i34 {{e}{e}{e}{e}} 0 z4.8 =1 12 z16.8 =1 24 z28.8 =1 36 z40.8 =1 =4
z0 {{e}e} 0 z4.8 z12.4 =1 16 z20.8 z28.4 =2
i22 {{e}ee} 0 z4.4 =1 8 12 =2
x {ee} 0 4 =2
x {e} 0 z1.7 =1
x {eee} 0 4 X7
y {eese} 0 4 8 12 =3
y {{e}s} 0 z1.7 =1 8 z12.4 =2
y {eeeeeee} 0 4 8 9 10 11 12 =3
y {eeeeeeee} 0 4 8 9 10 11 12 X7
c40 {ss} 0 4 =2
c4 {eees} 0 1 2 3 =4
u {e} 0 z1.1 =1
u {ee} 0 1 =1
u {eee} 0 1 X7
u {{ee}} 0 1 =2 =1
u {{e}e} 0 z1.1 =1 X7
u {} z0.4 =0
u2 {e} 0 z1.1 z4.4 =1
u2 {eee} 0 1 4 z5.1 =2
w {s} 0 z4.4 =1
w {{s}e} 0 =1 4 =2";

fn derived(alloc: Global, of: CType, letter: u8) -> Result<CType, NoMemory> {
    match letter {
        b'i' => Ok(CType::Int(Int::Int, false)),
        b'c' => Ok(CType::Int(Int::Char, false)),
        b'x'..=b'z' => Ok(CType::Struct(u32::from(letter - b'x'), false)),
        b'u' => Ok(CType::Struct(3, false)),
        b'w' => Ok(CType::Struct(4, false)),
        _ => Ok(CType::Array(
            Shared::new(alloc, of)?,
            u32::from(letter.saturating_sub(b'0')),
        )),
    }
}

fn read(alloc: Global, text: &str) -> Result<CType, NoMemory> {
    let mut of = CType::Void(false);
    for letter in text.as_bytes() {
        of = derived(alloc, of, *letter)?;
    }
    Ok(of)
}

fn member(alloc: Global, text: &str) -> Result<Member, Fail> {
    let of = read(alloc, text)?;
    match Name::new(alloc, b"m") {
        Ok(name) => Ok(Member { name, of }),
        Err(_) => Err("a name")?,
    }
}

fn members(alloc: Global, text: &str) -> Result<Items<Member>, Fail> {
    let mut members = Items::new(alloc);
    for part in text.split(' ') {
        members.push(member(alloc, part)?)?;
    }
    Ok(members)
}

fn complete(rt: &impl Abort, s: &mut Structs, id: u32, members: Items<Member>) {
    match s.as_slice().get(id as usize) {
        Some(def) => assert!(rt; def.members.is_none()),
        None => panic!(rt; "no structure {id}"),
    }
    assert!(rt; s.complete(id, members), "structure {id}");
}

fn unit(alloc: Global, rt: &impl Abort) -> Result<Structs, Fail> {
    let mut s = Structs::new(alloc);
    for (id, text) in [
        (0, "c i"),
        (1, "x c4 i"),
        (2, "i3 i"),
        (3, "c2 i"),
        (4, "u i"),
    ] {
        s.declare(None, id == 3)?;
        complete(rt, &mut s, id, members(alloc, text)?);
    }
    Ok(s)
}

fn whole(s: &Structs, of: CType) -> Place {
    let end = if is_object(&of, s) {
        size_of(&of, s)
    } else {
        0
    };
    Place { of, at: 0, end }
}

fn cause(failure: Failure) -> &'static str {
    match failure {
        Failure::NoMemory => "no memory",
        Failure::Refused(refused) => match refused.reason {
            Reason::Rule => "X7",
            Reason::Size => "size",
            _ => "another",
        },
    }
}

// What the items have done so far.
#[derive(Drop)]
struct Run {
    walk: Walk,
    top: Option<Place>,
    done: String,
}

fn opened(alloc: Global, s: &Structs, run: &mut Run) -> Result<(), Failure> {
    let place = match run.top.take() {
        Some(top) => top,
        None => run.walk.next(alloc, s, 1)?,
    };
    run.walk.begin(1, true, place)?;
    Ok(())
}

fn noted(alloc: Global, run: &mut Run, zeros: Zeros) -> Result<(), NoMemory> {
    match format!(in alloc; "z{}.{} ", zeros.at, zeros.count) {
        Ok(text) => added(run, text.as_str()),
        Err(_) => Err(NoMemory),
    }
}

fn added(run: &mut Run, text: &str) -> Result<(), NoMemory> {
    match run.done.push_str(text) {
        Ok(()) => Ok(()),
        Err(_) => Err(NoMemory),
    }
}

fn numbered(alloc: Global, run: &mut Run, front: &str, number: u32) -> Result<(), NoMemory> {
    match format!(in alloc; "{front}{number} ") {
        Ok(text) => added(run, text.as_str()),
        Err(_) => Err(NoMemory),
    }
}

fn ended(alloc: Global, s: &Structs, run: &mut Run) -> Result<(), Failure> {
    let closed = run.walk.end(alloc, s)?;
    for zeros in closed.zeros.as_slice() {
        noted(alloc, run, *zeros)?;
    }
    numbered(alloc, run, "=", closed.count)?;
    Ok(())
}

fn filled(alloc: Global, s: &Structs, run: &mut Run, string: bool) -> Result<(), Failure> {
    let place = run.walk.reach(alloc, s, 1, string, 100)?;
    numbered(alloc, run, "", place.at)?;
    Ok(())
}

fn item(alloc: Global, s: &Structs, run: &mut Run, letter: u8) -> Result<(), Failure> {
    match letter {
        b'{' => opened(alloc, s, run),
        b'}' => ended(alloc, s, run),
        b'e' => filled(alloc, s, run, false),
        _ => filled(alloc, s, run, true),
    }
}

fn all(alloc: Global, s: &Structs, of: &str, items: &str) -> Result<String, Fail> {
    let mut run = Run {
        walk: Walk::new(alloc),
        top: Some(whole(s, read(alloc, of)?)),
        done: String::new(alloc),
    };
    for letter in items.as_bytes() {
        if let Err(failure) = item(alloc, s, &mut run, *letter) {
            added(&mut run, cause(failure))?;
            return Ok(run.done);
        }
    }
    Ok(run.done)
}

#[test]
fn lists(rt: HostRuntime) -> Result<(), Fail> {
    let alloc = rt.alloc();
    let s = unit(alloc, &rt)?;
    for row in LISTS.split('\n') {
        let Some((of, rest)) = row.split_once(' ') else {
            return Err("a row")?;
        };
        let Some((items, wanted)) = rest.split_once(' ') else {
            return Err("a row")?;
        };
        let done = all(alloc, &s, of, items)?;
        assert_eq!(rt; done.as_str().trim_end(), wanted, "{row}");
    }
    Ok(())
}

// The size of an array (0: unknown), and what the string abc gives it: the length, how many bytes and zeros, as one number, 0 where it
// is refused.
const TEXTS: [(u32, u32); 5] = [(0, 440), (4, 440), (3, 330), (6, 642), (2, 0)];

fn text_of(alloc: Global, size: u32) -> Result<u32, NoMemory> {
    let bytes = Bytes::from_slice(alloc, b"abc")?;
    match text_for(alloc, 1, size, &bytes) {
        Ok(text) => Ok(shown(&text)),
        Err(_) => Ok(0),
    }
}

fn shown(text: &Text) -> u32 {
    let bytes = text.bytes.as_slice().len() as u64;
    let all = u64::from(text.length)
        .saturating_mul(100)
        .saturating_add(bytes.saturating_mul(10));
    u32::try_from(all.saturating_add(u64::from(text.zeros))).unwrap_or(0)
}

#[test]
fn texts(rt: HostRuntime) -> Result<(), Fail> {
    for (size, wanted) in &TEXTS {
        assert_eq!(rt; text_of(rt.alloc(), *size)?, *wanted, "{size}");
    }
    Ok(())
}
