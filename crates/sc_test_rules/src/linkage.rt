// Units as the standard has them, in short.
use sc_base::{Bytes, Int, Items, Key, Name, NoMemory, Shared};
use sc_check_declare::{Failure, Reason};
use sc_check_linkage::{Birth, Declaration, Links, Local, block_key, born, cost, place};
use sc_program::StaticId;
use sc_tree::Storage;
use sc_types::{CType, Signature, Structs, compatible};
use std::alloc::Global;
use std::test::Fail;

// What a unit says of its names, and the type of the first one at its end or why the unit is refused. `n`, `s` and `e` declare a
// name with no storage class, `static` and `extern`, behind it its type; `t` defines an object tentatively, `=` initialises it with
// a type; `b` gives a function a body. A type is `i` int, `y` an incomplete structure, and what is made of it: a digit an
// array of so many, 0 of unknown size; `G` a function (void), `F` one (int), `P` one (const char *), `V` one (const char *, ...).
const UNITS: &str = "\
n a i0,t a|i1
s a i0,t a|X7
n a i0,n a i3,t a|i3
n a i3,n a i4|X7
s a i,n a i|X7
n a i,s a i|X7
s a i,e a i,t a|i
s f iF,n f iF|iF
n f iF,s f iF|X7
n f iF,e f iF,b f|iF
n f iF,n f iG|X7
n f iF,b f,b f|X7
n a i,t a,= a i,t a|i
n a i0,t a,= a i2|i2
n a i,= a i,= a i|X7
e a y|y
n a y,t a|X7
n main iG,b main|iG
n main iF|main
n main i|main
s main iF,b main|iF
n puts iF|iF
n puts iF,b puts|libraryname
n abs i,t abs|libraryname
s puts iF,b puts|iF
n printf iP|iV
s printf iP|iP
n printf iF|iF";

fn pointed(alloc: Global, of: CType) -> Result<CType, NoMemory> {
    Ok(CType::Pointer(Shared::new(alloc, of)?, false))
}

fn function(
    alloc: Global,
    of: CType,
    param: Option<CType>,
    variadic: bool,
) -> Result<CType, NoMemory> {
    let mut params = Items::new(alloc);
    if let Some(param) = param {
        params.push(param)?;
    }
    let signature = Signature {
        result: of,
        params,
        variadic,
    };
    Ok(CType::Function(Shared::new(alloc, signature)?))
}

fn array(alloc: Global, of: CType, length: u32) -> Result<CType, NoMemory> {
    Ok(CType::Array(Shared::new(alloc, of)?, length))
}

fn printed(alloc: Global, of: CType, variadic: bool) -> Result<CType, NoMemory> {
    let text = pointed(alloc, CType::Int(Int::Char, true))?;
    function(alloc, of, Some(text), variadic)
}

fn derived(alloc: Global, of: CType, letter: u8) -> Result<CType, NoMemory> {
    match letter {
        b'i' => Ok(CType::Int(Int::Int, false)),
        b'y' => Ok(CType::Struct(0, false)),
        b'G' => function(alloc, of, None, false),
        b'F' => function(alloc, of, Some(CType::Int(Int::Int, false)), false),
        b'P' => printed(alloc, of, false),
        b'V' => printed(alloc, of, true),
        _ => array(alloc, of, u32::from(letter.saturating_sub(b'0'))),
    }
}

fn read(alloc: Global, text: &str) -> Result<CType, NoMemory> {
    let mut of = CType::Void(false);
    for letter in text.as_bytes() {
        of = derived(alloc, of, *letter)?;
    }
    Ok(of)
}

fn name(alloc: Global, text: &str) -> Result<Name, Failure> {
    match Name::new(alloc, text.as_bytes()) {
        Ok(name) => Ok(name),
        Err(_) => Err(Failure::NoMemory),
    }
}

fn cause(failure: Failure) -> &'static str {
    match failure {
        Failure::NoMemory => "no memory",
        Failure::Refused(refused) => match refused.reason {
            Reason::Rule => "X7",
            Reason::Main => "main",
            Reason::LibraryName => "libraryname",
            Reason::Frame => "frame",
            _ => "another",
        },
    }
}

#[derive(Drop)]
struct Unit {
    structs: Structs,
    links: Links,
    noted: usize,
}

fn declare(
    alloc: Global,
    unit: &mut Unit,
    storage: Option<Storage>,
    text: &str,
    of: &str,
) -> Result<(), Failure> {
    let home = name(alloc, "m")?;
    let declaration = Declaration {
        name: name(alloc, text)?,
        of: read(alloc, of)?,
        storage,
        line: 1,
        name_line: 1,
    };
    unit.links
        .declare(alloc, &unit.structs, &home, &declaration)?;
    Ok(())
}

fn body(unit: &mut Unit, place: usize) -> Result<(), Failure> {
    unit.links.begin_function(1, place)?;
    unit.links.end_function(1, place)
}

fn initialized(alloc: Global, unit: &mut Unit, of: &str, place: usize) -> Result<(), Failure> {
    let of = read(alloc, of)?;
    unit.links.define(1, unit.noted, place)?;
    unit.links.initialize(alloc, 1, unit.noted, &of, place)
}

fn defined(
    alloc: Global,
    unit: &mut Unit,
    what: &str,
    text: &str,
    of: &str,
) -> Result<(), Failure> {
    let name = name(alloc, text)?;
    let Some(place) = unit.links.place_of(&name) else {
        return Err(Failure::NoMemory);
    };
    match what {
        "t" => unit.links.define(1, unit.noted, place),
        "=" => initialized(alloc, unit, of, place),
        _ => body(unit, place),
    }
}

fn step(alloc: Global, unit: &mut Unit, text: &str) -> Result<(), Failure> {
    let Some((what, rest)) = text.split_once(' ') else {
        return Err(Failure::NoMemory);
    };
    let (name, of) = rest.split_once(' ').unwrap_or((rest, ""));
    match what {
        "n" => declare(alloc, unit, None, name, of),
        "s" => declare(alloc, unit, Some(Storage::Static), name, of),
        "e" => declare(alloc, unit, Some(Storage::Extern), name, of),
        _ => defined(alloc, unit, what, name, of),
    }
}

fn all(alloc: Global, unit: &mut Unit, text: &str) -> Result<CType, Failure> {
    for part in text.split(',') {
        step(alloc, unit, part)?;
    }
    let mut declared = unit.links.finish(alloc, &unit.structs)?.into_vec();
    declared.truncate(1);
    match declared.pop() {
        Some(first) => Ok(first.of),
        None => Err(Failure::NoMemory),
    }
}

fn empty(alloc: Global) -> Result<Unit, NoMemory> {
    let mut structs = Structs::new(alloc);
    structs.declare(None, false)?;
    Ok(Unit {
        structs,
        links: Links::new(alloc),
        noted: 0,
    })
}

#[test]
fn units(rt: HostRuntime) -> Result<(), Fail> {
    let alloc = rt.alloc();
    for row in UNITS.split('\n') {
        let Some((text, wanted)) = row.split_once('|') else {
            return Err("a row")?;
        };
        let mut unit = empty(alloc)?;
        match all(alloc, &mut unit, text) {
            Ok(of) => {
                let wanted = read(alloc, wanted)?;
                assert!(rt;
                    compatible(&of, &unit.structs, &wanted, &unit.structs, true),
                    "{row}"
                );
            }
            Err(failure) => assert_eq!(rt; cause(failure), wanted, "{row}"),
        }
    }
    Ok(())
}

// `int a; "x"; int b; int a = 1;`, each with its place in the order of the text.
const NOTED: [(usize, &str); 5] = [
    (0, "n a i"),
    (0, "t a"),
    (2, "n b i"),
    (2, "t b"),
    (3, "= a i"),
];

fn noted(alloc: Global) -> Result<Unit, Failure> {
    let mut unit = empty(alloc)?;
    for (n, text) in &NOTED {
        unit.noted = *n;
        step(alloc, &mut unit, text)?;
    }
    Ok(unit)
}

fn order(alloc: Global, unit: &Unit) -> Result<Items<StaticId>, Failure> {
    let home = name(alloc, "m")?;
    let mut literals = Items::new(alloc);
    literals.push(Bytes::from_slice(alloc, b"x")?)?;
    let mut noted = Items::new(alloc);
    for birth in [
        Birth::Object(0),
        Birth::Literal(0),
        Birth::Object(1),
        Birth::Object(0),
    ] {
        noted.push(birth)?;
    }
    let ids = born(
        alloc,
        &home,
        literals.as_slice(),
        unit.links.as_slice(),
        noted.as_slice(),
    )?;
    Ok(ids)
}

#[test]
fn births(rt: HostRuntime) -> Result<(), Fail> {
    let alloc = rt.alloc();
    let Ok(unit) = noted(alloc) else {
        return Err("a unit")?;
    };
    let Ok(ids) = order(alloc, &unit) else {
        return Err("births")?;
    };
    assert_eq!(rt; ids.len(), 3);
    for (id, wanted) in ids.as_slice().iter().zip(b"$ba") {
        assert_eq!(rt; first_byte(id), *wanted);
    }
    Ok(())
}

fn first_byte(id: &StaticId) -> u8 {
    match id {
        StaticId::Literal(_, _) => b'$',
        StaticId::Named(key) => key_byte(key),
    }
}

fn key_byte(key: &Key) -> u8 {
    match key.name.as_slice().first() {
        Some(byte) => *byte,
        None => b'?',
    }
}

fn block(alloc: Global, sizes: &[u32]) -> Result<Items<Local>, Failure> {
    let mut block = Items::new(alloc);
    for size in sizes {
        let name = name(alloc, "a")?;
        block.push(Local {
            name,
            of: CType::Int(Int::Int, false),
            size: *size,
        })?;
    }
    Ok(block)
}

fn blocks(alloc: Global) -> Result<Items<Items<Local>>, Failure> {
    let mut blocks = Items::new(alloc);
    blocks.push(block(alloc, &[4, 1])?)?;
    blocks.push(block(alloc, &[12])?)?;
    Ok(blocks)
}

#[test]
fn frames(rt: HostRuntime) -> Result<(), Fail> {
    let alloc = rt.alloc();
    let Ok(blocks) = blocks(alloc) else {
        return Err("blocks")?;
    };
    let blocks = blocks.as_slice();
    match cost(1, blocks, 4_194_304, 1) {
        Ok(_) => panic!(rt; "too large"),
        Err(failure) => assert_eq!(rt; cause(failure), "frame"),
    }
    // 8 + (8 + 4 + 16) + 4 * 4 = 52, and the objects stand above 4 * 4 bytes
    match cost(1, blocks, 4, 1) {
        Ok(bytes) => {
            assert_eq!(rt; bytes, 64);
            let places = place(alloc, blocks, 4, 1)?;
            let mut wanted = 16;
            for block in places.as_slice() {
                for auto in block.as_slice() {
                    assert_eq!(rt; auto.slot.offset, wanted);
                    wanted = wanted.saturating_add(
                        (auto.slot.size / 4).saturating_mul(4).saturating_add(4),
                    );
                }
            }
        }
        Err(failure) => panic!(rt; "{}", cause(failure)),
    }
    Ok(())
}

#[test]
fn keys_of_blocks(rt: HostRuntime) -> Result<(), Fail> {
    let alloc = rt.alloc();
    let Ok(home) = name(alloc, "m") else {
        return Err("m")?;
    };
    let Ok(object) = name(alloc, "x") else {
        return Err("x")?;
    };
    let key = block_key(alloc, &home, &home, &object, 2)?;
    assert_eq!(rt; key.name.as_slice(), b"m.x.2".as_slice());
    Ok(())
}
