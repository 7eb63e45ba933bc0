// Declarations as the standard has them, in short.
use sc_base::{Fault, Int, Items, Name, NoMemory, Shared, X};
use sc_check_declare::{
    DeclaredType, Derived, Failure, MemberList, NameSpace, Parameters, Place, Reason, StructureTag,
    Tag, Word, array_size, complete, composite, declarator, defined_parameter, enumeration_tag,
    enumerator, is_constant, may_stand, named_type, next_enumerator, parameter, qualified, refusal,
    structure_tag, told, unqualified, with_const, words_type,
};
use sc_tree::Storage;
use sc_types::{CType, Member, Signature, Structs, compatible};
use std::alloc::Global;
use std::process::Abort;
use std::test::Fail;

// A list of type words (`v` void, `c` char, `h` short, `i` int, `l` long, `s` signed, `u` unsigned, `k` const; `x` a structure,
// `y` an incomplete one), the steps of a declarator from its name outwards (`*` a pointer, `k` a const one, a digit an array of
// so many, 0 of unknown size, `m` an array of 2000000, `f` a function of one parameter const int [3]), and the type, or why it is
// refused. The type is a basic one (`a` signed char, `b` unsigned char, `U` unsigned int, `L` unsigned long) and what is made
// of it in turn: `K` the const one, `p` a pointer, a digit an array, `F` a function of one pointer to const int.
const DECLARATIONS: &str = "\
ul - L
lu * Lp
il 2* lp2
lk * lKp
ks k iKpK
cs - a
cu - b
hui * Hp
v * vp
v f vF
i *f iFp
i f* ipF
i 02 i20
x 2 x2
y * yp
lk 2 lK2
luh - X7
ch - X7
ll - X7
cx - X7
v 2 X7
i f2 X7
i 2f X7
i ff X7
y 2 X7
i 20 X7
x f structvalue
i m size
c m size
i ******************************** ipppppppppppppppppppppppppppppppp
i ********************************* height
i f******************************** height";

fn word(letter: u8) -> Option<Word> {
    match letter {
        b'v' => Some(Word::Void),
        b'c' => Some(Word::Char),
        b'h' => Some(Word::Short),
        b'i' => Some(Word::Int),
        b'l' => Some(Word::Long),
        b's' => Some(Word::Signed),
        b'u' => Some(Word::Unsigned),
        _ => None,
    }
}

fn words(alloc: Global, text: &[u8]) -> Result<Items<Word>, NoMemory> {
    let mut words = Items::new(alloc);
    for letter in text {
        if let Some(word) = word(*letter) {
            words.push(word)?;
        }
    }
    Ok(words)
}

fn structure(id: u32) -> DeclaredType {
    DeclaredType {
        of: CType::Struct(id, false),
        depth: 0,
    }
}

fn base(alloc: Global, text: &[u8]) -> Result<DeclaredType, Failure> {
    let constant = text.contains(&b'k');
    let words = words(alloc, text)?;
    if text.contains(&b'x') {
        return named_type(alloc, 1, constant, text.len(), structure(0));
    }
    if text.contains(&b'y') {
        return named_type(alloc, 1, constant, text.len(), structure(1));
    }
    words_type(1, constant, words.as_slice())
}

fn pointed(alloc: Global, of: CType) -> Result<CType, NoMemory> {
    Ok(CType::Pointer(Shared::new(alloc, of)?, false))
}

fn counted(alloc: Global, of: CType, length: u32) -> Result<CType, NoMemory> {
    Ok(CType::Array(Shared::new(alloc, of)?, length))
}

fn one_parameter(alloc: Global) -> Result<Parameters, Failure> {
    let of = counted(alloc, CType::Int(Int::Int, true), 3)?;
    let p = parameter(
        alloc,
        1,
        Some(Storage::Register),
        DeclaredType { of, depth: 1 },
    )?;
    let mut all = Parameters::new(alloc);
    all.push(p)?;
    Ok(all)
}

fn step(alloc: Global, letter: u8) -> Result<Derived, Failure> {
    match letter {
        b'*' => Ok(Derived::Pointer(false)),
        b'k' => Ok(Derived::Pointer(true)),
        b'm' => Ok(Derived::Array(2_000_000)),
        b'0'..=b'9' => Ok(Derived::Array(u32::from(letter - b'0'))),
        _ => Ok(Derived::Function(one_parameter(alloc)?)),
    }
}

fn steps(alloc: Global, text: &[u8]) -> Result<Items<Derived>, Failure> {
    let mut steps = Items::new(alloc);
    for letter in text {
        if *letter != b'-' {
            steps.push(step(alloc, *letter)?)?;
        }
    }
    Ok(steps)
}

fn declared(alloc: Global, s: &Structs, words: &[u8], text: &[u8]) -> Result<CType, Failure> {
    let base = base(alloc, words)?;
    let steps = steps(alloc, text)?;
    let made = declarator(alloc, s, 1, steps, base)?;
    Ok(made.of)
}

fn function(alloc: Global, of: CType) -> Result<CType, NoMemory> {
    let mut params = Items::new(alloc);
    params.push(pointed(alloc, CType::Int(Int::Int, true))?)?;
    let signature = Signature {
        result: of,
        params,
        variadic: false,
    };
    Ok(CType::Function(Shared::new(alloc, signature)?))
}

fn derived(alloc: Global, of: CType, letter: u8) -> Result<CType, NoMemory> {
    match letter {
        b'v' => Ok(CType::Void(false)),
        b'c' => Ok(CType::Int(Int::Char, false)),
        b'a' => Ok(CType::Int(Int::SChar, false)),
        b'b' => Ok(CType::Int(Int::UChar, false)),
        b'H' => Ok(CType::Int(Int::UShort, false)),
        b'i' => Ok(CType::Int(Int::Int, false)),
        b'U' => Ok(CType::Int(Int::UInt, false)),
        b'l' => Ok(CType::Int(Int::Long, false)),
        b'L' => Ok(CType::Int(Int::ULong, false)),
        b'x' => Ok(CType::Struct(0, false)),
        b'y' => Ok(CType::Struct(1, false)),
        b'K' => qualified(alloc, &of),
        b'p' => pointed(alloc, of),
        b'F' => function(alloc, of),
        _ => counted(alloc, of, u32::from(letter.saturating_sub(b'0'))),
    }
}

fn read(alloc: Global, text: &[u8]) -> Result<CType, NoMemory> {
    let mut of = CType::Void(false);
    for letter in text {
        of = derived(alloc, of, *letter)?;
    }
    Ok(of)
}

fn cause(failure: Failure) -> &'static str {
    match failure {
        Failure::NoMemory => "no memory",
        Failure::Refused(refused) => match refused.reason {
            Reason::Rule => "X7",
            Reason::StructureValue => "structvalue",
            Reason::Height => "height",
            Reason::Size => "size",
            _ => "another",
        },
    }
}

fn name(alloc: Global, text: &str) -> Result<Name, Fail> {
    match Name::new(alloc, text.as_bytes()) {
        Ok(name) => Ok(name),
        Err(_) => Err("a name")?,
    }
}

fn member(alloc: Global, text: &str) -> Result<Member, Fail> {
    let name = name(alloc, text)?;
    Ok(Member {
        name,
        of: CType::Int(Int::Int, false),
    })
}

fn taken(answer: Result<(), Failure>) -> &'static str {
    match answer {
        Ok(()) => "taken",
        Err(failure) => cause(failure),
    }
}

// The answers to a member, the same again, and the end of the structure.
fn completed(
    alloc: Global,
    s: &mut Structs,
) -> Result<(&'static str, &'static str, &'static str), Fail> {
    let mut members = MemberList::new(alloc);
    let one = taken(members.push(alloc, s, 1, member(alloc, "a")?));
    let again = taken(members.push(alloc, s, 1, member(alloc, "a")?));
    Ok((one, again, taken(complete(s, 1, 0, members.into_items()))))
}

// One structure with a member, and one that is incomplete.
fn unit(alloc: Global, rt: &impl Abort) -> Result<Structs, Fail> {
    let mut s = Structs::new(alloc);
    s.declare(None, false)?;
    s.declare(None, false)?;
    assert_eq!(rt; completed(alloc, &mut s)?, ("taken", "X7", "taken"));
    Ok(s)
}

#[test]
fn declarations(rt: HostRuntime) -> Result<(), Fail> {
    let alloc = rt.alloc();
    let s = unit(alloc, &rt)?;
    for row in DECLARATIONS.split('\n') {
        let Some((words, rest)) = row.split_once(' ') else {
            return Err("a row")?;
        };
        let Some((steps, wanted)) = rest.split_once(' ') else {
            return Err("a row")?;
        };
        match declared(alloc, &s, words.as_bytes(), steps.as_bytes()) {
            Ok(of) => {
                let wanted = read(alloc, wanted.as_bytes())?;
                assert!(rt; compatible(&of, &s, &wanted, &s, true), "{row}");
            }
            Err(failure) => assert_eq!(rt; cause(failure), wanted, "{row}"),
        }
    }
    Ok(())
}

// What is done with a name space: `+a1` declares a as 1 in the innermost scope and is taken, `!a1` is refused, `?a1` finds a as 1, `?a0`
// does not find it, `.a1` and `.a0` look in the innermost scope alone, `{` begins a scope and `}` ends it.
const SCOPES: &str =
    "+a1 +b2 !a3 ?a1 { .a0 +a3 !a4 ?a3 .a3 ?b2 .b0 { +b5 ?b5 ?a3 } ?b2 } ?a1 .a1 ?c0";

fn once(
    alloc: Global,
    space: &mut NameSpace<u32>,
    began: usize,
    text: &str,
    value: u32,
) -> Result<bool, Fail> {
    let name = name(alloc, text)?;
    match space.declare_once(alloc, 1, began, name, value) {
        Ok(()) => Ok(true),
        Err(_) => Ok(false),
    }
}

fn found(
    alloc: Global,
    space: &NameSpace<u32>,
    began: Option<usize>,
    text: &str,
) -> Result<u32, Fail> {
    let name = name(alloc, text)?;
    let meaning = match began {
        Some(began) => space.find_innermost(began, &name),
        None => space.find(&name),
    };
    Ok(meaning.copied().unwrap_or(0))
}

// Whether a step goes as it says.
fn act(alloc: Global, space: &mut NameSpace<u32>, began: usize, text: &str) -> Result<bool, Fail> {
    let Some((what, value)) = text.split_at_checked(2) else {
        return Ok(false);
    };
    let Some((what, letter)) = what.split_at_checked(1) else {
        return Ok(false);
    };
    let value = value.parse::<u32>()?;
    match what {
        "+" => once(alloc, space, began, letter, value),
        "!" => Ok(!once(alloc, space, began, letter, value)?),
        "?" => Ok(found(alloc, space, None, letter)? == value),
        _ => Ok(found(alloc, space, Some(began), letter)? == value),
    }
}

#[test]
fn name_spaces(rt: HostRuntime) -> Result<(), Fail> {
    let alloc = rt.alloc();
    let mut space = NameSpace::new(alloc);
    let mut scopes = Vec::new(alloc);
    let mut began = 0;
    for text in SCOPES.split(' ') {
        match text {
            "{" => {
                scopes.push(began)?;
                began = space.len();
            }
            "}" => {
                space.leave(began);
                began = scopes.pop().unwrap_or(0);
            }
            _ => assert!(rt; act(alloc, &mut space, began, text)?, "{text}"),
        }
    }
    Ok(())
}

#[test]
fn numbers(rt: HostRuntime) {
    assert_eq!(rt; next_enumerator(1, None), Ok(0));
    assert_eq!(rt; next_enumerator(1, Some(4)), Ok(5));
    assert_eq!(rt; next_enumerator(1, Some(u32::MAX)), Ok(0));
    assert!(rt; next_enumerator(1, Some(0x7fff_ffff)).is_err());
    assert_eq!(rt; enumerator(1, Int::Int, u32::MAX), Ok(u32::MAX));
    assert!(rt; enumerator(1, Int::UInt, u32::MAX).is_err());
    assert_eq!(rt; array_size(1, Int::UInt, 3), Ok(3));
    assert!(rt; array_size(1, Int::Long, u32::MAX).is_err());
    assert!(rt; array_size(1, Int::Int, 0).is_err());
}

#[test]
fn tags_and_places(rt: HostRuntime) {
    assert_eq!(rt; structure_tag(false, None), StructureTag::New);
    for (asked, there, answer) in [
        (false, Tag::Structure(3, false), StructureTag::Known(3)),
        (true, Tag::Structure(3, true), StructureTag::Known(3)),
        (false, Tag::Structure(3, true), StructureTag::Other),
        (true, Tag::Structure(3, false), StructureTag::Other),
        (true, Tag::Enumeration, StructureTag::Other),
    ] {
        assert_eq!(rt; structure_tag(asked, Some(there)), answer, "{there:?}");
    }
    assert_eq!(rt; taken(enumeration_tag(1, Some(Tag::Enumeration))), "taken");
    assert_eq!(rt; taken(enumeration_tag(1, None)), "X7");
    assert!(rt; may_stand(Place::Block, Some(Storage::Auto)));
    assert!(rt; !may_stand(Place::File, Some(Storage::Auto)));
    assert!(rt; !may_stand(Place::Definition, Some(Storage::Typedef)));
}

fn joined(alloc: Global) -> Result<CType, NoMemory> {
    let unknown = read(alloc, b"i0")?;
    let known = read(alloc, b"i3")?;
    composite(alloc, &unknown, &known)
}

#[test]
fn composite_types(rt: HostRuntime) -> Result<(), Fail> {
    let alloc = rt.alloc();
    let s = Structs::new(alloc);
    let both = joined(alloc)?;
    let unknown = read(alloc, b"i0")?;
    assert_eq!(rt; taken(defined_parameter(&s, 1, true, &both)), "taken");
    assert_eq!(rt; taken(defined_parameter(&s, 1, false, &both)), "X7");
    assert_eq!(rt; taken(defined_parameter(&s, 1, true, &unknown)), "X7");
    Ok(())
}

#[test]
fn qualifiers(rt: HostRuntime) -> Result<(), Fail> {
    let alloc = rt.alloc();
    let constant = with_const(alloc, true, read(alloc, b"i3")?)?;
    assert!(rt; is_constant(&constant));
    assert!(rt; !is_constant(&unqualified(read(alloc, b"iK")?)));
    Ok(())
}

// The length of the word of a limit.
fn word_length(kind: &X) -> usize {
    match kind {
        X::X10(word) => word.as_slice().len(),
        _ => 0,
    }
}

fn shown(fault: &Fault) -> (u32, usize) {
    match fault {
        Fault::Refused(refused) => (refused.line, word_length(&refused.kind)),
        Fault::NoMemory => (0, 0),
    }
}

#[test]
fn refusals(rt: HostRuntime) {
    let fault = told(rt.alloc(), refusal(Reason::Size, 7));
    let (line, length) = shown(&fault);
    assert_eq!(rt; line, 7);
    assert_eq!(rt; length, 4);
}
