// Operands and operators from short words, over a stack.
use sc_base::{Bytes, Duplicate, Int, Items, Key, Name, NameFault, NoMemory, Shared};
use sc_check_binary::{assignment, binary, comma, compound, conditional};
use sc_check_operand::{
    Base, Located, TypeFault, address_constant, assigned, integer_constant, members_hold_const,
    valued,
};
use sc_check_unary::{
    address, arrow, automatic, call, cast, constant, function, index, indirection, literal, member,
    number, offset_of_member, size_of_type, static_object, step, unary,
};
use sc_core::{CoreExpr, Step, UnaryOperator, type_of};
use sc_tree::{Binary, Constant};
use sc_types::{CType, Member, Signature, Structs};
use std::alloc::Global;
use std::process::Abort;

const LINE: u32 = 7;

type Stack = Vec<Shared<CoreExpr>>;

type Made = Result<Shared<CoreExpr>, TypeFault>;

// The structures x, with the members `int m; char n[3]; const short r`, y, which is incomplete, and z, with `int m`.
#[derive(Drop)]
pub struct Types {
    structs: Structs,
    known: Vec<bool>,
}

fn name(alloc: Global, text: &[u8]) -> Result<Name, NoMemory> {
    match Name::new(alloc, text) {
        Ok(name) => Ok(name),
        Err(NameFault::Empty | NameFault::TooLong | NameFault::NoMemory) => Err(NoMemory),
    }
}

fn signature(alloc: Global, gives: CType, variadic: bool) -> Result<CType, NoMemory> {
    let mut params = Items::new(alloc);
    params.push(CType::Int(Int::Int, false))?;
    let signature = Signature {
        result: gives,
        params,
        variadic,
    };
    Ok(CType::Function(Shared::new(alloc, signature)?))
}

fn constant_type(of: CType) -> CType {
    match of {
        CType::Void(_) => CType::Void(true),
        CType::Int(kind, _) => CType::Int(kind, true),
        CType::Pointer(target, _) => CType::Pointer(target, true),
        CType::Struct(id, _) => CType::Struct(id, true),
        other => other,
    }
}

fn plain_type(letter: u8) -> CType {
    match letter {
        b'c' => CType::Int(Int::Char, false),
        b'a' => CType::Int(Int::SChar, false),
        b'u' => CType::Int(Int::UChar, false),
        b'h' => CType::Int(Int::Short, false),
        b'w' => CType::Int(Int::UShort, false),
        b'i' => CType::Int(Int::Int, false),
        b'n' => CType::Int(Int::UInt, false),
        b'l' => CType::Int(Int::Long, false),
        b'm' => CType::Int(Int::ULong, false),
        b'x' => CType::Struct(0, false),
        b'y' => CType::Struct(1, false),
        b'z' => CType::Struct(2, false),
        _ => CType::Void(false),
    }
}

// What a letter makes of a type; f and g are functions of an `int`, g a variadic one.
fn derived(alloc: Global, of: CType, letter: u8) -> Result<CType, NoMemory> {
    match letter {
        b'k' => Ok(constant_type(of)),
        b'*' => Ok(CType::Pointer(Shared::new(alloc, of)?, false)),
        b'0'..=b'9' => Ok(CType::Array(Shared::new(alloc, of)?, u32::from(letter - b'0'))),
        b'f' => signature(alloc, of, false),
        b'g' => signature(alloc, of, true),
        _ => Ok(plain_type(letter)),
    }
}

fn read(alloc: Global, text: &[u8]) -> Result<CType, NoMemory> {
    let mut of = CType::Void(false);
    for letter in text {
        of = derived(alloc, of, *letter)?;
    }
    Ok(of)
}

fn member_named(alloc: Global, text: &[u8], of: &[u8]) -> Result<Member, NoMemory> {
    let name = name(alloc, text)?;
    let of = read(alloc, of)?;
    Ok(Member { name, of })
}

fn complete(rt: &impl Abort, s: &mut Structs, id: u32, members: Items<Member>) {
    match s.as_slice().get(id as usize) {
        Some(def) => assert!(rt; def.members.is_none()),
        None => panic!(rt; "no structure {id}"),
    }
    assert!(rt; s.complete(id, members), "structure {id}");
}

fn members_of_x(alloc: Global) -> Result<Items<Member>, NoMemory> {
    let mut members = Items::new(alloc);
    members.push(member_named(alloc, b"m", b"i")?)?;
    members.push(member_named(alloc, b"n", b"c3")?)?;
    members.push(member_named(alloc, b"r", b"hk")?)?;
    Ok(members)
}

fn members_of_z(alloc: Global) -> Result<Items<Member>, NoMemory> {
    let mut members = Items::new(alloc);
    members.push(member_named(alloc, b"m", b"i")?)?;
    Ok(members)
}

impl Types {
    pub fn new(alloc: Global, rt: &impl Abort) -> Result<Types, NoMemory> {
        let mut structs = Structs::new(alloc);
        structs.declare(None, false)?;
        structs.declare(None, false)?;
        structs.declare(None, false)?;
        complete(rt, &mut structs, 0, members_of_x(alloc)?);
        complete(rt, &mut structs, 2, members_of_z(alloc)?);
        let mut known = Vec::new(alloc);
        known.push(members_hold_const(&[], structs.members(0)))?;
        known.push(false)?;
        known.push(members_hold_const(&[], structs.members(2)))?;
        Ok(Types { structs, known })
    }
}

fn pop(stack: &mut Stack) -> Made {
    stack.pop().ok_or(TypeFault::NoMemory)
}

fn key(alloc: Global, text: &[u8]) -> Result<Key, NoMemory> {
    Ok(Key {
        module: None,
        name: name(alloc, text)?,
    })
}

fn value_of(text: &[u8]) -> u32 {
    let mut n: u32 = 0;
    for digit in text {
        n = n
            .wrapping_mul(10)
            .wrapping_add(u32::from(digit.wrapping_sub(b'0')));
    }
    n
}

fn operator(letter: Option<&u8>) -> Binary {
    match letter {
        Some(b'+') => Binary::Add,
        Some(b'-') => Binary::Subtract,
        Some(b'*') => Binary::Multiply,
        Some(b'/') => Binary::Divide,
        Some(b'%') => Binary::Remainder,
        Some(b'&') => Binary::And,
        Some(b'|') => Binary::Or,
        Some(b'^') => Binary::Xor,
        Some(b'<') => Binary::Less,
        Some(b'>') => Binary::Greater,
        Some(b'l') => Binary::LessEqual,
        Some(b'g') => Binary::GreaterEqual,
        Some(b'e') => Binary::Equal,
        Some(b'n') => Binary::NotEqual,
        Some(b's') => Binary::ShiftLeft,
        Some(b'r') => Binary::ShiftRight,
        Some(b'a') => Binary::LogicalAnd,
        _ => Binary::LogicalOr,
    }
}

fn long_text(alloc: Global, n: usize) -> Made {
    let text = vec![in alloc; b'a'; n].map_err(NoMemory::from)?;
    literal(alloc, LINE, 3, &Bytes::from_vec(text))
}

fn leaf(alloc: Global, structs: &Structs, first: u8, rest: &[u8]) -> Made {
    match first {
        b':' => Ok(automatic(alloc, LINE, &read(alloc, rest)?, 1, 2)?),
        b'$' => Ok(static_object(alloc, LINE, &read(alloc, rest)?, &key(alloc, b"o")?)?),
        b'@' => function(alloc, LINE, false, &read(alloc, rest)?, &key(alloc, b"f")?),
        b'P' => function(
            alloc,
            LINE,
            false,
            &read(alloc, rest)?,
            &key(alloc, b"printf")?,
        ),
        b'Q' => function(
            alloc,
            LINE,
            true,
            &read(alloc, rest)?,
            &key(alloc, b"printf")?,
        ),
        b'#' => Ok(number(alloc, LINE, value_of(rest), Int::Int)?),
        b'U' => constant(
            alloc,
            LINE,
            Some(Constant {
                value: value_of(rest),
                of: Int::UInt,
            }),
        ),
        b'C' => constant(alloc, LINE, None),
        b'"' => literal(alloc, LINE, 3, &Bytes::from_slice(alloc, rest)?),
        b'Z' => long_text(alloc, 1_048_576),
        b'Y' => long_text(alloc, 1_048_575),
        b'T' => size_of_type(alloc, structs, LINE, &read(alloc, rest)?),
        _ => offset_of_member(
            alloc,
            structs,
            LINE,
            &CType::Struct(0, false),
            &name(alloc, rest)?,
        ),
    }
}

// An address as a number whose type tells what it is of.
fn address_number(alloc: Global, place: Located) -> Made {
    let kind = match &place.base {
        Base::Null => Int::Int,
        Base::Static(_) => Int::UInt,
        Base::Function(_) => Int::Long,
        Base::Literal(_) => Int::ULong,
    };
    Ok(number(alloc, LINE, place.offset, kind)?)
}

fn address_of(alloc: Global, e: &CoreExpr) -> Made {
    let place = address_constant(alloc, LINE, e)?;
    address_number(alloc, place)
}

fn folded(alloc: Global, e: &CoreExpr) -> Made {
    let (n, k) = integer_constant(LINE, e)?;
    Ok(number(alloc, LINE, n, k)?)
}

fn prefix(alloc: Global, structs: &Structs, letter: Option<&u8>, a: Shared<CoreExpr>) -> Made {
    match letter {
        Some(b'+') => unary(alloc, structs, LINE, UnaryOperator::Plus, a),
        Some(b'-') => unary(alloc, structs, LINE, UnaryOperator::Minus, a),
        Some(b'~') => unary(alloc, structs, LINE, UnaryOperator::Complement, a),
        Some(b'!') => unary(alloc, structs, LINE, UnaryOperator::Not, a),
        Some(b'&') => address(alloc, LINE, false, a),
        Some(b'r') => address(alloc, LINE, true, a),
        _ => indirection(alloc, structs, LINE, a),
    }
}

fn stepped(alloc: Global, types: &Types, letter: Option<&u8>, a: Shared<CoreExpr>) -> Made {
    let how = match letter {
        Some(b'+') => Step::IncrementFirst,
        Some(b'-') => Step::DecrementFirst,
        Some(b'<') => Step::IncrementAfter,
        _ => Step::DecrementAfter,
    };
    step(alloc, &types.structs, types.known.as_slice(), LINE, how, a)
}

fn of_one(alloc: Global, types: &Types, first: u8, rest: &[u8], a: Shared<CoreExpr>) -> Made {
    let structs = &types.structs;
    match first {
        b'(' => cast(alloc, structs, LINE, &read(alloc, rest)?, a),
        b'S' => size_of_type(alloc, structs, LINE, type_of(a.get())),
        b'.' => member(alloc, structs, LINE, a, &name(alloc, rest)?),
        b'M' => arrow(alloc, structs, LINE, a, &name(alloc, rest)?),
        b'A' => assigned(alloc, structs, LINE, &read(alloc, rest)?, a),
        b'K' => folded(alloc, a.get()),
        b'L' => address_of(alloc, a.get()),
        b'V' => Ok(valued(alloc, LINE, a)?),
        b's' => stepped(alloc, types, rest.first(), a),
        _ => prefix(alloc, structs, rest.first(), a),
    }
}

fn of_two(
    alloc: Global,
    types: &Types,
    first: u8,
    rest: &[u8],
    a: Shared<CoreExpr>,
    b: Shared<CoreExpr>,
) -> Made {
    let structs = &types.structs;
    let known = types.known.as_slice();
    match first {
        b'b' => binary(alloc, structs, LINE, operator(rest.first()), a, b),
        b'=' => assignment(alloc, structs, known, LINE, a, b),
        b'a' => compound(alloc, structs, known, LINE, operator(rest.first()), a, b),
        b'[' => index(alloc, structs, LINE, a, b),
        _ => Ok(comma(alloc, LINE, a, b)?),
    }
}

fn called(alloc: Global, structs: &Structs, stack: &mut Stack, count: u32) -> Made {
    let mut args = Vec::new(alloc);
    for _ in 0..count {
        args.push(pop(stack)?).map_err(NoMemory::from)?;
    }
    args.reverse();
    let f = pop(stack)?;
    call(alloc, structs, LINE, f, args.as_slice())
}

fn chosen(alloc: Global, structs: &Structs, stack: &mut Stack) -> Made {
    let d = pop(stack)?;
    let b = pop(stack)?;
    let a = pop(stack)?;
    conditional(alloc, structs, LINE, a, b, d)
}

fn built(alloc: Global, types: &Types, stack: &mut Stack, first: u8, rest: &[u8]) -> Made {
    match first {
        b':' | b'$' | b'@' | b'P' | b'Q' | b'#' | b'U' | b'C' | b'"' | b'T' | b'O' | b'Z' | b'Y' =>
            { leaf(alloc, &types.structs, first, rest) }
        b'b' | b'=' | b'a' | b'[' | b',' => {
            let b = pop(stack)?;
            let a = pop(stack)?;
            of_two(alloc, types, first, rest, a, b)
        }
        b'c' => called(alloc, &types.structs, stack, value_of(rest)),
        b'?' => chosen(alloc, &types.structs, stack),
        _ => {
            let a = pop(stack)?;
            of_one(alloc, types, first, rest, a)
        }
    }
}

fn word(alloc: Global, types: &Types, stack: &mut Stack, text: &[u8]) -> Result<(), TypeFault> {
    if let [first, rest @ ..] = text {
        let e = built(alloc, types, stack, *first, rest)?;
        stack.push(e).map_err(NoMemory::from)?;
    }
    Ok(())
}

// The tree on top of the stack after all words.
pub fn run(alloc: Global, types: &Types, words: &str) -> Made {
    let mut stack = Vec::new(alloc);
    for text in words.split(' ') {
        word(alloc, types, &mut stack, text.as_bytes())?;
    }
    pop(&mut stack)
}
