// Trees in short: `<T e>` is a conversion of e to T, `(op T ..)` an operation of type T.
use sc_base::{NoMemory, Op, Shared};
use sc_core::{CoreExpr, Step, UnaryOperator, type_of};
use sc_types::CType;

fn put(out: &mut Vec<u8>, text: &str) -> Result<(), NoMemory> {
    out.extend_from_slice(text.as_bytes())?;
    Ok(())
}

fn digits(out: &mut Vec<u8>, n: u32) -> Result<(), NoMemory> {
    let mut power: u32 = 1_000_000_000;
    let mut begun = false;
    for _ in 0..10 {
        let digit = (n.checked_div(power).unwrap_or(0) % 10) as u8;
        if digit != 0 || begun || power == 1 {
            out.push(b'0'.wrapping_add(digit))?;
            begun = true;
        }
        power /= 10;
    }
    Ok(())
}

fn constant(out: &mut Vec<u8>, c: bool) -> Result<(), NoMemory> {
    if c { put(out, "k") } else { Ok(()) }
}

fn integer(k: sc_base::Int) -> &'static str {
    match k {
        sc_base::Int::Char => "c",
        sc_base::Int::SChar => "a",
        sc_base::Int::UChar => "u",
        sc_base::Int::Short => "h",
        sc_base::Int::UShort => "w",
        sc_base::Int::Int => "i",
        sc_base::Int::UInt => "n",
        sc_base::Int::Long => "l",
        sc_base::Int::ULong => "m",
    }
}

fn letter(id: u32) -> &'static str {
    match id {
        0 => "x",
        1 => "y",
        _ => "z",
    }
}

fn show_type(out: &mut Vec<u8>, of: &CType) -> Result<(), NoMemory> {
    match of {
        CType::Void(c) => {
            put(out, "v")?;
            constant(out, *c)
        }
        CType::Int(k, c) => {
            put(out, integer(*k))?;
            constant(out, *c)
        }
        CType::Pointer(u, c) => {
            show_type(out, u.get())?;
            put(out, "*")?;
            constant(out, *c)
        }
        CType::Array(u, n) => {
            show_type(out, u.get())?;
            digits(out, *n)
        }
        CType::Struct(id, c) => {
            put(out, letter(*id))?;
            constant(out, *c)
        }
        CType::Function(f) => put(out, if f.get().variadic { "g" } else { "f" }),
    }
}

fn op_name(op: Op) -> &'static str {
    match op {
        Op::Add => "+",
        Op::Sub => "-",
        Op::Mul => "*",
        Op::Div => "/",
        Op::Rem => "%",
        Op::Shl => "<<",
        Op::Shr => ">>",
        Op::And => "&",
        Op::Or => "|",
        Op::Xor => "^",
        Op::Lt => "<",
        Op::Gt => ">",
        Op::Le => "<=",
        Op::Ge => ">=",
        Op::Eq => "==",
        Op::Ne => "!=",
        _ => "?",
    }
}

fn unary_name(op: UnaryOperator) -> &'static str {
    match op {
        UnaryOperator::Plus => "pos",
        UnaryOperator::Minus => "neg",
        UnaryOperator::Complement => "~",
        UnaryOperator::Not => "!",
    }
}

fn step_name(how: Step) -> &'static str {
    match how {
        Step::IncrementFirst => "++",
        Step::DecrementFirst => "--",
        Step::IncrementAfter => "x++",
        Step::DecrementAfter => "x--",
    }
}

// The node's name, and the number that stands in it.
fn name_of(e: &CoreExpr) -> (&'static str, u32) {
    match e {
        CoreExpr::Index(_, _, n, _, _) => ("[]", *n),
        CoreExpr::Call(_, _, _, _) => ("call", 0),
        CoreExpr::Member(_, _, n, _) => (".", *n),
        CoreExpr::Arrow(_, _, n, _) => ("->", *n),
        CoreExpr::Step(_, _, how, n, _) => (step_name(*how), *n),
        CoreExpr::Address(_, _, _) => ("addr", 0),
        CoreExpr::Indirection(_, _, _) => ("ind", 0),
        CoreExpr::Unary(_, _, op, _) => (unary_name(*op), 0),
        CoreExpr::Cast(_, _, _) => ("cast", 0),
        CoreExpr::Binary(_, _, op, _, _) => (op_name(*op), 0),
        CoreExpr::Offset(_, _, op, n, _, _) => (op_name(*op), *n),
        CoreExpr::Difference(_, _, n, _, _) => ("diff", *n),
        CoreExpr::Compare(_, _, op, _, _) => (op_name(*op), 0),
        CoreExpr::And(_, _, _, _) => ("&&", 0),
        CoreExpr::Or(_, _, _, _) => ("||", 0),
        CoreExpr::Conditional(_, _, _, _, _) => ("?", 0),
        CoreExpr::Assign(_, _, _, _) => ("=", 0),
        CoreExpr::AssignStructure(_, _, n, _, _) => ("=", *n),
        CoreExpr::Compound(_, _, op, _, _, _) => (op_name(*op), 0),
        CoreExpr::CompoundOffset(_, _, op, n, _, _) => (op_name(*op), *n),
        CoreExpr::Comma(_, _, _, _) => (",", 0),
        _ => ("?", 0),
    }
}

// What stands behind the name: the sign of an assignment, with the type in which a compound one works.
fn sign(out: &mut Vec<u8>, e: &CoreExpr) -> Result<(), NoMemory> {
    match e {
        CoreExpr::Compound(_, _, _, k, _, _) => {
            put(out, "=")?;
            put(out, integer(*k))
        }
        CoreExpr::CompoundOffset(_, _, _, _, _, _) => put(out, "="),
        _ => Ok(()),
    }
}

fn operand(e: &CoreExpr, k: usize) -> Option<&Shared<CoreExpr>> {
    match e {
        CoreExpr::Index(_, _, _, a, b)
        | CoreExpr::Binary(_, _, _, a, b)
        | CoreExpr::Offset(_, _, _, _, a, b)
        | CoreExpr::Difference(_, _, _, a, b)
        | CoreExpr::Compare(_, _, _, a, b)
        | CoreExpr::And(_, _, a, b)
        | CoreExpr::Or(_, _, a, b)
        | CoreExpr::Assign(_, _, a, b)
        | CoreExpr::AssignStructure(_, _, _, a, b)
        | CoreExpr::Compound(_, _, _, _, a, b)
        | CoreExpr::CompoundOffset(_, _, _, _, a, b)
        | CoreExpr::Comma(_, _, a, b) => match k {
            0 => Some(a),
            1 => Some(b),
            _ => None,
        },
        CoreExpr::Conditional(_, _, a, b, d) => match k {
            0 => Some(a),
            1 => Some(b),
            2 => Some(d),
            _ => None,
        },
        CoreExpr::Member(_, _, _, a)
        | CoreExpr::Arrow(_, _, _, a)
        | CoreExpr::Step(_, _, _, _, a)
        | CoreExpr::Address(_, _, a)
        | CoreExpr::Indirection(_, _, a)
        | CoreExpr::Unary(_, _, _, a)
        | CoreExpr::Cast(_, _, a) => { if k == 0 { Some(a) } else { None } }
        CoreExpr::Call(_, _, f, args) => {
            if k == 0 {
                Some(f)
            } else {
                args.as_slice().get(k - 1)
            }
        }
        _ => None,
    }
}

fn leaf(out: &mut Vec<u8>, name: &str, of: &CType) -> Result<(), NoMemory> {
    put(out, name)?;
    show_type(out, of)
}

fn head(out: &mut Vec<u8>, e: &CoreExpr) -> Result<(), NoMemory> {
    let (name, n) = name_of(e);
    put(out, "(")?;
    put(out, name)?;
    sign(out, e)?;
    if n != 0 {
        digits(out, n)?;
    }
    put(out, " ")?;
    show_type(out, type_of(e))
}

// The tree, so many levels deep.
pub fn show(out: &mut Vec<u8>, e: &CoreExpr, depth: u32) -> Result<(), NoMemory> {
    let Some(rest) = depth.checked_sub(1) else {
        return put(out, "..");
    };
    match e {
        CoreExpr::Number(_, of, n) => {
            digits(out, *n)?;
            show_type(out, of)
        }
        CoreExpr::Literal(_, of, _) => leaf(out, "\"", of),
        CoreExpr::Automatic(_, of, _, _) => leaf(out, ":", of),
        CoreExpr::Static(_, of, _) => leaf(out, "$", of),
        CoreExpr::Function(_, of, _) => leaf(out, "@", of),
        CoreExpr::Convert(_, of, a) => {
            leaf(out, "<", of)?;
            put(out, " ")?;
            show(out, a.get(), rest)?;
            put(out, ">")
        }
        _ => {
            head(out, e)?;
            for k in 0..4 {
                if let Some(a) = operand(e, k) {
                    put(out, " ")?;
                    show(out, a.get(), rest)?;
                }
            }
            put(out, ")")
        }
    }
}
