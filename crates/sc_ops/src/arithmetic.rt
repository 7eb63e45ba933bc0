// The operators of expressions on integers (ANSI 3.3).
ghost use Rattle.std.specs.Prelude.{◌≡◌, ◌<◌, ◌≤◌, pos, ◌+ℤ◌, ◌-ℤ◌, ◌*ℤ◌, neg_ℤ, int_div, int_rem, IsTrue, Ok, Err, nat_lt, if◌then◌else◌};
ghost use Rattle.sc_ops.specs.Numbers.{bits_of};
ghost use Rattle.sc_ops.specs.Operators.{result_of, shifted_down, checked, divided};

use sc_base::{Int, Op, Rule};

/// The result of an operator on two operands of 32 bits (ANSI 3.3), as 32 bits. The operator works in `i` after
/// integral promotion: in `unsigned int` or `unsigned long` where `i` is one of these, else in `int`.
///
/// A binary operator takes `a` and `b`. `Neg` and `Not` stand before their operand and take it in `b`; `Inc`, `Dec` and
/// `Truth` take it in `a`. They don't look at the other one. A comparison gives 0 or 1, as does `Truth`, which tells
/// whether the operand differs from 0. A quotient is rounded toward zero. A left shift moves bits and never overflows;
/// a right shift of a negative number copies the sign.
///
/// # Errors
///
/// - `U8`: the divisor of `Div` or `Rem` is 0.
/// - `U9`: the count of a shift is above 31. A count that is negative as an `int` has its top bit set and is so too.
/// - `U7`: a signed result of `Add`, `Sub`, `Mul`, `Div`, `Neg`, `Inc` or `Dec` is out of range, or the quotient that
///   `Rem` rests on.
pub fn arith(op: Op, i: Int, a: u32, b: u32) -> Result<u32, Rule>
    ensures { result ≡ result_of op i a b }
{
    match i {
        Int::UInt | Int::ULong => unsigned(op, a, b),
        Int::Char | Int::SChar | Int::UChar | Int::Short | Int::UShort | Int::Int | Int::Long =>
            signed(op, a, b),
    }
}

// An operator in `unsigned int`, whose results are taken modulo 2^32 (ANSI 3.1.2.5).
fn unsigned(op: Op, a: u32, b: u32) -> Result<u32, Rule>
    ensures { result ≡ result_of op Int.UInt a b }
{
    match op {
        Op::Add => Ok(a.wrapping_add(b)),
        Op::Sub => Ok(a.wrapping_sub(b)),
        Op::Mul => Ok(a.wrapping_mul(b)),
        Op::Div => a.checked_div(b).ok_or(Rule::U8),
        Op::Rem => a.checked_rem(b).ok_or(Rule::U8),
        Op::Neg => Ok(b.wrapping_neg()),
        Op::Inc => Ok(a.wrapping_add(1)),
        Op::Dec => Ok(a.wrapping_sub(1)),
        Op::Shr => a.checked_shr(b).ok_or(Rule::U9),
        Op::Lt => Ok(u32::from(a < b)),
        Op::Gt => Ok(u32::from(b < a)),
        Op::Le => Ok(u32::from(a <= b)),
        Op::Ge => Ok(u32::from(b <= a)),
        Op::Shl => a.checked_shl(b).ok_or(Rule::U9),
        Op::And => Ok(a & b),
        Op::Or => Ok(a | b),
        Op::Xor => Ok(a ^ b),
        Op::Not => Ok(!b),
        Op::Eq => Ok(u32::from(a == b)),
        Op::Ne => Ok(u32::from(a != b)),
        Op::Truth => Ok(u32::from(a != 0)),
    }
}

// An operator in `int`.
fn signed(op: Op, a: u32, b: u32) -> Result<u32, Rule>
    ensures { result ≡ result_of op Int.Int a b }
{
    let (x, y) = (a.cast_signed(), b.cast_signed());
    match op {
        Op::Add => sum(x, y),
        Op::Sub => difference(x, y),
        Op::Mul => product(x, y),
        Op::Div => quotient(x, y),
        Op::Rem => remainder(x, y),
        Op::Neg => difference(0, y),
        Op::Inc => sum(x, 1),
        Op::Dec => difference(x, 1),
        Op::Shr => shifted_right(x, b),
        Op::Lt => Ok(u32::from(x < y)),
        Op::Gt => Ok(u32::from(y < x)),
        Op::Le => Ok(u32::from(x <= y)),
        Op::Ge => Ok(u32::from(y <= x)),
        // These look at bits alone.
        Op::Shl | Op::And | Op::Or | Op::Xor | Op::Not | Op::Eq | Op::Ne | Op::Truth => unsigned(
            op, a, b,
        ),
    }
}

// The bits of a signed sum, if it is in range.
fn sum(x: i32, y: i32) -> Result<u32, Rule>
    ensures { result ≡ checked (x +ℤ y) (x +ℤ y) }
{
    let n = x.checked_add(y).ok_or(Rule::U7)?;
    Ok(n.cast_unsigned())
}

// The bits of a signed difference, if it is in range.
fn difference(x: i32, y: i32) -> Result<u32, Rule>
    ensures { result ≡ checked (x -ℤ y) (x -ℤ y) }
{
    let n = x.checked_sub(y).ok_or(Rule::U7)?;
    Ok(n.cast_unsigned())
}

// The bits of a signed product, if it is in range.
fn product(x: i32, y: i32) -> Result<u32, Rule>
    ensures { result ≡ checked (x *ℤ y) (x *ℤ y) }
{
    let n = x.checked_mul(y).ok_or(Rule::U7)?;
    Ok(n.cast_unsigned())
}

// The bits of a signed quotient, which is rounded toward zero.
fn quotient(x: i32, y: i32) -> Result<u32, Rule>
    ensures { result ≡ divided y (checked (int_div x y) (int_div x y)) }
{
    if y == 0 {
        return Err(Rule::U8);
    }
    let n = x.checked_div(y).ok_or(Rule::U7)?;
    Ok(n.cast_unsigned())
}

// The bits of a signed remainder, if the quotient is in range.
fn remainder(x: i32, y: i32) -> Result<u32, Rule>
    ensures { result ≡ divided y (checked (int_div x y) (int_rem x y)) }
{
    if y == 0 {
        return Err(Rule::U8);
    }
    let n = x.checked_rem(y).ok_or(Rule::U7)?;
    Ok(n.cast_unsigned())
}

// The bits of a signed number after a shift that copies its sign.
fn shifted_right(x: i32, count: u32) -> Result<u32, Rule>
    ensures { result ≡ (if nat_lt 31 count then Err Rule.U9 else Ok (bits_of (shifted_down x count))) }
{
    let n = x.checked_shr(count).ok_or(Rule::U9)?;
    Ok(n.cast_unsigned())
}
