// What is done with an answer: it is used as a value, its address is taken, it is read, an expression ends with it
// (ANSI 3.2.2.1, 3.3).
ghost use Rattle.std.specs.Prelude.{◌≡◌, ◌+◌, IfOk};
ghost use Rattle.sc_types.specs.declared.ctype.CType.{out-CType};
ghost use Rattle.sc_meaning.specs.Accesses as access;
ghost use Rattle.sc_meaning.specs.Expressions as spec;
ghost use Rattle.sc_meaning.specs.Outcomes as outcome;
ghost use Rattle.sc_interp_access.specs.Gives.{Gives};

use sc_base::{NoMemory, Rule, Shared};
use sc_interp_access::{Stop, as_type, breach, loaded, member_address, sum, tested, truth_number};
use sc_interp_world::World;
use sc_meaning_values::{Answer, Held, Value};
use sc_types::CType;

/// A value is used.
///
/// # Errors
///
/// `U13` where a call gave none.
pub fn used(a: Answer, world: &World) -> Result<Value, Stop>
    ensures { Gives (spec.used a world.now) result world.now }
{
    match a.held {
        Held::Plain(v) => Ok(v),
        Held::Place(p) => Ok(p),
        Held::Part(p, _) => Ok(p),
        Held::Nothing => {
            let told = Shared::new(world.alloc(), breach(Rule::U13, world)?)?;
            Err(Stop::Undefined(told))
        }
    }
}

/// An expression ends.
pub fn finished(a: Answer, world: &mut World) -> Result<Answer, Stop>
    ensures { Gives (spec.finished a world.old) result world.new }
{
    world.tick()?;
    Ok(a)
}

/// An expression ends with a value.
pub fn plain(v: Value, world: &mut World) -> Result<Answer, Stop>
    ensures { Gives (spec.plain v world.old) result world.new }
{
    finished(Answer::plain(v), world)
}

/// An expression ends with a place.
pub fn at_place(p: Value, world: &mut World) -> Result<Answer, Stop>
    ensures { Gives (spec.at_place p world.old) result world.new }
{
    finished(Answer::place(p), world)
}

/// A member of what an answer is, by its offset in bytes (3.3.2.3).
pub fn part_of(a: Answer, n: u32) -> Result<Answer, NoMemory>
    ensures { IfOk result (λ part. part ≡ spec.part_of a n) }
{
    match a.held {
        Held::Plain(v) => Ok(Answer::part(v, n)),
        Held::Place(p) => Ok(Answer::part(p, n)),
        Held::Part(p, m) => further_part(p, m, n),
        Held::Nothing => Ok(Answer::nothing()),
    }
}

fn further_part(p: Value, m: u32, n: u32) -> Result<Answer, NoMemory>
    ensures { IfOk result (λ part. part ≡ spec.Part p (m + n)) }
{
    let n = sum(m, n)?;
    Ok(Answer::part(p, n))
}

/// The address of a place (3.3.3.2): of a member it is arithmetic on the structure's.
///
/// # Errors
///
/// `U13` where there is none, else the rule that the arithmetic breaks.
pub fn address(a: Answer, world: &World) -> Result<Value, Stop>
    ensures { Gives (spec.address a world.now) result world.now }
{
    match a.held {
        Held::Plain(v) => Ok(v),
        Held::Place(p) => Ok(p),
        Held::Part(p, n) => member_address(&p, n, world),
        Held::Nothing => used(Answer::nothing(), world),
    }
}

// The value of a scalar type at some bytes past a pointer.
fn read_at(t: &CType, p: &Value, n: u32, world: &World) -> Result<Answer, Stop>
    ensures { Gives (outcome.and_then (access.loaded t.now p.now n world.now) (λ v w. outcome.Done (spec.Plain v) w)) result world.now }
{
    let v = loaded(t, p, n, world)?;
    Ok(Answer::plain(v))
}

// The value that a place of a scalar type holds (3.2.2.1).
fn read(t: &CType, a: Answer, world: &World) -> Result<Answer, Stop>
    ensures { Gives (spec.read t.now a world.now) result world.now }
{
    match a.held {
        Held::Plain(v) => Ok(Answer::plain(v)),
        Held::Place(p) => read_at(t, &p, 0, world),
        Held::Part(p, n) => read_at(t, &p, n, world),
        Held::Nothing => Ok(Answer::nothing()),
    }
}

fn decayed(a: Answer, world: &World) -> Result<Answer, Stop>
    ensures { Gives (spec.decayed a world.now) result world.now }
{
    let p = address(a, world)?;
    Ok(Answer::plain(p))
}

// An array becomes the address of its first element, a function its address; a structure stays a place (3.2.2.1).
fn read_as(t: &CType, a: Answer, world: &World) -> Result<Answer, Stop>
    ensures { Gives (spec.layer_read (out-CType t.now) t.now a world.now) result world.now }
{
    match t {
        CType::Void(_) => Ok(a),
        CType::Int(_, _) => read(t, a, world),
        CType::Pointer(_, _) => read(t, a, world),
        CType::Array(_, _) => decayed(a, world),
        CType::Struct(_, _) => Ok(a),
        CType::Function(_) => decayed(a, world),
    }
}

fn as_answer(t: &CType, a: Answer) -> Answer
    ensures { result ≡ spec.as_answer t.now a }
{
    match a.held {
        Held::Plain(v) => Answer::plain(as_type(t, v)),
        Held::Place(p) => Answer::place(p),
        Held::Part(p, n) => Answer::part(p, n),
        Held::Nothing => Answer::nothing(),
    }
}

/// A conversion from one type to another, which is no node of its own (3.2).
///
/// # Errors
///
/// The rule that a read of the place, or the arithmetic of its address, breaks.
pub fn conversion(from: &CType, to: &CType, a: Answer, world: &World) -> Result<Answer, Stop>
    ensures { Gives (spec.conversion from.now to.now a world.now) result world.now }
{
    let a = read_as(from, a, world)?;
    Ok(as_answer(to, a))
}

fn is_void(t: &CType) -> bool
    ensures { result ≡ spec.is_void t.now }
{
    match t {
        CType::Void(_) => true,
        CType::Int(_, _)
        | CType::Pointer(_, _)
        | CType::Array(_, _)
        | CType::Struct(_, _)
        | CType::Function(_) => false,
    }
}

/// A cast to void takes any answer, every other one a value (3.3.4).
///
/// # Errors
///
/// `U13` where a value is wanted and there is none.
pub fn cast(t: &CType, a: Answer, world: &mut World) -> Result<Answer, Stop>
    ensures { Gives (spec.cast (spec.is_void t.now) t.now a world.old) result world.new }
{
    if is_void(t) {
        return finished(Answer::nothing(), world);
    }
    let v = used(a, world)?;
    plain(as_type(t, v), world)
}

/// The value of an expression that is tested alone, 1 or 0 (3.3.13, 3.3.14).
///
/// # Errors
///
/// The rule that the test breaks.
pub fn truth(t: &CType, v: &Value, world: &mut World) -> Result<Answer, Stop>
    ensures { Gives (spec.truth t.now v.now world.old) result world.new }
{
    let yes = tested(t, v, world)?;
    plain(truth_number(yes), world)
}
