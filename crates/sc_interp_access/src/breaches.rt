// What is said of an undefined step.
ghost use Rattle.std.specs.Prelude.{◌≡◌, ◌+◌, [], IfOk, MatchOption, Some, None};
ghost use Rattle.sc_meaning.specs.Outcomes as spec;
ghost use Rattle.sc_meaning.specs.Values as value;

use crate::stop::Breach;
use sc_base::{Duplicate, Form, Int, Key, NoMemory, Op, Rule, Shared};
use sc_interp_world::World;
use sc_meaning_values::{Shape, Value};
use std::alloc::Global;

// The line that an interpreted call has.
fn line_in(form: Form, line: u32) -> u32
    ensures { result ≡ spec.line_in form line }
{
    match form {
        Form::Source => line,
        Form::Object => 0,
    }
}

/// The line of the innermost call.
pub fn line_of(world: &World) -> u32
    ensures { result ≡ spec.line_of world.now.frames }
{
    match world.innermost() {
        None => 0,
        Some(frame) => line_in(frame.form, frame.line),
    }
}

/// A sum of 32 bits.
pub fn sum(a: u32, b: u32) -> Result<u32, NoMemory>
    ensures { IfOk result (λ n. n ≡ a + b) }
{
    let Some(n) = a.checked_add(b) else {
        return Err(NoMemory)
    };
    Ok(n)
}

/// A place further on in its object.
pub fn moved(p: &Value, k: u32, alloc: Global) -> Result<Value, NoMemory>
    ensures { IfOk result (λ v. v ≡ spec.moved p.now k) }
{
    match &p.shape {
        Shape::Number(n) => Ok(Value::number(*n)),
        Shape::FunctionAt(f) => Ok(Value::function(f.share()?)),
        Shape::Pointer(o, i) => Ok(Value::pointer(*o, sum(*i, k)?)),
    }
}

/// A breach of which nothing is said but its rule and its place in the program. A step is undefined in a call, so where
/// none is active there is no answer.
pub fn breach(rule: Rule, world: &World) -> Result<Breach, NoMemory>
    ensures { IfOk result (λ b. b ≡ spec.breach rule world.now) }
{
    let Some(frame) = world.innermost() else {
        return Err(NoMemory)
    };
    Ok(Breach {
        rule,
        op: Op::Truth,
        at: Value::null(),
        size: 0,
        left: Value::null(),
        right: Value::null(),
        int: Int::Int,
        right_int: Int::Int,
        fun: frame.key.copy(world.alloc())?,
        line: line_in(frame.form, frame.line),
        name: None,
        argument: 0,
    })
}

/// A breach at an access of n bytes.
pub fn access_breach(
    p: &Value,
    further: u32,
    n: u32,
    world: &World,
    rule: Rule,
) -> Result<Shared<Breach>, NoMemory>
    ensures { IfOk result (λ b. b ≡ spec.access_breach p.now further n world.now rule) }
{
    let mut told = breach(rule, world)?;
    told.at = moved(p, further, world.alloc())?;
    told.size = n;
    Shared::new(world.alloc(), told)
}

/// A breach by the operands of an operator.
pub fn operand_breach(
    op: Op,
    i: Int,
    x: &Value,
    j: Int,
    y: &Value,
    world: &World,
    rule: Rule,
) -> Result<Shared<Breach>, NoMemory>
    ensures { IfOk result (λ b. b ≡ spec.operand_breach op i x.now j y.now world.now rule) }
{
    let mut told = breach(rule, world)?;
    told.op = op;
    told.left = x.copy(world.alloc())?;
    told.right = y.copy(world.alloc())?;
    told.int = i;
    told.right_int = j;
    Shared::new(world.alloc(), told)
}
