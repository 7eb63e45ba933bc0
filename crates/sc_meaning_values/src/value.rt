// Values (ANSI 3.1.2.5).
ghost use Rattle.std.specs.Prelude.{◌≡◌, IfOk, Bool};
ghost use Rattle.sc_meaning.specs.Values as spec;

use sc_base::{Duplicate, Key, NoMemory, Shared};
use std::alloc::Global;
use std::marker::Model;

/// What a value is.
#[derive(Drop)]
pub enum Shape {
    Number(u32),
    FunctionAt(Shared<Key>),
    Pointer(u32, u32),
}

/// A number of 32 bits, a function by its key, or a place in an object: the object's number, counted from 1, and an
/// offset in bytes. Null is the number 0.
#[derive(Drop)]
pub struct Value {
    pub shape: Shape,
}

impl Model for Value {
    ghost use Rattle.sc_meaning_values.specs.Shapes.{value_of};
    ghost use Rattle.sc_meaning.specs.Values as spec;

    ghost Value = { spec.Value };

    ghost view = { λ v. value_of v.shape };
}

impl Value {
    /// A number.
    pub fn number(n: u32) -> Value
        ensures { result ≡ spec.Number n }
    {
        Value {
            shape: Shape::Number(n),
        }
    }

    /// Null.
    pub fn null() -> Value
        ensures { result ≡ spec.null }
    {
        Value::number(0)
    }

    /// A function.
    pub fn function(key: Shared<Key>) -> Value
        ensures { result ≡ spec.FunctionAt key }
    {
        Value {
            shape: Shape::FunctionAt(key),
        }
    }

    /// A place in an object.
    pub fn pointer(object: u32, offset: u32) -> Value
        ensures { result ≡ spec.Pointer object offset }
    {
        Value {
            shape: Shape::Pointer(object, offset),
        }
    }

    /// Whether two values are the same.
    pub fn same(&self, other: &Value) -> bool
        ensures { result ≡ spec.same_value self.now other.now }
    {
        match (&self.shape, &other.shape) {
            (Shape::Number(a), Shape::Number(b)) => *a == *b,
            (Shape::FunctionAt(a), Shape::FunctionAt(b)) => same_key(a.get(), b.get()),
            (Shape::Pointer(o, i), Shape::Pointer(p, j)) => *o == *p && *i == *j,
            _ => false,
        }
    }
}

/// Whether two keys are the same.
pub fn same_key(a: &Key, b: &Key) -> bool
    ensures { result ≡ spec.same_key a.now b.now }
{
    let same = match (&a.module, &b.module) {
        (None, None) => true,
        (Some(m), Some(n)) => *m == *n,
        _ => false,
    };
    same && a.name == b.name
}

impl Duplicate for Value {
    fn copy(&self, _: Global) -> Result<Value, NoMemory> {
        match &self.shape {
            Shape::Number(n) => Ok(Value::number(*n)),
            Shape::FunctionAt(key) => Ok(Value::function(key.share()?)),
            Shape::Pointer(o, i) => Ok(Value::pointer(*o, *i)),
        }
    }
}
