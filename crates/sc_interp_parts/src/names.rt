// What the names of a running call stand for, and what is said of one that has no definition (ANSI 3.1.2.4, 3.3.1).
ghost use Rattle.std.specs.Prelude.{◌≡◌, slice_index, slice_get, IfOk, MatchOption, None, Some};
ghost use Rattle.sc_program.specs.declared.storage.StaticId.TheVariants as id;
ghost use Rattle.sc_meaning.specs.World.{named_in};
ghost use Rattle.sc_meaning.specs.Expressions as spec;
ghost use Rattle.sc_interp_access.specs.Gives.{Gives};

use crate::answers::at_place;
use sc_base::{Duplicate, Key, NoMemory, Rule, Shared};
use sc_core_held::Text;
use sc_interp_access::{Breach, Stop, breach};
use sc_interp_world::{Born, World};
use sc_meaning_values::{Answer, Shape, Value};

/// The object of an entered block, by the block's number and its place in it.
pub fn automatic_in(blocks: &[Born], b: u32, i: u32) -> Value
    ensures { result ≡ spec.automatic_in blocks.now b i }
{
    for o in blocks {
        if o.block == b {
            return Value::pointer(number_at(o.ids.as_slice(), i), 0);
        }
    }
    Value::null()
}

fn number_at(ids: &[u32], i: u32) -> u32
    ensures { result ≡ slice_index ids.now i }
{
    match ids.get(i as usize) {
        Some(id) => *id,
        None => 0,
    }
}

/// What is said of a name that has no definition.
pub fn undefined_name(key: &Key, world: &World) -> Result<Shared<Breach>, NoMemory>
    ensures { IfOk result (λ b. b ≡ spec.undefined_name key.now world.now) }
{
    let mut told = breach(Rule::U17, world)?;
    told.name = Some(key.copy(world.alloc())?);
    Shared::new(world.alloc(), told)
}

/// An object of static storage duration.
///
/// # Errors
///
/// `U17` where none has this name.
pub fn static_place(key: &Key, world: &mut World) -> Result<Answer, Stop>
    ensures { Gives (spec.static_at key.now (named_in world.old.names (id.Named key.now)) world.old) result world.new }
{
    match world.keyed(key) {
        None => {
            let told = undefined_name(key, world)?;
            Err(Stop::Undefined(told))
        }
        Some(o) => at_place(Value::pointer(o, 0), world),
    }
}

fn literal_at(o: Option<u32>) -> Value
    ensures { result ≡ spec.literal_at o }
{
    match o {
        None => Value::null(),
        Some(o) => Value::pointer(o, 0),
    }
}

/// A literal, by its place among those of the text.
pub fn literal_of(t: &Text, i: u32, world: &World) -> Value
    ensures { result ≡ spec.literal_of t.now (slice_get t.now.core.literals i) world.now }
{
    let core = t.core.get();
    match core.literals.as_slice().get(i as usize) {
        None => Value::null(),
        Some(bytes) => literal_at(world.literal(&core.name, bytes)),
    }
}

fn name_in(v: &Value, world: &World) -> Result<Option<Key>, NoMemory>
    ensures { IfOk result (λ name. name ≡ spec.name_in v.now) }
{
    match &v.shape {
        Shape::FunctionAt(key) => Ok(Some(key.get().copy(world.alloc())?)),
        Shape::Number(_) => Ok(None),
        Shape::Pointer(_, _) => Ok(None),
    }
}

/// What is said of a call whose value is no function of its type.
pub fn call_breach(v: &Value, world: &World, rule: Rule) -> Result<Shared<Breach>, NoMemory>
    ensures { IfOk result (λ b. b ≡ spec.call_breach v.now world.now rule) }
{
    let mut told = breach(rule, world)?;
    told.left = v.copy(world.alloc())?;
    told.name = name_in(v, world)?;
    Shared::new(world.alloc(), told)
}
