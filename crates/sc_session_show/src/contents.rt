// What an object holds.
ghost use Rattle.std.specs.Prelude.{◌≡◌, ◌+◌, ◌++◌, Some, IfOk, OnOk};
ghost use Rattle.sc_types.specs.Layouts.{beginning, is_union_in, rounded as multiple_from};
ghost use Rattle.sc_session_show.specs.Contents as spec;
ghost use Rattle.sc_session_show.specs.Tasks.{said, said_all, shows};

use crate::layouts::{BEGINNING, behind_member, extent, rounded, sum};
use crate::tasks::{Run, Scene, Task};
use sc_base::{NoMemory, Rule, Stack};
use sc_interp_access::{Stop, int_of, is_pointer_type, loaded};
use sc_meaning_values::Value;
use sc_session_texts::{Shown, put, put_decimal, value_text};
use sc_types::{CType, Layout, Member};
use std::alloc::Global;

/// The elements of an array that are shown.
const SHOWN_ELEMENTS: u32 = 16;

fn shown_as(t: &CType) -> Shown
    ensures { result ≡ spec.shown_as t.now }
{
    if is_pointer_type(t) {
        Shown::Address
    } else {
        Shown::Integer(int_of(t))
    }
}

fn broken(rule: Rule) -> &'static [u8]
    ensures { result.now ≡ spec.broken rule }
{
    match rule {
        Rule::U15 => b"??",
        _ => b"?",
    }
}

fn words(alloc: Global, bytes: &[u8]) -> Result<Vec<u8>, NoMemory>
    ensures { IfOk result (λ text. text.items ≡ bytes.now) }
{
    let text = Vec::from_slice(alloc, bytes)?;
    Ok(text)
}

// What is said where nothing can be read.
fn unread(alloc: Global, stop: &Stop) -> Result<Vec<u8>, NoMemory>
    ensures { IfOk result (λ text. spec.unread_at stop.now ≡ Some text.items) }
{
    match stop {
        Stop::NoRoom => Err(NoMemory),
        Stop::Undefined(b) => words(alloc, broken(b.get().rule)),
        Stop::Exit(_) => words(alloc, b"?"),
        Stop::StackFull(_) => words(alloc, b"?"),
        Stop::BirthLimit => words(alloc, b"?"),
    }
}

fn scalar_text(alloc: Global, s: &Scene, t: &CType, at: u32) -> Result<Vec<u8>, NoMemory>
    ensures { IfOk result (λ text. text.items ≡ spec.scalar_text s.now.world.now s.now.object t.now at) }
{
    match loaded(t, &Value::pointer(s.object, 0), at, s.world) {
        Ok(v) => value_text(alloc, s.world.objects(), shown_as(t), &v),
        Err(stop) => {
            let said = unread(alloc, &stop);
            drop(stop);
            said
        }
    }
}

// The end of an array, and how many of its elements are not shown.
fn put_end(text: &mut Vec<u8>, alloc: Global, more: u32) -> Result<(), NoMemory>
    ensures { OnOk result (text.new.items ≡ text.old.items ++ spec.behind (spec.more more)) }
{
    if more != 0 {
        put(text, b", more ")?;
        put_decimal(text, alloc, more)?;
    }
    put(text, b"}")
}

// The elements behind the first one.
#[tactic(auto, using(crate::proofs::ContentLemmas::elements_more))]
fn put_elements<'a>(
    s: &Scene<'a>,
    t: &'a CType,
    run: Run,
    n: usize,
    alloc: Global,
    text: &mut Vec<u8>,
    tasks: &mut Stack<Task<'a>>,
) -> Result<(), NoMemory>
    ensures { OnOk result (text.new.items ++ said_all s.now tasks.new ≡ text.old.items ++ spec.behind (spec.elements (shows s.now n t.now) run.size run.left run.at (spec.more run.more)) ++ said_all s.now tasks.old) }
{
    if run.left == 0 {
        return put_end(text, alloc, run.more);
    }
    put(text, b", ")?;
    let rest = Run {
        left: run.left - 1,
        at: sum(run.at, run.size)?,
        ..run
    };
    tasks.push(Task::Elements(t, rest, n))?;
    tasks.push(Task::Part(t, run.at, n))?;
    Ok(())
}

#[tactic(auto, using(crate::proofs::ContentLemmas::array_opened))]
fn put_array<'a>(
    s: &Scene<'a>,
    t: &'a CType,
    count: u32,
    at: u32,
    n: usize,
    text: &mut Vec<u8>,
    tasks: &mut Stack<Task<'a>>,
) -> Result<(), NoMemory>
    ensures { OnOk result (text.new.items ++ said_all s.now tasks.new ≡ text.old.items ++ spec.braced (spec.array_parts (shows s.now n t.now) (spec.extent s.now.structs.now t.now).size count at) ++ said_all s.now tasks.old) }
{
    if count == 0 {
        return put(text, b"{}");
    }
    put(text, b"{")?;
    let size = extent(t, s.structs).size;
    let run = Run {
        size,
        left: count.min(SHOWN_ELEMENTS) - 1,
        more: count.saturating_sub(SHOWN_ELEMENTS),
        at: sum(at, size)?,
    };
    tasks.push(Task::Elements(t, run, n))?;
    tasks.push(Task::Part(t, at, n))?;
    Ok(())
}

// A member, and those behind it.
fn push_member<'a>(
    s: &Scene<'a>,
    is_union: bool,
    m: &'a Member,
    rest: &'a [Member],
    end: Layout,
    at: u32,
    n: usize,
    tasks: &mut Stack<Task<'a>>,
) -> Result<(), NoMemory>
    ensures { OnOk result (said_all s.now tasks.new ≡ shows s.now n m.now.of (at + multiple_from end.size (spec.extent s.now.structs.now m.now.of).align) ++ (spec.behind (spec.member_parts (shows s.now n) s.now.structs.now is_union rest.now (spec.behind_member is_union end (spec.extent s.now.structs.now m.now.of)) at) ++ said_all s.now tasks.old)) }
{
    let own = extent(&m.of, s.structs);
    let place = sum(at, rounded(end.size, own.align)?)?;
    let end = behind_member(is_union, end, own)?;
    tasks.push(Task::Members(is_union, rest, end, at, n))?;
    tasks.push(Task::Part(&m.of, place, n))?;
    Ok(())
}

// The members behind the first one.
#[tactic(auto, using(crate::proofs::ContentLemmas::two))]
fn put_members<'a>(
    s: &Scene<'a>,
    is_union: bool,
    members: &'a [Member],
    end: Layout,
    at: u32,
    n: usize,
    text: &mut Vec<u8>,
    tasks: &mut Stack<Task<'a>>,
) -> Result<(), NoMemory>
    ensures { OnOk result (text.new.items ++ said_all s.now tasks.new ≡ text.old.items ++ spec.behind (spec.member_parts (shows s.now n) s.now.structs.now is_union members.now end at) ++ said_all s.now tasks.old) }
{
    match members {
        [] => put(text, b"}"),
        [m, rest @ ..] => {
            put(text, b", ")?;
            push_member(s, is_union, m, rest, end, at, n, tasks)
        }
    }
}

// All members.
#[tactic(auto, using(crate::proofs::ContentLemmas::two))]
fn put_first<'a>(
    s: &Scene<'a>,
    is_union: bool,
    members: &'a [Member],
    at: u32,
    n: usize,
    text: &mut Vec<u8>,
    tasks: &mut Stack<Task<'a>>,
) -> Result<(), NoMemory>
    ensures { OnOk result (text.new.items ++ said_all s.now tasks.new ≡ text.old.items ++ spec.braced (spec.member_parts (shows s.now n) s.now.structs.now is_union members.now beginning at) ++ said_all s.now tasks.old) }
{
    match members {
        [] => put(text, b"{}"),
        [m, rest @ ..] => {
            put(text, b"{")?;
            push_member(s, is_union, m, rest, BEGINNING, at, n, tasks)
        }
    }
}

fn put_structure<'a>(
    s: &Scene<'a>,
    id: u32,
    at: u32,
    n: usize,
    text: &mut Vec<u8>,
    tasks: &mut Stack<Task<'a>>,
) -> Result<(), NoMemory>
    ensures { OnOk result (text.new.items ++ said_all s.now tasks.new ≡ text.old.items ++ spec.structure_text s.now.world.now s.now.object s.now.structs.now n id at ++ said_all s.now tasks.old) }
{
    if n == 0 {
        return put(text, b"{}");
    }
    let is_union = s.structs.is_union(id);
    let members = s.structs.members(id);
    put_first(s, is_union, members, at, n - 1, text, tasks)
}

fn put_scalar(
    text: &mut Vec<u8>,
    alloc: Global,
    s: &Scene,
    t: &CType,
    at: u32,
) -> Result<(), NoMemory>
    ensures { OnOk result (text.new.items ≡ text.old.items ++ spec.scalar_text s.now.world.now s.now.object t.now at) }
{
    let said = scalar_text(alloc, s, t, at)?;
    put(text, said.as_slice())
}

fn put_part<'a>(
    s: &Scene<'a>,
    t: &'a CType,
    at: u32,
    n: usize,
    alloc: Global,
    text: &mut Vec<u8>,
    tasks: &mut Stack<Task<'a>>,
) -> Result<(), NoMemory>
    ensures { OnOk result (text.new.items ++ said_all s.now tasks.new ≡ text.old.items ++ shows s.now n t.now at ++ said_all s.now tasks.old) }
{
    match t {
        CType::Int(_, _) => put_scalar(text, alloc, s, t, at),
        CType::Pointer(_, _) => put_scalar(text, alloc, s, t, at),
        CType::Array(element, count) => put_array(s, element.get(), *count, at, n, text, tasks),
        CType::Struct(id, _) => put_structure(s, *id, at, n, text, tasks),
        CType::Void(_) => put(text, b"?"),
        CType::Function(_) => put(text, b"?"),
    }
}

fn put_task<'a>(
    s: &Scene<'a>,
    task: Task<'a>,
    alloc: Global,
    text: &mut Vec<u8>,
    tasks: &mut Stack<Task<'a>>,
) -> Result<(), NoMemory>
    ensures { OnOk result (text.new.items ++ said_all s.now tasks.new ≡ text.old.items ++ said s.now task.entry ++ said_all s.now tasks.old) }
{
    match task {
        Task::Part(t, at, n) => put_part(s, t, at, n, alloc, text, tasks),
        Task::Elements(t, run, n) => put_elements(s, t, run, n, alloc, text, tasks),
        Task::Members(is_union, members, end, at, n) => {
            put_members(s, is_union, members, end, at, n, text, tasks)
        }
    }
}

/// An object of a type, by its number.
pub(crate) fn object_text<'a>(
    alloc: Global,
    s: &Scene<'a>,
    t: &'a CType,
) -> Result<Vec<u8>, NoMemory>
    ensures { IfOk result (λ text. text.items ≡ spec.object_text s.now.world.now s.now.object s.now.structs.now t.now) }
{
    let mut text = Vec::new(alloc);
    let mut tasks = Stack::new(alloc);
    tasks.push(Task::Part(t, 0, s.structs.as_slice().len()))?;
    for _ in 0..u64::MAX {
        let Some(task) = tasks.pop() else {
            return Ok(text)
        };
        put_task(s, task, alloc, &mut text, &mut tasks)?;
    }
    Err(NoMemory)
}
