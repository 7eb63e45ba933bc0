// Expansion of a list, one replacement after the other.
ghost use Rattle.std.specs.Prelude.{◌≡◌, [], ◌∷◌, ◌++◌, ◌≤◌, ◌<◌, ◌-◌, ◌||◌, true, false, get_or, IfOk, OnOk, map};
ghost use Rattle.sc_macro.specs.Expansion as spec;
ghost use Rattle.sc_macro.specs.Expansion.{Expands, Replaces};
ghost use Rattle.sc_macro.specs.Marks.{without_lines};
ghost use Rattle.sc_macro.specs.Moving.{left_over, stay};
ghost use Rattle.sc_macro.specs.Refusals.{Gives};

use crate::call::{Call, collect, fits};
use crate::failure::{Failure, Reason, Refused, fault};
use crate::hide::Hide;
use crate::macros::{Macro, Macros};
use crate::marked::{Marked, copy_spaced, is_newline};
use crate::moving::movable;
use crate::redefine::is_function;
use crate::substitute::{alone, filled, place};
use crate::waiting::{Argument, Waiting};
use sc_base::{Duplicate, Fault, Items, NoMemory, Stack};
use sc_lex::Token;
use std::alloc::Global;
use std::mem;

fn is_wanted(wanted: &[bool], number: usize) -> bool
    ensures { result ≡ get_or wanted.now number false }
{
    match wanted.get(number) {
        Some(flag) => *flag,
        None => false,
    }
}

fn refused(reason: Reason, line: u32) -> Failure
    ensures { result ≡ spec.refused reason line }
{
    Failure::Refused(Refused { reason, line })
}

/// A list with at most `left` replacements, in which arguments stand inside each other less than `depth` deep.
#[cycle(expansion)]
fn expand_at<'a>(
    alloc: Global,
    macros: &Macros,
    depth: u32,
    line: u32,
    left: &mut u32,
    tokens: Argument<'a>,
) -> Result<Items<Marked>, Failure>
    ensures gives { Expands (spec.expand macros.now depth line left.old tokens.entry) result left.new }
    ensures falls { left.new ≤ left.old }
{
    if depth == 0 {
        return Err(refused(Reason::Macros, line));
    }
    let mut rest = Waiting::from_argument(alloc, tokens)?;
    let mut out = Items::new(alloc);
    let mut fuel = *left;
    'walking: while let Some(name) = macros.skip(alloc, &mut rest, &mut out)? {
        match replace(alloc, macros, depth - 1, left, &name, &mut rest) {
            Ok(()) => fuel -= 1,
            Err(failure) => return Err(failure),
        }
    }
    Ok(out)
}

/// Puts what a name stands for in its place.
#[cycle(expansion)]
fn replace<'a>(
    alloc: Global,
    macros: &Macros,
    depth: u32,
    left: &mut u32,
    name: &Marked,
    rest: &mut Waiting<'a>,
) -> Result<(), Failure>
    ensures gives { Replaces (spec.replaced macros.now (spec.expand macros.now depth) left.old name.now rest.old) result left.new rest.new }
    ensures falls { left.new ≤ left.old }
    ensures counts { OnOk result (left.new < left.old) }
{
    let line = name.token.line;
    let Some((number, definition)) = macros.use_at(name, rest) else {
        return Err(refused(Reason::Macros, line));
    };
    if !is_function(definition.kind) {
        return replace_alone(alloc, macros, left, name, number, definition, rest);
    }
    drop(rest.pop(alloc)?);
    let Some(call) = collect(alloc, rest)? else {
        return Err(refused(Reason::Misuse, line));
    };
    if !fits(definition.parameters.len(), &call.arguments) {
        return Err(refused(Reason::Misuse, line));
    }
    if *left == 0 {
        return Err(refused(Reason::Macros, line));
    }
    *left -= 1;
    replace_call(
        alloc, macros, depth, left, name, number, definition, call, rest,
    )
}

/// Puts what a name without arguments stands for in its place.
fn replace_alone<'a>(
    alloc: Global,
    macros: &Macros,
    left: &mut u32,
    name: &Marked,
    number: usize,
    definition: &Macro,
    rest: &mut Waiting<'a>,
) -> Result<(), Failure>
    ensures gives { Replaces (spec.replaced_alone macros.now left.old name.now number definition.now rest.old) result left.new rest.new }
    ensures falls { left.new ≤ left.old }
    ensures counts { OnOk result (left.new < left.old) }
{
    if *left == 0 {
        return Err(refused(Reason::Macros, name.token.line));
    }
    *left -= 1;
    let tokens = alone(alloc, macros, definition, &name.token)?;
    let hide = name.hide.with(alloc, number)?;
    place(alloc, &name.token, &hide, tokens, rest)?;
    Ok(())
}

/// Puts what a call stands for in its place.
#[cycle(expansion)]
fn replace_call<'a>(
    alloc: Global,
    macros: &Macros,
    depth: u32,
    left: &mut u32,
    name: &Marked,
    number: usize,
    definition: &Macro,
    call: Call<'a>,
    rest: &mut Waiting<'a>,
) -> Result<(), Failure>
    ensures gives { Replaces (spec.called (spec.expand macros.now depth name.now.token.line) left.old name.now number definition.now (call.entry.arguments, call.entry.hide, rest.old)) result left.new rest.new }
    ensures falls { left.new ≤ left.old }
{
    let Call {
        mut arguments,
        hide,
    } = call;
    let wanted = definition.wanted.as_slice();
    let chains = definition.chains.as_slice();
    let moves = movable(alloc, wanted, chains)?;
    let whole = expand_arguments(
        alloc,
        macros,
        depth,
        name.token.line,
        left,
        wanted,
        moves.as_slice(),
        &mut arguments,
    )?;
    let written = written(alloc, arguments)?;
    let tokens = filled(
        alloc,
        &name.token,
        written.as_slice(),
        whole.as_slice(),
        chains,
    )?;
    let hide = name.hide.common(alloc, &hide)?.with(alloc, number)?;
    place(alloc, &name.token, &hide, tokens, rest)?;
    Ok(())
}

/// The arguments that are wanted expanded; an empty list for each other. One that `moves` is given away, and leaves an
/// empty list behind.
#[cycle(expansion)]
fn expand_arguments<'a>(
    alloc: Global,
    macros: &Macros,
    depth: u32,
    line: u32,
    left: &mut u32,
    wanted: &[bool],
    moves: &[bool],
    arguments: &mut Items<Argument<'a>>,
) -> Result<Items<Items<Marked>>, Failure>
    ensures gives { Expands (spec.arguments (spec.expand macros.now depth line) wanted.now left.old [] arguments.old) result left.new }
    ensures stays { OnOk result (arguments.new ≡ left_over moves.now [] arguments.old) }
    ensures falls { left.new ≤ left.old }
{
    let mut done = Items::new(alloc);
    let mut waiting = Stack::new(alloc);
    waiting.push_all(mem::replace(arguments, Items::new(alloc)))?;
    'expanding: while let Some(next) = waiting.pop() {
        let mut argument = next;
        let needed = is_wanted(wanted, done.len());
        let goes = is_wanted(moves, arguments.len());
        match expand_argument(
            alloc,
            macros,
            depth,
            line,
            left,
            &mut argument,
            needed,
            goes,
        ) {
            Ok(whole) => done.push(whole)?,
            Err(failure) => return Err(failure),
        }
        arguments.push(argument)?;
    }
    Ok(done)
}

/// The arguments as lists of their own.
fn written<'a>(
    alloc: Global,
    arguments: Items<Argument<'a>>,
) -> Result<Items<Items<Marked>>, NoMemory>
    ensures { IfOk result (λ lists. lists ≡ arguments.entry) }
{
    let mut waiting = Stack::new(alloc);
    waiting.push_all(arguments)?;
    let mut lists = Items::new(alloc);
    'writing: while let Some(argument) = waiting.pop() {
        lists.push(argument.into_items(alloc)?)?;
    }
    Ok(lists)
}

/// What is expanded of an argument, where it is needed: the argument itself where it `goes`, or a copy.
fn taken<'a>(
    alloc: Global,
    argument: &mut Argument<'a>,
    needed: bool,
    goes: bool,
) -> Result<Argument<'a>, NoMemory>
    ensures stays { OnOk result (argument.new ≡ stay goes argument.old) }
    ensures tokens { IfOk result (λ tokens. needed ≡ true → tokens ≡ argument.old) }
{
    if goes {
        return Ok(mem::replace(argument, Argument::empty(alloc)));
    }
    if needed {
        argument.copy(alloc)
    } else {
        Ok(Argument::empty(alloc))
    }
}

#[cycle(expansion)]
fn expand_argument<'a>(
    alloc: Global,
    macros: &Macros,
    depth: u32,
    line: u32,
    left: &mut u32,
    argument: &mut Argument<'a>,
    needed: bool,
    goes: bool,
) -> Result<Items<Marked>, Failure>
    ensures gives { Expands (spec.argument (spec.expand macros.now depth line) left.old argument.old needed) result left.new }
    ensures stays { OnOk result (argument.new ≡ stay goes argument.old) }
    ensures falls { left.new ≤ left.old }
{
    if needed && !goes && argument.is_mostly_made() {
        return expand_made(alloc, macros, depth, line, left, argument);
    }
    let tokens = taken(alloc, argument, needed, goes)?;
    if needed {
        expand_at(alloc, macros, depth, line, left, tokens)
    } else {
        Ok(Items::new(alloc))
    }
}

/// Expands an argument that stays. It becomes one list of its own, and the expansion reads that list, so that no depth
/// copies it.
#[cycle(expansion)]
fn expand_made<'a>(
    alloc: Global,
    macros: &Macros,
    depth: u32,
    line: u32,
    left: &mut u32,
    argument: &mut Argument<'a>,
) -> Result<Items<Marked>, Failure>
    ensures gives { Expands (spec.expand macros.now depth line left.old argument.old) result left.new }
    ensures stays { OnOk result (argument.new ≡ argument.old) }
    ensures falls { left.new ≤ left.old }
{
    let tokens = mem::replace(argument, Argument::empty(alloc));
    let own = tokens.into_items(alloc)?;
    let part = Argument::of(Items::new(alloc), own.as_slice());
    match expand_at(alloc, macros, depth, line, left, part) {
        Ok(done) => {
            *argument = Argument::of(own, &[]);
            Ok(done)
        }
        Err(failure) => Err(failure),
    }
}

/// The tokens with empty hide sets, and without new-lines.
fn marked(alloc: Global, tokens: &[Token]) -> Result<Items<Marked>, NoMemory>
    ensures { IfOk result (λ ms. ms ≡ without_lines false tokens.now) }
{
    let mut out = Items::new(alloc);
    let mut space = false;
    let mut tokens = tokens;
    'marking: while let Some((token, rest)) = tokens.split_first() {
        if is_newline(token) {
            space = true;
        } else {
            out.push(Marked {
                token: copy_spaced(alloc, token, space || token.space)?,
                hide: Hide::new(),
            })?;
            space = false;
        }
        tokens = rest;
    }
    Ok(out)
}

fn unmarked(alloc: Global, tokens: &[Marked]) -> Result<Items<Token>, NoMemory>
    ensures { IfOk result (λ ts. ts ≡ map (λ m. m.token) tokens.now) }
{
    let mut items = Items::new(alloc);
    for marked in tokens {
        items.push(marked.token.copy(alloc)?)?;
    }
    Ok(items)
}

/// How many lists are expanded at once at most: the list itself, and 200 arguments inside each other.
const DEPTH: u32 = 201;

fn expand_list(
    alloc: Global,
    tokens: &[Token],
    macros: &Macros,
    left: &mut u32,
) -> Result<Items<Token>, Failure>
    ensures { Expands (spec.expanded 201 macros.now left.old tokens.now) result left.new }
{
    let tokens = marked(alloc, tokens)?;
    let list = Argument::of(Items::new(alloc), tokens.as_slice());
    match expand_at(alloc, macros, DEPTH, 0, left, list) {
        Ok(done) => Ok(unmarked(alloc, done.as_slice())?),
        Err(failure) => Err(failure),
    }
}

/// The list after all replacements, and how many more may be made of the `left` that might be. New-lines in the list are
/// white space. X3 for an unclosed call and for a wrong number of arguments, X9 `paste` where `##` makes no token, X10
/// `identifier` where it makes an identifier above 63 bytes, X10 `macros` where no replacement is left or more than
/// 200 arguments stand inside each other; each at the line of the macro's name, in an empty file.
pub fn expand(
    alloc: Global,
    tokens: &[Token],
    macros: &Macros,
    left: u32,
) -> Result<(Items<Token>, u32), Fault>
    ensures { Gives (spec.expansion 201 macros.now left tokens.now) result }
{
    let mut left = left;
    match expand_list(alloc, tokens, macros, &mut left) {
        Ok(done) => Ok((done, left)),
        Err(failure) => Err(fault(alloc, failure)),
    }
}
