// Declarations and initialisers.
ghost use Rattle.std.specs.Prelude.{◌≡◌, List, [], ◌∷◌, ◌++◌, Some, None, Ok, IfOk, OnOk};
ghost use Rattle.sc_parse_names.specs.declared.kind.Symbol.{Symbol as OneSymbol};
ghost use Rattle.sc_parse_names.specs.Names.{Names};
ghost use Rattle.sc_parse_grammar.specs.Machine as inner;
ghost use Rattle.sc_parse_grammar.specs.Steps.{IsSymbol};
ghost use Rattle.sc_parse_grammar.specs.Types as types;
ghost use Rattle.sc_parse_unit.specs.Machine as spec;
ghost use Rattle.sc_parse_unit.specs.Trees as trees;
ghost use Rattle.sc_parse_unit.specs.Steps.{Goes};

use sc_base::{Duplicate, Items, NoMemory, Stack};
use sc_parse_expr::step;
use sc_parse_grammar::{Direct, Frame, Mode, State, Trouble, Whole};
use sc_parse_names::{Entry, Kind, Symbol, TypeNames};
use sc_parse_unit::{Around, Obstacle, Stage};
use sc_tree::{
    Binary, Block, Declaration, Declarator, External, Identifier, InitDeclarator, Initializer,
    Specifiers, Storage, is_typedef,
};
use std::alloc::Global;

/// Nothing of the grammar goes on with the token.
pub const STUCK: Obstacle = Obstacle::Inner(Trouble::Syntax);

/// Puts on top what is open.
pub fn kept(around: &mut Stack<Around>, frame: Around, stage: Stage) -> Result<Stage, Obstacle>
    ensures { (names : Names) → Goes (Ok (names, (frame ∷ around.old, stage))) result names around.new }
{
    match around.push(frame) {
        Ok(()) => Ok(stage),
        Err(_) => {
            drop(stage);
            Err(Obstacle::Inner(Trouble::NoMemory))
        }
    }
}

/// The unit with one more function or declaration.
pub fn unit_with(
    around: &mut Stack<Around>,
    mut items: Items<External>,
    item: External,
) -> Result<Stage, Obstacle>
    ensures { (names : Names) → Goes (Ok (names, (Around.Unit (items ++ item ∷ []) ∷ around.old, Stage.Due))) result names around.new }
{
    items.push(item)?;
    kept(around, Around::Unit(items), Stage::Due)
}

fn with_declaration(block: Block, d: Declaration) -> Result<Block, NoMemory>
    ensures { IfOk result (λ b. b ≡ trees.with_declaration block d) }
{
    let Block {
        line,
        mut declarations,
        statements,
    } = block;
    declarations.push(d)?;
    Ok(Block {
        line,
        declarations,
        statements,
    })
}

fn body_declares(
    around: &mut Stack<Around>,
    v: Specifiers,
    x: Declarator,
    block: Block,
    d: Declaration,
) -> Result<Stage, Obstacle>
    ensures { (names : Names) → Goes (spec.declares names (Around.Body v x block ∷ around.old) d) result names around.new }
{
    let block = with_declaration(block, d)?;
    kept(around, Around::Body(v, x, block), Stage::Due)
}

fn block_declares(
    around: &mut Stack<Around>,
    block: Block,
    d: Declaration,
) -> Result<Stage, Obstacle>
    ensures { (names : Names) → Goes (spec.declares names (Around.Block block ∷ around.old) d) result names around.new }
{
    let block = with_declaration(block, d)?;
    kept(around, Around::Block(block), Stage::Due)
}

/// A declaration joins what stands around it.
fn declares(around: &mut Stack<Around>, d: Declaration) -> Result<Stage, Obstacle>
    ensures { (names : Names) → Goes (spec.declares names around.old d) result names around.new }
{
    match around.pop() {
        Some(Around::Unit(items)) => unit_with(around, items, External::Declaration(d)),
        Some(Around::Body(v, x, block)) => body_declares(around, v, x, block, d),
        Some(Around::Block(block)) => block_declares(around, block, d),
        Some(other) => {
            drop(other);
            Err(STUCK)
        }
        None => Err(STUCK),
    }
}

/// One frame of the machine of expressions.
pub fn framed(alloc: Global, frame: Frame) -> Result<Stack<Frame>, NoMemory>
    ensures { IfOk result (λ frames. frames ≡ frame ∷ []) }
{
    let mut frames = Stack::new(alloc);
    frames.push(frame)?;
    Ok(frames)
}

fn next_declarator(
    alloc: Global,
    around: &mut Stack<Around>,
    v: Specifiers,
    mut all: Items<InitDeclarator>,
    d: InitDeclarator,
) -> Result<Stage, Obstacle>
    ensures { (names : Names) → Goes (Ok (names, (Around.Declaration v (all ++ d ∷ []) ∷ around.old, Stage.Declarator (Frame.Outer ∷ []) (State.Begin Mode.Named)))) result names around.new }
{
    all.push(d)?;
    let frames = framed(alloc, Frame::Outer)?;
    kept(
        around,
        Around::Declaration(v, all),
        Stage::Declarator(frames, State::Begin(Mode::Named)),
    )
}

fn declaration(v: Specifiers, declarators: Items<InitDeclarator>) -> Declaration
    ensures { result ≡ trees.declaration_of v declarators }
{
    Declaration {
        line: v.line,
        specifiers: v,
        declarators,
    }
}

fn last_declarator(
    around: &mut Stack<Around>,
    v: Specifiers,
    mut all: Items<InitDeclarator>,
    d: InitDeclarator,
) -> Result<Stage, Obstacle>
    ensures { (names : Names) → Goes (spec.declares names around.old (trees.declaration_of v (all ++ d ∷ []))) result names around.new }
{
    all.push(d)?;
    declares(around, declaration(v, all))
}

/// A token behind a declarator and its initialiser, in a declaration that has these before it.
fn declarator_joins(
    alloc: Global,
    kind: Kind,
    around: &mut Stack<Around>,
    v: Specifiers,
    all: Items<InitDeclarator>,
    d: InitDeclarator,
) -> Result<Stage, Obstacle>
    ensures { (names : Names) → Goes (spec.declarator_joins names kind around.old v all d) result names around.new }
{
    match kind {
        Kind::Comma => next_declarator(alloc, around, v, all, d),
        Kind::Semicolon => last_declarator(around, v, all, d),
        _ => Err(STUCK),
    }
}

fn with_initializer(line: u32, declarator: Declarator, x: Initializer) -> InitDeclarator
    ensures { result ≡ trees.init_declarator line declarator (Some x) }
{
    InitDeclarator {
        line,
        declarator,
        initializer: Some(x),
    }
}

/// A token behind the initialiser of a declarator.
pub fn initialized_ends(
    alloc: Global,
    kind: Kind,
    around: &mut Stack<Around>,
    line: u32,
    declarator: Declarator,
    x: Initializer,
) -> Result<Stage, Obstacle>
    ensures { (names : Names) → Goes (spec.declarator_ends names kind around.old (trees.init_declarator line declarator (Some x))) result names around.new }
{
    let d = with_initializer(line, declarator, x);
    match around.pop() {
        Some(Around::Declaration(v, all)) => declarator_joins(alloc, kind, around, v, all, d),
        Some(other) => {
            drop(other);
            Err(STUCK)
        }
        None => Err(STUCK),
    }
}

fn next_initial(
    around: &mut Stack<Around>,
    line: u32,
    mut all: Items<Initializer>,
    x: Initializer,
) -> Result<Stage, Obstacle>
    ensures { (names : Names) → Goes (Ok (names, (Around.List line (all ++ x ∷ []) ∷ around.old, Stage.Initial))) result names around.new }
{
    all.push(x)?;
    kept(around, Around::List(line, all), Stage::Initial)
}

fn closed(line: u32, mut all: Items<Initializer>, x: Initializer) -> Result<Stage, Obstacle>
    ensures { (names : Names) → (fs : List Around) → Goes (Ok (names, (fs, Stage.Closed (Initializer.List line (all ++ x ∷ []))))) result names fs }
{
    all.push(x)?;
    Ok(Stage::Closed(Initializer::List(line, all)))
}

/// A token behind an initialiser in braces, behind these.
pub fn initial_joins(
    kind: Kind,
    around: &mut Stack<Around>,
    line: u32,
    all: Items<Initializer>,
    x: Initializer,
) -> Result<Stage, Obstacle>
    ensures { (names : Names) → Goes (spec.initial_joins names kind around.old line all x) result names around.new }
{
    match kind {
        Kind::Comma => next_initial(around, line, all, x),
        Kind::RightBrace => closed(line, all, x),
        _ => Err(STUCK),
    }
}

/// A token behind an initialiser.
pub fn initial_ends(
    alloc: Global,
    kind: Kind,
    around: &mut Stack<Around>,
    x: Initializer,
) -> Result<Stage, Obstacle>
    ensures { (names : Names) → Goes (spec.initial_ends names kind around.old x) result names around.new }
{
    match around.pop() {
        Some(Around::List(line, all)) => initial_joins(kind, around, line, all, x),
        Some(Around::Initialized(line, d)) => initialized_ends(alloc, kind, around, line, d, x),
        Some(other) => {
            drop(other);
            Err(STUCK)
        }
        None => Err(STUCK),
    }
}

fn list_closes(line: u32, all: Items<Initializer>) -> Result<Stage, Obstacle>
    ensures { (names : Names) → (fs : List Around) → Goes (spec.list_ends names (Around.List line all ∷ fs)) result names fs }
{
    if all.is_empty() {
        return Err(STUCK);
    }
    Ok(Stage::Closed(Initializer::List(line, all)))
}

/// The end of a list behind a comma.
pub fn list_ends(around: &mut Stack<Around>) -> Result<Stage, Obstacle>
    ensures { (names : Names) → Goes (spec.list_ends names around.old) result names around.new }
{
    match around.pop() {
        Some(Around::List(line, all)) => list_closes(line, all),
        Some(other) => {
            drop(other);
            Err(STUCK)
        }
        None => Err(STUCK),
    }
}

/// Declares the name of a declarator.
fn declare(
    alloc: Global,
    names: &mut TypeNames,
    class: Option<Storage>,
    identifier: &Option<Identifier>,
) -> Result<(), NoMemory>
    ensures { OnOk result (names.new ≡ trees.declare_as class identifier.now names.old) }
{
    match identifier {
        Some(identifier) => {
            let name = identifier.name.copy(alloc)?;
            names.add(alloc, name, is_typedef(class))
        }
        None => Ok(()),
    }
}

/// The declarator, and the names that the parameters of the function which it declares have.
fn parts(whole: Whole) -> (Declarator, Items<Entry>)
    ensures { result ≡ (types.declarator_of whole.line whole.direct, whole.direct.scope) }
{
    let Whole { line, direct } = whole;
    let Direct {
        identifier,
        derivations,
        scope,
    } = direct;
    let declarator = Declarator {
        line,
        identifier,
        derivations,
    };
    (declarator, scope)
}

fn initialized(
    around: &mut Stack<Around>,
    v: Specifiers,
    all: Items<InitDeclarator>,
    line: u32,
    declarator: Declarator,
) -> Result<Stage, Obstacle>
    ensures { (names : Names) → Goes (Ok (names, (Around.Initialized line declarator ∷ Around.Declaration v all ∷ around.old, Stage.Initial))) result names around.new }
{
    around.push(Around::Declaration(v, all))?;
    kept(
        around,
        Around::Initialized(line, declarator),
        Stage::Initial,
    )
}

pub fn empty_block(alloc: Global, line: u32) -> Block
    ensures { result ≡ trees.block_of line [] [] }
{
    Block {
        line,
        declarations: Items::new(alloc),
        statements: Items::new(alloc),
    }
}

fn body_begins(
    alloc: Global,
    names: &mut TypeNames,
    line: u32,
    around: &mut Stack<Around>,
    items: Items<External>,
    v: Specifiers,
    whole: Whole,
) -> Result<Stage, Obstacle>
    ensures { Goes (spec.body line names.old (Around.Unit items ∷ around.old) v [] whole) result names.new around.new }
{
    let (declarator, scope) = parts(whole);
    names.push_names(alloc, scope)?;
    around.push(Around::Unit(items))?;
    let block = empty_block(alloc, line);
    kept(around, Around::Body(v, declarator, block), Stage::Due)
}

/// The declarator is that of a function, whose block begins.
fn body(
    alloc: Global,
    names: &mut TypeNames,
    line: u32,
    around: &mut Stack<Around>,
    v: Specifiers,
    all: Items<InitDeclarator>,
    whole: Whole,
) -> Result<Stage, Obstacle>
    ensures { Goes (spec.body line names.old around.old v all whole) result names.new around.new }
{
    if !all.is_empty() {
        return Err(STUCK);
    }
    match around.pop() {
        Some(Around::Unit(items)) => body_begins(alloc, names, line, around, items, v, whole),
        Some(other) => {
            drop(other);
            Err(STUCK)
        }
        None => Err(STUCK),
    }
}

/// An assignment operator behind a declarator: `=` begins its initialiser.
fn assigned(
    op: Option<Binary>,
    around: &mut Stack<Around>,
    v: Specifiers,
    all: Items<InitDeclarator>,
    whole: Whole,
) -> Result<Stage, Obstacle>
    ensures { (t : OneSymbol) → (names : Names) → Goes (spec.declared_by t names around.old v all whole (Kind.Assign op)) result names around.new }
{
    match op {
        None => {
            let line = whole.line;
            initialized(around, v, all, line, parts(whole).0)
        }
        Some(_) => Err(STUCK),
    }
}

/// A token behind a declarator, whose name is in scope.
fn declared_by(
    alloc: Global,
    names: &mut TypeNames,
    token: &Symbol,
    around: &mut Stack<Around>,
    v: Specifiers,
    all: Items<InitDeclarator>,
    whole: Whole,
) -> Result<Stage, Obstacle>
    ensures { Goes (spec.declared_by token.now names.old around.old v all whole token.now.kind) result names.new around.new }
{
    match token.kind {
        Kind::LeftBrace => body(alloc, names, token.line, around, v, all, whole),
        Kind::Assign(op) => assigned(op, around, v, all, whole),
        _ => bare(alloc, token.kind, around, v, all, whole),
    }
}

fn bare(
    alloc: Global,
    kind: Kind,
    around: &mut Stack<Around>,
    v: Specifiers,
    all: Items<InitDeclarator>,
    whole: Whole,
) -> Result<Stage, Obstacle>
    ensures { (names : Names) → Goes (spec.declarator_joins names kind around.old v all (trees.init_declarator whole.line (types.declarator_of whole.line whole.direct) None)) result names around.new }
{
    let line = whole.line;
    let d = InitDeclarator {
        line,
        declarator: parts(whole).0,
        initializer: None,
    };
    declarator_joins(alloc, kind, around, v, all, d)
}

fn name_declared(
    alloc: Global,
    names: &mut TypeNames,
    token: &Symbol,
    around: &mut Stack<Around>,
    v: Specifiers,
    all: Items<InitDeclarator>,
    whole: Whole,
) -> Result<Stage, Obstacle>
    ensures { Goes (spec.declared token.now names.old (Around.Declaration v all ∷ around.old) whole) result names.new around.new }
{
    declare(alloc, names, v.storage, &whole.direct.identifier)?;
    declared_by(alloc, names, token, around, v, all, whole)
}

/// A token behind a declarator.
fn declared(
    alloc: Global,
    names: &mut TypeNames,
    token: &Symbol,
    around: &mut Stack<Around>,
    whole: Whole,
) -> Result<Stage, Obstacle>
    ensures { Goes (spec.declared token.now names.old around.old whole) result names.new around.new }
{
    match around.pop() {
        Some(Around::Declaration(v, all)) => {
            name_declared(alloc, names, token, around, v, all, whole)
        }
        Some(other) => {
            drop(other);
            Err(STUCK)
        }
        None => Err(STUCK),
    }
}

/// A token of a declarator.
#[tactic(auto, using(crate::proofs::Lifting::declarator_err))]
pub fn in_declarator(
    alloc: Global,
    names: &mut TypeNames,
    token: &Symbol,
    around: &mut Stack<Around>,
    mut frames: Stack<Frame>,
    state: State,
) -> Result<Stage, Obstacle>
    requires { IsSymbol token.now }
    ensures { Goes (spec.in_declarator token.now around.old (inner.step token.now (names.old, (frames, state)))) result names.new around.new }
{
    match step(alloc, names, token, &mut frames, state) {
        Ok(State::Declared(whole)) => declared(alloc, names, token, around, whole),
        Ok(other) => Ok(Stage::Declarator(frames, other)),
        Err(trouble) => Err(Obstacle::Inner(trouble)),
    }
}

fn first_declarator(
    alloc: Global,
    names: &mut TypeNames,
    token: &Symbol,
    around: &mut Stack<Around>,
    v: Specifiers,
) -> Result<Stage, Obstacle>
    requires { IsSymbol token.now }
    ensures { Goes (spec.in_declarator token.now (Around.Declaration v [] ∷ around.old) (inner.step token.now (names.old, (Frame.Outer ∷ [], State.Begin Mode.Named)))) result names.new around.new }
{
    around.push(Around::Declaration(v, Items::new(alloc)))?;
    let frames = framed(alloc, Frame::Outer)?;
    in_declarator(
        alloc,
        names,
        token,
        around,
        frames,
        State::Begin(Mode::Named),
    )
}

/// A token behind the specifiers of a declaration.
fn specified(
    alloc: Global,
    names: &mut TypeNames,
    token: &Symbol,
    around: &mut Stack<Around>,
    v: Specifiers,
) -> Result<Stage, Obstacle>
    requires { IsSymbol token.now }
    ensures { Goes (spec.specified token.now names.old around.old v token.now.kind) result names.new around.new }
{
    match token.kind {
        Kind::Semicolon => declares(around, declaration(v, Items::new(alloc))),
        _ => first_declarator(alloc, names, token, around, v),
    }
}

/// A token of specifiers.
#[tactic(auto, using(crate::proofs::Lifting::specifiers_err))]
pub fn in_specifiers(
    alloc: Global,
    names: &mut TypeNames,
    token: &Symbol,
    around: &mut Stack<Around>,
    mut frames: Stack<Frame>,
    state: State,
) -> Result<Stage, Obstacle>
    requires { IsSymbol token.now }
    ensures { Goes (spec.in_specifiers token.now around.old (inner.step token.now (names.old, (frames, state)))) result names.new around.new }
{
    match step(alloc, names, token, &mut frames, state) {
        Ok(State::Specified(v)) => specified(alloc, names, token, around, v),
        Ok(other) => Ok(Stage::Specifiers(frames, other)),
        Err(trouble) => Err(Obstacle::Inner(trouble)),
    }
}

/// The specifiers of a declaration begin with the token.
pub fn specifiers(
    alloc: Global,
    names: &mut TypeNames,
    token: &Symbol,
    around: &mut Stack<Around>,
) -> Result<Stage, Obstacle>
    requires { IsSymbol token.now }
    ensures { Goes (spec.specifiers token.now names.old around.old) result names.new around.new }
{
    let frames = framed(alloc, Frame::Outer)?;
    in_specifiers(alloc, names, token, around, frames, State::Due)
}
