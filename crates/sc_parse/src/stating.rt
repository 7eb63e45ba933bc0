// Statements.
ghost use Rattle.std.specs.Prelude.{◌≡◌, List, [], ◌∷◌, ◌++◌, Some, None, Ok, IfOk, MatchOption, false, not, ◌&&◌};
ghost use Rattle.sc_parse_names.specs.Names.{Names, is_typed as typed_in};
ghost use Rattle.sc_parse_grammar.specs.Kinds.{begins_specifiers as begins_in};
ghost use Rattle.sc_parse_grammar.specs.Steps.{IsSymbol, IsNamed};
ghost use Rattle.sc_parse_unit.specs.Machine as spec;
ghost use Rattle.sc_parse_unit.specs.Trees as trees;
ghost use Rattle.sc_parse_unit.specs.Steps.{Goes, ends_on as ends_before};

use sc_base::{NoMemory, Shared, Stack};
use sc_parse_expr::is_typed;
use sc_parse_grammar::classes::begins_specifiers;
use sc_parse_grammar::nodes::name_of;
use sc_parse_names::{Kind, Symbol, TypeNames};
use sc_parse_parts::{STUCK, begin, empty_block, has_room, kept, specifiers, unit_with};
use sc_parse_unit::{Around, Head, Obstacle, Stage, Test};
use sc_tree::{Block, Declarator, External, Function, Specifiers, Statement};
use std::alloc::Global;

fn function(v: Specifiers, declarator: Declarator, body: Block) -> Function
    ensures { result ≡ trees.function_of v declarator body }
{
    Function {
        line: v.line,
        specifiers: v,
        declarator,
        body,
    }
}

/// The block of a function ends, which stands at file scope.
fn function_ends(
    alloc: Global,
    names: &mut TypeNames,
    around: &mut Stack<Around>,
    v: Specifiers,
    declarator: Declarator,
    body: Block,
) -> Result<Stage, Obstacle>
    ensures { Goes (spec.function_ends names.old around.old v declarator body) result names.new around.new }
{
    let scope = names.pop_scope(alloc);
    drop(scope);
    match around.pop() {
        Some(Around::Unit(items)) => {
            unit_with(
                around,
                items,
                External::Function(function(v, declarator, body)),
            )
        }
        Some(other) => {
            drop(other);
            Err(STUCK)
        }
        None => Err(STUCK),
    }
}

fn whole_block(block: Block) -> Stage
    ensures { result ≡ Stage.Got (Statement.Block block.line block.declarations block.statements) }
{
    let Block {
        line,
        declarations,
        statements,
    } = block;
    Stage::Got(Statement::Block(line, declarations, statements))
}

/// A block or the block of a function ends.
fn block_ends(
    alloc: Global,
    names: &mut TypeNames,
    around: &mut Stack<Around>,
) -> Result<Stage, Obstacle>
    ensures { Goes (spec.block_ends names.old around.old) result names.new around.new }
{
    match around.pop() {
        Some(Around::Block(block)) => {
            let scope = names.pop_scope(alloc);
            drop(scope);
            Ok(whole_block(block))
        }
        Some(Around::Body(v, x, body)) => function_ends(alloc, names, around, v, x, body),
        Some(other) => {
            drop(other);
            Err(STUCK)
        }
        None => Err(STUCK),
    }
}

/// The most scopes around a block that begins: that of the file and those of 126 blocks.
const MAX_SCOPES: usize = 127;

/// A block begins.
fn block_begins(
    alloc: Global,
    names: &mut TypeNames,
    line: u32,
    around: &mut Stack<Around>,
) -> Result<Stage, Obstacle>
    ensures { Goes (spec.block_begins line names.old around.old) result names.new around.new }
{
    if names.len() > MAX_SCOPES {
        return Err(Obstacle::Nesting);
    }
    names.push_scope(alloc)?;
    let block = empty_block(alloc, line);
    kept(around, Around::Block(block), Stage::Due)
}

fn expression_begins(
    alloc: Global,
    names: &mut TypeNames,
    token: &Symbol,
    around: &mut Stack<Around>,
) -> Result<Stage, Obstacle>
    requires { IsSymbol token.now }
    ensures { Goes (spec.begin 1 token.now names.old (Around.Expression ∷ around.old)) result names.new around.new }
{
    around.push(Around::Expression)?;
    begin(alloc, names, token, around, 1)
}

/// A name with which a statement begins: that of a type is a label, where no declaration may come.
fn named(
    alloc: Global,
    typed: bool,
    token: &Symbol,
    around: &mut Stack<Around>,
) -> Result<Stage, Obstacle>
    requires { IsNamed token.now.text }
    ensures { (names : Names) → Goes (spec.named typed token.now names around.old) result names around.new }
{
    let name = name_of(alloc, &token.text)?;
    if typed {
        let head = Head::Label(token.line, name);
        return kept(around, Around::Under(head), Stage::Colon);
    }
    Ok(Stage::Name(token.line, name))
}

/// A statement begins with the token.
fn statement(
    alloc: Global,
    names: &mut TypeNames,
    token: &Symbol,
    around: &mut Stack<Around>,
) -> Result<Stage, Obstacle>
    requires { IsSymbol token.now }
    ensures { Goes (spec.statement token.now names.old around.old token.now.kind) result names.new around.new }
{
    let line = token.line;
    match token.kind {
        Kind::Semicolon => Ok(Stage::Got(Statement::Empty(line))),
        Kind::LeftBrace => block_begins(alloc, names, line, around),
        Kind::If => kept(around, Around::Test(Test::If, line), Stage::LeftParen),
        Kind::Switch => kept(around, Around::Test(Test::Switch, line), Stage::LeftParen),
        Kind::While => kept(around, Around::Test(Test::While, line), Stage::LeftParen),
        Kind::Do => kept(around, Around::Do(line), Stage::Due),
        Kind::For => kept(around, Around::First(line), Stage::LeftParen),
        Kind::Case => kept(around, Around::Value(line), Stage::Need),
        Kind::Default => kept(around, Around::Under(Head::Default(line)), Stage::Colon),
        Kind::Continue => Ok(Stage::Semicolon(Statement::Continue(line))),
        Kind::Break => Ok(Stage::Semicolon(Statement::Break(line))),
        Kind::Return => kept(around, Around::Return(line), Stage::Need),
        Kind::Goto => Ok(Stage::Target(line)),
        Kind::Name => {
            let typed = is_typed(names, token);
            named(alloc, typed, token, around)
        }
        _ => expression_begins(alloc, names, token, around),
    }
}

fn shallow_statement(
    alloc: Global,
    names: &mut TypeNames,
    token: &Symbol,
    around: &mut Stack<Around>,
) -> Result<Stage, Obstacle>
    requires { IsSymbol token.now }
    ensures { Goes (spec.shallow around.old (spec.statement token.now names.old around.old token.now.kind)) result names.new around.new }
{
    if has_room(around) {
        statement(alloc, names, token, around)
    } else {
        Err(Obstacle::Nesting)
    }
}

/// A statement is due, or the end of a block.
#[tactic(auto, using(crate::proofs::Others::statement_due_else))]
fn statement_due(
    alloc: Global,
    names: &mut TypeNames,
    token: &Symbol,
    around: &mut Stack<Around>,
) -> Result<Stage, Obstacle>
    requires { IsSymbol token.now }
    ensures { Goes (spec.statement_due token.now names.old around.old token.now.kind) result names.new around.new }
{
    match token.kind {
        Kind::RightBrace => block_ends(alloc, names, around),
        _ => shallow_statement(alloc, names, token, around),
    }
}

/// A function or a declaration is due, or the end.
fn external_due(
    alloc: Global,
    names: &mut TypeNames,
    token: &Symbol,
    around: &mut Stack<Around>,
) -> Result<Stage, Obstacle>
    requires { IsSymbol token.now }
    ensures { Goes (spec.external_due token.now names.old around.old token.now.kind) result names.new around.new }
{
    match token.kind {
        Kind::End => Ok(Stage::Over),
        _ => specifiers(alloc, names, token, around),
    }
}

/// Whether the place is in a block where no statement was read.
fn is_early(around: &Stack<Around>) -> bool
    ensures { result ≡ spec.is_early around.now }
{
    match around.top() {
        Some(Around::Body(_, _, body)) => body.statements.is_empty(),
        Some(Around::Block(block)) => block.statements.is_empty(),
        _ => false,
    }
}

/// Whether the token begins a declaration of a block. One may come only before the statements.
fn is_declaration(names: &TypeNames, token: &Symbol, around: &Stack<Around>) -> bool
    ensures { result ≡ spec.is_early around.now && begins_in (typed_in names.now token.now) token.now.kind }
{
    let typed = is_typed(names, token);
    is_early(around) && begins_specifiers(typed, token.kind)
}

fn type_name(alloc: Global, token: &Symbol) -> Result<Stage, Obstacle>
    requires { IsNamed token.now.text }
    ensures { (names : Names) → (fs : List Around) → Goes (Ok (names, (fs, Stage.TypeName token.now.line token.now.text))) result names fs }
{
    let name = name_of(alloc, &token.text)?;
    Ok(Stage::TypeName(token.line, name))
}

/// A declaration begins with the token, or with the name of a type: there a label may stand too.
#[tactic(auto, using(crate::proofs::Others::early_else))]
fn early(
    alloc: Global,
    names: &mut TypeNames,
    token: &Symbol,
    around: &mut Stack<Around>,
) -> Result<Stage, Obstacle>
    requires { IsSymbol token.now }
    ensures { Goes (spec.early token.now names.old around.old token.now.kind) result names.new around.new }
{
    match token.kind {
        Kind::Name => type_name(alloc, token),
        _ => specifiers(alloc, names, token, around),
    }
}

/// A declaration or a statement of a block, or a statement under another, is due.
fn item_due(
    alloc: Global,
    names: &mut TypeNames,
    token: &Symbol,
    around: &mut Stack<Around>,
) -> Result<Stage, Obstacle>
    requires { IsSymbol token.now }
    ensures { Goes (spec.item_due token.now names.old around.old) result names.new around.new }
{
    if is_declaration(names, token, around) {
        early(alloc, names, token, around)
    } else {
        statement_due(alloc, names, token, around)
    }
}

fn is_outside(around: &Stack<Around>) -> bool
    ensures { result ≡ spec.is_outside around.now }
{
    match around.top() {
        Some(Around::Unit(_)) => true,
        _ => false,
    }
}

/// What stands at file scope, in a block or under a statement is due.
pub fn due(
    alloc: Global,
    names: &mut TypeNames,
    token: &Symbol,
    around: &mut Stack<Around>,
) -> Result<Stage, Obstacle>
    requires { IsSymbol token.now }
    ensures { Goes (spec.due token.now names.old around.old) result names.new around.new }
{
    if is_outside(around) {
        external_due(alloc, names, token, around)
    } else {
        item_due(alloc, names, token, around)
    }
}

/// Whether the statement may go on with `else`, which follows if `other` says so.
fn waits(other: bool, head: &Head) -> bool
    ensures { result ≡ spec.waits other head.now }
{
    match head {
        Head::Then(_, _) => other,
        _ => false,
    }
}

/// Whether the place ends with a statement.
fn ends_on(other: bool, around: &Stack<Around>) -> bool
    ensures { result ≡ ends_before other around.now }
{
    match around.top() {
        Some(Around::Under(head)) => !waits(other, head),
        _ => false,
    }
}

/// The statement that ends with this one.
fn built(alloc: Global, head: Head, last: Statement) -> Result<Statement, NoMemory>
    ensures { IfOk result (λ x. x ≡ spec.built head last) }
{
    let last = Shared::new(alloc, last)?;
    Ok(match head {
        Head::Then(line, x) => Statement::If(line, x, last, None),
        Head::Else(line, x, first) => Statement::If(line, x, first, Some(last)),
        Head::Switch(line, x) => Statement::Switch(line, x, last),
        Head::While(line, x) => Statement::While(line, x, last),
        Head::For(line, x, y, z) => Statement::For(line, x, y, z, last),
        Head::Case(line, x) => Statement::Case(line, x, last),
        Head::Default(line) => Statement::Default(line, last),
        Head::Label(line, name) => Statement::Label(line, name, last),
    })
}

/// All that ends with the statement, where `other` says whether `else` follows.
#[tactic(auto, using(crate::proofs::Settling::settles_on, crate::proofs::Settling::settle_ends))]
fn settle(
    alloc: Global,
    other: bool,
    around: &mut Stack<Around>,
    mut last: Statement,
) -> Result<Statement, NoMemory>
    ensures { IfOk result (λ x. spec.settle other around.old last ≡ (around.new, x)) }
{
    'ending: while ends_on(other, around) {
        if let Some(Around::Under(head)) = around.pop() {
            last = built(alloc, head, last)?;
        }
    }
    Ok(last)
}

/// `else` behind a statement.
fn other_begins(
    alloc: Global,
    around: &mut Stack<Around>,
    head: Head,
    last: Statement,
) -> Result<Stage, Obstacle>
    ensures { (names : Names) → Goes (spec.other_begins names around.old head last) result names around.new }
{
    match head {
        Head::Then(line, x) => {
            let last = Shared::new(alloc, last)?;
            kept(around, Around::Under(Head::Else(line, x, last)), Stage::Due)
        }
        other => {
            drop(other);
            Err(STUCK)
        }
    }
}

/// A token behind the body of a `do`.
fn until(
    alloc: Global,
    token: &Symbol,
    around: &mut Stack<Around>,
    line: u32,
    body: Statement,
) -> Result<Stage, Obstacle>
    ensures { (names : Names) → Goes (spec.until token.now names around.old line body token.now.kind) result names around.new }
{
    match token.kind {
        Kind::While => {
            let body = Shared::new(alloc, body)?;
            kept(
                around,
                Around::Until(line, body, token.line),
                Stage::LeftParen,
            )
        }
        _ => Err(STUCK),
    }
}

fn with_statement(block: Block, last: Statement) -> Result<Block, NoMemory>
    ensures { IfOk result (λ b. b ≡ trees.with_statement block last) }
{
    let Block {
        line,
        declarations,
        mut statements,
    } = block;
    statements.push(last)?;
    Ok(Block {
        line,
        declarations,
        statements,
    })
}

fn body_goes_on(
    alloc: Global,
    names: &mut TypeNames,
    token: &Symbol,
    around: &mut Stack<Around>,
    v: Specifiers,
    x: Declarator,
    body: Block,
    last: Statement,
) -> Result<Stage, Obstacle>
    requires { IsSymbol token.now }
    ensures { Goes (spec.behind token.now names.old (Around.Body v x body ∷ around.old, last)) result names.new around.new }
{
    let body = with_statement(body, last)?;
    around.push(Around::Body(v, x, body))?;
    statement_due(alloc, names, token, around)
}

fn block_goes_on(
    alloc: Global,
    names: &mut TypeNames,
    token: &Symbol,
    around: &mut Stack<Around>,
    block: Block,
    last: Statement,
) -> Result<Stage, Obstacle>
    requires { IsSymbol token.now }
    ensures { Goes (spec.behind token.now names.old (Around.Block block ∷ around.old, last)) result names.new around.new }
{
    let block = with_statement(block, last)?;
    around.push(Around::Block(block))?;
    statement_due(alloc, names, token, around)
}

/// A token behind a statement and what ends with it.
fn behind(
    alloc: Global,
    names: &mut TypeNames,
    token: &Symbol,
    around: &mut Stack<Around>,
    last: Statement,
) -> Result<Stage, Obstacle>
    requires { IsSymbol token.now }
    ensures { Goes (spec.behind token.now names.old (around.old, last)) result names.new around.new }
{
    match around.pop() {
        Some(Around::Under(head)) => other_begins(alloc, around, head, last),
        Some(Around::Do(line)) => until(alloc, token, around, line, last),
        Some(Around::Body(v, x, body)) => {
            body_goes_on(alloc, names, token, around, v, x, body, last)
        }
        Some(Around::Block(block)) => block_goes_on(alloc, names, token, around, block, last),
        Some(other) => {
            drop(other);
            Err(STUCK)
        }
        None => Err(STUCK),
    }
}

fn is_else(kind: Kind) -> bool
    ensures { result ≡ spec.is_else kind }
{
    match kind {
        Kind::Else => true,
        _ => false,
    }
}

/// A token behind a statement.
pub fn got(
    alloc: Global,
    names: &mut TypeNames,
    token: &Symbol,
    around: &mut Stack<Around>,
    last: Statement,
) -> Result<Stage, Obstacle>
    requires { IsSymbol token.now }
    ensures { Goes (spec.got token.now names.old around.old last) result names.new around.new }
{
    let last = settle(alloc, is_else(token.kind), around, last)?;
    behind(alloc, names, token, around, last)
}
