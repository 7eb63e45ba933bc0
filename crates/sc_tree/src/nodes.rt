// The number of nodes of a tree.
ghost use Rattle.std.specs.Prelude.{◌≡◌, ◌<◌, ◌^◌, sum_by};
ghost use Rattle.sc_tree.specs.Nodes as spec;

use crate::declaration::{Declaration, InitDeclarator, Initializer};
use crate::expression::{
    Declarator, Derivation, Enumerator, Expr, Member, Parameter, Specifiers, TypeName, TypeWord,
};
use crate::statement::{Block, External, Function, Statement, Unit};
use sc_base::Shared;

#[cycle(nodes)]
fn of_expression(e: &Expr) -> u64
    requires { spec.expression_nodes e.now < 2 ^ 64 }
    ensures { result ≡ spec.expression_nodes e.now }
{
    match e {
        Expr::Name(_, _) | Expr::Constant(_, _) | Expr::String(_, _) => 1,
        Expr::OffsetOf(_, t, _) | Expr::SizeOfType(_, t) => 1 + of_type(t.get()),
        Expr::Member(_, a, _) | Expr::Arrow(_, a, _) => 1 + of_expression(a.get()),
        Expr::Postfix(_, _, a) => 1 + of_expression(a.get()),
        Expr::Unary(_, _, a) => 1 + of_expression(a.get()),
        Expr::SizeOf(_, a) => 1 + of_expression(a.get()),
        Expr::Cast(_, t, a) => 1 + of_type(t.get()) + of_expression(a.get()),
        Expr::Index(_, a, b) | Expr::Comma(_, a, b) => {
            1 + of_expression(a.get()) + of_expression(b.get())
        }
        Expr::Binary(_, _, a, b) => 1 + of_expression(a.get()) + of_expression(b.get()),
        Expr::Assign(_, _, a, b) => 1 + of_expression(a.get()) + of_expression(b.get()),
        Expr::Conditional(_, a, b, c) => {
            1 + of_expression(a.get()) + of_expression(b.get()) + of_expression(c.get())
        }
        Expr::Call(_, f, args) => 1 + of_expression(f.get()) + of_arguments(args.as_slice()),
    }
}

#[cycle(nodes)]
fn of_arguments(args: &[Shared<Expr>]) -> u64
    requires { sum_by spec.expression_nodes args.now < 2 ^ 64 }
    ensures { result ≡ sum_by spec.expression_nodes args.now }
{
    let mut total = 0;
    for e in args {
        total += of_expression(e.get());
    }
    total
}

#[cycle(nodes)]
fn of_type(t: &TypeName) -> u64
    requires { spec.type_name_nodes t.now < 2 ^ 64 }
    ensures { result ≡ spec.type_name_nodes t.now }
{
    let total = of_specifiers(&t.specifiers);
    match &t.declarator {
        Some(d) => total + of_declarator(d),
        None => total,
    }
}

#[cycle(nodes)]
fn of_specifiers(s: &Specifiers) -> u64
    requires { spec.specifiers_nodes s.now < 2 ^ 64 }
    ensures { result ≡ spec.specifiers_nodes s.now }
{
    let mut total = 1;
    for word in s.words.as_slice() {
        total += of_word(word);
    }
    total
}

#[cycle(nodes)]
fn of_word(word: &TypeWord) -> u64
    requires { spec.word_nodes word.now < 2 ^ 64 }
    ensures { result ≡ spec.word_nodes word.now }
{
    match word {
        TypeWord::Struct(_, _, _, members) => of_members(members.as_slice()),
        TypeWord::Enum(_, _, items) => of_enumerators(items.as_slice()),
        _ => 0,
    }
}

#[cycle(nodes)]
fn of_members(members: &[Member]) -> u64
    requires { sum_by spec.member_nodes members.now < 2 ^ 64 }
    ensures { result ≡ sum_by spec.member_nodes members.now }
{
    let mut total = 0;
    for m in members {
        total += of_specifiers(&m.specifiers) + of_declarators(m.declarators.as_slice());
    }
    total
}

#[cycle(nodes)]
fn of_declarators(declarators: &[Declarator]) -> u64
    requires { sum_by spec.declarator_nodes declarators.now < 2 ^ 64 }
    ensures { result ≡ sum_by spec.declarator_nodes declarators.now }
{
    let mut total = 0;
    for d in declarators {
        total += of_declarator(d);
    }
    total
}

#[cycle(nodes)]
fn of_enumerators(items: &[Enumerator]) -> u64
    requires { sum_by spec.enumerator_nodes items.now < 2 ^ 64 }
    ensures { result ≡ sum_by spec.enumerator_nodes items.now }
{
    let mut total = 0;
    for item in items {
        if let Some(e) = &item.value {
            total += of_expression(e.get());
        }
    }
    total
}

#[cycle(nodes)]
fn of_declarator(d: &Declarator) -> u64
    requires { spec.declarator_nodes d.now < 2 ^ 64 }
    ensures { result ≡ spec.declarator_nodes d.now }
{
    let mut total = 1;
    for step in d.derivations.as_slice() {
        total += of_derivation(step);
    }
    total
}

#[cycle(nodes)]
fn of_derivation(step: &Derivation) -> u64
    requires { spec.derivation_nodes step.now < 2 ^ 64 }
    ensures { result ≡ spec.derivation_nodes step.now }
{
    match step {
        Derivation::Array(Some(size)) => of_expression(size.get()),
        Derivation::Prototype(parameters) => of_parameters(parameters.as_slice()),
        _ => 0,
    }
}

#[cycle(nodes)]
fn of_parameters(parameters: &[Parameter]) -> u64
    requires { sum_by spec.parameter_nodes parameters.now < 2 ^ 64 }
    ensures { result ≡ sum_by spec.parameter_nodes parameters.now }
{
    let mut total = 0;
    for p in parameters {
        total += of_parameter(p);
    }
    total
}

#[cycle(nodes)]
fn of_parameter(p: &Parameter) -> u64
    requires { spec.parameter_nodes p.now < 2 ^ 64 }
    ensures { result ≡ spec.parameter_nodes p.now }
{
    let total = of_specifiers(&p.specifiers);
    match &p.declarator {
        Some(d) => total + of_declarator(d),
        None => total,
    }
}

fn of_possible(e: &Option<Shared<Expr>>) -> u64
    requires { spec.optional_nodes e.now < 2 ^ 64 }
    ensures { result ≡ spec.optional_nodes e.now }
{
    match e {
        Some(e) => of_expression(e.get()),
        None => 0,
    }
}

fn of_initial(e: &Expr) -> u64
    requires { spec.initial_nodes e.now < 2 ^ 64 }
    ensures { result ≡ spec.initial_nodes e.now }
{
    match e {
        Expr::String(_, Some(bytes)) => bytes.as_slice().len() as u64 + 1,
        _ => 1 + of_expression(e),
    }
}

#[cycle(initial)]
fn of_initializer(i: &Initializer) -> u64
    requires { spec.initializer_nodes i.now < 2 ^ 64 }
    ensures { result ≡ spec.initializer_nodes i.now }
{
    match i {
        Initializer::Expression(_, e) => of_initial(e.get()),
        Initializer::List(_, items) => 1 + of_initializers(items.as_slice()),
    }
}

#[cycle(initial)]
fn of_initializers(items: &[Initializer]) -> u64
    requires { sum_by spec.initializer_nodes items.now < 2 ^ 64 }
    ensures { result ≡ sum_by spec.initializer_nodes items.now }
{
    let mut total = 0;
    for i in items {
        total += of_initializer(i);
    }
    total
}

fn of_init_declarator(d: &InitDeclarator) -> u64
    requires { spec.init_declarator_nodes d.now < 2 ^ 64 }
    ensures { result ≡ spec.init_declarator_nodes d.now }
{
    let total = of_declarator(&d.declarator);
    match &d.initializer {
        Some(i) => total + of_initializer(i),
        None => total,
    }
}

fn of_declaration(d: &Declaration) -> u64
    requires { spec.declaration_nodes d.now < 2 ^ 64 }
    ensures { result ≡ spec.declaration_nodes d.now }
{
    let mut total = of_specifiers(&d.specifiers);
    for i in d.declarators.as_slice() {
        total += of_init_declarator(i);
    }
    total
}

fn of_declarations(declarations: &[Declaration]) -> u64
    requires { sum_by spec.declaration_nodes declarations.now < 2 ^ 64 }
    ensures { result ≡ sum_by spec.declaration_nodes declarations.now }
{
    let mut total = 0;
    for d in declarations {
        total += of_declaration(d);
    }
    total
}

#[cycle(statements)]
fn of_statement(s: &Statement) -> u64
    requires { spec.statement_nodes s.now < 2 ^ 64 }
    ensures { result ≡ spec.statement_nodes s.now }
{
    match s {
        Statement::Empty(_)
        | Statement::Continue(_)
        | Statement::Break(_)
        | Statement::Goto(_, _) => 1,
        Statement::Block(_, declarations, statements) => {
            1 + of_declarations(declarations.as_slice()) + of_statements(statements.as_slice())
        }
        Statement::Expression(_, e) => 1 + of_expression(e.get()),
        Statement::If(_, e, s, None) => 1 + of_expression(e.get()) + of_statement(s.get()),
        Statement::If(_, e, s, Some(t)) => {
            1 + of_expression(e.get()) + of_statement(s.get()) + of_statement(t.get())
        }
        Statement::Switch(_, e, s) => 1 + of_expression(e.get()) + of_statement(s.get()),
        Statement::While(_, e, s) => 1 + of_expression(e.get()) + of_statement(s.get()),
        Statement::Do(_, s, _, e) => 1 + of_statement(s.get()) + of_expression(e.get()),
        Statement::For(_, a, b, c, s) => {
            1 + of_possible(a) + of_possible(b) + of_possible(c) + of_statement(s.get())
        }
        Statement::Case(_, e, s) => 1 + of_expression(e.get()) + of_statement(s.get()),
        Statement::Default(_, s) | Statement::Label(_, _, s) => 1 + of_statement(s.get()),
        Statement::Return(_, e) => 1 + of_possible(e),
    }
}

#[cycle(statements)]
fn of_statements(statements: &[Statement]) -> u64
    requires { sum_by spec.statement_nodes statements.now < 2 ^ 64 }
    ensures { result ≡ sum_by spec.statement_nodes statements.now }
{
    let mut total = 0;
    for s in statements {
        total += of_statement(s);
    }
    total
}

fn of_block(b: &Block) -> u64
    requires { spec.block_nodes b.now < 2 ^ 64 }
    ensures { result ≡ spec.block_nodes b.now }
{
    1 + of_declarations(b.declarations.as_slice()) + of_statements(b.statements.as_slice())
}

fn of_function(f: &Function) -> u64
    requires { spec.function_nodes f.now < 2 ^ 64 }
    ensures { result ≡ spec.function_nodes f.now }
{
    of_specifiers(&f.specifiers) + of_declarator(&f.declarator) + of_block(&f.body)
}

/// The nodes of a unit: one for each expression, statement, declarator, list of specifiers and initialiser. A string
/// that is an initialiser by itself has one for each of its bytes, the zero byte among them.
pub fn node_count(unit: &Unit) -> u64
    requires { spec.unit_nodes unit.now < 2 ^ 64 }
    ensures { result ≡ spec.unit_nodes unit.now }
{
    let mut total = 0;
    for item in unit.items.as_slice() {
        total += match item {
            External::Function(f) => of_function(f),
            External::Declaration(d) => of_declaration(d),
        };
    }
    total
}
