// The texts of a run, and what is found in them (ANSI 3.1.2.2, 3.7).
ghost use Rattle.std.specs.Prelude.{◌≡◌, IfOk, MatchOption, None, Some};
ghost use Rattle.sc_core.specs.Modules as modules;
ghost use Rattle.sc_meaning.specs.Names as names;
ghost use Rattle.sc_meaning.specs.Versions as spec;
ghost use Rattle.sc_core_held.specs.Found.{callee_found};

use crate::library::library_fun;
use crate::module::Module;
use sc_base::{Duplicate, Form, Key, Name, NoMemory, Shared};
use sc_core::{Core, Fun, StaticObj};
use sc_meaning::LibFun;
use std::alloc::Global;
use std::marker::Model;

/// A module's text with the form in which it runs; two texts with one number are the same text.
#[derive(Drop)]
pub struct Text {
    pub number: u32,
    pub core: Module,
    pub form: Form,
}

impl Model for Text {
    ghost use Rattle.std.specs.Coded.{codes};
    ghost use Rattle.sc_types.specs.contracts.ctype.CType as types;
    ghost use Rattle.sc_types.specs.contracts.ctype.Signature as signatures;
    ghost use Rattle.sc_core.specs.contracts.expression.CoreExpr as expressions;
    ghost use Rattle.sc_core.specs.contracts.statement.CoreStmt as statements;
    ghost use Rattle.sc_meaning.specs.Versions as spec;

    ghost Value = { spec.Text };

    ghost coded = { Prim.hlevel (codes, types.the_row.coded, signatures.the_row.coded, expressions.the_row.coded, statements.the_row.coded) };

    ghost view = { λ t. record { number = t.number; core = t.core; form = t.form } };
}

impl Text {
    /// A text of this number, in this form.
    pub fn new(alloc: Global, number: u32, form: Form, core: Core) -> Result<Text, NoMemory>
        ensures { IfOk result (λ t. t ≡ record { number = number; core = core; form = form }) }
    {
        Ok(Text {
            number,
            core: Module::new(alloc, core)?,
            form,
        })
    }
}

impl Duplicate for Text {
    fn copy(&self, _: Global) -> Result<Text, NoMemory> {
        Ok(Text {
            number: self.number,
            core: self.core.share()?,
            form: self.form,
        })
    }
}

/// What a key names when it is called.
#[derive(Clone, Copy)]
pub enum Callee<'a> {
    Missing,
    InText(&'a Text, &'a Shared<Fun>),
    InLibrary(LibFun),
}

// The function of a module that has this name, where its linkage is external, or internal, as is wanted.
fn fun_named<'a>(core: &'a Module, name: &Name, external: bool) -> Option<&'a Shared<Fun>>
    ensures { MatchOption result (spec.if_external external (modules.function_of name.now core.now.funs) ≡ None) (λ f. spec.if_external external (modules.function_of name.now core.now.funs) ≡ Some f.now) }
{
    match core.function(name) {
        None => None,
        Some(f) => {
            if external {
                if f.get().external { Some(f) } else { None }
            } else {
                if f.get().external { None } else { Some(f) }
            }
        }
    }
}

// The function of a module that has this key.
fn fun_by<'a>(key: &Key, core: &'a Module) -> Option<&'a Shared<Fun>>
    ensures { MatchOption result (spec.fun_by key.now.«module» key.now.name core.now ≡ None) (λ f. spec.fun_by key.now.«module» key.now.name core.now ≡ Some f.now) }
{
    match &key.module {
        None => fun_named(core, &key.name, true),
        Some(home) => {
            if core.get().name == *home {
                fun_named(core, &key.name, false)
            } else {
                None
            }
        }
    }
}

// The library's function of this key.
fn library_callee<'a>(key: &Key) -> Callee<'a>
    ensures { callee_found result ≡ spec.library_callee key.now key.now.«module» }
{
    match &key.module {
        None => match library_fun(&key.name) {
            None => Callee::Missing,
            Some(f) => Callee::InLibrary(f),
        },
        Some(_) => Callee::Missing,
    }
}

/// The function of the first text that defines the key, else the library's.
pub fn callee_of<'a>(texts: &'a [Text], key: &Key) -> Callee<'a>
    ensures { callee_found result ≡ spec.callee_of texts.now key.now }
{
    for t in texts {
        if let Some(f) = fun_by(key, &t.core) {
            return Callee::InText(t, f);
        }
    }
    library_callee(key)
}

/// An object of static storage duration, and the text that defines it.
#[derive(Drop)]
pub struct Definition<'a> {
    pub text: &'a Text,
    pub object: &'a StaticObj,
}

impl<'a> Model for Definition<'a> {
    ghost use Rattle.std.specs.Coded.{codes};
    ghost use Rattle.sc_types.specs.contracts.ctype.CType as types;
    ghost use Rattle.sc_types.specs.contracts.ctype.Signature as signatures;
    ghost use Rattle.sc_core.specs.contracts.expression.CoreExpr as expressions;
    ghost use Rattle.sc_core.specs.contracts.statement.CoreStmt as statements;
    ghost use Rattle.sc_meaning.specs.Versions as spec;

    ghost Value = { spec.Definition };

    ghost coded = { Prim.hlevel (codes, types.the_row.coded, signatures.the_row.coded, expressions.the_row.coded, statements.the_row.coded) };

    ghost view = { λ d. record { text = d.text.now; object = d.object.now } };
}

/// The object of the first text that defines the key.
pub fn object_in<'a>(texts: &'a [Text], key: &Key) -> Option<Definition<'a>>
    ensures { MatchOption result (spec.object_in texts.now key.now ≡ None) (λ d. spec.object_in texts.now key.now ≡ Some d) }
{
    for text in texts {
        if let Some(object) = text.core.object(key) {
            return Some(Definition { text, object });
        }
    }
    None
}
