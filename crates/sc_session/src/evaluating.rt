// An expression is evaluated: the run of a function that returns it.
ghost use Rattle.std.specs.Prelude.{◌≡◌, ◌≤◌, ◌++◌, ◌∷◌, [], Err, IfOk, None, is_some};
ghost use Rattle.sc_outside.specs.Causes.{Rose};
ghost use Rattle.sc_session.specs.Evaluating as spec;
ghost use Rattle.sc_session.specs.Modules.{texts};
ghost use Rattle.sc_session.specs.States.{if_absent};
ghost use Rattle.sc_session.specs.Stopping as stopping;
ghost use Rattle.sc_session.specs.Valued as valued;
ghost use Rattle.sc_world.specs.declared.post.Unsent.TheVariants as unsent;

use crate::present::{kept_named, texts_of};
use crate::session::Session;
use crate::stops::{Stop, places};
use sc_base::{Bytes, Duplicate, Fault, Form, Items, Key, Name, NoMemory};
use sc_core::Core;
use sc_core_held::Text;
use sc_eval::{Evaluation, Kept, start_of};
use sc_outside::Sink;
use sc_session_forms::are_sources;
use sc_words::{Answer, Denied, StopAt};
use sc_world::Unsent;
use std::alloc::Global;
use std::mem;

/// The most bytes that a command's line has.
const LONGEST_LINE: usize = 1024;

// The texts with one more behind them.
fn joined(alloc: Global, texts: Items<Text>, text: &Text) -> Result<Items<Text>, NoMemory>
    ensures { IfOk result (λ all. all ≡ texts ++ text.now ∷ []) }
{
    let mut all = texts;
    all.push(text.copy(alloc)?)?;
    Ok(all)
}

// The texts of modules, and that of an evaluation.
fn with_evaluation(
    alloc: Global,
    texts: Items<Text>,
    evaluating: &Option<Text>,
) -> Result<Items<Text>, NoMemory>
    ensures { IfOk result (λ all. all ≡ valued.with_evaluation evaluating.now texts) }
{
    match evaluating {
        None => Ok(texts),
        Some(text) => joined(alloc, texts, text),
    }
}

// The stops, or none in an evaluation.
fn stops_by(
    alloc: Global,
    stops: &[Stop],
    evaluating: &Option<Text>,
) -> Result<Items<StopAt>, NoMemory>
    ensures { IfOk result (λ places. places ≡ valued.stops_by evaluating.now (stopping.places stops.now)) }
{
    match evaluating {
        None => places(alloc, stops),
        Some(_) => Ok(Items::new(alloc)),
    }
}

// The key of the function in a module of this name.
fn eval_key(alloc: Global, name: &Name) -> Result<Key, NoMemory>
    ensures { IfOk result (λ key. key ≡ spec.eval_key name.now) }
{
    let Ok(function) = Name::new(alloc, b"$eval") else {
        return Err(NoMemory);
    };
    let home = name.copy(alloc)?;
    Ok(Key {
        module: Some(home),
        name: function,
    })
}

// The text that has the function alone.
fn text_of(alloc: Global, number: u32, name: &Name, e: Evaluation) -> Result<Text, NoMemory>
    ensures { IfOk result (λ text. text ≡ spec.text_of number name.now e) }
{
    let Evaluation { function, structs } = e;
    let name = name.copy(alloc)?;
    let mut funs = Items::new(alloc);
    funs.push(function)?;
    let core = Core {
        name,
        funs,
        objects: Items::new(alloc),
        literals: Items::new(alloc),
        births: Items::new(alloc),
        structs,
        declared: Items::new(alloc),
    };
    Text::new(alloc, number, Form::Source, core)
}

// The text that evaluates the expression that a line is, in a module of which this is kept.
fn made_text(
    alloc: Global,
    number: u32,
    kept: &Kept,
    name: &Name,
    line: &[u8],
) -> Result<Text, Fault>
    ensures { spec.MakesFrom number kept.now name.now line.now result }
{
    // No command's line is so long.
    if line.len() > LONGEST_LINE {
        return Err(Fault::NoMemory);
    }
    match start_of(alloc, kept, name, line) {
        Ok(evaluation) => match text_of(alloc, number, name, evaluation) {
            Ok(text) => Ok(text),
            Err(_) => Err(Fault::NoMemory),
        },
        Err(fault) => Err(fault),
    }
}

// What an answer is where there is no such text.
fn refused(fault: Fault) -> Answer
    ensures { spec.IsDenied fault result }
{
    match fault {
        Fault::Refused(refusal) => Answer::Refused(Denied::Translation(refusal)),
        Fault::NoMemory => Answer::NoMemory,
    }
}

impl Session {
    // The texts with which a run of the session goes on.
    pub(crate) fn going_texts(&self, alloc: Global) -> Result<Items<Text>, NoMemory>
        ensures { IfOk result (λ texts. texts ≡ valued.going_texts self.now) }
    {
        let texts = texts_of(alloc, self.modules.as_slice())?;
        with_evaluation(alloc, texts, &self.evaluating)
    }

    // The stops at which it halts.
    pub(crate) fn going_stops(&self, alloc: Global) -> Result<Items<StopAt>, NoMemory>
        ensures { IfOk result (λ stops. stops ≡ valued.going_stops self.now) }
    {
        stops_by(alloc, self.stops.as_slice(), &self.evaluating)
    }

    // Whether it is an evaluation.
    pub(crate) fn is_valued(&self) -> bool
        ensures { result ≡ is_some self.now.evaluating }
    {
        self.evaluating.is_some()
    }

    // Evaluates the expression that a line is, in a module.
    pub(crate) fn eval<K: Sink>(
        &mut self,
        alloc: Global,
        name: Name,
        line: Bytes,
        out: &mut K,
    ) -> Result<Answer, Unsent>
        requires { if_absent name (texts self.old.modules) ≡ None }
        ensures evaluates { spec.EvaluatesOut (K.written out.old) (K.written out.new) self.old name line result self.new }
        ensures later { K.faults out.old ≤ K.faults out.new }
        ensures failed { result ≡ Err unsent.Failed → Rose (K.faults out.old) (K.faults out.new) }
    {
        match self.evaluation(alloc, &name, line.as_slice()) {
            Ok(text) => self.evaluate(alloc, &name, text, out),
            Err(fault) => Ok(refused(fault)),
        }
    }

    // The text that evaluates an expression in a module.
    fn evaluation(&self, alloc: Global, name: &Name, line: &[u8]) -> Result<Text, Fault>
        requires { if_absent name.now (texts self.now.modules) ≡ None }
        ensures { spec.MakesText self.now name.now line.now result }
    {
        match kept_named(self.modules.as_slice(), name) {
            Some(kept) => made_text(alloc, self.loaded, kept, name, line),
            None => unreachable!(),
        }
    }

    // The run of a text goes from its start on that evaluates an expression.
    fn evaluate<K: Sink>(
        &mut self,
        alloc: Global,
        name: &Name,
        text: Text,
        out: &mut K,
    ) -> Result<Answer, Unsent>
        ensures evaluates { spec.RunsText (K.written out.old) (K.written out.new) self.old text name.now result self.new }
        ensures later { K.faults out.old ≤ K.faults out.new }
        ensures failed { result ≡ Err unsent.Failed → Rose (K.faults out.old) (K.faults out.new) }
    {
        let Ok(key) = eval_key(alloc, name) else {
            drop(text);
            return Ok(Answer::NoMemory);
        };
        let Ok(texts) = texts_of(alloc, self.modules.as_slice()) else {
            drop(text);
            return Ok(Answer::NoMemory);
        };
        self.put_evaluation(text);
        let input = Items::new(alloc);
        if are_sources(texts.as_slice()) {
            self.start(alloc, &key, input, out)
        } else {
            Ok(self.start_mixed(alloc, &key, input))
        }
    }

    // A text evaluates an expression from here on; a run that ended is forgotten.
    fn put_evaluation(&mut self, text: Text)
        ensures { self.new ≡ spec.with_text text self.old }
    {
        self.forget();
        drop(mem::replace(&mut self.evaluating, Some(text)));
    }
}
