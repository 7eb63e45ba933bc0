// A replacement list is read into chains of the parts that `##` joins.
ghost use Rattle.std.specs.Prelude.{◌≡◌, Some, None, List, [], ◌∷◌, ◌++◌, IfOk, OnOk, if◌then◌else◌};
ghost use Rattle.sc_macro.specs.Replacement as spec;
ghost use Rattle.sc_macro.specs.Replacement.{Steps};

use crate::macros::Part;
use crate::marked::{is_mark, is_name, is_paste};
use indexmap::IndexSet;
use sc_base::{Bytes, Duplicate, Items, NoMemory};
use sc_lex::Token;
use std::alloc::Global;

/// The chains so far; whether `##` stands before the next token; and where `#` stands there, whether white space stands
/// before that.
#[derive(Drop)]
pub struct Reader {
    pub chains: Items<Items<Part>>,
    pub joined: bool,
    pub hash: Option<bool>,
}

fn parameter(names: &IndexSet<Bytes>, token: &Token) -> Option<usize>
    ensures { result ≡ spec.parameter names.now.keys token.now }
{
    if is_name(token) {
        names.get_index_of(&token.text)
    } else {
        None
    }
}

fn part_of(alloc: Global, names: &IndexSet<Bytes>, token: &Token) -> Result<Part, NoMemory>
    ensures { IfOk result (λ p. p ≡ spec.part_of names.now.keys token.now) }
{
    match parameter(names, token) {
        Some(number) => Ok(Part::Parameter {
            number,
            space: token.space,
        }),
        None => Ok(Part::Word(token.copy(alloc)?)),
    }
}

fn push_longer(
    chains: &mut Items<Items<Part>>,
    chain: Items<Part>,
    part: Part,
) -> Result<(), NoMemory>
    ensures { OnOk result (chains.new ≡ chains.old ++ (chain ++ part ∷ []) ∷ []) }
{
    let mut chain = chain;
    chain.push(part)?;
    chains.push(chain)
}

#[tactic(auto, using(crate::proofs::Chains::in_last_behind))]
fn push_in_last(alloc: Global, chains: &mut Items<Items<Part>>, part: Part) -> Result<(), NoMemory>
    ensures { OnOk result (chains.new ≡ spec.in_last chains.old part) }
{
    match chains.pop() {
        Some(last) => push_longer(chains, last, part),
        None => push_longer(chains, Items::new(alloc), part),
    }
}

impl Reader {
    fn add(&mut self, alloc: Global, part: Part) -> Result<(), NoMemory>
        ensures { OnOk result (self.new ≡ spec.added self.old part) }
    {
        if self.joined {
            push_in_last(alloc, &mut self.chains, part)?;
        } else {
            push_longer(&mut self.chains, Items::new(alloc), part)?;
        }
        self.joined = false;
        self.hash = None;
        Ok(())
    }

    fn plain(
        &mut self,
        alloc: Global,
        function: bool,
        names: &IndexSet<Bytes>,
        token: &Token,
    ) -> Result<bool, NoMemory>
        ensures { IfOk result (λ went. Steps (spec.plain function names.now.keys self.old token.now) went self.new) }
    {
        if is_paste(token) {
            if self.chains.is_empty() {
                return Ok(false);
            }
            self.joined = true;
            self.hash = None;
        } else if function && is_mark(token, b'#') {
            self.hash = Some(token.space);
        } else {
            let part = part_of(alloc, names, token)?;
            self.add(alloc, part)?;
        }
        Ok(true)
    }

    /// Takes a token; false where it may not stand there.
    fn step(
        &mut self,
        alloc: Global,
        function: bool,
        names: &IndexSet<Bytes>,
        token: &Token,
    ) -> Result<bool, NoMemory>
        ensures { IfOk result (λ went. Steps (spec.step function names.now.keys self.old token.now) went self.new) }
    {
        match self.hash {
            None => self.plain(alloc, function, names, token),
            Some(space) => match parameter(names, token) {
                None => Ok(false),
                Some(number) => {
                    self.add(alloc, Part::Quoted { number, space })?;
                    Ok(true)
                }
            },
        }
    }
}

/// The chains of a replacement list, where it is well formed.
pub fn chains_of(
    alloc: Global,
    function: bool,
    names: &IndexSet<Bytes>,
    tokens: &[Token],
) -> Result<Option<Items<Items<Part>>>, NoMemory>
    ensures { IfOk result (λ chains. chains ≡ spec.chains_of function names.now.keys tokens.now) }
{
    let mut reader = Reader {
        chains: Items::new(alloc),
        joined: false,
        hash: None,
    };
    let mut rest = tokens;
    'reading: while let Some((token, more)) = rest.split_first() {
        if !reader.step(alloc, function, names, token)? {
            return Ok(None);
        }
        rest = more;
    }
    if reader.joined || reader.hash.is_some() {
        return Ok(None);
    }
    Ok(Some(reader.chains))
}

fn mark_wanted(wanted: &mut Items<bool>, chain: &[Part])
    ensures { wanted.new ≡ spec.marked wanted.old chain.now }
{
    match chain {
        [Part::Parameter { number, .. }] => {
            if *number < wanted.len() {
                wanted.set(*number, true);
            }
        }
        _ => (),
    }
}

/// For each parameter, whether its argument is wanted expanded.
pub fn wanted(
    alloc: Global,
    chains: &[Items<Part>],
    names: &[Bytes],
) -> Result<Items<bool>, NoMemory>
    ensures { IfOk result (λ flags. flags ≡ spec.wanted chains.now 0 names.now) }
{
    let mut wanted = Items::new(alloc);
    for _name in names {
        wanted.push(false)?;
    }
    for chain in chains {
        mark_wanted(&mut wanted, chain.as_slice());
    }
    Ok(wanted)
}
