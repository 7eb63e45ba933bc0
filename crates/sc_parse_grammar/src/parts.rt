// Specifiers and declarators as trees.
ghost use Rattle.std.specs.Prelude.{◌≡◌, [], ◌∷◌, ◌++◌, Some, false, map, IfOk};
ghost use Rattle.sc_parse_grammar.specs.Machine as spec;
ghost use Rattle.sc_parse_grammar.specs.Types.{no_words as no_words_at, with_word, with_const, with_storage, type_of, declarator_of as declarator_at, declarator_in, no_direct as nothing, named_direct as named_in, with_step as step_with, pointed as pointed_in};
ghost use Rattle.sc_parse_grammar.specs.Steps.{IsNamed};

use crate::nodes::name_of;
use crate::operand::{Direct, Whole};
use sc_base::{Items, NoMemory, Shared, Stack};
use sc_parse_names::{Entry, Symbol};
use sc_tree::{Declarator, Derivation, Identifier, Specifiers, Storage, TypeName, TypeWord};
use std::alloc::Global;

/// Specifiers without a word, on this line.
pub fn no_words(alloc: Global, line: u32) -> Specifiers
    ensures { result ≡ no_words_at line }
{
    Specifiers {
        line,
        storage: None,
        constant: false,
        words: Items::new(alloc),
    }
}

/// The specifiers with one type word more.
pub fn added(specifiers: Specifiers, word: TypeWord) -> Result<Specifiers, NoMemory>
    ensures { IfOk result (λ s. s ≡ with_word specifiers word) }
{
    let Specifiers {
        line,
        storage,
        constant,
        mut words,
    } = specifiers;
    words.push(word)?;
    Ok(Specifiers {
        line,
        storage,
        constant,
        words,
    })
}

/// The specifiers with `const`.
pub fn constant(specifiers: Specifiers) -> Specifiers
    ensures { result ≡ with_const specifiers }
{
    let mut all = specifiers;
    all.constant = true;
    all
}

/// The specifiers with a storage class.
pub fn stored(specifiers: Specifiers, class: Storage) -> Specifiers
    ensures { result ≡ with_storage specifiers class }
{
    let mut all = specifiers;
    all.storage = Some(class);
    all
}

/// The declarator as a tree.
pub fn declarator_of(whole: Whole) -> Declarator
    ensures { result ≡ declarator_at whole.line whole.direct }
{
    let Whole { line, direct } = whole;
    let Direct {
        identifier,
        derivations,
        scope,
    } = direct;
    drop(scope);
    Declarator {
        line,
        identifier,
        derivations,
    }
}

/// The declarator as a tree, where there is one.
pub fn possible_declarator(whole: Option<Whole>) -> Option<Declarator>
    ensures { result ≡ declarator_in whole }
{
    match whole {
        Some(whole) => Some(declarator_of(whole)),
        None => None,
    }
}

/// The type name.
pub fn type_name(
    alloc: Global,
    specifiers: Specifiers,
    whole: Option<Whole>,
) -> Result<Shared<TypeName>, NoMemory>
    ensures { IfOk result (λ t. t ≡ type_of specifiers (declarator_in whole)) }
{
    let line = specifiers.line;
    let declarator = possible_declarator(whole);
    Shared::new(
        alloc,
        TypeName {
            line,
            specifiers,
            declarator,
        },
    )
}

/// No name, and nothing that it is.
pub fn no_direct(alloc: Global) -> Direct
    ensures { result ≡ nothing }
{
    Direct {
        identifier: None,
        derivations: Items::new(alloc),
        scope: Items::new(alloc),
    }
}

/// The name alone.
pub fn named_direct(alloc: Global, token: &Symbol) -> Result<Direct, NoMemory>
    requires { IsNamed token.now.text }
    ensures { IfOk result (λ d. d ≡ named_in token.now) }
{
    let name = name_of(alloc, &token.text)?;
    let identifier = Identifier {
        line: token.line,
        name,
    };
    Ok(Direct {
        identifier: Some(identifier),
        derivations: Items::new(alloc),
        scope: Items::new(alloc),
    })
}

/// One step more behind those that stand nearer to the name; the first one's scope is that of the name.
pub fn with_step(d: Direct, step: Derivation, scope: Items<Entry>) -> Result<Direct, NoMemory>
    ensures { IfOk result (λ e. e ≡ step_with d step scope) }
{
    let Direct {
        identifier,
        mut derivations,
        scope: old,
    } = d;
    let scope = if derivations.is_empty() { scope } else { old };
    derivations.push(step)?;
    Ok(Direct {
        identifier,
        derivations,
        scope,
    })
}

/// The steps of a declarator and those of stars, from the last.
fn with_pointers(
    derivations: Items<Derivation>,
    stars: Stack<bool>,
) -> Result<Items<Derivation>, NoMemory>
    ensures { IfOk result (λ all. all ≡ derivations ++ map Derivation.Pointer stars) }
{
    let mut all = derivations;
    let mut left = stars;
    'popping: while let Some(constant) = left.pop() {
        all.push(Derivation::Pointer(constant))?;
    }
    Ok(all)
}

/// The declarator under stars.
pub fn pointed(stars: Stack<bool>, d: Direct) -> Result<Direct, NoMemory>
    ensures { IfOk result (λ e. e ≡ pointed_in stars d) }
{
    let Direct {
        identifier,
        derivations,
        scope,
    } = d;
    let derivations = with_pointers(derivations, stars)?;
    Ok(Direct {
        identifier,
        derivations,
        scope,
    })
}

/// A first star.
pub fn one_star(alloc: Global) -> Result<Stack<bool>, NoMemory>
    ensures { IfOk result (λ stars. stars ≡ false ∷ []) }
{
    let mut stars = Stack::new(alloc);
    stars.push(false)?;
    Ok(stars)
}

/// One star more.
pub fn more_stars(stars: Stack<bool>) -> Result<Stack<bool>, NoMemory>
    ensures { IfOk result (λ all. all ≡ false ∷ stars) }
{
    let mut all = stars;
    all.push(false)?;
    Ok(all)
}

/// The last star is `const`.
pub fn const_star(stars: Stack<bool>) -> Result<Stack<bool>, NoMemory>
    ensures { IfOk result (λ all. all ≡ spec.const_star stars) }
{
    let mut all = stars;
    if let Some(_) = all.pop() {
        all.push(true)?;
    }
    Ok(all)
}
