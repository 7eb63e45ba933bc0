// Where the string literals of a module stand, by their bytes.
ghost use Rattle.std.specs.Prelude.{◌≡◌, IfOk};
ghost use Rattle.std.specs.HashMap.{get};
ghost use Rattle.std.specs.Str.{bytes_eq};
ghost use Rattle.sc_gen.specs.Definitions as spec;
ghost use Rattle.sc_gen.specs.Finding.{AddsLiteral, FindsLiterals};

use sc_base::{Bytes, Duplicate, NoMemory};
use sc_gen_expr::fitted;
use std::alloc::Global;
use std::collections::HashMap;

/// The literals of a module, and the place of each; of equal ones that of the first.
#[derive(Drop)]
pub(crate) struct Literals<'a> {
    pub all: &'a [Bytes],
    pub places: HashMap<Bytes, usize>,
    ghost finds: { FindsLiterals (get bytes_eq places) all.now },
}

// A literal more, where none has its bytes.
fn add(
    alloc: Global,
    places: &mut HashMap<Bytes, usize>,
    text: &Bytes,
    n: usize,
) -> Result<(), NoMemory>
    ensures { IfOk result (λ _. AddsLiteral (get bytes_eq places.old) text.now n (get bytes_eq places.new)) }
{
    let key = text.copy(alloc)?;
    if !places.contains_key(&key) {
        places.insert(key, n)?;
    }
    Ok(())
}

fn by_bytes(alloc: Global, texts: &[Bytes]) -> Result<HashMap<Bytes, usize>, NoMemory>
    ensures { IfOk result (λ places. FindsLiterals (get bytes_eq places) texts.now) }
{
    let mut places = HashMap::new(alloc);
    for (n, text) in texts.iter().enumerate() {
        add(alloc, &mut places, text, n)?;
    }
    Ok(places)
}

/// The literals of a module with their places.
pub(crate) fn literals_of(alloc: Global, texts: &[Bytes]) -> Result<Literals<'_>, NoMemory>
    ensures { IfOk result (λ literals. literals.all.now ≡ texts.now) }
{
    let places = by_bytes(alloc, texts)?;
    Ok(Literals { all: texts, places })
}

/// The number of a literal by its bytes, or that of all literals where it is none.
pub(crate) fn literal_number(literals: &Literals, bytes: &Bytes) -> u32
    ensures { result ≡ spec.literal_number literals.now.all.now bytes.now }
{
    match literals.places.get(bytes) {
        Some(n) => fitted(*n),
        None => fitted(literals.all.len()),
    }
}
