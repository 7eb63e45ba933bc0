// The literals of an image.
ghost use Rattle.std.specs.Prelude.{◌<◌, ◌≤◌, [], ◌∷◌, None, Some, length, reverse};
ghost use Rattle.sc_isa_image.specs.Lookups.{literal_room};
ghost use Rattle.sc_link.specs.Linked.{literal_of};
ghost use Rattle.sc_link.specs.Steps.{AreLiteralsFree, IsFound, PutsLiterals};

use crate::placed::LiteralAt;
use sc_base::Items;
use sc_isa_image::Image;

/// Gives literals their places, a later place of the same literal in the place of an earlier one. There is room for
/// them.
pub fn put_literals(image: &mut Image, mut literals: Vec<LiteralAt>)
    requires room { length literals.items ≤ literal_room image.old }
    requires free { AreLiteralsFree literals.items image.old }
    ensures { PutsLiterals literals.items image.old image.new }
{
    literals.reverse();
    put_literals_back(image, Items::from_vec(literals));
}

// Gives literals their places, from the last one on.
fn put_literals_back(image: &mut Image, mut literals: Items<LiteralAt>)
    requires room { length literals ≤ literal_room image.old }
    requires free { AreLiteralsFree (reverse literals) image.old }
    ensures { PutsLiterals (reverse literals) image.old image.new }
{
    'putting: while let Some(literal) = literals.pop() {
        put_literal(image, literal);
    }
}

// Gives a literal a place.
fn put_literal(image: &mut Image, literal: LiteralAt)
    requires room { 0 < literal_room image.old }
    requires free { AreLiteralsFree (literal ∷ []) image.old }
    ensures { PutsLiterals (literal ∷ []) image.old image.new }
{
    match image.literal(&literal.module, literal.bytes.as_slice()) {
        Some(before) => move_literal(image, before, literal),
        None => put_first(image, literal),
    }
}

// Gives a literal that has no place its first one.
fn put_first(image: &mut Image, literal: LiteralAt)
    requires room { 0 < literal_room image.old }
    requires free { AreLiteralsFree (literal ∷ []) image.old }
    requires absent { IsFound image.old (literal_of literal) None }
    ensures { PutsLiterals (literal ∷ []) image.old image.new }
{
    let LiteralAt { module, bytes, at } = literal;
    image.put_literal(module, bytes, at);
}

// Gives a literal another place than the one that it has.
fn move_literal(image: &mut Image, before: u32, literal: LiteralAt)
    requires room { 0 < literal_room image.old }
    requires free { AreLiteralsFree (literal ∷ []) image.old }
    requires found { IsFound image.old (literal_of literal) (Some before) }
    ensures { PutsLiterals (literal ∷ []) image.old image.new }
{
    if before == literal.at {
        drop(literal);
        return;
    }
    image.take_literal(before);
    let LiteralAt { module, bytes, at } = literal;
    image.put_literal(module, bytes, at);
}
