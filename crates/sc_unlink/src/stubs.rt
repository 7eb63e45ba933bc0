// Stubs that no longer lead to texts.
ghost use Rattle.std.specs.Prelude.{◌≡◌, ℕ, ◌+◌, ◌^◌, ◌<◌, [], ◌∷◌, IsSome, Some, slice_get};
ghost use Rattle.sc_isa_image.specs.Lookups.{key_of, word_at};
ghost use Rattle.sc_isa_image.specs.Stubs.{call_words};
ghost use Rattle.sc_link.specs.Steps.{AreStubs};
ghost use Rattle.sc_unlink.specs.Taking.{ClearsJumps, ClearsStub};

use sc_base::Key;
use sc_isa_image::{Image, call_stub};

/// Lets the stubs of these functions ask for the service again. It takes no memory.
pub fn clear_jumps(image: &mut Image, jumps: &[(Key, u32)])
    requires { AreStubs image.old }
    ensures { ClearsJumps jumps.now image.old image.new }
{
    for jump in jumps {
        clear_jump(image, jump);
    }
}

// Lets the stub of a function ask for the service again.
fn clear_jump(image: &mut Image, jump: &(Key, u32))
    requires { AreStubs image.old }
    ensures { ClearsJumps (jump.now ∷ []) image.old image.new }
{
    if image.is_function(&jump.0) {
        clear_function(image, jump);
    }
}

// Lets the stub of a key that is a function ask for the service again.
fn clear_function(image: &mut Image, jump: &(Key, u32))
    requires stubs { AreStubs image.old }
    requires known { (p : ℕ) × (key_of image.old p ≡ Some (jump.now).0) }
    ensures { ClearsJumps (jump.now ∷ []) image.old image.new }
{
    match image.value(&jump.0) {
        Some(stub) => clear_stub(image, stub),
        None => {}
    }
}

// Puts the words of a stub that asks for the service.
fn clear_stub(image: &mut Image, stub: u32)
    requires first { IsSome (word_at image.old stub) }
    requires second { IsSome (word_at image.old (stub + 4)) }
    requires small { stub + 4 < 2 ^ 32 }
    ensures { ClearsStub stub image.old image.new }
{
    image.set_word(stub, first_word());
    image.set_word(stub + 4, second_word());
}

// The first word of a stub that asks for the service.
fn first_word() -> u32
    ensures { Some result ≡ slice_get call_words 0 }
{
    let words = call_stub();
    words[0]
}

// The second word of a stub that asks for the service.
fn second_word() -> u32
    ensures { Some result ≡ slice_get call_words 1 }
{
    let words = call_stub();
    words[1]
}
