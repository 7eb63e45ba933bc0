// Laws of relocations.
ghost use Rattle.std.specs.Prelude.{◌≡◌, ℕ, Bool};
ghost use Rattle.sc_link.specs.Relocation.{relocated};

/// A relocation that is made again, with another address, leaves nothing of the first one: so a word can be patched
/// where it stands.
pub fn patches_over()
    ensures { (kind : ℕ) (second : Bool) (a b word : ℕ) → relocated kind second b (relocated kind second a word) ≡ relocated kind second b word }
{}
