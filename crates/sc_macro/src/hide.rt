// Hide sets: the macros that may no longer replace a token.
ghost use Rattle.std.specs.Prelude.{◌≡◌, IfOk, [], ◌∷◌, ◌++◌};
ghost use Rattle.sc_macro.specs.Hides.{among, united, common};

use sc_base::{Items, NoMemory, Shared};
use std::alloc::Global;
use std::marker::Model;

/// The numbers of the macros that may no longer replace a token. Many tokens share one set, which is never written;
/// the empty set takes no memory.
#[derive(Drop)]
pub struct Hide {
    set: Option<Shared<Items<usize>>>,
}

impl Model for Hide {
    ghost use Rattle.std.specs.Prelude.{List, ℕ, []};
    ghost use Rattle.std.specs.Option.{unwrap_or};

    ghost Value = { List ℕ };

    ghost view = { λ h. unwrap_or h.set [] };
}

impl Hide {
    pub fn new() -> Hide
        ensures { result ≡ [] }
    {
        Hide { set: None }
    }

    fn of(alloc: Global, items: Items<usize>) -> Result<Hide, NoMemory>
        ensures { IfOk result (λ h. h ≡ items) }
    {
        let set = Shared::new(alloc, items)?;
        Ok(Hide { set: Some(set) })
    }

    /// The same set. It takes no memory.
    pub fn share(&self) -> Result<Hide, NoMemory>
        ensures { IfOk result (λ h. h ≡ self.now) }
    {
        match &self.set {
            None => Ok(Hide::new()),
            Some(set) => Ok(Hide {
                set: Some(set.share()?),
            }),
        }
    }

    pub fn as_slice(&self) -> &[usize]
        ensures { result.now ≡ self.now }
    {
        match &self.set {
            None => &[],
            Some(set) => set.get().as_slice(),
        }
    }

    pub fn holds(&self, number: usize) -> bool
        ensures { result ≡ among number self.now }
    {
        self.as_slice().iter().any(|n| *n == number)
    }

    /// The set with one number more.
    pub fn with(&self, alloc: Global, number: usize) -> Result<Hide, NoMemory>
        ensures { IfOk result (λ h. h ≡ number ∷ self.now) }
    {
        let mut items = Vec::new(alloc);
        items.push(number)?;
        items.extend_from_slice(self.as_slice())?;
        Hide::of(alloc, Items::from_vec(items))
    }

    pub fn united(&self, alloc: Global, other: &Hide) -> Result<Hide, NoMemory>
        ensures { IfOk result (λ h. h ≡ united self.now other.now) }
    {
        if self.as_slice().is_empty() {
            return other.share();
        }
        let mut items = Vec::new(alloc);
        for n in self.as_slice() {
            if !other.holds(*n) {
                items.push(*n)?;
            }
        }
        items.extend_from_slice(other.as_slice())?;
        Hide::of(alloc, Items::from_vec(items))
    }

    pub fn common(&self, alloc: Global, other: &Hide) -> Result<Hide, NoMemory>
        ensures { IfOk result (λ h. h ≡ common self.now other.now) }
    {
        if self.as_slice().is_empty() {
            return Ok(Hide::new());
        }
        let mut items = Vec::new(alloc);
        for n in self.as_slice() {
            if other.holds(*n) {
                items.push(*n)?;
            }
        }
        Hide::of(alloc, Items::from_vec(items))
    }
}
