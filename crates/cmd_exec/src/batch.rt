//! INTIDs whose configuration bytes are read together.
ghost use Rattle.std.specs.Prelude.{◌≡◌, ◌<◌, ◌≤◌, nat_lt, [], ◌∷◌, ◌++◌, length, map};

use its_types::Intid;
use std::marker::Model;

/// At most 64 INTIDs, seen as their list. Takes no memory of its own.
#[derive(Drop)]
pub struct Batch {
    intids: [Intid; 64],
    filled: usize,
}

impl Model for Batch {
    ghost use Rattle.std.specs.Prelude.{ℕ, ◌≤◌, List, map, take};

    ghost Value = { List ℕ };

    ghost view = { λ b. map (λ x. x.0) (take b.filled b.intids) };

    ghost invariant = { λ b. b.filled ≤ 64 };
}

impl Batch {
    /// None yet.
    pub fn new() -> Batch
        ensures { result ≡ [] }
    {
        Batch {
            intids: [Intid(0); 64],
            filled: 0,
        }
    }

    /// Whether there is room for one more.
    pub fn has_room(&self) -> bool
        ensures { result ≡ nat_lt (length self.now) 64 }
    {
        self.intids().len() < 64
    }

    /// One more.
    pub fn push(&mut self, intid: Intid)
        requires { length self.old < 64 }
        ensures { self.new ≡ self.old ++ intid.0 ∷ [] }
    {
        self.intids[self.filled] = intid;
        self.filled += 1;
    }

    /// None again.
    pub fn clear(&mut self)
        ensures { self.new ≡ [] }
    {
        self.filled = 0;
    }

    /// Those that there are.
    pub fn intids(&self) -> &[Intid]
        ensures intids { map (λ x. x.0) result.now ≡ self.now }
        ensures most { length result.now ≤ 64 }
    {
        &self.intids[..self.filled]
    }
}
