//! Whether two calls or two replies are equal.
use crate::call::{Call, Entry, Reply};

impl Call {
    ghost use Rattle.std.specs.Prelude.{◌≡◌, ◌↔◌, IsTrue};

    /// What `==` answers, in a contract that speaks of the calls.
    pub fn equals(&self, other: &Call) -> bool
        ensures { IsTrue result ↔ (self.now ≡ other.now) }
    {
        self == other
    }
}

impl Reply {
    ghost use Rattle.std.specs.Prelude.{◌≡◌, ◌↔◌, IsTrue};

    /// What `==` answers, in a contract that speaks of the replies.
    pub fn equals(&self, other: &Reply) -> bool
        ensures { IsTrue result ↔ (self.now ≡ other.now) }
    {
        self == other
    }
}

impl Entry {
    ghost use Rattle.std.specs.Prelude.{◌≡◌, ◌↔◌, IsTrue};

    /// What `==` answers, in a contract that speaks of the entries.
    pub fn equals(&self, other: &Entry) -> bool
        ensures { IsTrue result ↔ (self.now ≡ other.now) }
    {
        self.pass == other.pass && self.call.equals(&other.call) && self.reply.equals(&other.reply)
    }
}
