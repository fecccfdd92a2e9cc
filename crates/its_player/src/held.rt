//! A part in a pass's hands.
ghost use Rattle.std.specs.Prelude.{◌≡◌, true, false};
ghost use Rattle.its_player.specs.Contents.{content_of};
ghost use Rattle.its_player.specs.Held as spec;

use crate::content::Content;
use its_plain::Signal;
use its_types::{DeviceId, EventId, Part, Target};
use std::marker::Model;

/// A part whose turn a pass has, what it owes, and whether the part's slot is empty.
#[derive(Drop)]
pub struct Held {
    part: Part,
    owed: Content,
    out: bool,
}

impl Model for Held {
    ghost use Rattle.its_steps.specs.Contents as steps;
    ghost use Rattle.std.specs.Coded.{codes};
    ghost use Rattle.gicr_regs.specs.Redistributors.{conf_code, pend_code};
    ghost use Rattle.its_plain.specs.Plain.{translator_code};

    ghost Value = { steps.Held };

    ghost coded = { Prim.hlevel (codes, translator_code, conf_code, pend_code) };

    ghost use Rattle.its_player.specs.Contents.{content_of};

    ghost view = { λ h. record { part = h.part; owed = content_of h.owed; out = h.out } };
}

impl Held {
    /// A part in hand, with what it owes and whether its slot is empty.
    pub fn new(part: Part, owed: Content, out: bool) -> Held
        ensures { result ≡ record { part = part; owed = content_of owed; out = out } }
    {
        Held { part, owed, out }
    }

    /// The part.
    pub fn part(&self) -> Part
        ensures { result ≡ self.now.part }
    {
        self.part
    }

    /// What has to be put back into the slot.
    pub fn owed(&self) -> &Content
        ensures { content_of result.now ≡ self.now.owed }
    {
        &self.owed
    }

    /// Whether the value is out of its slot.
    pub fn is_out(&self) -> bool
        ensures { result ≡ self.now.out }
    {
        self.out
    }

    /// The value leaves its slot.
    pub fn take_out(&mut self)
        ensures { self.new ≡ record self.old { out = true } }
    {
        self.out = true;
    }

    /// The value is back in its slot.
    pub fn put_home(&mut self)
        ensures { self.new ≡ record self.old { out = false } }
    {
        self.out = false;
    }

    /// The target that the shard that it owes has for a pair under a stamp.
    pub fn target(&self, dev: DeviceId, ev: EventId, stamp: u32) -> Option<Target>
        ensures { result ≡ spec.target_in dev.0 ev.0 stamp self.now.owed }
    {
        self.owed.target(dev, ev, stamp)
    }

    /// Whether it owes what is pending at a redistributor that tells this of a message for a
    /// target.
    pub fn tells(&self, signal: Signal, target: Target) -> bool
        ensures { result ≡ spec.tells signal target self.now.owed }
    {
        self.owed.tells(signal, target)
    }

    /// Whether it owes a shard that has no entry of a pair.
    pub fn lacks(&self, dev: DeviceId, ev: EventId) -> bool
        ensures { result ≡ spec.lacks dev.0 ev.0 self.now.owed }
    {
        self.owed.lacks(dev, ev)
    }
}
