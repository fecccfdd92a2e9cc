//! The rule of the table of words and slots, and what its steps tell.
ghost use Rattle.its_types.specs.declared.machine.Part.{Part};
ghost use Rattle.its_types.specs.declared.machine.Part.TheVariants as part;
ghost use Rattle.its_steps.specs.World.{first_view, split_off, has_split, has_joined, note_of};
ghost use Rattle.its_steps.specs.World.{has_met, spent};
ghost use Rattle.its_turns.specs.Rule.{setup_of, Kept};
ghost use Rattle.its_turns.specs.Told.{looking, trying, releasing, committing, no_commit};
ghost use Rattle.its_steps.specs.declared.commit.Commit.{Commit};

use crate::value::Value;
use atomic_table::{Join, Play, Split, TableRule};
use its_plain::Desc;
use owned_parts::Parts;
use std::marker::{Brand, Model, PhantomData};
use std::snapshot::Snapshot;

/// What a machine begins from. The table is told it once.
#[derive(Drop)]
pub struct Origin {
    /// The description that the machine is made from.
    pub desc: Snapshot<Desc>,
    /// Its parts as they begin.
    pub parts: Snapshot<Parts>,
}

/// What a pass knows. No value of it is made.
pub struct Known {
    nothing: (),
}

impl Model for Known {
    ghost use Rattle.its_steps.specs.World.{View};
    ghost use Rattle.std.specs.Coded.{codes};
    ghost use Rattle.its_plain.specs.Plain.{plain_code, translator_code};
    ghost use Rattle.gicr_regs.specs.Redistributors.{conf_code, pend_code};

    ghost Value = { View };

    ghost coded = { Prim.hlevel (codes, plain_code, translator_code, conf_code, pend_code) };

    ghost use Rattle.its_steps.specs.World.{spent};

    ghost view = { λ _. spent };
}

/// Words, slots and views show a good world.
pub struct Law;

impl TableRule<Value, Known, Origin> for Law {
    ghost holds = { λ origin. Kept (setup_of origin) };

    ghost first = { λ origin. first_view (setup_of origin) };
}

/// A load of the word.
pub struct Look;

impl Play<Value, Known> for Look {
    ghost then = { looking };
}

/// Which part a try is of.
pub trait Chooses {
    ghost part: { Part };
}

// So that a call can pass `Brand`. It picks its own part in its proof, and not this one.
impl Chooses for Brand {
    ghost part = { part.Mem };
}

/// A try of a turn.
pub struct Try<A: Chooses> {
    of: PhantomData<A>,
}

impl<A: Chooses> Play<Value, Known> for Try<A> {
    ghost then = { trying A.part };
}

/// The store that gives a turn back.
pub struct Release;

impl Play<Value, Known> for Release {
    ghost then = { releasing };
}

/// Which call a commit makes.
pub trait Announces {
    ghost what: { Commit };
}

// So that a call can pass `Brand`. It picks its own commit in its proof, and not this one.
impl Announces for Brand {
    ghost what = { no_commit };
}

/// The exchange that makes a call.
pub struct Exchange<A: Announces> {
    of: PhantomData<A>,
}

impl<A: Announces> Play<Value, Known> for Exchange<A> {
    ghost then = { committing A.what };
}

/// A pass is split off the root, or joined to it.
pub struct Passes;

impl Split<Known> for Passes {
    ghost left = { has_split };

    ghost right = { split_off };
}

impl Join<Known> for Passes {
    ghost both = { has_joined };

    ghost spent = { spent };
}

/// A note is made by a pass, or met.
pub struct Notes;

impl Split<Known> for Notes {
    ghost left = { λ v. v };

    ghost right = { note_of };
}

impl Join<Known> for Notes {
    ghost both = { has_met };

    ghost spent = { spent };
}
