//! How a call is made that has in hand what it needs.
ghost use Rattle.std.specs.Prelude.{◌≡◌, MatchResult};
ghost use Rattle.its_steps.specs.MayCall.{MayCall};
ghost use Rattle.its_steps.specs.World.{word_after};
ghost use Rattle.its_turns.specs.Machines.{setup, view, IsOf, AreWithin};
ghost use Rattle.its_turns.specs.Steps.{IsRaced};
ghost use Rattle.its_turns.specs.Told.{Commits};
ghost use Rattle.cmd_engine.specs.Cached.{commit_of};
ghost use Rattle.cmd_engine.specs.Telling.{IsRaceOf};

use crate::cached::Mark;
use crate::missed::Missed;
use its_plain::{Call, Reply};
use its_steps::Commit;
use its_turns::{Machine, Pass, commit};
use its_types::{Gate, Point, Word};

/// Makes the call, where the word is still the one that was read. Answers its place.
pub(crate) fn commit_marked<G: Gate>(
    machine: &Machine,
    pass: &mut Pass,
    gate: &G,
    word: Word,
    mark: Mark,
    call: Call,
    reply: Reply,
) -> Result<u64, Missed>
    requires of { IsOf machine.now pass.old }
    requires last { word ≡ (view pass.old).last }
    requires before { AreWithin (setup machine.now) word }
    requires after { AreWithin (setup machine.now) (word_after (commit_of word mark call reply)) }
    requires may { MayCall (setup machine.now) (commit_of word mark call reply)
        (view pass.old).held }
    ensures of { IsOf machine.now pass.new }
    ensures result { MatchResult result
        (λ place. (place ≡ word.place) × Commits (view pass.old) (commit_of word mark call reply)
        (view pass.new))
        (λ m. IsRaceOf (view pass.old) word m (view pass.new)) }
{
    gate.at(pass.number(), Point::BeforeCommit);
    let made = Commit {
        expected: word,
        stamp: mark.stamp,
        call,
        reply,
        change: mark.change,
    };
    match commit(machine, pass, &made) {
        Ok(place) => {
            gate.at(pass.number(), Point::AfterCommit);
            Ok(place)
        }
        Err(raced) => Err(Missed::Raced(raced)),
    }
}
