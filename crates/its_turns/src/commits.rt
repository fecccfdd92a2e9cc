//! How a call is made: a compare-and-exchange of the word.
ghost use Rattle.std.specs.Prelude.{◌≡◌, ◌<◌, MatchResult};
ghost use mathlib.Core.Option.{none};
ghost use Rattle.atomic_table.specs.Table.{step};
ghost use Rattle.its_types.specs.declared.machine.Word.{Word};
ghost use Rattle.its_steps.specs.MayCall.{MayCall};
ghost use Rattle.its_steps.specs.World.{View, word_after};
ghost use Rattle.its_turns.specs.Machines.{setup, view, IsOf, AreWithin};
ghost use Rattle.its_turns.specs.Steps.{IsRaced, at_word, CommitsAt, IsRacedAt};
ghost use Rattle.its_turns.specs.Told.{Commits, committing};
ghost use Rattle.its_turns.specs.Words.{unpacked, packing_of};

use crate::law::{Announces, Exchange};
use crate::machine::{Machine, Pass};
use crate::word::{pack, unpack};
use its_steps::Commit;
use its_types::Word;
use std::marker::Brand;
use std::snapshot::Snapshot;
use thiserror::Error;

// How many exchanges a call is tried by, the first among them.
const EXCHANGES: u8 = 16;

/// Another call was made first.
#[derive(Clone, Copy, Debug, PartialEq, Eq, Error)]
#[error("another call was made first")]
pub struct Raced {
    /// The word that the pass had read.
    pub expected: Word,
    /// The word that was there instead.
    pub found: Word,
}

/// Makes a call, where the word is still the one that the pass read last. Answers the call's place.
pub fn commit(machine: &Machine, pass: &mut Pass, commit: &Commit) -> Result<u64, Raced>
    requires of { IsOf machine.now pass.old }
    requires last { commit.now.expected ≡ (view pass.old).last }
    requires low { AreWithin (setup machine.now) commit.now.expected }
    requires next { AreWithin (setup machine.now) (word_after commit.now) }
    requires may { MayCall (setup machine.now) commit.now (view pass.old).held }
    ensures of { IsOf machine.now pass.new }
    ensures result { MatchResult result
        (λ place. (place ≡ commit.now.expected.place) × Commits (view pass.old) commit.now
        (view pass.new))
        (λ raced. IsRaced (view pass.old) commit.now.expected raced (view pass.new)) }
{
    let expected = commit.expected;
    // `Brand` stands for this commit.
    exchange_at::<Brand>(machine, pass, &Snapshot::of(commit), expected, commit.stamp)
}

/// Makes a call as `commit` does. Where another call was made first and left the stamp as it was,
/// tries again at once with the word that it found, by 16 exchanges at most. Answers the word at
/// which the call was made; `Raced` has the words of the last exchange.
#[inline(always)]
pub fn commit_again(machine: &Machine, pass: &mut Pass, made: &Commit) -> Result<Word, Raced>
    requires of { IsOf machine.now pass.old }
    requires last { made.now.expected ≡ (view pass.old).last }
    requires low { AreWithin (setup machine.now) made.now.expected }
    requires next { AreWithin (setup machine.now) (word_after made.now) }
    requires room { made.now.expected.place < (setup machine.now).limits.place_last }
    requires may { (w : Word) → w.stamp ≡ made.now.expected.stamp
        → w.place < (setup machine.now).limits.place_last
        → MayCall (setup machine.now) (at_word made.now w) (view pass.old).held }
    ensures of { IsOf machine.now pass.new }
    ensures result { MatchResult result
        (λ w. CommitsAt (view pass.old) made.now w (view pass.new))
        (λ raced. IsRacedAt (view pass.old) made.now.expected raced (view pass.new)) }
{
    match commit(machine, pass, made) {
        Ok(_) => Ok(made.expected),
        Err(raced) => commit_further(machine, pass, &Snapshot::of(made), made.stamp, raced),
    }
}

// Goes on after the first exchange. A snapshot has no bytes: given the commit itself, each hit would
// store its call.
#[cold]
#[inline(never)]
fn commit_further(
    machine: &Machine,
    pass: &mut Pass,
    made: &Snapshot<Commit>,
    stamp: u32,
    first: Raced,
) -> Result<Word, Raced>
    requires of { IsOf machine.now pass.old }
    requires expected { first.expected ≡ made.now.value.expected }
    requires stamp { stamp ≡ made.now.value.stamp }
    requires last { first.found ≡ (view pass.old).last }
    requires low { AreWithin (setup machine.now) made.now.value.expected }
    requires next { AreWithin (setup machine.now) (word_after made.now.value) }
    requires may { (w : Word) → w.stamp ≡ made.now.value.expected.stamp
        → w.place < (setup machine.now).limits.place_last
        → MayCall (setup machine.now) (at_word made.now.value w) (view pass.old).held }
    ensures of { IsOf machine.now pass.new }
    ensures result { (v : View) → v.setup ≡ setup machine.now
        → IsRacedAt v made.now.value.expected first (view pass.old)
        → MatchResult result
        (λ w. CommitsAt v made.now.value w (view pass.new))
        (λ raced. IsRacedAt v made.now.value.expected raced (view pass.new)) }
{
    let mut raced = first;
    for _ in 1..EXCHANGES {
        let found = raced.found;
        if found.stamp != first.expected.stamp || found.place >= machine.place_last() {
            return Err(raced);
        }
        // `Brand` stands for the commit at this word.
        match exchange_at::<Brand>(machine, pass, made, found, stamp) {
            Ok(_) => return Ok(found),
            Err(lost) => raced = lost,
        }
    }
    Err(raced)
}

// Exchanges the word expected for the one that the commit leaves. Answers the call's place.
#[inline(always)]
fn exchange_at<A: Announces>(
    machine: &Machine,
    pass: &mut Pass,
    made: &Snapshot<Commit>,
    expected: Word,
    stamp: u32,
) -> Result<u64, Raced>
    requires of { IsOf machine.now pass.old }
    requires what { A.what ≡ at_word made.now.value expected }
    requires stamp { stamp ≡ A.what.stamp }
    requires last { A.what.expected ≡ (view pass.old).last }
    requires low { AreWithin (setup machine.now) A.what.expected }
    requires next { AreWithin (setup machine.now) (word_after A.what) }
    requires may { MayCall (setup machine.now) A.what (view pass.old).held }
    ensures of { IsOf machine.now pass.new }
    ensures result { MatchResult result
        (λ place. (place ≡ A.what.expected.place) × Commits (view pass.old) A.what (view pass.new))
        (λ raced. IsRaced (view pass.old) A.what.expected raced (view pass.new)) }
{
    let old = pack(machine.packing, expected);
    let next = Word {
        stamp,
        place: expected.place + 1,
    };
    let new = pack(machine.packing, next);
    let found = exchange::<A>(machine, pass, old, new);
    if found == old {
        Ok(expected.place)
    } else {
        Err(Raced {
            expected,
            found: unpack(machine.packing, found),
        })
    }
}

fn exchange<A: Announces>(machine: &Machine, pass: &mut Pass, old: u64, new: u64) -> u64
    requires of { IsOf machine.now pass.old }
    requires last { A.what.expected ≡ (view pass.old).last }
    requires old { unpacked (packing_of (setup machine.now).limits) old
        ≡ A.what.expected }
    requires new { unpacked (packing_of (setup machine.now).limits) new
        ≡ word_after A.what }
    requires may { MayCall (setup machine.now) A.what (view pass.old).held }
    ensures of { IsOf machine.now pass.new }
    ensures tells { committing A.what
        (step machine.now.table.shared.table_id.slots 0 old new none)
        pass.old.seat.me result pass.new.seat.me }
{
    machine
        .table
        .shared
        .compare_exchange::<Exchange<A>>(&mut pass.seat, 0, old, new)
}
