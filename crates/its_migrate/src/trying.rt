//! Saves that wait for nobody.
ghost use Rattle.std.specs.Prelude.{◌≡◌, [], Err, IfOk, OnOk, MatchResult};
ghost use Rattle.its_plain.specs.History.{after};
ghost use Rattle.its_plain.specs.Sound.{IsSound};
ghost use Rattle.owned_parts.specs.Owned.{AreAllInHand};
ghost use Rattle.held_parts.specs.Wholes.{redists_in, state_of_whole};
ghost use Rattle.its_turns.specs.Machines.{setup, view, IsOf};
ghost use Rattle.its_migrate.specs.Saving.{LeavesMemory};
ghost use Rattle.its_migrate.specs.Tries.{TriesSave, HadNoMemory, IsGivenUp, IfMadeAllowed};
ghost use Rattle.its_migrate.specs.declared.rule.Unsaved.TheVariants.{Full};

use crate::rule::{AllSaves, SaveRule, Unsaved};
use crate::saving::{adopt, answer_of, reply_to, saves};
use guest_windows::Draft;
use held_parts::{Whole, once_whole, put_whole};
use its_plain::{Call, Layout, SaveFault};
use its_steps::ShardChange;
use its_turns::{Attempt, Machine, Pass, try_commit};
use its_types::{Gate, Placed};
use std::alloc::{AllocError, Global};

/// Writes the tables and the pending LPIs of all translators to guest memory, as `save` does, and
/// waits for no turn. Where another pass has a part, or another call comes first each time that it
/// is tried to be made, nothing was written, and where there is no memory for it neither.
///
/// ```
/// let saved = match try_save(alloc, machine, pass, &Open)? {
///     Attempt::Done(placed) => Some(placed.reply),
///     _ => None,
/// };
/// ```
pub fn try_save<G: Gate>(
    alloc: Global,
    machine: &Machine,
    pass: &mut Pass,
    gate: &G,
) -> Result<Attempt<Result<(), SaveFault>>, AllocError>
    requires of { IsOf machine.now pass.old }
    requires free { (view pass.old).held ≡ [] }
    ensures of { IsOf machine.now pass.new }
    ensures answer { MatchResult result (λ t. TriesSave (view pass.old) (view pass.new) t)
        (λ _. HadNoMemory (view pass.old) (view pass.new)) }
{
    match try_save_within(alloc, machine, pass, gate, &AllSaves) {
        Ok(attempt) => Ok(attempt),
        Err(Unsaved::NoMemory) => Err(AllocError),
        Err(Unsaved::Full) => unreachable!(),
    }
}

/// Saves as `try_save` does, where the rule allows the state to be saved: it is asked with all
/// parts in hand but the shards, before pages are taken for the tables. Where it answers an error
/// nothing was written.
pub fn try_save_within<G: Gate, R: SaveRule>(
    alloc: Global,
    machine: &Machine,
    pass: &mut Pass,
    gate: &G,
    rule: &R,
) -> Result<Attempt<Result<(), SaveFault>>, Unsaved>
    requires of { IsOf machine.now pass.old }
    requires free { (view pass.old).held ≡ [] }
    ensures of { IsOf machine.now pass.new }
    ensures answer { MatchResult result (λ t. TriesSave (view pass.old) (view pass.new) t)
        (λ _. IsGivenUp (view pass.old) (view pass.new)) }
    ensures allowed { IfOk result (IfMadeAllowed (R.is_allowed rule.now) (setup machine.now).start
        (view pass.old) (view pass.new)) }
    ensures forbidden { result ≡ Err Full
        → R.is_forbidden rule.now (after (setup machine.now).start (view pass.new).seen) }
{
    let layout = match machine.desc().layout(alloc) {
        Ok(layout) => layout,
        Err(_) => return Err(Unsaved::NoMemory),
    };
    let mut whole = match once_whole(machine, pass, gate) {
        Ok(whole) => whole,
        Err(busy) => return Ok(Attempt::Busy(busy)),
    };
    let saved = match saves_within(alloc, &layout, &whole, rule) {
        Ok(saved) => saved,
        Err(unsaved) => {
            put_whole(machine, pass, whole);
            return Err(unsaved);
        }
    };
    let reply = answer_of(&saved);
    match try_commit(
        machine,
        pass,
        gate,
        &Call::Save,
        &reply_to(&reply),
        ShardChange::Keep,
    ) {
        Ok(word) => {
            adopt(saved, &layout, &mut whole);
            put_whole(machine, pass, whole);
            Ok(Attempt::Done(Placed {
                place: word.place,
                reply,
            }))
        }
        Err(lost) => {
            put_whole(machine, pass, whole);
            Ok(lost.attempt())
        }
    }
}

// The pages that the save lays, or why it can't be made, where the rule allows it.
fn saves_within<R: SaveRule>(
    alloc: Global,
    layout: &Layout,
    whole: &Whole,
    rule: &R,
) -> Result<Result<Draft, SaveFault>, Unsaved>
    requires hand { AreAllInHand layout.now.shape (redists_in whole.now) }
    requires sound { IsSound (state_of_whole layout.now whole.now) }
    ensures leaves { IfOk result (λ r. LeavesMemory (state_of_whole layout.now whole.now) r) }
    ensures allowed { OnOk result
        (R.is_allowed rule.now (state_of_whole layout.now whole.now)) }
    ensures forbidden { result ≡ Err Full
        → R.is_forbidden rule.now (state_of_whole layout.now whole.now) }
{
    match rule.allows(alloc, &whole.in_place(layout)) {
        Ok(true) => {}
        Ok(false) => return Err(Unsaved::Full),
        Err(_) => return Err(Unsaved::NoMemory),
    }
    match saves(alloc, layout, whole) {
        Ok(saved) => Ok(saved),
        Err(_) => Err(Unsaved::NoMemory),
    }
}
