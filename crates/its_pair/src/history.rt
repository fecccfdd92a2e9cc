//! What both translators were asked so far.
ghost use Rattle.std.specs.Prelude.{◌≡◌};
ghost use Rattle.its_pair.specs.Histories.{AreOneHistory};
ghost use Rattle.its_steps.specs.Parts.{translator_count};
ghost use Rattle.its_turns.specs.Machines.{setup, view, IsOf};

use its_turns::{Machine, Pass, look};
use its_types::Word;

/// Reads the word of all calls, those of both translators and those that serve both, and tells the
/// pass what was done until then.
pub fn one_history(machine: &Machine, pass: &mut Pass) -> Word
    requires of { IsOf machine.now pass.old }
    requires two { translator_count (setup machine.now) ≡ 2 }
    ensures of { IsOf machine.now pass.new }
    ensures history { AreOneHistory (setup machine.now).start (view pass.old) result
        (view pass.new) }
{
    look(machine, pass)
}
