//! How a pass gets the turn of a part: it waits, or it is the root at rest.
ghost use Rattle.std.specs.Prelude.{◌≡◌};
ghost use Rattle.its_steps.specs.Parts.{Stands};
ghost use Rattle.its_turns.specs.Machines.{setup, view, IsOf};
ghost use Rattle.its_turns.specs.Order.{IsInOrder};
ghost use Rattle.held_parts.specs.Taking.{TakesValue};

use its_turns::{Machine, Pass, Value, give_way, try_take};
use its_types::Part;
use std::sync::Wait;

/// How a pass gets the turn of a part, whatever other passes do meanwhile.
pub trait Turns {
    ghost use Rattle.its_steps.specs.World.{View};

    // the pass may ask in this way
    ghost allowed: { View → Type 0 };

    /// Takes a part out.
    fn turn(&self, machine: &Machine, pass: &mut Pass, part: Part) -> Value
        requires of { IsOf machine.now pass.old }
        requires stands { Stands (setup machine.now) part }
        requires order { IsInOrder part (view pass.old).held }
        requires allowed { allowed (view pass.old) }
        ensures of { IsOf machine.now pass.new }
        ensures takes { TakesValue (view pass.old) part result (view pass.new) }
        ensures allowed { allowed (view pass.new) };
}

/// The root tries once where no other pass is out.
#[derive(Drop)]
pub struct AtRest;

impl Turns for AtRest {
    ghost use Rattle.its_turns.specs.Told.{IsLone};

    ghost allowed = { IsLone };

    fn turn(&self, machine: &Machine, pass: &mut Pass, part: Part) -> Value {
        match try_take(machine, pass, part) {
            Ok(value) => value,
            Err(_) => unreachable!(),
        }
    }
}

/// Any pass waits.
#[derive(Drop)]
pub struct Waiting<'a, R: Wait> {
    /// What a thread waits with.
    pub rt: &'a R,
}

impl<'a, R: Wait> Turns for Waiting<'a, R> {
    ghost allowed = { λ _. Unit {0} };

    #[inline(always)]
    fn turn(&self, machine: &Machine, pass: &mut Pass, part: Part) -> Value {
        // It is mostly free, and then no loop is begun.
        match try_take(machine, pass, part) {
            Ok(value) => value,
            Err(_) => {
                give_way(1);
                wait_for(self.rt, machine, pass, part)
            }
        }
    }
}

// Another pass had the turn.
#[cold]
fn wait_for<R: Wait>(rt: &R, machine: &Machine, pass: &mut Pass, part: Part) -> Value
    requires of { IsOf machine.now pass.old }
    requires stands { Stands (setup machine.now) part }
    requires order { IsInOrder part (view pass.old).held }
    ensures of { IsOf machine.now pass.new }
    ensures takes { TakesValue (view pass.old) part result (view pass.new) }
{
    let mut attempt = 1u8;
    for _ in rt.forever() {
        attempt = attempt.saturating_add(1);
        match try_take(machine, pass, part) {
            Ok(value) => return value,
            Err(_) => give_way(attempt),
        }
    }
    unreachable!()
}
