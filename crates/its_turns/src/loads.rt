//! Loads of the word.
ghost use Rattle.std.specs.Prelude.{◌≡◌};
ghost use Rattle.its_steps.specs.declared.standing.Standing.TheVariants as standing;
ghost use Rattle.its_turns.specs.Machines.{setup, view, IsOf};
ghost use Rattle.its_turns.specs.Told.{Looks, IsLastOrLater};

use crate::law::{Known, Look};
use crate::machine::{Machine, Pass};
use crate::value::Value;
use crate::word::unpack;
use atomic_table::Seat;
use its_types::Word;

/// Loads the word. The pass has then seen the whole history so far.
pub fn look(machine: &Machine, pass: &mut Pass) -> Word
    requires { IsOf machine.now pass.old }
    ensures of { IsOf machine.now pass.new }
    ensures looks { Looks (view pass.old) result (view pass.new) }
    ensures later { IsLastOrLater (view pass.old) result }
{
    load(machine, &mut pass.seat)
}

pub(crate) fn load(machine: &Machine, seat: &mut Seat<Value, Known>) -> Word
    requires of { seat.old.table_id ≡ machine.now.table.shared.table_id }
    requires live { seat.old.me.0.standing ≡ standing.Pass }
    requires setup { seat.old.me.0.setup ≡ setup machine.now }
    ensures of { seat.new.table_id ≡ seat.old.table_id }
    ensures hand { seat.new.me.1 ≡ seat.old.me.1 }
    ensures looks { Looks seat.old.me.0 result seat.new.me.0 }
    ensures later { IsLastOrLater seat.old.me.0 result }
{
    unpack(machine.packing, machine.table.shared.load::<Look>(seat, 0))
}
