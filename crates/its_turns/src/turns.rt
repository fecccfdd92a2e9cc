//! Turns that a pass gets and gives back.
ghost use Rattle.std.specs.Prelude.{◌≡◌, ◌+◌, ◌*◌, ◌<◌, MatchResult};
ghost use mathlib.Core.Option.{none};
ghost use Rattle.atomic_table.specs.Table.{step};
ghost use Rattle.its_steps.specs.Parts.{Stands, index_of};
ghost use Rattle.its_steps.specs.World.{View};
ghost use Rattle.its_steps.specs.declared.standing.Standing.TheVariants as standing;
ghost use Rattle.its_turns.specs.Contents.{IsFit};
ghost use Rattle.its_turns.specs.Machines.{setup, view, IsOf};
ghost use Rattle.its_turns.specs.Order.{IsInOrder};
ghost use Rattle.its_turns.specs.Steps.{IsSameButLost, Takes, IsBusy, IsOwed};
ghost use Rattle.its_turns.specs.Told.{trying, released};

use crate::law::{Chooses, Known, Release, Try};
use crate::machine::{Machine, Pass};
use crate::value::Value;
use crate::waiting::give_way;
use atomic_table::Seat;
use its_types::Part;
use std::marker::Brand;
use std::mem::forget;
use std::sync::Wait;
use thiserror::Error;

/// Another pass has the turn of the part.
#[derive(Clone, Copy, Debug, PartialEq, Eq, Error)]
#[error("pass {holder} has a part that is needed")]
pub struct Busy {
    /// Whose turn was tried.
    pub part: Part,
    /// The number of that pass.
    pub holder: u32,
}

fn try_turn<A: Chooses>(
    machine: &Machine,
    seat: &mut Seat<Value, Known>,
    part: Part,
    at: usize,
    number: u64,
) -> u64
    requires chosen { A.part ≡ part }
    requires of { seat.old.table_id ≡ machine.now.table.shared.table_id }
    requires live { seat.old.me.0.standing ≡ standing.Pass }
    requires stands { Stands (setup machine.now) part }
    requires at { at ≡ index_of (setup machine.now) part }
    requires low { at < 2048 }
    requires number { seat.old.me.0.number + 1 ≡ number }
    ensures of { seat.new.table_id ≡ seat.old.table_id }
    ensures tries { trying part
        (step machine.now.table.shared.table_id.slots (16 * (at + 1)) 0 number none)
        seat.old.me result seat.new.me }
{
    machine
        .table
        .shared
        .compare_exchange::<Try<A>>(seat, 16 * (at + 1), 0, number)
}

/// Tries the turn of a part once, and takes its value out. All that the pass holds comes before the
/// part.
#[inline(always)]
pub fn try_take(machine: &Machine, pass: &mut Pass, part: Part) -> Result<Value, Busy>
    requires of { IsOf machine.now pass.old }
    requires stands { Stands (setup machine.now) part }
    requires order { IsInOrder part (view pass.old).held }
    ensures of { IsOf machine.now pass.new }
    ensures result { MatchResult result (λ x. Takes (view pass.old) part x (view pass.new)) (λ b.
        IsBusy (view pass.old) part b (view pass.new)) }
{
    let at = machine.index(part);
    let number = u64::from(pass.number) + 1;
    // `Brand` stands for this part.
    let found = try_turn::<Brand>(machine, &mut pass.seat, part, at, number);
    if found != 0 {
        return Err(Busy {
            part,
            holder: (found - 1) as u32,
        });
    }
    Ok(
        machine
            .table
            .shared
            .exchange(&mut pass.seat, 8 * at, Value::Vacant),
    )
}

/// Waits for the turn of a part, and takes its value out. All that the pass holds comes before the
/// part.
pub fn take<R: Wait>(rt: &R, machine: &Machine, pass: &mut Pass, part: Part) -> Value
    requires of { IsOf machine.now pass.old }
    requires stands { Stands (setup machine.now) part }
    requires order { IsInOrder part (view pass.old).held }
    ensures of { IsOf machine.now pass.new }
    ensures takes { (w : View) × IsSameButLost (view pass.old) w
        × Takes w part result (view pass.new) }
{
    let mut attempt = 0u8;
    for _ in rt.forever() {
        attempt = attempt.saturating_add(1);
        match try_take(machine, pass, part) {
            Ok(value) => return value,
            Err(_) => give_way(attempt),
        }
    }
    unreachable!()
}

/// Puts the value that was taken out last back, as it is owed, and gives its turn back.
#[inline(always)]
pub fn put(machine: &Machine, pass: &mut Pass, part: Part, value: Value)
    requires of { IsOf machine.now pass.old }
    requires stands { Stands (setup machine.now) part }
    requires owed { IsOwed (view pass.old) part value }
    requires fit { IsFit (setup machine.now) value }
    ensures of { IsOf machine.now pass.new }
    ensures view { view pass.new ≡ released (view pass.old) }
{
    let at = machine.index(part);
    let stood = machine.table.shared.exchange(&mut pass.seat, 8 * at, value);
    // So there is nothing to let go.
    prove!(matches!(stood, Value::Vacant));
    forget(stood);
    machine
        .table
        .shared
        .store::<Release>(&mut pass.seat, 16 * (at + 1), 0);
}

impl Machine {
    ghost use Rattle.std.specs.Prelude.{◌≡◌, ◌*◌, ◌<◌};
    ghost use Rattle.its_steps.specs.Parts.{Stands, index_of};
    ghost use Rattle.its_turns.specs.Machines.{setup};

    // The number of a part. Mostly its kind is known where this is called, and then little is left.
    #[inline(always)]
    fn index(&self, part: Part) -> usize
        requires { Stands (setup self.now) part }
        ensures index { result ≡ index_of (setup self.now) part }
        ensures slot { 8 * result < self.now.table.shared.table_id.slots }
        ensures low { result < 2048 }
    {
        match part {
            Part::Maps(its) => usize::from(its),
            Part::Mem => usize::from(self.translators),
            Part::Shard(its, n) => {
                self.first_shard + usize::from(its) * self.desc.shards as usize + n as usize
            }
            Part::Conf(vcpu) => self.first_conf + usize::from(vcpu.0),
            Part::Pend(vcpu) => self.first_pend + usize::from(vcpu.0),
        }
    }
}
