//! Passes that are split off the root and joined, and notes that are made and met.
ghost use Rattle.std.specs.Prelude.{◌≡◌, ◌+◌, ◌-◌, ◌^◌, ◌<◌, [], length};
ghost use mathlib.Core.List.{IsPrefix};
ghost use Rattle.its_types.specs.declared.machine.Word.{Word};
ghost use Rattle.its_steps.specs.World.{View, split_off, has_split, has_joined, note_of, has_met};
ghost use Rattle.its_turns.specs.Machines.{view, known, IsOf, IsNoteOf};
ghost use Rattle.its_turns.specs.Told.{Looks, IsLone};

use crate::law::{Notes, Passes};
use crate::loads::{load, look};
use crate::machine::{Machine, Note, Pass};

impl Pass {
    ghost use Rattle.std.specs.Prelude.{◌≡◌, ◌+◌, ◌-◌, ◌^◌, ◌<◌, [], length};
    ghost use mathlib.Core.List.{IsPrefix};
    ghost use Rattle.its_types.specs.declared.machine.Word.{Word};
    ghost use Rattle.its_steps.specs.World.{View, split_off, has_split, has_joined};
    ghost use Rattle.its_turns.specs.Machines.{view, IsOf};
    ghost use Rattle.its_turns.specs.Told.{Looks, IsLone};

    /// The number of the pass. That of the root is 0.
    pub fn number(&self) -> u32
        ensures { result ≡ (view self.now).number }
    {
        self.number
    }

    /// Of the root: how many numbers were given, its own among them. A split needs fewer than 2^32.
    pub fn made(&self) -> u64
        ensures { result ≡ (view self.now).root.made }
    {
        self.made
    }

    /// Of the root: how many passes were split off and not joined yet.
    pub fn out(&self) -> u64
        requires { (view self.now).number ≡ 0 }
        ensures count { result + length (view self.now).root.ended + 1 ≡ (view self.now).root.made }
        ensures lone { result ≡ 0 → IsLone (view self.now) }
    {
        self.out
    }

    /// Of the root: a new pass, which has seen all that the root has. Passes are numbered 1, 2, ..
    /// as they are split off.
    ///
    /// ```
    /// let first = root.split(&machine);
    /// let second = root.split(&machine);
    /// let (first, second) = join(
    ///     rt,
    ///     || devices(rt, &machine, first),
    ///     || vcpus(rt, &machine, second),
    /// );
    /// ```
    pub fn split(&mut self, machine: &Machine) -> Pass
        requires of { IsOf machine.now self.old }
        requires root { (view self.old).number ≡ 0 }
        requires few { (view self.old).root.made < 2 ^ 32 }
        ensures of { IsOf machine.now self.new × IsOf machine.now result }
        ensures views { (before : View) × (w : Word) × Looks (view self.old) w before ×
            (view self.new ≡ has_split before) × (view result ≡ split_off before) }
    {
        look(machine, self);
        let number = self.made as u32;
        self.made += 1;
        self.out += 1;
        Pass {
            number,
            made: 0,
            out: 0,
            seat: machine.table.shared.split_seat::<Passes>(&mut self.seat),
        }
    }

    /// Of the root: takes back a pass that holds nothing. The root has then seen all that both had.
    ///
    /// ```
    /// let mut pass = root.split(&machine);
    /// signal(rt, &machine, &mut pass, &Open, DeviceId(16), EventId(3))?;
    /// root.join(&machine, pass);
    /// ```
    pub fn join(&mut self, machine: &Machine, pass: Pass)
        requires of { IsOf machine.now self.old × IsOf machine.now pass }
        requires root { (view self.old).number ≡ 0 }
        requires free { (view pass).held ≡ [] }
        ensures of { IsOf machine.now self.new }
        ensures view { (w : Word) × Looks (has_joined (view self.old) (view pass)) w
            (view self.new) }
        ensures seen { IsPrefix (view self.old).seen (view self.new).seen ×
            IsPrefix (view pass).seen (view self.new).seen }
    {
        let Pass { seat, .. } = pass;
        machine
            .table
            .shared
            .join_seat::<Passes>(&mut self.seat, seat);
        load(machine, &mut self.seat);
        self.out -= 1;
    }
}

/// A note of all that the pass has seen.
pub fn note(machine: &Machine, pass: &mut Pass) -> Note
    requires of { IsOf machine.now pass.old }
    ensures of { IsOf machine.now pass.new × IsNoteOf machine.now result }
    ensures pass { view pass.new ≡ view pass.old }
    ensures note { known result ≡ note_of (view pass.old) }
{
    Note {
        seat: machine.table.shared.split_seat::<Notes>(&mut pass.seat),
    }
}

/// Meets a note. The pass has then seen all that the note's maker had.
pub fn meet(machine: &Machine, pass: &mut Pass, note: Note)
    requires of { IsOf machine.now pass.old × IsNoteOf machine.now note }
    ensures of { IsOf machine.now pass.new }
    ensures view { (w : Word) × Looks (has_met (view pass.old) (known note)) w (view pass.new) }
    ensures seen { IsPrefix (view pass.old).seen (view pass.new).seen ×
        IsPrefix (known note).seen (view pass.new).seen }
{
    let Note { seat } = note;
    machine
        .table
        .shared
        .join_seat::<Notes>(&mut pass.seat, seat);
    look(machine, pass);
}
