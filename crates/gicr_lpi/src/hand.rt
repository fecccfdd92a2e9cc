//! What a write has in hand.
ghost use Rattle.std.specs.Prelude.{◌≡◌, ◌<◌, [], true, false, List, is_some, if◌then◌else◌};
ghost use Rattle.gicr_regs.specs.Registers as registers;
ghost use Rattle.gicr_regs.specs.Registers.{AreLow};
ghost use Rattle.its_plain.specs.Plain.{joined};
ghost use Rattle.its_steps.specs.Contents.{Held};
ghost use Rattle.its_steps.specs.Parts.{vcpu_count};
ghost use Rattle.its_turns.specs.Machines.{setup, view, IsOf};
ghost use Rattle.owned_parts.specs.Owned.{conf_state, HasLpisOfConf, HasLpisOfPend};
ghost use Rattle.owned_parts.specs.Owned.{redistributor_of};
ghost use Rattle.held_parts.specs.Taking.{holding};
ghost use Rattle.gicr_lpi.specs.Accesses.{asked};
ghost use Rattle.gicr_lpi.specs.Hands.{state_of, held_of, memory_state, memory_before, IsHand};
ghost use Rattle.gicr_lpi.specs.Hands.{pend_of_hand, pend_before, windows_in, HasLpisIfPend};
ghost use Rattle.lpi_pending.specs.Rooms.{HasRoomFor};
ghost use Rattle.gicr_lpi.specs.Hands.{HasPlacesIfMemory};

use crate::access::GicrAccess;
use its_turns::{GuestMemory, Machine, Pass, Value, put};
use its_types::{Part, Shape, Vcpu};
use lpi_config::Conf;
use lpi_pending::{LpiRoom, Pend, conf_set, conf_write, gicr_write, room_for, turn_off_write};
use std::alloc::AllocError;

/// The configuration, and what the write needs beside it.
#[derive(Drop)]
pub struct Hand {
    /// Guest memory, if the write asked to read tables.
    pub memory: Option<Box<GuestMemory>>,
    /// The registers, and the configuration that was read.
    pub conf: Box<Conf>,
    /// What is pending, if the write asks to turn LPIs on or off.
    pub pend: Option<Box<Pend>>,
}

impl Hand {
    ghost use Rattle.std.specs.Prelude.{◌≡◌, true, IfOk, IfErr};
    ghost use Rattle.lpi_pending.specs.Rooms.{is_enable};
    ghost use Rattle.gicr_lpi.specs.Accesses.{asked};
    ghost use Rattle.gicr_lpi.specs.Hands.{state_of, after_write, HasEnough, HasRoom, IsHand};
    ghost use Rattle.owned_parts.specs.Owned.{conf_state};

    /// The memory that the write takes: some where the guest programs the tables, and the write
    /// asks to turn LPIs on.
    pub fn room(
        &self,
        access: GicrAccess,
        shape: &Shape,
        programmed: bool,
    ) -> Result<Option<LpiRoom>, AllocError>
        requires enough { HasEnough access (state_of self.now) }
        requires hand { IsHand shape.now self.now }
        ensures room { IfOk result (HasRoom programmed shape.now access (state_of self.now)) }
        ensures rare { IfErr result (λ _.
            is_enable (asked access (conf_state self.now.conf.value)) ≡ true) }
    {
        let _ = shape;
        if !programmed {
            return Ok(None);
        }
        match &self.pend {
            Some(pend) => room_for(&self.conf, pend, access.off, access.size, access.value),
            None => Ok(None),
        }
    }

    /// Writes, where the guest programs the tables.
    pub fn written(
        self,
        access: GicrAccess,
        shape: &Shape,
        programmed: bool,
        room: Option<LpiRoom>,
    ) -> Hand
        requires enough { HasEnough access (state_of self) }
        requires hand { IsHand shape.now self }
        requires room { HasRoom programmed shape.now access (state_of self) room }
        ensures after { state_of result
            ≡ after_write programmed shape.now access (state_of self) }
        ensures hand { IsHand shape.now result }
    {
        if !programmed {
            return self;
        }
        let Hand {
            memory,
            mut conf,
            pend,
        } = self;
        let pend = match pend {
            Some(mut pend) => {
                write_both(&mut conf, &mut pend, &memory, shape, access, room);
                Some(pend)
            }
            None => {
                write_conf(&mut conf, &memory, shape, access);
                None
            }
        };
        Hand { memory, conf, pend }
    }
}

// There is memory, where the write asks to read tables.
#[tactic(auto, unfolding(gicr_regs::specs::Registers::written_gicr))]
fn write_both(
    conf: &mut Conf,
    pend: &mut Pend,
    memory: &Option<Box<GuestMemory>>,
    shape: &Shape,
    access: GicrAccess,
    room: Option<LpiRoom>,
)
    requires low { AreLow conf.old.bases }
    requires conf_lpis { HasLpisOfConf shape.now conf.old }
    requires pend_lpis { HasLpisOfPend shape.now pend.old }
    requires enough { registers.reads_tables (asked access (conf_state conf.old)) ≡ true
        → is_some memory.now ≡ true }
    requires room { HasRoomFor shape.now.lpi_bits (asked access (conf_state conf.old)) room }
    ensures done { redistributor_of conf.new pend.new ≡ registers.done_by shape.now
        (windows_in (memory_state memory.now)) (asked access (conf_state conf.old))
        (redistributor_of conf.old pend.old) }
    ensures low { AreLow conf.new.bases }
    ensures conf_lpis { HasLpisOfConf shape.now conf.new }
    ensures pend_lpis { HasLpisOfPend shape.now pend.new }
{
    let GicrAccess {
        off,
        size,
        value,
        ..
    } = access;
    match memory {
        Some(memory) => gicr_write(conf, pend, &memory.memory, shape, off, size, value, room),
        None => turn_off_write(conf, pend, shape, off, size, value),
    }
}

// So there is, and the write turns LPIs neither on nor off.
fn write_conf(conf: &mut Conf, memory: &Option<Box<GuestMemory>>, shape: &Shape, access: GicrAccess)
    requires low { AreLow conf.old.bases }
    requires lpis { HasLpisOfConf shape.now conf.old }
    requires enough { registers.reads_tables (asked access (conf_state conf.old)) ≡ true
        → is_some memory.now ≡ true }
    requires not_pending { registers.changes_pending (asked access (conf_state conf.old))
        ≡ false }
    ensures done { conf_state conf.new ≡ registers.conf_done_by shape.now
        (windows_in (memory_state memory.now)) (asked access (conf_state conf.old))
        (conf_state conf.old) }
    ensures low { AreLow conf.new.bases }
    ensures lpis { HasLpisOfConf shape.now conf.new }
{
    let GicrAccess {
        off,
        size,
        value,
        ..
    } = access;
    match memory {
        Some(memory) => conf_write(conf, &memory.memory, shape, off, size, value),
        None => conf_set(conf, off, size, value),
    }
}

/// Puts all of it back, what was taken last first.
pub fn put_hand(machine: &Machine, pass: &mut Pass, vcpu: Vcpu, hand: Hand)
    requires of { IsOf machine.now pass.old }
    requires vcpu { vcpu.0 < vcpu_count (setup machine.now) }
    requires hand { IsHand (setup machine.now).start.layout.shape hand }
    requires held { (view pass.old).held ≡ held_of vcpu (state_of hand) }
    ensures of { IsOf machine.now pass.new }
    ensures home { view pass.new ≡ holding (view pass.old) [] }
{
    let Hand { memory, conf, pend } = hand;
    put_pend(machine, pass, vcpu, pend);
    put(machine, pass, Part::Conf(vcpu), Value::Conf(conf));
    put_memory(machine, pass, memory);
}

fn put_pend(machine: &Machine, pass: &mut Pass, vcpu: Vcpu, pend: Option<Box<Pend>>)
    requires of { IsOf machine.now pass.old }
    requires vcpu { vcpu.0 < vcpu_count (setup machine.now) }
    requires lpis { HasLpisIfPend (setup machine.now).start.layout.shape pend }
    requires held { (before : List Held) × ((view pass.old).held
        ≡ pend_before vcpu (pend_of_hand pend) before) }
    ensures of { IsOf machine.now pass.new }
    ensures home { (before : List Held) →
        (view pass.old).held ≡ pend_before vcpu (pend_of_hand pend) before →
        view pass.new ≡ holding (view pass.old) before }
{
    if let Some(pend) = pend {
        put(machine, pass, Part::Pend(vcpu), Value::Pend(pend));
    }
}

fn put_memory(machine: &Machine, pass: &mut Pass, memory: Option<Box<GuestMemory>>)
    requires of { IsOf machine.now pass.old }
    requires places { HasPlacesIfMemory (setup machine.now).start.layout.shape memory }
    requires held { (view pass.old).held ≡ memory_before (memory_state memory) [] }
    ensures of { IsOf machine.now pass.new }
    ensures home { view pass.new ≡ holding (view pass.old) [] }
{
    if let Some(memory) = memory {
        put(machine, pass, Part::Mem, Value::Mem(memory));
    }
}
