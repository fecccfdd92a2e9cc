//! The LPI registers of redistributors, where the guest programs them (IHI 0069, section 12.11).
ghost use Rattle.std.specs.Prelude.{◌≡◌, true, OnOk, OnErr};
ghost use Rattle.its_plain.specs.Answer as answers;
ghost use Rattle.owned_parts.specs.Owned.{state_of_parts};
ghost use Rattle.owned_machine.specs.Whole.{IsMachine, GoesOn, enables};

use gicr_regs::read_gicr;
use its_types::{Bases, Vcpu};
use lpi_pending::{gicr_read, gicr_write, room_for};
use owned_parts::Parts;
use std::alloc::AllocError;

/// Reads a register. That of a virtual processor that there isn't reads as at reset.
pub fn read(parts: &Parts, vcpu: Vcpu, off: u32, size: u8) -> u64
    requires { IsMachine parts.now }
    ensures { result ≡ answers.gicr_read (state_of_parts parts.now) vcpu.0 off size }
{
    if !parts.layout.gicr {
        return 0;
    }
    let shape = &parts.layout.shape;
    if vcpu.0 >= shape.vcpus {
        return read_gicr(shape.linux, &Bases::off(), off, size);
    }
    gicr_read(shape.linux, parts.redists.conf(vcpu), off, size)
}

/// Writes a register. What is written to that of a virtual processor that there isn't is dropped.
/// Out of memory, which only a write that asks to turn LPIs on can be, nothing is changed.
pub fn write(
    parts: &mut Parts,
    vcpu: Vcpu,
    off: u32,
    size: u8,
    value: u64,
) -> Result<(), AllocError>
    requires { IsMachine parts.old }
    ensures left { OnOk result (GoesOn parts.new
        (answers.gicr_written (state_of_parts parts.old) vcpu.0 off size value)) }
    ensures err { OnErr result (parts.new ≡ parts.old) }
    ensures rare { OnErr result
        (enables (state_of_parts parts.old) vcpu.0 off size value ≡ true) }
{
    if !parts.layout.gicr || vcpu.0 >= parts.layout.shape.vcpus {
        return Ok(());
    }
    let conf = parts.redists.conf(vcpu);
    let pend = parts.redists.pend(vcpu);
    let room = room_for(conf, pend, off, size, value)?;
    let mut conf = parts.redists.take_conf(vcpu);
    let pend = parts.redists.pend_mut(vcpu);
    gicr_write(
        &mut conf,
        pend,
        &parts.memory,
        &parts.layout.shape,
        off,
        size,
        value,
        room,
    );
    parts.redists.place_conf(vcpu, conf);
    Ok(())
}
