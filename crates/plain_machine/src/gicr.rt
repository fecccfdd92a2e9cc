//! The LPI registers of redistributors, where the guest programs them.
ghost use Rattle.std.specs.Prelude.{◌≡◌, ◌≤◌, ◌<◌, ◌^◌, OnOk, IfOk};
ghost use Rattle.gicr_regs.specs.Redistributors as lpis;
ghost use Rattle.its_plain.specs.Sound.{IsShape};

use crate::redist::RedistLists;
use crate::state::State;
use gicr_regs::{GicrWrite, asked_by, read_gicr};
use guest_windows::Memory;
use its_types::{Addr, Bases, FIRST_LPI, Shape, Vcpu, bit_of};
use std::alloc::{AllocError, Global};

impl State {
    ghost use Rattle.std.specs.Prelude.{◌≡◌, OnOk};
    ghost use Rattle.its_plain.specs.Answer as answers;

    pub(crate) fn read_gicr(&self, vcpu: Vcpu, off: u32, size: u8) -> u64
        ensures { result ≡ answers.gicr_read self.now vcpu.0 off size }
    {
        if !self.layout.gicr {
            return 0;
        }
        match self.redistributors.get(usize::from(vcpu.0)) {
            Some(redist) => redist.read_gicr(self.layout.shape.linux, off, size),
            None => read_gicr(self.layout.shape.linux, &Bases::off(), off, size),
        }
    }

    pub(crate) fn write_gicr(
        &mut self,
        alloc: Global,
        vcpu: Vcpu,
        off: u32,
        size: u8,
        value: u64,
    ) -> Result<(), AllocError>
        ensures { OnOk result (self.new ≡ answers.gicr_written self.old vcpu.0 off size value) }
    {
        let at = usize::from(vcpu.0);
        if self.layout.gicr && at < self.redistributors.len() {
            let redist = &mut self.redistributors[at];
            let memory = self.memory.guest();
            redist.write_gicr(alloc, memory, &self.layout.shape, off, size, value)?;
        }
        Ok(())
    }
}

impl RedistLists {
    ghost use Rattle.std.specs.Prelude.{◌≡◌, OnOk, if◌then◌else◌};
    ghost use Rattle.gicr_regs.specs.Redistributors as lpis;
    ghost use Rattle.gicr_regs.specs.Registers as registers;
    ghost use Rattle.its_plain.specs.Sound.{IsShape};

    fn read_gicr(&self, linux: bool, off: u32, size: u8) -> u64
        ensures { result ≡ registers.read_gicr linux self.now.bases off size }
    {
        read_gicr(linux, &self.bases, off, size)
    }

    #[tactic(auto, unfolding(gicr_regs::specs::Registers::written_gicr, gicr_regs::specs::Registers::done_by))]
    fn write_gicr(
        &mut self,
        alloc: Global,
        memory: &Memory,
        shape: &Shape,
        off: u32,
        size: u8,
        value: u64,
    ) -> Result<(), AllocError>
        requires { IsShape shape.now }
        ensures { OnOk result
            (self.new ≡ registers.written_gicr shape.now memory.now self.old off size value) }
    {
        match asked_by(&self.bases, off, size, value) {
            GicrWrite::Ignored => {}
            GicrWrite::SetBases(bases) => self.bases = bases,
            GicrWrite::Enable => self.enable(alloc, memory, shape)?,
            GicrWrite::Disable if shape.linux => self.disable(alloc, shape)?,
            GicrWrite::Disable => {}
            GicrWrite::Reread(intid) => {
                if intid.in_range(shape.lpi_bits) {
                    self.reread(memory, intid.0);
                }
            }
            GicrWrite::RereadAll => self.reload(alloc, memory, shape)?,
        }
        Ok(())
    }

    // Turns LPIs on, where both tables lie in memory.
    #[tactic(auto, unfolding(gicr_regs::specs::Registers::turned_on))]
    fn enable(&mut self, alloc: Global, memory: &Memory, shape: &Shape) -> Result<(), AllocError>
        requires { IsShape shape.now }
        ensures { OnOk result (self.new
            ≡ (if lpis.has_tables shape.now memory.now self.old.bases then registers.turned_on
            shape.now memory.now self.old else self.old)) }
    {
        let in_memory = memory.inside(self.bases.prop.table, shape.lpi_count())
            && memory.inside(self.bases.pend.table, shape.pending_bytes());
        if !in_memory {
            return Ok(());
        }
        if !self.bases.pend.ptz {
            self.pending = pending_in(alloc, memory, self.bases.pend.table, shape.lpi_bits)?;
        }
        self.read_config(alloc, memory, shape)?;
        self.bases.on = true;
        self.accepts = true;
        Ok(())
    }

    // Turns LPIs off: nothing is pending, and the configuration is all zero.
    fn disable(&mut self, alloc: Global, shape: &Shape) -> Result<(), AllocError>
        requires { IsShape shape.now }
        ensures { OnOk result (self.new ≡ registers.turned_off shape.now self.old) }
    {
        self.config = vec![in alloc; 0; shape.lpi_count() as usize]?;
        self.pending = Vec::new(alloc);
        self.bases.on = false;
        self.accepts = false;
        Ok(())
    }

    // Reads the configuration table again, if LPIs are on.
    fn reload(&mut self, alloc: Global, memory: &Memory, shape: &Shape) -> Result<(), AllocError>
        requires { IsShape shape.now }
        ensures { OnOk result (self.new ≡ lpis.reloaded shape.now memory.now self.old) }
    {
        if self.bases.on {
            self.read_config(alloc, memory, shape)?;
        }
        Ok(())
    }
}

// The LPIs whose bits are set in a pending table.
#[tactic(auto, unfolding(gicr_regs::specs::Redistributors::pending_in))]
fn pending_in(
    alloc: Global,
    memory: &Memory,
    base: Addr,
    lpi_bits: u8,
) -> Result<Vec<u32>, AllocError>
    requires bits { lpi_bits ≤ 20 }
    requires low { base.0 < 2 ^ 52 }
    ensures { IfOk result (λ v. v.items ≡ lpis.pending_in lpi_bits memory.now base.0) }
{
    (FIRST_LPI..1 << lpi_bits)
        .filter(|intid| is_set(memory, base, *intid))
        .collect(alloc)
}

// The bit of an LPI in a pending table.
fn is_set(memory: &Memory, base: Addr, intid: u32) -> bool
    requires { base.0 < 2 ^ 52 }
    ensures { result ≡ lpis.is_set memory.now base.0 intid }
{
    match memory.read_u8(Addr(base.0 + u64::from(intid / 8))) {
        Ok(byte) => bit_of(u64::from(byte), intid % 8),
        Err(_) => false,
    }
}
