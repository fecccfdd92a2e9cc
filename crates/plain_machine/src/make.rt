//! The machine that a description makes.
ghost use Rattle.std.specs.Prelude.{◌≡◌, ◌≤◌, ◌<◌, ◌+◌, ◌^◌, true, All, IfOk, IfErr, OnOk, map};
ghost use Rattle.std.specs.Prelude.{length, replicate, nat_le, sum};
ghost use Rattle.gits_regs.specs.Registers.{reset};
ghost use Rattle.its_types.specs.Maps.{no_maps};
ghost use Rattle.its_types.specs.Lpis.{no_bases};
ghost use Rattle.its_types.specs.Ranges.{most_vcpus};
ghost use Rattle.its_types.specs.declared.ids.Addr.{Addr as Address};
ghost use Rattle.guest_windows.specs.Windows.{read_at, zeros};
ghost use Rattle.guest_windows.specs.Fields.{pairs};
ghost use Rattle.gicr_regs.specs.Redistributors.{off_redistributor};
ghost use Rattle.its_plain.specs.Machine as spec;
ghost use Rattle.its_plain.specs.Machine.{IsDescription};
ghost use Rattle.its_plain.specs.Sound.{IsShape};
ghost use Rattle.plain_machine.specs.Made.{IsMade, IsStarted, IsWindowFault, Fills, Reads, AreLow};
ghost use Rattle.plain_machine.specs.Made.{AreFirst, IsPrepared};

use crate::devices_fit::{all_frames_fit, all_new};
use crate::redist::RedistLists;
use crate::state::State;
use crate::tracked_memory::TrackedMemory;
use crate::translator::TranslatorLists;
use guest_windows::{Memory, NewError, WriteError};
use its_plain::{Desc, DescFault, Fill, LpiTables, MakeError};
use its_types::{Addr, Bases, Shape, Vcpu};
use std::alloc::{AllocError, Global};

impl State {
    /// The first state of a described machine, or the first thing that is wrong with the
    /// description.
    #[tactic(auto, unfolding(its_plain::specs::Machine::made))]
    pub fn new(alloc: Global, desc: &Desc) -> Result<State, MakeError>
        requires { IsDescription desc.now }
        ensures { IsMade result (spec.made desc.now) }
    {
        let mut memory = memory_of(alloc, desc)?;
        let redistributors = fill_and_read(alloc, desc, &mut memory)?;
        started(alloc, desc, memory, redistributors)
    }
}

// Puts the bytes of a description into memory that is zero, and makes the redistributors; or tells
// the first fault.
#[tactic(auto, unfolding(its_plain::specs::Machine::made))]
fn fill_and_read(
    alloc: Global,
    desc: &Desc,
    memory: &mut Memory,
) -> Result<Vec<RedistLists>, MakeError>
    requires description { IsDescription desc.now }
    requires zero { memory.old ≡ map zeros (pairs desc.now.windows) }
    requires fit { spec.windows_fit desc.now ≡ true }
    ensures redistributors { IsPrepared desc.now memory.new result (spec.made desc.now) }
    ensures count { IfOk result (λ v. length v.items ≡ desc.now.shape.vcpus) }
{
    tables_inside(&desc.tables, memory, &desc.shape)?;
    fill(memory, desc.fills.as_slice())?;
    all_frames_fit(desc.windows.as_slice(), desc.translators.as_slice())?;
    all_new(alloc, desc.requesters.as_slice())?;
    first_redistributors(alloc, &desc.tables, memory, &desc.shape)
}

// The fault, unless the test holds.
fn ensure(test: bool, fault: DescFault) -> Result<(), DescFault>
    ensures { result ≡ spec.ensure test fault }
{
    if test { Ok(()) } else { Err(fault) }
}

// Memory with the windows of a description, all bytes zero.
fn memory_of(alloc: Global, desc: &Desc) -> Result<Memory, MakeError>
    ensures ok { IfOk result (λ m.
        (m ≡ map zeros (pairs desc.now.windows)) × (spec.windows_fit desc.now ≡ true)) }
    ensures err { IfErr result (IsWindowFault (spec.windows_fit desc.now)) }
{
    let windows = desc.windows.as_slice();
    if !are_within(windows, desc.memory_limit) {
        return Err(MakeError::Fault(DescFault::Windows));
    }
    match Memory::new(alloc, windows) {
        Ok(memory) => Ok(memory),
        Err(NewError::BadWindows) => Err(MakeError::Fault(DescFault::Windows)),
        Err(NewError::NoMemory) => Err(MakeError::NoMemory),
    }
}

// Whether windows have no more bytes together than a limit.
fn are_within(windows: &[(Addr, u64)], limit: u64) -> bool
    ensures { result ≡ nat_le (sum (map (λ w. w.1) (pairs windows.now))) limit }
{
    let mut left = limit;
    for window in windows {
        if window.1 > left {
            return false;
        }
        left -= window.1;
    }
    true
}

// Each pending table lies in one window, or the first virtual processor whose table doesn't.
fn pending_inside(memory: &Memory, size: u64, bases: &[Addr]) -> Result<(), DescFault>
    requires few { length bases.now ≤ most_vcpus }
    requires some { 0 < size }
    ensures inside { result ≡ spec.pending_inside memory.now size 0 bases.now }
    ensures low { OnOk result (All (λ (a : Address). a.0 < 2 ^ 52) bases.now) }
{
    for (vcpu, base) in bases.iter().enumerate() {
        if !memory.inside(*base, size) {
            return Err(DescFault::Pending(Vcpu(vcpu as u16)));
        }
    }
    Ok(())
}

// The described tables lie in one window each, or the first fault.
fn tables_inside(tables: &LpiTables, memory: &Memory, shape: &Shape) -> Result<(), DescFault>
    requires shape { IsShape shape.now }
    requires tables { spec.HasTablesFor shape.now.vcpus tables.now }
    ensures inside { result ≡ spec.tables_inside shape.now memory.now tables.now }
    ensures low { OnOk result (AreLow tables.now) }
{
    match tables {
        LpiTables::Described { config, pending } => {
            ensure(memory.inside(*config, shape.lpi_count()), DescFault::Config)?;
            pending_inside(memory, shape.pending_bytes(), pending.as_slice())
        }
        LpiTables::Registers(_) => Ok(()),
    }
}

// Puts the bytes of a description into memory, or tells the first fill whose bytes don't lie in one
// window.
fn fill(memory: &mut Memory, fills: &[Fill]) -> Result<(), MakeError>
    ensures { Fills memory.new result (spec.filled memory.old 0 fills.now) }
{
    for (n, fill) in fills.iter().enumerate() {
        match memory.write(fill.addr, fill.bytes.as_slice()) {
            Ok(()) => {}
            Err(WriteError::Outside(_)) => {
                return Err(MakeError::Fault(DescFault::Bytes(n as u64)));
            }
            Err(WriteError::NoMemory) => return Err(MakeError::NoMemory),
        }
    }
    Ok(())
}

// Nothing pending, and the configuration as memory has it; or LPIs off.
fn first_redistributors(
    alloc: Global,
    tables: &LpiTables,
    memory: &Memory,
    shape: &Shape,
) -> Result<Vec<RedistLists>, MakeError>
    requires shape { IsShape shape.now }
    requires tables { spec.HasTablesFor shape.now.vcpus tables.now }
    requires low { AreLow tables.now }
    ensures first { AreFirst result (spec.first_redistributors shape.now memory.now tables.now) }
    ensures count { IfOk result (λ v. length v.items ≡ shape.now.vcpus) }
{
    match tables {
        LpiTables::Described { config, pending } => {
            let bytes = config_of(alloc, memory, *config, shape.lpi_count())?;
            Ok(described(alloc, *config, pending.as_slice(), &bytes)?)
        }
        LpiTables::Registers(_) => Ok(all_off(alloc, shape)?),
    }
}

// The configuration table.
fn config_of(alloc: Global, memory: &Memory, base: Addr, size: u64) -> Result<Vec<u8>, MakeError>
    ensures bytes { Reads result (read_at memory.now base.0 size) }
{
    let mut bytes = vec![in alloc; 0; size as usize]?;
    match memory.read(base, &mut bytes) {
        Ok(()) => Ok(bytes),
        Err(_) => Err(MakeError::Fault(DescFault::Config)),
    }
}

// LPIs are on at the described tables, and nothing is pending.
fn described(
    alloc: Global,
    base: Addr,
    pending: &[Addr],
    config: &[u8],
) -> Result<Vec<RedistLists>, AllocError>
    requires config { base.0 < 2 ^ 52 }
    requires pending { All (λ (a : Address). a.0 < 2 ^ 52) pending.now }
    ensures { IfOk result (λ v.
        v.items
        ≡ map (spec.idle_redistributor config.now)
        (map (spec.described_bases base) pending.now)) }
{
    let mut redistributors = Vec::new(alloc);
    for table in pending {
        redistributors.push(idle(alloc, Bases::described(base, *table), config)?)?;
    }
    Ok(redistributors)
}

// Nothing is pending.
fn idle(alloc: Global, bases: Bases, config: &[u8]) -> Result<RedistLists, AllocError>
    requires config { bases.prop.table.0 < 2 ^ 52 }
    requires pending { bases.pend.table.0 < 2 ^ 52 }
    ensures { IfOk result (λ r. r ≡ spec.idle_redistributor config.now bases) }
{
    let config = Vec::from_slice(alloc, config)?;
    Ok(RedistLists::new(alloc, bases, config))
}

// LPIs are off at each virtual processor.
fn all_off(alloc: Global, shape: &Shape) -> Result<Vec<RedistLists>, AllocError>
    requires { IsShape shape.now }
    ensures { IfOk result (λ v.
        v.items ≡ replicate shape.now.vcpus (off_redistributor shape.now no_bases)) }
{
    let mut redistributors = Vec::new(alloc);
    for _ in 0..shape.vcpus {
        redistributors.push(off(alloc, shape)?)?;
    }
    Ok(redistributors)
}

// LPIs are off, and the configuration is all zero.
fn off(alloc: Global, shape: &Shape) -> Result<RedistLists, AllocError>
    requires { IsShape shape.now }
    ensures { IfOk result (λ r. r ≡ off_redistributor shape.now no_bases) }
{
    let config = vec![in alloc; 0; shape.lpi_count() as usize]?;
    Ok(RedistLists::new(alloc, Bases::off(), config))
}

// Registers at reset, and nothing mapped.
fn started(
    alloc: Global,
    desc: &Desc,
    memory: Memory,
    redistributors: Vec<RedistLists>,
) -> Result<State, MakeError>
    requires description { IsDescription desc.now }
    requires count { length redistributors.items ≡ desc.now.shape.vcpus }
    ensures { IsStarted result (spec.started desc.now memory redistributors.items) }
{
    Ok(State {
        layout: desc.layout(alloc)?,
        translators: first_translators(alloc, desc)?,
        redistributors,
        memory: TrackedMemory::new(alloc, memory, desc.track)?,
    })
}

fn first_translators(alloc: Global, desc: &Desc) -> Result<Vec<TranslatorLists>, AllocError>
    requires { IsDescription desc.now }
    ensures { IfOk result (λ v. v.items ≡ replicate (length desc.now.translators)
        (record { regs = reset desc.now.shape.dev_bits; maps = no_maps })) }
{
    let mut translators = Vec::new(alloc);
    for _ in 0..desc.translators.len() {
        translators.push(TranslatorLists::new(alloc, desc.shape.dev_bits))?;
    }
    Ok(translators)
}
