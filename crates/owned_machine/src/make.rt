//! The parts of the machine that a description makes.
ghost use Rattle.std.specs.Prelude.{◌≡◌, ◌≤◌, ◌<◌, true, false, Err, IfOk, IfErr, map, length, sum};
ghost use Rattle.std.specs.Prelude.{nat_le, replicate};
ghost use Rattle.std.specs.Bool.{OnTrue};
ghost use Rattle.guest_windows.specs.Windows.{zeros};
ghost use Rattle.guest_windows.specs.Fields.{pairs};
ghost use Rattle.its_plain.specs.Machine as spec;
ghost use Rattle.its_plain.specs.Machine.{IsDescription, HasTablesFor};
ghost use Rattle.its_plain.specs.Sound.{IsShape};
ghost use Rattle.its_types.specs.Ranges.{most_vcpus};
ghost use Rattle.its_plain.specs.declared.desc.DescFault.TheVariants as faults;
ghost use Rattle.owned_machine.specs.Making.{IsWindowFault, Fills};
ghost use Rattle.lpi_pending.specs.PendingSets.{none_pending};
ghost use Rattle.owned_parts.specs.Owned.{one_or_two, translator_of};
ghost use Rattle.std.specs.Option.{option_map};
ghost use Rattle.owned_machine.specs.Start.{IsFilled, HasConfig, IsFirstOf, AreFirst, AreStarted};
ghost use Rattle.owned_machine.specs.Start.{reset_translator, devices_test, idle_pend};

use crate::frames::{all_frames_fit, ensure};
use gits_regs::Regs;
use guest_windows::{Memory, NewError, WriteError};
use its_maps::Maps;
use its_plain::{Desc, DescFault, Fill, LpiTables, MakeError};
use its_types::{Addr, Bases, Shape, Vcpu};
use lpi_config::{Conf, Config};
use lpi_pending::{Pend, Pending, Redists};
use owned_parts::{Parts, Translator};
use std::alloc::{AllocError, Global};
use table_restore::fresh_track;

/// Registers at reset, nothing mapped, nothing pending, and the configuration as memory has it (or
/// LPIs off, where the guest programs the tables), or the first thing that is wrong with the
/// description.
pub fn start(alloc: Global, desc: &Desc) -> Result<Parts, MakeError>
    requires { IsDescription desc.now }
    ensures { AreStarted desc.now result }
{
    let memory = filled(alloc, desc)?;
    if !has_config(&desc.tables, &memory, &desc.shape) {
        return Err(MakeError::Fault(DescFault::Config));
    }
    let Ok(redists) = redists_of(alloc, &desc.tables, &memory, &desc.shape) else {
        return Err(MakeError::NoMemory);
    };
    let Ok(layout) = desc.layout(alloc) else {
        return Err(MakeError::NoMemory);
    };
    let Ok(track) = fresh_track(alloc, desc.track, &memory) else {
        return Err(MakeError::NoMemory);
    };
    Ok(Parts {
        layout,
        first: at_reset(alloc, desc.shape.dev_bits),
        second: second_at_reset(
            alloc,
            desc.translators.as_slice().len(),
            desc.shape.dev_bits,
        ),
        memory,
        track,
        redists,
    })
}

// A translator at reset, with nothing mapped.
fn at_reset(alloc: Global, dev_bits: u8) -> Translator
    requires least { 16 ≤ dev_bits }
    requires most { dev_bits ≤ 20 }
    ensures { translator_of result ≡ reset_translator dev_bits }
{
    Translator {
        regs: Regs::reset(dev_bits),
        maps: Maps::new(alloc),
    }
}

// The second of so many translators, if there are two.
fn second_at_reset(alloc: Global, count: usize, dev_bits: u8) -> Option<Translator>
    requires least { 16 ≤ dev_bits }
    requires most { dev_bits ≤ 20 }
    requires some { 1 ≤ count }
    requires few { count ≤ 2 }
    ensures { one_or_two (reset_translator dev_bits) (option_map translator_of result)
        ≡ replicate count (reset_translator dev_bits) }
{
    if count == 2 {
        Some(at_reset(alloc, dev_bits))
    } else {
        None
    }
}

// Memory with the bytes that the description puts there, if its tables lie in it.
#[tactic(auto, unfolding(its_plain::specs::Machine::made))]
fn filled(alloc: Global, desc: &Desc) -> Result<Memory, MakeError>
    requires { IsDescription desc.now }
    ensures { IsFilled desc.now result }
{
    let mut memory = memory_of(alloc, desc)?;
    tables_inside(&desc.tables, &memory, &desc.shape)?;
    fill(&mut memory, desc.fills.as_slice())?;
    devices_fit(desc)?;
    Ok(memory)
}

// The frames and the requesters of a description, or the first thing that is wrong with them.
fn devices_fit(desc: &Desc) -> Result<(), DescFault>
    requires { IsDescription desc.now }
    ensures { result ≡ devices_test desc.now }
{
    all_frames_fit(desc.windows.as_slice(), desc.translators.as_slice())?;
    desc.requesters.check()
}

// Memory with the windows of a description, all bytes zero.
fn memory_of(alloc: Global, desc: &Desc) -> Result<Memory, MakeError>
    ensures ok { IfOk result (λ m.
        (m ≡ map zeros (pairs desc.now.windows)) × (spec.windows_fit desc.now ≡ true)) }
    ensures err { IfErr result (IsWindowFault (spec.windows_fit desc.now)) }
{
    let windows = desc.windows.as_slice();
    if !are_at_most(windows, desc.memory_limit) {
        return Err(MakeError::Fault(DescFault::Windows));
    }
    match Memory::new(alloc, windows) {
        Ok(memory) => Ok(memory),
        Err(NewError::BadWindows) => Err(MakeError::Fault(DescFault::Windows)),
        Err(NewError::NoMemory) => Err(MakeError::NoMemory),
    }
}

// The windows have at most so many bytes together.
fn are_at_most(windows: &[(Addr, u64)], limit: u64) -> bool
    ensures { result ≡ nat_le (sum (map (λ w. w.1) (pairs windows.now))) limit }
{
    let mut left = limit;
    let mut rest = windows;
    while let [window, others @ ..] = rest {
        if left < window.1 {
            return false;
        }
        left -= window.1;
        rest = others;
    }
    true
}

// The described tables lie in one window each, or the first fault.
fn tables_inside(tables: &LpiTables, memory: &Memory, shape: &Shape) -> Result<(), DescFault>
    requires shape { IsShape shape.now }
    requires tables { HasTablesFor shape.now.vcpus tables.now }
    ensures { result ≡ spec.tables_inside shape.now memory.now tables.now }
{
    match tables {
        LpiTables::Described { config, pending } => {
            ensure(memory.inside(*config, shape.lpi_count()), DescFault::Config)?;
            pending_inside(memory, shape.pending_bytes(), pending.as_slice())
        }
        LpiTables::Registers(_) => Ok(()),
    }
}

// Each pending table lies in one window, or the first virtual processor whose table doesn't.
fn pending_inside(memory: &Memory, size: u64, bases: &[Addr]) -> Result<(), DescFault>
    requires { length bases.now ≤ most_vcpus }
    ensures { result ≡ spec.pending_inside memory.now size 0 bases.now }
{
    for (vcpu, base) in bases.iter().enumerate() {
        if !memory.inside(*base, size) {
            return Err(DescFault::Pending(Vcpu(vcpu as u16)));
        }
    }
    Ok(())
}

// Puts the bytes of a description into memory, or tells the first fill whose bytes don't lie in one
// window.
fn fill(memory: &mut Memory, fills: &[Fill]) -> Result<(), MakeError>
    ensures { Fills memory.new result (spec.filled memory.old 0 fills.now) }
{
    for (n, fill) in fills.iter().enumerate() {
        match memory.write(fill.addr, fill.bytes.as_slice()) {
            Ok(()) => {}
            Err(WriteError::Outside(_)) => {
                return Err(MakeError::Fault(DescFault::Bytes(n as u64)));
            }
            Err(WriteError::NoMemory) => return Err(MakeError::NoMemory),
        }
    }
    Ok(())
}

// Whether the configuration table lies in memory, where one is described.
fn has_config(tables: &LpiTables, memory: &Memory, shape: &Shape) -> bool
    requires { IsShape shape.now }
    ensures has { OnTrue result (HasConfig shape.now memory.now tables.now) }
    ensures lacks { result ≡ false →
        spec.first_redistributors shape.now memory.now tables.now ≡ Err faults.Config }
{
    match tables {
        LpiTables::Described { config, .. } => memory.inside(*config, shape.lpi_count()),
        LpiTables::Registers(_) => true,
    }
}

// A redistributor for each virtual processor. Nothing is pending.
fn redists_of(
    alloc: Global,
    tables: &LpiTables,
    memory: &Memory,
    shape: &Shape,
) -> Result<Redists, AllocError>
    requires shape { IsShape shape.now }
    requires tables { HasTablesFor shape.now.vcpus tables.now }
    requires config { HasConfig shape.now memory.now tables.now }
    ensures { IfOk result
        (λ redists. AreFirst shape.now memory.now tables.now redists shape.now.vcpus) }
{
    let mut redists = Redists::with_room(alloc, shape.vcpus)?;
    for vcpu in 0..shape.vcpus {
        let (conf, pend) = first_redist(alloc, tables, memory, shape, vcpu)?;
        redists.place_conf(Vcpu(vcpu), Box::new(alloc, conf)?);
        redists.place_pend(Vcpu(vcpu), Box::new(alloc, pend)?);
    }
    Ok(redists)
}

// The two parts of that of one virtual processor.
fn first_redist(
    alloc: Global,
    tables: &LpiTables,
    memory: &Memory,
    shape: &Shape,
    vcpu: u16,
) -> Result<(Conf, Pend), AllocError>
    requires shape { IsShape shape.now }
    requires tables { HasTablesFor shape.now.vcpus tables.now }
    requires config { HasConfig shape.now memory.now tables.now }
    requires vcpu { vcpu < shape.now.vcpus }
    ensures { IfOk result (λ r. IsFirstOf shape.now memory.now tables.now vcpu r.0 r.1) }
{
    let conf = first_conf(alloc, tables, memory, shape, vcpu)?;
    let pend = first_pend(alloc, conf.bases().on, shape.lpi_bits)?;
    Ok((conf, pend))
}

// Nothing is pending.
fn first_pend(alloc: Global, on: bool, lpi_bits: u8) -> Result<Pend, AllocError>
    requires low { 14 ≤ lpi_bits }
    requires high { lpi_bits ≤ 20 }
    ensures { IfOk result
        (λ p. p ≡ record { pending = none_pending lpi_bits; accepts = on }) }
{
    if !on {
        return Ok(Pend::off(alloc, lpi_bits));
    }
    let pending = Pending::new(alloc, lpi_bits)?;
    Ok(Pend::on(alloc, pending))
}

// What it has read of its tables.
fn first_conf(
    alloc: Global,
    tables: &LpiTables,
    memory: &Memory,
    shape: &Shape,
    vcpu: u16,
) -> Result<Conf, AllocError>
    requires shape { IsShape shape.now }
    requires tables { HasTablesFor shape.now.vcpus tables.now }
    requires config { HasConfig shape.now memory.now tables.now }
    requires vcpu { vcpu < shape.now.vcpus }
    ensures { IfOk result (λ c.
        IsFirstOf shape.now memory.now tables.now vcpu c (idle_pend shape.now c)) }
{
    match tables {
        LpiTables::Described { config, pending } => {
            let bytes = Config::load(alloc, memory, *config, shape.lpi_bits)?;
            let bases = Bases::described(*config, pending.as_slice()[usize::from(vcpu)]);
            Ok(Conf::on(alloc, bytes, bases))
        }
        LpiTables::Registers(_) => Ok(Conf::off(alloc, shape.lpi_bits, Bases::off())),
    }
}
