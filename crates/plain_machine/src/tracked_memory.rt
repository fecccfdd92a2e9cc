//! Guest memory, with a second one beside it where the machine has one.
ghost use Rattle.std.specs.Prelude.{◌≡◌, IfOk, OnOk, OnErr};
ghost use Rattle.std.specs.Option.{option_map};
ghost use Rattle.dirty_log.specs.Copies.{wrote, caught_up};
ghost use Rattle.its_plain.specs.Answer.{copy_count};
ghost use Rattle.its_plain.specs.Saved.{track_of};
ghost use Rattle.plain_machine.specs.Memories.{ArePaired};

use crate::second_memory::SecondMemory;
use guest_windows::{Memory, WriteError};
use its_types::Addr;
use std::alloc::{AllocError, Global};
use std::marker::Model;

/// Guest memory, and the second memory of a machine that has one, with the pages in which the two
/// may differ.
#[derive(Drop)]
pub struct TrackedMemory {
    memory: Memory,
    second: Option<SecondMemory>,
}

impl Model for TrackedMemory {
    ghost use Rattle.plain_machine.specs.Memories.{Memories, memories_code, ArePaired};

    ghost Value = { Memories };

    ghost coded = { memories_code };

    ghost view = { λ m. record { memory = m.memory; track = m.second } };

    ghost invariant = { λ m. ArePaired m.memory m.second };
}

impl TrackedMemory {
    ghost use Rattle.std.specs.Prelude.{◌≡◌, ◌⊎◌, IfOk, OnOk, MatchOption, Ok, Err};
    ghost use Rattle.std.specs.Option.{option_map};
    ghost use Rattle.guest_windows.specs.Windows.{write_at};
    ghost use Rattle.guest_windows.specs.declared.errors.WriteError.TheVariants as write_error;
    ghost use Rattle.dirty_log.specs.Copies.{wrote};
    ghost use Rattle.its_plain.specs.Answer.{copy_count};
    ghost use Rattle.dirty_log.specs.Copies.{caught_up};
    ghost use Rattle.its_plain.specs.Saved.{track_of};

    /// With a second memory that is all zero, and every page dirty, where the machine has one.
    pub(crate) fn new(
        alloc: Global,
        memory: Memory,
        tracks: bool,
    ) -> Result<TrackedMemory, AllocError>
        ensures { IfOk result
            (λ m. m ≡ record { memory = memory; track = track_of tracks memory }) }
    {
        let second = fresh(alloc, &memory, tracks)?;
        Ok(TrackedMemory { memory, second })
    }

    /// Both memories, which share nothing with these.
    pub fn copy(&self, alloc: Global) -> Result<TrackedMemory, AllocError>
        ensures { IfOk result (λ m. m ≡ self.now) }
    {
        let memory = self.memory.copy(alloc)?;
        let second = copy_of(alloc, &self.second)?;
        Ok(TrackedMemory { memory, second })
    }

    /// The guest's memory.
    pub fn guest(&self) -> &Memory
        ensures { result.now ≡ self.now.memory }
    {
        &self.memory
    }

    /// Writes all the bytes to the guest's memory, or none. No page is dirty for it.
    pub(crate) fn write(&mut self, addr: Addr, bytes: &[u8]) -> Result<(), WriteError>
        ensures { MatchOption (write_at self.old.memory addr.0 bytes.now)
            ((result ≡ Err (write_error.Outside addr)) × (self.new ≡ self.old))
            (λ memory. ((result ≡ Ok tt) × (self.new ≡ record self.old { memory = memory }))
            ⊎ ((result ≡ Err write_error.NoMemory) × (self.new ≡ self.old))) }
    {
        self.memory.write(addr, bytes)
    }

    /// The pages of these bytes were written.
    pub(crate) fn mark(&mut self, addr: Addr, len: u64)
        ensures { self.new
            ≡ record self.old { track = option_map (wrote addr.0 len) self.old.track } }
    {
        mark(&mut self.second, addr, len);
    }

    /// Copies the dirty pages to the second memory, and tells how many they were.
    pub(crate) fn catch_up(&mut self, alloc: Global) -> Result<u64, AllocError>
        ensures count { IfOk result (λ n. n ≡ copy_count self.old.track) }
        ensures copied { OnOk result (self.new
            ≡ record self.old { track = option_map (caught_up self.old.memory) self.old.track }) }
    {
        catch_up(alloc, &mut self.second, &self.memory)
    }
}

// ---- a second memory, where there is one

// All zero, with every page dirty.
fn fresh(alloc: Global, memory: &Memory, tracks: bool) -> Result<Option<SecondMemory>, AllocError>
    ensures { IfOk result (λ t. t ≡ track_of tracks memory.now) }
{
    if !tracks {
        return Ok(None);
    }
    let windows = memory.windows(alloc)?;
    let second = SecondMemory::untouched(alloc, &windows)?;
    Ok(Some(second))
}

fn copy_of(alloc: Global, second: &Option<SecondMemory>) -> Result<Option<SecondMemory>, AllocError>
    ensures { IfOk result (λ t. t ≡ second.now) }
{
    match second {
        Some(second) => Ok(Some(second.copy(alloc)?)),
        None => Ok(None),
    }
}

fn mark(second: &mut Option<SecondMemory>, addr: Addr, len: u64)
    ensures { second.new ≡ option_map (wrote addr.0 len) second.old }
{
    if let Some(second) = second {
        second.mark(addr, len);
    }
}

// How many pages are copied.
fn catch_up(
    alloc: Global,
    second: &mut Option<SecondMemory>,
    memory: &Memory,
) -> Result<u64, AllocError>
    requires { ArePaired memory.now second.old }
    ensures count { IfOk result (λ n. n ≡ copy_count second.old) }
    ensures ok { OnOk result (second.new ≡ option_map (caught_up memory.now) second.old) }
    ensures err { OnErr result (second.new ≡ second.old) }
{
    let Some(second) = second else {
        return Ok(0);
    };
    let count = second.count();
    second.catch_up(alloc, memory)?;
    Ok(count)
}
