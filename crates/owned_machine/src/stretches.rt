//! Guest memory, written in stretches of any length.
ghost use Rattle.std.specs.Prelude.{◌≡◌, ◌<◌, ◌≤◌, ◌+◌, ◌*◌, ◌^◌, OnOk, OnErr, length};
ghost use Rattle.std.specs.Prelude.{IfErr, is_ok, replicate};
ghost use Rattle.guest_windows.specs.Windows.{inside};
ghost use Rattle.owned_parts.specs.Owned.{state_of_parts};
ghost use Rattle.owned_machine.specs.Pieces as spec;
ghost use Rattle.owned_machine.specs.Whole.{IsMachine, GoesOn};

use crate::memory::mark;
use guest_windows::{Memory, Outside, WriteError};
use its_types::Addr;
use owned_parts::Parts;
use std::alloc::{AllocError, Global};

/// Writes bytes of which each piece lies in one window; one that doesn't is left out. Where there is
/// a second memory, the pages of all of them are dirty then. Out of memory, nothing is written:
/// where no window has all of them, they are written to a copy first.
pub fn write_stretch(
    parts: &mut Parts,
    alloc: Global,
    address: u64,
    bytes: &[u8],
) -> Result<(), AllocError>
    requires whole { IsMachine parts.old }
    requires below { address + length bytes.now < 2 ^ 64 }
    ensures done { OnOk result (GoesOn parts.new
        (spec.written_to (state_of_parts parts.old) address bytes.now)) }
    ensures err { OnErr result (parts.new ≡ parts.old) }
{
    put_all(&mut parts.memory, alloc, address, bytes)?;
    mark(&mut parts.track, Addr(address), bytes.len() as u64);
    Ok(())
}

/// Makes bytes zero where one window has them all, and gives back the pages that lie wholly inside.
/// Where there is a second memory, the pages of all of them are dirty then.
pub fn forget_stretch(parts: &mut Parts, addr: Addr, len: u64) -> Result<(), Outside>
    requires { IsMachine parts.old }
    ensures done { OnOk result (GoesOn parts.new
        (spec.written_to (state_of_parts parts.old) addr.0 (replicate len 0))) }
    ensures outside { IfErr result (λ e. e.0 ≡ addr) }
    ensures err { OnErr result (parts.new ≡ parts.old) }
    ensures where_all { is_ok result ≡ inside parts.old.memory addr.0 len }
{
    match parts.memory.forget(addr, len) {
        Ok(()) => {
            mark(&mut parts.track, addr, len);
            Ok(())
        }
        Err(outside) => Err(outside),
    }
}

fn put_all(memory: &mut Memory, alloc: Global, address: u64, bytes: &[u8]) -> Result<(), AllocError>
    requires { address + length bytes.now < 2 ^ 64 }
    ensures done { OnOk result (memory.new
        ≡ spec.with_stretch memory.old address bytes.now) }
    ensures err { OnErr result (memory.new ≡ memory.old) }
{
    if memory.inside(Addr(address), bytes.len() as u64) {
        return put(memory, address, bytes);
    }
    let mut copy = memory.copy(alloc)?;
    put_pieces(&mut copy, address, bytes)?;
    *memory = copy;
    Ok(())
}

// Writes bytes where one window has them all.
fn put(memory: &mut Memory, address: u64, bytes: &[u8]) -> Result<(), AllocError>
    ensures done { OnOk result (memory.new ≡ spec.with_bytes memory.old address bytes.now) }
    ensures err { OnErr result (memory.new ≡ memory.old) }
{
    match memory.write(Addr(address), bytes) {
        Ok(()) | Err(WriteError::Outside(_)) => Ok(()),
        Err(WriteError::NoMemory) => Err(AllocError),
    }
}

// How many pieces there are.
fn piece_count(count: usize) -> usize
    ensures { result ≡ spec.piece_count count }
{
    count / 64 + usize::from(count % 64 != 0)
}

// Piece by piece.
#[tactic(auto, unfolding(crate::specs::Pieces::with_pieces))]
fn put_pieces(memory: &mut Memory, address: u64, bytes: &[u8]) -> Result<(), AllocError>
    requires { address + length bytes.now < 2 ^ 64 }
    ensures { OnOk result (memory.new
        ≡ spec.with_pieces memory.old address bytes.now (spec.piece_count (length bytes.now))) }
{
    for i in 0..piece_count(bytes.len()) {
        let rest = &bytes[64 * i..];
        put(memory, address + 64 * i as u64, &rest[..rest.len().min(64)])?;
    }
    Ok(())
}
