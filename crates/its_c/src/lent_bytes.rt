//! Memory that is lent for a step, made of stretches and their bytes.
ghost use Rattle.std.specs.Prelude.{◌≡◌, true, IfOk, OnOk, length, map};
ghost use Rattle.guest_windows.specs.Windows.{extent};
ghost use Rattle.guest_windows.specs.Windows as windows;
ghost use Rattle.guest_windows.specs.Fields.{pairs};
ghost use Rattle.owned_machine.specs.Pieces.{with_bytes};
ghost use Rattle.its_c.specs.LentBytes as spec;

use guest_windows::{Memory, WriteError};
use its_numbers::StretchOut;
use its_types::Addr;
use std::alloc::{AllocError, Global};

/// Whether the stretches take so many bytes together.
pub fn stretches_fit(list: &[StretchOut], bytes: usize) -> bool
    ensures { result ≡ spec.stretches_fit list.now bytes }
{
    let mut left = bytes as u64;
    let mut rest = list;
    while let [stretch, others @ ..] = rest {
        if stretch.length > left {
            return false;
        }
        left -= stretch.length;
        rest = others;
    }
    left == 0
}

/// Memory with the same windows, zero but for the stretches, of which each has the next bytes.
pub fn lent_memory(
    alloc: Global,
    memory: &Memory,
    list: &[StretchOut],
    bytes: &[u8],
) -> Result<Memory, AllocError>
    requires { spec.stretches_fit list.now (length bytes.now) ≡ true }
    ensures bytes { IfOk result (λ m. m ≡ spec.lent_memory memory.now list.now bytes.now) }
    ensures windows { IfOk result (λ m. map extent m ≡ map extent memory.now) }
{
    let mut lent = empty(alloc, &memory.windows(alloc)?)?;
    lay(&mut lent, list, bytes)?;
    Ok(lent)
}

// Memory with these windows, all zero.
fn empty(alloc: Global, list: &[(Addr, u64)]) -> Result<Memory, AllocError>
    ensures { IfOk result (λ m. m ≡ map windows.zeros (pairs list.now)) }
{
    match Memory::new(alloc, list) {
        Ok(memory) => Ok(memory),
        Err(_) => Err(AllocError),
    }
}

// Lays the bytes over memory, those of stretches that lie in one window.
fn lay(memory: &mut Memory, list: &[StretchOut], bytes: &[u8]) -> Result<(), AllocError>
    requires { spec.stretches_fit list.now (length bytes.now) ≡ true }
    ensures { OnOk result (memory.new ≡ spec.laid memory.old list.now bytes.now) }
{
    let mut rest = list;
    let mut left = bytes;
    while let [stretch, others @ ..] = rest {
        let (own, more) = left.split_at(stretch.length as usize);
        put(memory, Addr(stretch.address), own)?;
        rest = others;
        left = more;
    }
    Ok(())
}

// Writes the bytes, if one window has them all.
fn put(memory: &mut Memory, addr: Addr, bytes: &[u8]) -> Result<(), AllocError>
    ensures { OnOk result (memory.new ≡ with_bytes memory.old addr.0 bytes.now) }
{
    match memory.write(addr, bytes) {
        Ok(()) | Err(WriteError::Outside(_)) => Ok(()),
        Err(WriteError::NoMemory) => Err(AllocError),
    }
}
