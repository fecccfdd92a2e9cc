//! Where the frames of the translators stand, and which devices write by address.
ghost use Rattle.std.specs.Prelude.{◌≡◌, ◌≤◌, ◌+◌, ◌^◌, ◌++◌, [], length};
ghost use Rattle.std.specs.List.{list_any};
ghost use Rattle.guest_windows.specs.Fields.{pairs};
ghost use Rattle.its_plain.specs.Machine as spec;
ghost use Rattle.its_plain.specs.Doorbells.{frames_size};
ghost use Rattle.plain_machine.specs.Made.{IsChecked};

use its_plain::{DescFault, Its, MakeError, Requesters};
use its_types::Addr;
use std::alloc::Global;

// How many bytes the two frames of a translator have.
const FRAMES: u64 = 131_072;

// All addresses lie below this one.
const END: u64 = 1 << 52;

/// Each translator's frames fit beside the windows and the frames of the others, or the first whose
/// frames don't.
pub fn all_frames_fit(windows: &[(Addr, u64)], translators: &[Its]) -> Result<(), DescFault>
    requires { length translators.now ≤ 256 }
    ensures { result ≡ spec.all_frames_fit (pairs windows.now) 0 translators.now }
{
    let mut rest = translators;
    let mut its: usize = 0;
    while let [translator, later @ ..] = rest {
        if let Some(base) = translator.frames {
            if !frames_fit(windows, later, base) {
                return Err(DescFault::Frames(its as u8));
            }
        }
        rest = later;
        its += 1;
    }
    Ok(())
}

// Frames lie below 2^52, and share no byte with one of the windows or with the frames of the
// translators after them.
fn frames_fit(windows: &[(Addr, u64)], later: &[Its], base: Addr) -> bool
    ensures { result
        ≡ spec.frames_fit (spec.frames_of later.now ++ pairs windows.now) base }
{
    base.0 <= END - FRAMES && !(shares_frames(later, base) || shares_any(windows, base))
}

// They share a byte with the frames of one of the translators.
fn shares_frames(translators: &[Its], base: Addr) -> bool
    ensures { result
        ≡ list_any (spec.share (base.0, frames_size)) (spec.frames_of translators.now) }
{
    let mut rest = translators;
    while let [translator, others @ ..] = rest {
        if let Some(other) = translator.frames {
            if share(base, other, FRAMES) {
                return true;
            }
        }
        rest = others;
    }
    false
}

// They share a byte with one of them.
fn shares_any(taken: &[(Addr, u64)], base: Addr) -> bool
    ensures { result ≡ list_any (spec.share (base.0, frames_size)) (pairs taken.now) }
{
    let mut rest = taken;
    while let [stretch, others @ ..] = rest {
        if share(base, stretch.0, stretch.1) {
            return true;
        }
        rest = others;
    }
    false
}

// Frames and a stretch share a byte.
fn share(base: Addr, other: Addr, len: u64) -> bool
    ensures { result ≡ spec.share (base.0, frames_size) (other.0, len) }
{
    let end = u128::from(base.0) + u128::from(FRAMES);
    let other_end = u128::from(other.0) + u128::from(len);
    u128::from(base.0) < other_end && u128::from(other.0) < end
}

/// There are requesters on each line, each is a device, and none is on an earlier line; or the
/// first line of which this isn't so.
pub fn all_new(alloc: Global, lines: &[Requesters]) -> Result<(), MakeError>
    ensures { IsChecked result (spec.all_new [] 0 lines.now) }
{
    let mut before = Vec::new(alloc);
    for (n, line) in lines.iter().enumerate() {
        if !are_new(&before, line) {
            return Err(MakeError::Fault(DescFault::Requesters(n as u64)));
        }
        before.insert(0, *line)?;
    }
    Ok(())
}

fn are_new(before: &[Requesters], line: &Requesters) -> bool
    ensures { result ≡ spec.are_new before.now line.now }
{
    line.first <= line.last
        && line.dev.0 <= u32::MAX - (line.last - line.first)
        && !meets_any(before, line)
}

// One of the requesters is among others.
fn meets_any(others: &[Requesters], line: &Requesters) -> bool
    ensures { result ≡ list_any (spec.meet line.now) others.now }
{
    others.iter().any(|other| meet(line, other))
}

// They have a number in common.
fn meet(line: &Requesters, other: &Requesters) -> bool
    ensures { result ≡ spec.meet line.now other.now }
{
    line.first <= other.last && other.first <= line.last
}
