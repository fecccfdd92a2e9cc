//! Where a window may lie that guest memory gets, and the list that has it too.
ghost use Rattle.std.specs.Prelude.{◌≡◌, ◌≤◌, IfOk, length};
ghost use Rattle.its_plain.specs.Doorbells.{meets_frames as meets};
ghost use Rattle.its_c.specs.Windows as spec;

use its_plain::Its;
use its_types::{Addr, Listed};
use std::alloc::{AllocError, Global};

// How many bytes the two frames of a translator have.
const FRAMES: u64 = 0x2_0000;

/// The first of these with whose frames it shares a byte. One with no byte does where it lies after
/// the first byte of the frames.
pub fn met(translators: &[Its], base: Addr, len: u64) -> Option<u8>
    requires { length translators.now ≤ 2 }
    ensures { result ≡ spec.met 0 (base.0, len) translators.now }
{
    for (its, translator) in translators.iter().enumerate() {
        if meets_frames(translator, base, len) {
            return Some(its as u8);
        }
    }
    None
}

fn meets_frames(translator: &Its, base: Addr, len: u64) -> bool
    ensures { result ≡ meets base.0 len translator.now }
{
    match translator.frames {
        Some(frames) => {
            let before = base.0 < frames.0 || base.0 - frames.0 < FRAMES;
            before && (frames.0 < base.0 || frames.0 - base.0 < len)
        }
        None => false,
    }
}

/// The windows and one more.
pub fn with_one(
    alloc: Global,
    windows: &[(Addr, u64)],
    base: Addr,
    len: u64,
) -> Result<Listed<(Addr, u64)>, AllocError>
    ensures { IfOk result (λ l. l ≡ spec.one_more windows.now (base.0, len)) }
{
    let mut all = Listed::from_vec(Vec::from_slice(alloc, windows)?);
    all.push((base, len))?;
    Ok(all)
}
