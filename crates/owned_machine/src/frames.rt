//! Where the frames of the translators stand.
ghost use Rattle.std.specs.Prelude.{◌≡◌, ◌+◌, ◌≤◌, ◌^◌, ◌∷◌, [], length};
ghost use Rattle.std.specs.List.{list_any};
ghost use Rattle.guest_windows.specs.Fields.{pairs};
ghost use Rattle.its_plain.specs.Machine as spec;
ghost use Rattle.owned_machine.specs.Frames.{fits_beside, taken_with, place_of};

use its_plain::{DescFault, Its};
use its_types::Addr;

// How many bytes the two frames of a translator have.
const FRAMES: u64 = 131_072;

// All addresses lie below this one.
const END: u64 = 1 << 52;

/// The fault, unless the test holds.
pub fn ensure(test: bool, fault: DescFault) -> Result<(), DescFault>
    ensures { result ≡ spec.ensure test fault }
{
    if test { Ok(()) } else { Err(fault) }
}

/// The frames of each translator fit beside the windows and the frames of the other, or the first
/// whose frames don't.
pub fn all_frames_fit(windows: &[(Addr, u64)], translators: &[Its]) -> Result<(), DescFault>
    requires some { 1 ≤ length translators.now }
    requires most { length translators.now ≤ 2 }
    ensures { result ≡ spec.all_frames_fit (pairs windows.now) 0 translators.now }
{
    let first = translators[0].frames;
    if translators.len() == 1 {
        return ensure(fit(windows, None, first), DescFault::Frames(0));
    }
    let second = translators[1].frames;
    ensure(fit(windows, second, first), DescFault::Frames(0))?;
    ensure(fit(windows, None, second), DescFault::Frames(1))
}

// Frames fit beside the windows and those after, if there are any.
fn fit(windows: &[(Addr, u64)], after: Option<Addr>, frames: Option<Addr>) -> bool
    ensures { result ≡ fits_beside (taken_with after (pairs windows.now)) frames }
{
    match frames {
        Some(base) => one_fits(windows, after, base),
        None => true,
    }
}

fn one_fits(windows: &[(Addr, u64)], after: Option<Addr>, base: Addr) -> bool
    ensures { result ≡ spec.frames_fit (taken_with after (pairs windows.now)) base }
{
    base.0 <= END - FRAMES && !meets_frames(after, base) && !meets_windows(windows, base)
}

// They share a byte with the frames after.
fn meets_frames(after: Option<Addr>, base: Addr) -> bool
    requires { base.0 + 131072 ≤ 2 ^ 52 }
    ensures { result ≡ list_any (spec.share (place_of base)) (taken_with after []) }
{
    match after {
        Some(frames) => meets(&(frames, FRAMES), base),
        None => false,
    }
}

// They share a byte with a window.
fn meets_windows(windows: &[(Addr, u64)], base: Addr) -> bool
    requires { base.0 + 131072 ≤ 2 ^ 52 }
    ensures { result ≡ list_any (spec.share (place_of base)) (pairs windows.now) }
{
    let mut rest = windows;
    while let [window, others @ ..] = rest {
        if meets(window, base) {
            return true;
        }
        rest = others;
    }
    false
}

fn meets(stretch: &(Addr, u64), base: Addr) -> bool
    requires { base.0 + 131072 ≤ 2 ^ 52 }
    ensures { result ≡ spec.share (place_of base) (stretch.now.0.0, stretch.now.1) }
{
    let before_its_end = base.0 < stretch.0.0 || base.0 - stretch.0.0 < stretch.1;
    before_its_end && stretch.0.0 < base.0 + FRAMES
}
