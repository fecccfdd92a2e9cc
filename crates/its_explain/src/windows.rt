//! Windows of guest memory, for people.
use crate::call_lines::nth_line;
use crate::machine_fault::push_described;
use its_plain::Desc;
use its_types::Addr;
use std::alloc::AllocError;
use std::fmt::Write;

/// Where all guest memory ends: 2^52.
const END: u64 = 1 << 52;

/// Adds a rule, and where the windows are.
pub fn push_windows(out: &mut String, rule: &str, desc: &Desc) -> Result<(), AllocError> {
    write!(out, "{rule}; windows are\n   ")?;
    let mut between = "";
    for window in desc.windows.as_slice() {
        let (base, length) = *window;
        write!(
            out,
            "{between} 0x{:x} to 0x{:x}",
            base.0,
            last_of(base, length)
        )?;
        between = ",\n   ";
    }
    out.push_str("\n")
}

/// The last byte of a window that has some.
fn last_of(base: Addr, length: u64) -> u64 {
    base.0.saturating_add(length.saturating_sub(1))
}

/// Adds the first window that can't be, and why.
pub fn push_windows_fault(out: &mut String, input: &[u8], desc: &Desc) -> Result<(), AllocError> {
    let mut total = 0u64;
    let mut at = 0u64;
    for window in desc.windows.as_slice() {
        let (base, length) = *window;
        total = total.saturating_add(length);
        let earlier = overlapped(desc, at, base, length);
        if length == 0
            || ends_late(base, length)
            || earlier.is_some()
            || total > desc.memory_limit
        {
            push_described(out, nth_line(input, "window", at))?;
            return push_why(out, base, length, earlier, desc.memory_limit);
        }
        at = at.saturating_add(1);
    }
    out.push_str("there are 1 to 16 windows\n")
}

/// Whether a window ends past 2^52.
fn ends_late(base: Addr, length: u64) -> bool {
    match base.0.checked_add(length) {
        Some(end) => end > END,
        None => true,
    }
}

/// The first earlier window that shares a byte with one that comes after so many.
fn overlapped(desc: &Desc, before: u64, base: Addr, length: u64) -> Option<(Addr, u64)> {
    let mut at = 0u64;
    for window in desc.windows.as_slice() {
        if at == before {
            break;
        }
        let (other, count) = *window;
        if length > 0
            && count > 0
            && base.0 <= last_of(other, count)
            && other.0 <= last_of(base, length)
        {
            return Some((other, count));
        }
        at = at.saturating_add(1);
    }
    None
}

fn push_why(
    out: &mut String,
    base: Addr,
    length: u64,
    earlier: Option<(Addr, u64)>,
    limit: u64,
) -> Result<(), AllocError> {
    if length == 0 {
        return out.push_str("the window has no byte\n");
    }
    if ends_late(base, length) {
        return out.push_str("the window ends past 2^52 (0x10000000000000)\n");
    }
    match earlier {
        Some((other, count)) => writeln!(
            out,
            "the window shares bytes with that of 0x{:x} to 0x{:x}",
            other.0,
            last_of(other, count)
        ),
        None => writeln!(
            out,
            "with this window the windows have more than {limit} bytes (64 MiB) together"
        ),
    }
}
