//! Scripts that pass a limit: how many phases, threads, calls or windows there may be.
use crate::explained::is_refused_so;
use std::alloc::{AllocError, Global};
use std::test::Fail;

/// These lines so many times.
fn repeated(alloc: Global, lines: &str, count: u32) -> Result<String, AllocError> {
    let mut text = String::new(alloc);
    for _ in 0..count {
        text.push_str(lines)?;
    }
    Ok(text)
}

// Lines of which the last is one too many.
#[test]
fn limits_are_explained(rt: HostRuntime) -> Result<(), Fail> {
    let alloc = rt.alloc();
    for (old, lines, count, explained) in [
        (
            "bytes 0x80030000 a1\n",
            "window 0x0 1\n",
            16,
            "    window 0x0 1
    ^
line 22: a machine has at most 16 windows
",
        ),
        (
            "bytes 0x80030000 a1\n",
            "requester 0 0 0\n",
            65,
            "    requester 0 0 0
    ^
line 71: a description has at most 64 lines `requester`
",
        ),
        (
            "phase\nthread\nsignal 7 2\ntake 1\n",
            "phase\nthread\n",
            256,
            "    phase
    ^
line 531: a leg has at most 256 phases
",
        ),
        (
            "thread\nsignal 7 2\ntake 1\n",
            "thread\n",
            65,
            "    thread
    ^
line 86: a phase has at most 64 threads
",
        ),
        (
            "take 1\n",
            "step\n",
            65_536,
            "    step
    ^
line 65559: a thread has at most 65536 calls
",
        ),
        (
            "end\n",
            "migrate\n",
            64,
            "    migrate
    ^
line 88: a script has at most 64 legs, so at most 63 migrations
",
        ),
    ] {
        let new = repeated(alloc, lines, count)?;
        let right = is_refused_so(alloc, old, new.as_str(), explained);
        assert_eq!(rt; right, Some(true), "{lines}");
    }
    Ok(())
}
