//! How a call waits.
use std::hint::spin_loop;
use std::thread;

/// Waits before a call is tried again that wasn't made, as after a commit that lost. The first try
/// is number 1, after which it waits for two pauses of the processor, some tens of nanoseconds.
/// After each further one it waits longer, up to 256 pauses, a few microseconds.
pub fn pause(attempt: u8) {
    let pauses = match attempt {
        0 | 1 => 2,
        2 => 16,
        3 => 128,
        _ => 256,
    };
    for _ in 0..pauses {
        spin_loop();
    }
}

/// Waits so for a pass that has a turn. Once it waits as long as it may, it lets other threads run
/// as well.
pub fn give_way(attempt: u8) {
    pause(attempt);
    if attempt >= 4 {
        thread::yield_now();
    }
}
