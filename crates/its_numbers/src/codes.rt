//! What a call answers.

/// The call was made.
pub const DONE: u32 = 0;

/// The host's memory ran out. Nothing changed, and the same call may be made again.
pub const NO_MEMORY: u32 = 1;

/// The bytes don't all lie in guest memory. Nothing changed.
pub const OUTSIDE: u32 = 2;

/// A number is out of its range. Nothing changed.
pub const RANGE: u32 = 3;

/// The description makes no machine, or the state can't be saved: the call tells the fault. Nothing
/// changed.
pub const FAULT: u32 = 4;

/// The handle has no machine; or, where one is to be made, has one already. Nothing changed.
pub const HANDLE: u32 = 5;

/// As many events or devices are mapped as may be, or more, and the command would map another; or
/// more guest memory would be held than may be; or more would be restored. Nothing changed.
pub const FULL: u32 = 6;

/// Another pass has a part that the call needs, or made a call meanwhile. Nothing was done, and the
/// same call may be made again.
pub const BUSY: u32 = 7;

/// All places of the machine's history are used. Nothing was done, and no call will be made.
pub const SPENT: u32 = 8;
