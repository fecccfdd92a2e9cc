//! What a device's write by address is answered.
use its_plain::Signal;

/// What became of a device's write by address.
#[derive(Clone, Copy, Debug, PartialEq, Eq)]
pub enum Dma {
    /// It was a message.
    Signal(Signal),
    /// It was a message of a requester that is no device. Nothing changed.
    NoRequester,
    /// It was a write of memory, and the bytes were written.
    Ok,
    /// No window of memory has its bytes, or a translator's frames have one. Nothing changed.
    Outside,
}
