//! What an entry of a first-level device table says.
use its_types::Addr;

/// What an entry of a first-level device table says.
#[derive(Clone, Copy, Debug, PartialEq, Eq)]
pub enum Level1 {
    /// The entry at this address isn't in one window.
    Outside(Addr),
    /// The entry isn't valid.
    Empty,
    /// The second-level page with the entries of 8192 devices.
    Page(Addr),
}
