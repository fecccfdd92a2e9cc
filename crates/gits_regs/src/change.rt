//! What a write of a register changed.
/// What a write of a register changed.
#[derive(Clone, Copy, Debug, PartialEq, Eq)]
pub enum RegChange {
    /// No register changed.
    None,
    /// The translator was enabled.
    Enabled,
    /// The translator was disabled.
    Disabled,
    /// BASER0 was written: no device and no event is mapped any more.
    DevicesEmptied,
    /// BASER1 was written: no collection is mapped any more.
    CollectionsEmptied,
    /// A register that holds the queue's base or an offset into it changed.
    Other,
}
