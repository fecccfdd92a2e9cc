//! Where the LPI registers stand in a redistributor's control frame (IHI 0069, section 12.11).

/// GICR_CTLR, 32 bits.
pub const CTLR: u32 = 0x0;
/// GICR_PROPBASER, 64 bits.
pub const PROPBASER: u32 = 0x70;
/// Its upper half.
pub const PROPBASER_HIGH: u32 = 0x74;
/// GICR_PENDBASER, 64 bits.
pub const PENDBASER: u32 = 0x78;
/// Its upper half.
pub const PENDBASER_HIGH: u32 = 0x7C;
/// GICR_INVLPIR, 64 bits.
pub const INVLPIR: u32 = 0xA0;
/// GICR_INVALLR, 64 bits.
pub const INVALLR: u32 = 0xB0;
/// Its upper half.
pub const INVALLR_HIGH: u32 = 0xB4;
