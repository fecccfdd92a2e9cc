//! Where the registers stand in the control frame (IHI 0069, section 12.19).

/// GITS_CTLR, 32 bits.
pub const CTLR: u32 = 0x0;
/// GITS_IIDR, 32 bits.
pub const IIDR: u32 = 0x4;
/// GITS_TYPER, 64 bits, as all that follow but PIDR2.
pub const TYPER: u32 = 0x8;
/// GITS_CBASER.
pub const CBASER: u32 = 0x80;
/// GITS_CWRITER.
pub const CWRITER: u32 = 0x88;
/// GITS_CREADR.
pub const CREADR: u32 = 0x90;
/// GITS_BASER0, of the device table.
pub const BASER0: u32 = 0x100;
/// GITS_BASER1, of the collection table.
pub const BASER1: u32 = 0x108;
/// GITS_PIDR2, 32 bits.
pub const PIDR2: u32 = 0xFFE8;
