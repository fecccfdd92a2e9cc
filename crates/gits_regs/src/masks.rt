//! Which bits of a value a register keeps.
ghost use Rattle.std.specs.Prelude.{◌≡◌};
ghost use Rattle.gits_regs.specs.Registers as spec;

/// What CBASER keeps of a value.
pub fn kept_cbaser(value: u64) -> u64
    ensures { result ≡ spec.kept_cbaser value }
{
    value & 0xB8EF_FFFF_FFFF_0CFF
}

/// What CREADR and CWRITER keep of a value: an offset in bits 19 to 5.
pub fn kept_offset(value: u64) -> u64
    ensures { result ≡ spec.kept_offset value }
{
    value & 0xF_FFE0
}

/// What BASER0 keeps of a value, with its fixed bits.
pub fn kept_baser0(value: u64) -> u64
    ensures { result ≡ spec.kept_baser0 value }
{
    (value & 0xF8E0_FFFF_FFFF_FCFF) | 0x0107_0000_0000_0200
}

/// What BASER1 keeps of a value, with its fixed bits.
pub fn kept_baser1(value: u64) -> u64
    ensures { result ≡ spec.kept_baser1 value }
{
    (value & 0xB8E0_FFFF_FFFF_FCFF) | 0x0407_0000_0000_0200
}
