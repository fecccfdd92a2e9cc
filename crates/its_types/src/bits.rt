//! Bits of a number.
ghost use Rattle.std.specs.Prelude.{◌≡◌, ◌<◌, ◌^◌, nat_lt};
ghost use Rattle.its_types.specs.Bits as spec;

/// The bits of a number from bit `low` on, `width` of them.
pub fn field(number: u64, low: u32, width: u32) -> u64
    requires low_fits { low < 64 }
    requires width_fits { width < 64 }
    ensures { result ≡ spec.field number low width }
{
    (number >> low) & ((1 << width) - 1)
}

/// Whether a bit of a number is 1.
pub fn bit_of(number: u64, at: u32) -> bool
    requires { at < 64 }
    ensures { result ≡ spec.bit_of number at }
{
    field(number, at, 1) == 1
}

/// Whether a number needs at most so many bits.
pub fn fits_bits(number: u32, bits: u8) -> bool
    ensures { result ≡ nat_lt number (2 ^ bits) }
{
    bits >= 32 || number < 1 << bits
}
