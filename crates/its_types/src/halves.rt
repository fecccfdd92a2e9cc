//! The 32-bit halves of a 64-bit number.
ghost use Rattle.std.specs.Prelude.{◌≡◌, ◌+◌, ◌*◌, ◌^◌};
ghost use Rattle.its_types.specs.Halves as spec;

/// Bits 31 to 0.
pub fn low_half(whole: u64) -> u32
    ensures { result ≡ spec.low_half whole }
{
    (whole % (1 << 32)) as u32
}

/// Bits 63 to 32.
pub fn high_half(whole: u64) -> u32
    ensures { result ≡ spec.high_half whole }
{
    (whole >> 32) as u32
}

/// A number of its two halves.
pub fn join_halves(low: u32, high: u32) -> u64
    ensures { result ≡ high * 2 ^ 32 + low }
{
    u64::from(high) * (1 << 32) + u64::from(low)
}
