//! Device table entries (KVM document arm-vgic-its).
ghost use Rattle.std.specs.Prelude.{◌≡◌, ◌<◌, ◌≤◌, ◌%◌, ◌^◌};

use its_types::{Addr, bit_of, field};

/// A device table entry that is valid.
#[derive(Clone, Copy, Debug, PartialEq, Eq)]
pub struct Dte {
    /// The distance to the next mapped device, capped at 16383; 0 for the last one.
    pub next: u16,
    /// Where the interrupt translation table stands: a multiple of 256 below 2^52.
    pub itt: Addr,
    /// How many bits an EventID of the device has, 1 to 32.
    pub bits: u8,
    pub ghost next_fits: { next < 2 ^ 14 },
    pub ghost itt_fits: { itt.0 < 2 ^ 52 },
    pub ghost itt_aligned: { itt.0 % 256 ≡ 0 },
    pub ghost some_bits: { 1 ≤ bits },
    pub ghost bits_fit: { bits ≤ 32 },
}

impl Dte {
    ghost use Rattle.std.specs.Prelude.{◌↔◌, false, Some, IsNone};
    ghost use Rattle.std.specs.Option.{option_map};
    ghost use Rattle.its_types.specs.Bits.{bit_of};
    ghost use Rattle.table_entries.specs.Words.{packed_device, unpacked_device};
    ghost use Rattle.table_entries.specs.Shown.{fields_of_dte};

    /// The entry as a table has it.
    pub fn pack(&self) -> u64
        ensures word { result ≡ packed_device (fields_of_dte self.now) }
        ensures unpacks { unpacked_device result ≡ Some (fields_of_dte self.now) }
    {
        (1 << 63)
            + u64::from(self.next) * (1 << 49)
            + self.itt.0 / (1 << 8) * (1 << 5)
            + u64::from(self.bits - 1)
    }

    /// The entry that a table has, if its bit V is 1.
    pub fn unpack(word: u64) -> Option<Dte>
        ensures fields { option_map fields_of_dte result ≡ unpacked_device word }
        ensures none { IsNone result ↔ (bit_of word 63 ≡ false) }
    {
        if !bit_of(word, 63) {
            return None;
        }
        Some(Dte {
            next: field(word, 49, 14) as u16,
            itt: Addr(field(word, 5, 44) * (1 << 8)),
            bits: field(word, 0, 5) as u8 + 1,
        })
    }
}
