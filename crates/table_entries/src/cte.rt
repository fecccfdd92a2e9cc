//! Collection table entries (KVM document arm-vgic-its).
ghost use Rattle.std.specs.Prelude.{◌≡◌, ◌<◌, ◌^◌};

use its_types::{Icid, bit_of, field};

/// What stands for a processor in the entry of a collection that events name and that isn't mapped:
/// KVM writes such entries, and asks for them where it restores.
pub const NEVER_MAPPED: u32 = 0xFFFF_FFFF;

/// A collection table entry that is valid.
#[derive(Clone, Copy, Debug, PartialEq, Eq)]
pub struct Cte {
    /// The number of the processor that the collection goes to, of 36 bits.
    pub vcpu_number: u64,
    /// The number of the collection.
    pub icid: Icid,
    pub ghost vcpu_number_fits: { vcpu_number < 2 ^ 36 },
}

impl Cte {
    ghost use Rattle.std.specs.Prelude.{◌↔◌, false, Some, IsNone};
    ghost use Rattle.std.specs.Option.{option_map};
    ghost use Rattle.its_types.specs.Bits.{bit_of};
    ghost use Rattle.table_entries.specs.Words.{packed_collection, unpacked_collection};
    ghost use Rattle.table_entries.specs.Shown.{fields_of_cte};

    /// The entry as a table has it.
    pub fn pack(&self) -> u64
        ensures word { result ≡ packed_collection (fields_of_cte self.now) }
        ensures unpacks { unpacked_collection result ≡ Some (fields_of_cte self.now) }
    {
        let Icid(icid) = self.icid;
        (1 << 63) + self.vcpu_number * (1 << 16) + u64::from(icid)
    }

    /// The entry that a table has, if its bit V is 1.
    pub fn unpack(word: u64) -> Option<Cte>
        ensures fields { option_map fields_of_cte result ≡ unpacked_collection word }
        ensures none { IsNone result ↔ (bit_of word 63 ≡ false) }
    {
        if !bit_of(word, 63) {
            return None;
        }
        Some(Cte {
            vcpu_number: field(word, 16, 36),
            icid: Icid(field(word, 0, 16) as u16),
        })
    }
}
