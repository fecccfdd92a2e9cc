//! Interrupt translation entries (KVM document arm-vgic-its).
ghost use Rattle.std.specs.Prelude.{◌≡◌, ◌≤◌};

use its_types::{Icid, Intid, field};

/// An interrupt translation entry that is valid.
#[derive(Clone, Copy, Debug, PartialEq, Eq)]
pub struct Ite {
    /// The distance to the next mapped event, at most 65535; 0 for the last one.
    pub next: u16,
    /// The physical interrupt, which isn't zero.
    pub intid: Intid,
    /// The collection of the event, mapped or not.
    pub icid: Icid,
    pub ghost some_intid: { 1 ≤ intid.0 },
}

impl Ite {
    ghost use Rattle.std.specs.Prelude.{◌↔◌, Some, IsNone};
    ghost use Rattle.std.specs.Option.{option_map};
    ghost use Rattle.its_types.specs.Bits.{field};
    ghost use Rattle.table_entries.specs.Words.{packed_event, unpacked_event};
    ghost use Rattle.table_entries.specs.Shown.{fields_of_ite};

    /// The entry as a table has it.
    pub fn pack(&self) -> u64
        ensures word { result ≡ packed_event (fields_of_ite self.now) }
        ensures unpacks { unpacked_event result ≡ Some (fields_of_ite self.now) }
    {
        let Intid(intid) = self.intid;
        let Icid(icid) = self.icid;
        u64::from(self.next) * (1 << 48) + u64::from(intid) * (1 << 16) + u64::from(icid)
    }

    /// The entry that a table has, if its pINTID isn't zero.
    pub fn unpack(word: u64) -> Option<Ite>
        ensures fields { option_map fields_of_ite result ≡ unpacked_event word }
        ensures none { IsNone result ↔ (field word 16 32 ≡ 0) }
    {
        let intid = field(word, 16, 32);
        if intid == 0 {
            return None;
        }
        Some(Ite {
            next: field(word, 48, 16) as u16,
            intid: Intid(intid as u32),
            icid: Icid(field(word, 0, 16) as u16),
        })
    }
}
