//! The lists of what is mapped, by the machine's handle.
ghost use Rattle.std.specs.Prelude.{◌≡◌, true, false, None, length, min};
ghost use Rattle.its_c.specs.Held.{InMachine, beside};
ghost use Rattle.its_numbers.specs.Codes as codes;
ghost use Rattle.its_numbers.specs.Lists.{HasFirstOf, SameRest};
ghost use Rattle.its_numbers.specs.Mapped.{collections_from, devices_from, mappings_from};
ghost use Rattle.its_numbers.specs.Translators.{has_translator as has};
ghost use Rattle.its_plain.specs.Plain.{maps_of};

use crate::handle::Handle;
use crate::mapped::{collections, devices, events};
use its_numbers::{CollectionOut, DeviceOut, HANDLE, MappingOut};

/// The mapped devices of a translator from a DeviceID on, by rising DeviceID: as many as the list
/// takes, whose rest stays, and how many it has got.
#[unsafe(no_mangle)]
pub extern "C" fn its_list_devices(
    handle: &mut Handle,
    translator: u32,
    from: u32,
    list: &mut [DeviceOut],
    count: &mut u64,
) -> u32
    ensures empty { handle.old.machine ≡ None
        → (result ≡ codes.handle) × (list.new ≡ list.old) × (count.new ≡ count.old) }
    ensures kept { beside handle.new ≡ beside handle.old }
    ensures code { InMachine handle.old handle.new (λ u w.
        result ≡ codes.if_in_range (has u translator)) }
    ensures told { InMachine handle.old handle.new (λ u w. has u translator ≡ true
        → HasFirstOf (devices_from (maps_of u translator) from) list.new) }
    ensures rest { InMachine handle.old handle.new (λ u w. has u translator ≡ true
        → SameRest (length (devices_from (maps_of u translator) from)) list.old list.new) }
    ensures length { length list.new ≡ length list.old }
    ensures count { InMachine handle.old handle.new (λ u w. has u translator ≡ true
        → count.new ≡ min (length list.old) (length (devices_from (maps_of u translator) from))) }
    ensures refused { InMachine handle.old handle.new (λ u w. has u translator ≡ false
        → (list.new ≡ list.old) × (count.new ≡ count.old)) }
    ensures same { InMachine handle.old handle.new (λ u w. w ≡ u) }
{
    if handle.is_empty() {
        return HANDLE;
    }
    devices(handle.lent(), translator, from, list, count)
}

/// The mapped events of a device from an EventID on, by rising EventID, as the devices are told. A
/// device that isn't mapped has none.
#[unsafe(no_mangle)]
pub extern "C" fn its_list_events(
    handle: &mut Handle,
    translator: u32,
    device: u32,
    from: u32,
    list: &mut [MappingOut],
    count: &mut u64,
) -> u32
    ensures empty { handle.old.machine ≡ None
        → (result ≡ codes.handle) × (list.new ≡ list.old) × (count.new ≡ count.old) }
    ensures kept { beside handle.new ≡ beside handle.old }
    ensures code { InMachine handle.old handle.new (λ u w.
        result ≡ codes.if_in_range (has u translator)) }
    ensures told { InMachine handle.old handle.new (λ u w. has u translator ≡ true
        → HasFirstOf (mappings_from (maps_of u translator) device from) list.new) }
    ensures rest { InMachine handle.old handle.new (λ u w. has u translator ≡ true
        → SameRest (length (mappings_from (maps_of u translator) device from)) list.old list.new) }
    ensures length { length list.new ≡ length list.old }
    ensures count { InMachine handle.old handle.new (λ u w. has u translator ≡ true → count.new
        ≡ min (length list.old) (length (mappings_from (maps_of u translator) device from))) }
    ensures refused { InMachine handle.old handle.new (λ u w. has u translator ≡ false
        → (list.new ≡ list.old) × (count.new ≡ count.old)) }
    ensures same { InMachine handle.old handle.new (λ u w. w ≡ u) }
{
    if handle.is_empty() {
        return HANDLE;
    }
    events(handle.lent(), translator, device, from, list, count)
}

/// The mapped collections from a number on, by rising number, as the devices are told.
#[unsafe(no_mangle)]
pub extern "C" fn its_list_collections(
    handle: &mut Handle,
    translator: u32,
    from: u32,
    list: &mut [CollectionOut],
    count: &mut u64,
) -> u32
    ensures empty { handle.old.machine ≡ None
        → (result ≡ codes.handle) × (list.new ≡ list.old) × (count.new ≡ count.old) }
    ensures kept { beside handle.new ≡ beside handle.old }
    ensures code { InMachine handle.old handle.new (λ u w.
        result ≡ codes.if_in_range (has u translator)) }
    ensures told { InMachine handle.old handle.new (λ u w. has u translator ≡ true
        → HasFirstOf (collections_from (maps_of u translator) from) list.new) }
    ensures rest { InMachine handle.old handle.new (λ u w. has u translator ≡ true
        → SameRest (length (collections_from (maps_of u translator) from)) list.old list.new) }
    ensures length { length list.new ≡ length list.old }
    ensures count { InMachine handle.old handle.new (λ u w. has u translator ≡ true
        → count.new ≡ min (length list.old) (length (collections_from (maps_of u translator) from))) }
    ensures refused { InMachine handle.old handle.new (λ u w. has u translator ≡ false
        → (list.new ≡ list.old) × (count.new ≡ count.old)) }
    ensures same { InMachine handle.old handle.new (λ u w. w ≡ u) }
{
    if handle.is_empty() {
        return HANDLE;
    }
    collections(handle.lent(), translator, from, list, count)
}
