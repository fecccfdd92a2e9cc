//! What is mapped, told in lists.
ghost use Rattle.std.specs.Prelude.{◌≡◌, true, false, None, IfSome, length, min};
ghost use Rattle.its_numbers.specs.Codes as codes;
ghost use Rattle.its_numbers.specs.Lists.{HasFirstOf, SameRest};
ghost use Rattle.its_numbers.specs.Mapped.{collections_from, devices_from, mappings_from};
ghost use Rattle.its_numbers.specs.Translators.{has_translator as has};
ghost use Rattle.its_plain.specs.Plain.{maps_of};

use crate::kept::Kept;
use its_maps::Maps;
use its_numbers::{
    CollectionOut, DONE, DeviceOut, MappingOut, RANGE, put_collections, put_devices, put_mappings,
};

/// The mapped devices of a translator from a DeviceID on: as many as the list takes, whose rest
/// stays, and how many it has got.
pub fn devices(
    kept: &Kept,
    translator: u32,
    from: u32,
    list: &mut [DeviceOut],
    count: &mut u64,
) -> u32
    ensures code { result ≡ codes.if_in_range (has kept.now.machine translator) }
    ensures told { has kept.now.machine translator ≡ true
        → HasFirstOf (devices_from (maps_of kept.now.machine translator) from) list.new }
    ensures rest { has kept.now.machine translator ≡ true
        → SameRest (length (devices_from (maps_of kept.now.machine translator) from)) list.old
        list.new }
    ensures length { length list.new ≡ length list.old }
    ensures count { has kept.now.machine translator ≡ true → count.new
        ≡ min (length list.old) (length (devices_from (maps_of kept.now.machine translator) from)) }
    ensures refused { has kept.now.machine translator ≡ false
        → (list.new ≡ list.old) × (count.new ≡ count.old) }
{
    let Some(maps) = maps(kept, translator) else {
        return RANGE;
    };
    *count = put_devices(maps, from, list);
    DONE
}

/// The mapped events of a device from an EventID on, as the devices are told.
pub fn events(
    kept: &Kept,
    translator: u32,
    device: u32,
    from: u32,
    list: &mut [MappingOut],
    count: &mut u64,
) -> u32
    ensures code { result ≡ codes.if_in_range (has kept.now.machine translator) }
    ensures told { has kept.now.machine translator ≡ true
        → HasFirstOf (mappings_from (maps_of kept.now.machine translator) device from) list.new }
    ensures rest { has kept.now.machine translator ≡ true
        → SameRest (length (mappings_from (maps_of kept.now.machine translator) device from))
        list.old list.new }
    ensures length { length list.new ≡ length list.old }
    ensures count { has kept.now.machine translator ≡ true → count.new ≡ min (length list.old)
        (length (mappings_from (maps_of kept.now.machine translator) device from)) }
    ensures refused { has kept.now.machine translator ≡ false
        → (list.new ≡ list.old) × (count.new ≡ count.old) }
{
    let Some(maps) = maps(kept, translator) else {
        return RANGE;
    };
    *count = put_mappings(maps, device, from, list);
    DONE
}

/// The mapped collections from a number on, as the devices are told.
pub fn collections(
    kept: &Kept,
    translator: u32,
    from: u32,
    list: &mut [CollectionOut],
    count: &mut u64,
) -> u32
    ensures code { result ≡ codes.if_in_range (has kept.now.machine translator) }
    ensures told { has kept.now.machine translator ≡ true
        → HasFirstOf (collections_from (maps_of kept.now.machine translator) from) list.new }
    ensures rest { has kept.now.machine translator ≡ true
        → SameRest (length (collections_from (maps_of kept.now.machine translator) from)) list.old
        list.new }
    ensures length { length list.new ≡ length list.old }
    ensures count { has kept.now.machine translator ≡ true → count.new ≡ min (length list.old)
        (length (collections_from (maps_of kept.now.machine translator) from)) }
    ensures refused { has kept.now.machine translator ≡ false
        → (list.new ≡ list.old) × (count.new ≡ count.old) }
{
    let Some(maps) = maps(kept, translator) else {
        return RANGE;
    };
    *count = put_collections(maps, from, list);
    DONE
}

// The maps of a translator, if there is one of this number.
fn maps(kept: &Kept, translator: u32) -> Option<&Maps>
    ensures some { IfSome result (λ m. (has kept.now.machine translator ≡ true)
        × (m.now.maps ≡ maps_of kept.now.machine translator)) }
    ensures none { result ≡ None → has kept.now.machine translator ≡ false }
{
    let parts = kept.machine().parts();
    match (translator, &parts.second) {
        (0, _) => Some(&parts.first.maps),
        (1, Some(second)) => Some(&second.maps),
        _ => None,
    }
}
