//! What a pass sees of the machine's state. None of these is a call of the history: each tells how
//! many calls that has, and what the state after them says.
ghost use Rattle.std.specs.Prelude.{◌≡◌, false, true, None};
ghost use Rattle.its_numbers.specs.Codes as codes;
ghost use Rattle.its_numbers.specs.Events.{event_out};
ghost use Rattle.its_numbers.specs.Mapped.{collections_from, devices_from, mappings_from};
ghost use Rattle.its_numbers.specs.Stored.{stored};
ghost use Rattle.its_plain.specs.Plain.{maps_of, pending_of};
ghost use Rattle.its_shared.specs.Besides.{needed};
ghost use Rattle.its_shared.specs.Knowing.{has_translator, has_vcpu};
ghost use Rattle.its_shared.specs.Seeing.{Shows, all_told, first_told, numbers_told};
ghost use Rattle.its_shared.specs.Seeing.{written as tables};
ghost use Rattle.its_shared.specs.Telling.{InPass, machine_of};
ghost use Rattle.step_views.specs.Destinations.{destination};

use crate::pass::Pass;
use crate::told::told;
use its_numbers::{
    CollectionOut, DeviceOut, EventOut, HANDLE, MappingOut, RANGE, RedistributorIn, StretchOut,
};
use std::alloc::Global;

/// Where an event leads by a translator.
#[unsafe(no_mangle)]
pub extern "C" fn its_pass_event(
    pass: &mut Pass,
    translator: u32,
    device: u32,
    event: u32,
    place: &mut u64,
    out: &mut EventOut,
) -> u32
    ensures empty { pass.old.known ≡ None
        → (result ≡ codes.handle) × (place.new ≡ place.old) × (out.new ≡ out.old) }
    ensures kept { machine_of pass.new ≡ machine_of pass.old }
    ensures range { InPass pass.old pass.new (λ k l. has_translator k translator ≡ false
        → (result ≡ codes.range) × (l ≡ k) × (place.new ≡ place.old) × (out.new ≡ out.old)) }
    ensures told { InPass pass.old pass.new (λ k l. has_translator k translator ≡ true → Shows ⊥
        (λ u before after. after ≡ event_out (destination u translator device event))
        k l result place.old place.new out.old out.new) }
{
    if pass.is_empty() {
        return HANDLE;
    }
    let port = pass.lent();
    if !port.has_translator(translator) {
        return RANGE;
    }
    told(port.event(translator as u8, device, event), place, out)
}

/// The LPIs that are pending at a virtual processor, rising: as many as the list takes, whose rest
/// stays, and how many there are.
#[unsafe(no_mangle)]
pub extern "C" fn its_pass_pending(
    pass: &mut Pass,
    alloc: Global,
    vcpu: u32,
    place: &mut u64,
    list: &mut [u32],
    count: &mut u64,
) -> u32
    ensures empty { pass.old.known ≡ None → (result ≡ codes.handle)
        × (place.new ≡ place.old) × (list.new ≡ list.old) × (count.new ≡ count.old) }
    ensures kept { machine_of pass.new ≡ machine_of pass.old }
    ensures range { InPass pass.old pass.new (λ k l. has_vcpu k vcpu ≡ false
        → (result ≡ codes.range) × (l ≡ k) × (place.new ≡ place.old) × (list.new ≡ list.old)
        × (count.new ≡ count.old)) }
    ensures told { InPass pass.old pass.new (λ k l. has_vcpu k vcpu ≡ true → Shows (Unit {0})
        (numbers_told (λ u. pending_of u vcpu))
        k l result place.old place.new (list.old, count.old) (list.new, count.new)) }
{
    if pass.is_empty() {
        return HANDLE;
    }
    let port = pass.lent();
    if !port.has_vcpu(vcpu) {
        return RANGE;
    }
    told(port.pending(alloc, vcpu as u16, list), place, count)
}

/// The values that the LPI registers of a redistributor are restored from. All zero where the guest
/// doesn't program them.
#[unsafe(no_mangle)]
pub extern "C" fn its_pass_stored_lpi_registers(
    pass: &mut Pass,
    vcpu: u32,
    place: &mut u64,
    out: &mut RedistributorIn,
) -> u32
    ensures empty { pass.old.known ≡ None
        → (result ≡ codes.handle) × (place.new ≡ place.old) × (out.new ≡ out.old) }
    ensures kept { machine_of pass.new ≡ machine_of pass.old }
    ensures range { InPass pass.old pass.new (λ k l. has_vcpu k vcpu ≡ false
        → (result ≡ codes.range) × (l ≡ k) × (place.new ≡ place.old) × (out.new ≡ out.old)) }
    ensures told { InPass pass.old pass.new (λ k l. has_vcpu k vcpu ≡ true → Shows ⊥
        (λ u before after. after ≡ stored u vcpu)
        k l result place.old place.new out.old out.new) }
{
    if pass.is_empty() {
        return HANDLE;
    }
    let port = pass.lent();
    if !port.has_vcpu(vcpu) {
        return RANGE;
    }
    told(port.stored_lpi_registers(vcpu as u16), place, out)
}

/// The tables that a save of this state writes: as many as the list takes, whose rest stays, and
/// how many there are.
#[unsafe(no_mangle)]
pub extern "C" fn its_pass_written(
    pass: &mut Pass,
    alloc: Global,
    place: &mut u64,
    list: &mut [StretchOut],
    count: &mut u64,
) -> u32
    ensures empty { pass.old.known ≡ None → (result ≡ codes.handle)
        × (place.new ≡ place.old) × (list.new ≡ list.old) × (count.new ≡ count.old) }
    ensures kept { machine_of pass.new ≡ machine_of pass.old }
    ensures told { InPass pass.old pass.new (λ k l. Shows (Unit {0})
        (all_told tables)
        k l result place.old place.new (list.old, count.old) (list.new, count.new)) }
{
    if pass.is_empty() {
        return HANDLE;
    }
    told(pass.lent().written(alloc, list), place, count)
}

/// The stretches of guest memory that the next step of a translator reads: as many as the list
/// takes, whose rest stays, and how many there are.
#[unsafe(no_mangle)]
pub extern "C" fn its_pass_needs(
    pass: &mut Pass,
    alloc: Global,
    translator: u32,
    place: &mut u64,
    list: &mut [StretchOut],
    count: &mut u64,
) -> u32
    ensures empty { pass.old.known ≡ None → (result ≡ codes.handle)
        × (place.new ≡ place.old) × (list.new ≡ list.old) × (count.new ≡ count.old) }
    ensures kept { machine_of pass.new ≡ machine_of pass.old }
    ensures range { InPass pass.old pass.new (λ k l. has_translator k translator ≡ false
        → (result ≡ codes.range) × (l ≡ k) × (place.new ≡ place.old) × (list.new ≡ list.old)
        × (count.new ≡ count.old)) }
    ensures told { InPass pass.old pass.new (λ k l. has_translator k translator ≡ true
        → Shows (Unit {0}) (all_told (needed translator))
        k l result place.old place.new (list.old, count.old) (list.new, count.new)) }
{
    if pass.is_empty() {
        return HANDLE;
    }
    let port = pass.lent();
    if !port.has_translator(translator) {
        return RANGE;
    }
    told(port.needs(alloc, translator as u8, list), place, count)
}

/// The mapped devices of a translator from a DeviceID on, by rising DeviceID: as many as the list
/// takes, whose rest stays, and how many it has got.
#[unsafe(no_mangle)]
pub extern "C" fn its_pass_list_devices(
    pass: &mut Pass,
    translator: u32,
    from: u32,
    place: &mut u64,
    list: &mut [DeviceOut],
    count: &mut u64,
) -> u32
    ensures empty { pass.old.known ≡ None → (result ≡ codes.handle)
        × (place.new ≡ place.old) × (list.new ≡ list.old) × (count.new ≡ count.old) }
    ensures kept { machine_of pass.new ≡ machine_of pass.old }
    ensures range { InPass pass.old pass.new (λ k l. has_translator k translator ≡ false
        → (result ≡ codes.range) × (l ≡ k) × (place.new ≡ place.old) × (list.new ≡ list.old)
        × (count.new ≡ count.old)) }
    ensures told { InPass pass.old pass.new (λ k l. has_translator k translator ≡ true → Shows ⊥
        (first_told (λ u. devices_from (maps_of u translator) from))
        k l result place.old place.new (list.old, count.old) (list.new, count.new)) }
{
    if pass.is_empty() {
        return HANDLE;
    }
    let port = pass.lent();
    if !port.has_translator(translator) {
        return RANGE;
    }
    told(port.devices(translator as u8, from, list), place, count)
}

/// The mapped events of a device from an EventID on, by rising EventID, as the devices are told. A
/// device that isn't mapped has none.
#[unsafe(no_mangle)]
pub extern "C" fn its_pass_list_events(
    pass: &mut Pass,
    translator: u32,
    device: u32,
    from: u32,
    place: &mut u64,
    list: &mut [MappingOut],
    count: &mut u64,
) -> u32
    ensures empty { pass.old.known ≡ None → (result ≡ codes.handle)
        × (place.new ≡ place.old) × (list.new ≡ list.old) × (count.new ≡ count.old) }
    ensures kept { machine_of pass.new ≡ machine_of pass.old }
    ensures range { InPass pass.old pass.new (λ k l. has_translator k translator ≡ false
        → (result ≡ codes.range) × (l ≡ k) × (place.new ≡ place.old) × (list.new ≡ list.old)
        × (count.new ≡ count.old)) }
    ensures told { InPass pass.old pass.new (λ k l. has_translator k translator ≡ true → Shows ⊥
        (first_told (λ u. mappings_from (maps_of u translator) device from))
        k l result place.old place.new (list.old, count.old) (list.new, count.new)) }
{
    if pass.is_empty() {
        return HANDLE;
    }
    let port = pass.lent();
    if !port.has_translator(translator) {
        return RANGE;
    }
    told(
        port.mappings(translator as u8, device, from, list),
        place,
        count,
    )
}

/// The mapped collections of a translator from a number on, by rising number, as the devices are
/// told.
#[unsafe(no_mangle)]
pub extern "C" fn its_pass_list_collections(
    pass: &mut Pass,
    translator: u32,
    from: u32,
    place: &mut u64,
    list: &mut [CollectionOut],
    count: &mut u64,
) -> u32
    ensures empty { pass.old.known ≡ None → (result ≡ codes.handle)
        × (place.new ≡ place.old) × (list.new ≡ list.old) × (count.new ≡ count.old) }
    ensures kept { machine_of pass.new ≡ machine_of pass.old }
    ensures range { InPass pass.old pass.new (λ k l. has_translator k translator ≡ false
        → (result ≡ codes.range) × (l ≡ k) × (place.new ≡ place.old) × (list.new ≡ list.old)
        × (count.new ≡ count.old)) }
    ensures told { InPass pass.old pass.new (λ k l. has_translator k translator ≡ true → Shows ⊥
        (first_told (λ u. collections_from (maps_of u translator) from))
        k l result place.old place.new (list.old, count.old) (list.new, count.new)) }
{
    if pass.is_empty() {
        return HANDLE;
    }
    let port = pass.lent();
    if !port.has_translator(translator) {
        return RANGE;
    }
    told(port.collections(translator as u8, from, list), place, count)
}
