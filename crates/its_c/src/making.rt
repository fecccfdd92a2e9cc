//! A machine's making and end.
ghost use Rattle.std.specs.Prelude.{◌≡◌, ◌≢◌, ◌⊎◌, true, false, Err, Some, None, IfOk, IfErr, is_none};
ghost use Rattle.std.specs.Prelude.{length};
ghost use Rattle.its_plain.specs.Described.{IsFirstState, IsMadeFrom};
ghost use Rattle.its_plain.specs.Machine.{IsDescription};
ghost use Rattle.its_numbers.specs.Codes as codes;
ghost use Rattle.its_numbers.specs.Counters.{none_counted};
ghost use Rattle.its_numbers.specs.Descriptions.{is_in_range as in_range, description_of};
ghost use Rattle.its_numbers.specs.Descriptions.{guest_limits_of};
ghost use Rattle.its_c.specs.Keeping.{kept_of};
ghost use Rattle.its_numbers.specs.Limits.{IsTooMuch, IsTooMuchIn, is_over};
ghost use Rattle.its_c.specs.Making.{IsMade};
ghost use Rattle.its_numbers.specs.Unmade.{IsUnmade};

use crate::handle::Handle;
use crate::kept::Kept;
use dma_routes::requesters_are_devices;
use its_numbers::{
    DONE, DescriptionIn, FAULT, FULL, FillIn, GuestLimits, HANDLE, MakeFaultOut, NO_MEMORY, RANGE,
    RedistributorIn, RequestersIn, TranslatorIn, WindowIn, description, guest_limits, is_in_range,
    make_fault_out,
};
use its_plain::{Desc, MakeError};
use its_types::Listed;
use owned_machine::Machine;
use std::alloc::Global;
use std::mem::replace;

/// A machine as numbers describe it, restored from guest memory where they say so, if it maps no
/// more than they say. The handle has none before.
#[unsafe(no_mangle)]
pub extern "C" fn its_new(
    handle: &mut Handle,
    alloc: Global,
    numbers: &DescriptionIn,
    translators: &[TranslatorIn],
    windows: &[WindowIn],
    pending: &[u64],
    redistributors: &[RedistributorIn],
    requesters: &[RequestersIn],
    fills: &[FillIn],
    bytes: &[u8],
    fault: &mut MakeFaultOut,
) -> u32
    ensures in_use { is_none handle.old.machine ≡ false → result ≡ codes.handle }
    ensures only_in_use { result ≡ codes.handle → is_none handle.old.machine ≡ false }
    ensures range { handle.old.machine ≡ None
        → in_range numbers.now translators.now (length pending.now) (length redistributors.now)
        fills.now (length bytes.now) ≡ false
        → result ≡ codes.range }
    ensures only_range { result ≡ codes.range
        → in_range numbers.now translators.now (length pending.now) (length redistributors.now)
        fills.now (length bytes.now) ≡ false }
    ensures done { result ≡ codes.done
        → IsMade (description_of numbers.now translators.now windows.now pending.now
        redistributors.now requesters.now fills.now bytes.now) (guest_limits_of numbers.now) handle.new.machine }
    ensures same { result ≢ codes.done → handle.new ≡ handle.old }
    ensures full { result ≡ codes.full
        → IsTooMuch (description_of numbers.now translators.now windows.now pending.now
        redistributors.now requesters.now fills.now bytes.now) (guest_limits_of numbers.now) }
    ensures untold { result ≡ codes.full → fault.new ≡ fault.old }
    ensures unmade { result ≢ codes.full → IsUnmade result
        (description_of numbers.now translators.now windows.now pending.now redistributors.now
        requesters.now fills.now bytes.now) fault.old fault.new }
{
    if !handle.is_empty() {
        return HANDLE;
    }
    if !is_in_range(
        numbers,
        translators,
        pending.len(),
        redistributors.len(),
        fills,
        bytes.len(),
    ) {
        return RANGE;
    }
    let Ok(desc) = description(
        alloc,
        numbers,
        translators,
        windows,
        pending,
        redistributors,
        requesters,
        fills,
        bytes,
    ) else {
        return NO_MEMORY;
    };
    match made(alloc, desc, guest_limits(numbers)) {
        Ok(kept) => put(handle, kept),
        Err(MakeError::NoMemory) => NO_MEMORY,
        Err(MakeError::Fault(found)) => {
            *fault = make_fault_out(found);
            FAULT
        }
    }
}

// A machine on the heap, which may map more than may be.
fn made(alloc: Global, mut desc: Desc, limits: GuestLimits) -> Result<Box<Kept>, MakeError>
    requires description { IsDescription desc }
    ensures state { IfOk result (λ b. IsFirstState desc b.value.machine) }
    ensures desc { IfOk result (λ b. b.value.desc ≡ kept_of desc) }
    ensures limits { IfOk result (λ b. b.value.limits ≡ limits) }
    ensures counters { IfOk result (λ b. b.value.counters ≡ none_counted) }
    ensures refused { IfErr result (λ e. IsMadeFrom desc (Err e)) }
{
    requesters_are_devices();
    let machine = Machine::new(alloc, &desc)?;
    desc.fills = Listed::new(alloc);
    Ok(Box::new(alloc, Kept::new(machine, desc, limits))?)
}

// The handle gets the machine, unless this maps more than may be.
fn put(handle: &mut Handle, kept: Box<Kept>) -> u32
    requires { handle.old.machine ≡ None }
    ensures codes { (result ≡ codes.done) ⊎ (result ≡ codes.full) }
    ensures done { result ≡ codes.done → (handle.new.machine ≡ Some kept.value)
        × (is_over kept.value.limits kept.value.machine ≡ false) }
    ensures full { result ≡ codes.full → (handle.new ≡ handle.old)
        × IsTooMuchIn kept.value.limits kept.value.machine }
{
    if kept.is_over() || !kept.is_within() {
        return FULL;
    }
    *handle = Handle::of(kept);
    DONE
}

/// A machine's end. The handle has none then.
#[unsafe(no_mangle)]
pub extern "C" fn its_free(handle: &mut Handle, alloc: Global) -> u32
    ensures empty { handle.old.machine ≡ None → result ≡ codes.handle }
    ensures freed { is_none handle.old.machine ≡ false → result ≡ codes.done }
    ensures gone { handle.new.machine ≡ None }
{
    if handle.is_empty() {
        return HANDLE;
    }
    let ended = replace(handle, Handle::empty(alloc));
    drop(ended.into_box());
    DONE
}
