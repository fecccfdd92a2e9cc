//! A shared machine's making, its passes, and its end.
ghost use Rattle.std.specs.Prelude.{◌≡◌, ◌≢◌, ◌≤◌, false, true, None, Some, Err};
ghost use Rattle.std.specs.Prelude.{IfOk, IfErr, is_none, is_some, length};
ghost use Rattle.its_numbers.specs.Codes as codes;
ghost use Rattle.its_numbers.specs.Descriptions.{is_in_range as in_range, description_of};
ghost use Rattle.its_numbers.specs.Descriptions.{guest_limits_of};
ghost use Rattle.its_numbers.specs.Limits.{IsTooMuch, IsTooMuchIn, is_over, is_over_of};
ghost use Rattle.its_numbers.specs.Unmade.{IsUnmade};
ghost use Rattle.its_shared.specs.Knowing.{Known, can_split};
ghost use Rattle.its_plain.specs.Machine.{IsDescription};
ghost use Rattle.owned_machine.specs.Whole.{IsMachine};
ghost use Rattle.owned_parts.specs.Owned.{state_of_parts};
ghost use Rattle.its_shared.specs.Making as spec;
ghost use Rattle.its_shared.specs.Making.{IsMadeWithin, IsShared, IsSharedFrom, shared};
ghost use Rattle.its_shared.specs.Ports.{Splits};
ghost use Rattle.its_shared.specs.Telling.{InPass};

use crate::pass::Pass;
use crate::port::Port;
use its_numbers::{
    DONE, DescriptionIn, FAULT, FULL, FillIn, GuestLimits, HANDLE, MakeFaultOut, NO_MEMORY, RANGE,
    RedistributorIn, RequestersIn, TranslatorIn, WindowIn, description, guest_limits, is_in_range,
    is_past, is_within, make_fault_out,
};
use its_plain::{Desc, MakeError};
use its_types::Limits;
use owned_machine::Machine as Owned;
use owned_parts::Parts;
use std::alloc::Global;
use std::mem::replace;
use step_views::{device_count, event_count};

/// A machine for threads to share, as numbers describe it, with one or two translators, restored
/// from guest memory where they say so, if it maps no more than they say. The handle, which has no pass before, gets its root.
#[unsafe(no_mangle)]
pub extern "C" fn its_share(
    root: &mut Pass,
    alloc: Global,
    numbers: &DescriptionIn,
    translators: &[TranslatorIn],
    windows: &[WindowIn],
    pending: &[u64],
    redistributors: &[RedistributorIn],
    requesters: &[RequestersIn],
    fills: &[FillIn],
    bytes: &[u8],
    fault: &mut MakeFaultOut,
) -> u32
    ensures in_use { is_none root.old.known ≡ false → result ≡ codes.handle }
    ensures only_in_use { result ≡ codes.handle → is_none root.old.known ≡ false }
    ensures range { root.old.known ≡ None
        → in_range numbers.now translators.now (length pending.now) (length redistributors.now)
        fills.now (length bytes.now) ≡ false
        → result ≡ codes.range }
    ensures only_range { result ≡ codes.range
        → in_range numbers.now translators.now (length pending.now) (length redistributors.now)
        fills.now (length bytes.now) ≡ false }
    ensures done { result ≡ codes.done
        → IsShared (shared (description_of numbers.now translators.now windows.now pending.now
        redistributors.now requesters.now fills.now bytes.now)) (guest_limits_of numbers.now) root.new.known }
    ensures same { result ≢ codes.done → root.new ≡ root.old }
    ensures full { result ≡ codes.full
        → IsTooMuch (shared (description_of numbers.now translators.now windows.now pending.now
        redistributors.now requesters.now fills.now bytes.now)) (guest_limits_of numbers.now) }
    ensures untold { result ≡ codes.full → fault.new ≡ fault.old }
    ensures unmade { result ≢ codes.full → IsUnmade result
        (shared (description_of numbers.now translators.now windows.now pending.now
        redistributors.now requesters.now fills.now bytes.now)) fault.old fault.new }
{
    if !root.is_empty() {
        return HANDLE;
    }
    if !is_in_range(
        numbers,
        translators,
        pending.len(),
        redistributors.len(),
        fills,
        bytes.len(),
    ) {
        return RANGE;
    }
    let Ok(mut desc) = description(
        alloc,
        numbers,
        translators,
        windows,
        pending,
        redistributors,
        requesters,
        fills,
        bytes,
    ) else {
        return NO_MEMORY;
    };
    desc.shards = 64;
    desc.limits = limits_of(translators.len());
    match made(alloc, &desc, guest_limits(numbers)) {
        Ok(Some(made)) => {
            *root = made;
            DONE
        }
        Ok(None) => FULL,
        Err(MakeError::NoMemory) => NO_MEMORY,
        Err(MakeError::Fault(found)) => {
            *fault = make_fault_out(found);
            FAULT
        }
    }
}

// A word has room for the stamps of all translators and a place.
fn limits_of(translators: usize) -> Limits
    ensures { result ≡ spec.limits_of translators }
{
    if translators == 1 {
        Limits {
            stamp_last: (1 << 8) - 1,
            place_last: (1 << 56) - 1,
        }
    } else {
        Limits {
            stamp_last: (1 << 12) - 1,
            place_last: (1 << 40) - 1,
        }
    }
}

// The handle of a root on the heap. None where the machine would begin with more than may be.
fn made(alloc: Global, desc: &Desc, limits: GuestLimits) -> Result<Option<Pass>, MakeError>
    requires description { IsDescription desc.now }
    requires some_shards { 1 ≤ desc.now.shards }
    requires most_shards { desc.now.shards ≤ 64 }
    requires limits { desc.now.limits ≡ spec.limits_of (length desc.now.translators) }
    ensures made { IfOk result (IsMadeWithin desc.now limits) }
    ensures refused { IfErr result (λ e. IsSharedFrom desc.now (Err e)) }
{
    let owned = Owned::new(alloc, desc)?;
    if is_too_much(&owned, &limits) {
        return Ok(None);
    }
    let port = Port::new(alloc, desc, owned, limits)?;
    Ok(Some(Pass::of(Box::new(alloc, port)?)))
}

// More events or devices of a translator than may be, or more pages.
#[tactic(auto, unfolding(its_numbers::specs::Limits::is_over))]
fn is_too_much(owned: &Owned, limits: &GuestLimits) -> bool
    ensures over { result ≡ false → is_over limits.now owned.now ≡ false }
    ensures much { result ≡ true → IsTooMuchIn limits.now owned.now }
{
    let parts = owned.parts();
    is_past_limits(parts, limits, 0)
        || is_past_limits(parts, limits, 1)
        || !is_within(&parts.memory, limits.memory)
}

fn is_past_limits(parts: &Parts, limits: &GuestLimits, its: u8) -> bool
    requires { IsMachine parts.now }
    ensures { result ≡ is_over_of limits.now (state_of_parts parts.now) its }
{
    is_past(limits.events, event_count(parts, its))
        || is_past(limits.devices, u64::from(device_count(parts, its)))
}

/// Another pass of the root's machine, which has seen what the root has. The handle has none
/// before.
#[unsafe(no_mangle)]
pub extern "C" fn its_split(root: &mut Pass, alloc: Global, pass: &mut Pass) -> u32
    ensures empty { root.old.known ≡ None → result ≡ codes.handle }
    ensures in_use { is_none pass.old.known ≡ false → result ≡ codes.handle }
    ensures range { (k : Known) → root.old.known ≡ Some k → pass.old.known ≡ None
        → can_split k ≡ false → result ≡ codes.range }
    ensures only_range { (k : Known) → root.old.known ≡ Some k → can_split k ≡ true
        → result ≢ codes.range }
    ensures kept { is_some root.new.known ≡ is_some root.old.known }
    ensures made { result ≡ codes.done → is_some pass.new.known ≡ true }
    ensures done { InPass root.old root.new (λ k l. (p : Known) → result ≡ codes.done
        → pass.new.known ≡ Some p → Splits k l p) }
    ensures same { result ≢ codes.done → pass.new ≡ pass.old }
    ensures codes { result ≤ codes.handle }
{
    if root.is_empty() || !pass.is_empty() {
        return HANDLE;
    }
    let port = root.lent();
    if !port.can_split() {
        return RANGE;
    }
    let Some(other) = port.split() else {
        return NO_MEMORY;
    };
    match Box::new(alloc, other) {
        Ok(other) => {
            *pass = Pass::of(other);
            DONE
        }
        Err(_) => NO_MEMORY,
    }
}

/// A pass's end. The handle has none then. The machine goes with its last pass.
#[unsafe(no_mangle)]
pub extern "C" fn its_pass_free(pass: &mut Pass, alloc: Global) -> u32
    ensures empty { pass.old.known ≡ None → result ≡ codes.handle }
    ensures freed { is_none pass.old.known ≡ false → result ≡ codes.done }
    ensures gone { pass.new.known ≡ None }
{
    if pass.is_empty() {
        return HANDLE;
    }
    let ended = replace(pass, Pass::empty(alloc));
    drop(ended.into_box());
    DONE
}
