//! One of several redistributors, where it is there.
ghost use Rattle.std.specs.Prelude.{◌≡◌, OnOk, [], slice_set, map};
ghost use Rattle.its_types.specs.Lpis as lpis;
ghost use Rattle.its_plain.specs.Answer as plain;
ghost use Rattle.its_plain.specs.Commands as commands;
ghost use Rattle.plain_machine.specs.Slots.{redistributor_in, pending_set};

use crate::redist::RedistLists;
use guest_windows::Memory;
use its_plain::Ack;
use std::alloc::{AllocError, Global};

/// Makes an LPI pending at a virtual processor. Out of memory, nothing is said of its pending set.
pub fn set_at(all: &mut [RedistLists], vcpu: u64, intid: u32) -> Result<(), AllocError>
    ensures { OnOk result (all.new
        ≡ pending_set all.old vcpu
        (lpis.with_lpi intid (redistributor_in all.old vcpu).pending)) }
{
    let at = vcpu as usize;
    if at < all.len() {
        all[at].set(intid)?;
    }
    Ok(())
}

/// Makes an LPI not pending at a virtual processor.
pub fn clear_at(all: &mut [RedistLists], vcpu: u64, intid: u32)
    ensures { all.new
        ≡ pending_set all.old vcpu
        (lpis.without_lpi intid (redistributor_in all.old vcpu).pending) }
{
    let at = vcpu as usize;
    if at < all.len() {
        all[at].clear(intid);
    }
}

/// Takes all pending LPIs from a virtual processor, in rising order.
pub fn take_all_at(alloc: Global, all: &mut [RedistLists], vcpu: u64) -> Vec<u32>
    ensures taken { result.items ≡ (redistributor_in all.old vcpu).pending }
    ensures none { all.new ≡ pending_set all.old vcpu [] }
{
    let at = vcpu as usize;
    if at < all.len() {
        all[at].take_all(alloc)
    } else {
        Vec::new(alloc)
    }
}

/// Makes LPIs pending at a virtual processor. Out of memory, nothing is said of its pending set.
pub fn set_all_at(all: &mut [RedistLists], vcpu: u64, intids: Vec<u32>) -> Result<(), AllocError>
    ensures { OnOk result (all.new
        ≡ pending_set all.old vcpu
        (lpis.with_lpis intids.items (redistributor_in all.old vcpu).pending)) }
{
    let at = vcpu as usize;
    if at < all.len() {
        all[at].set_all(intids)?;
    }
    Ok(())
}

/// Acknowledges an LPI at a virtual processor.
pub fn take_at(all: &mut [RedistLists], vcpu: u64) -> Ack
    ensures ack { result
        ≡ plain.ack_of (redistributor_in all.old vcpu)
        (plain.lowest (redistributor_in all.old vcpu)) }
    ensures taken { all.new
        ≡ slice_set all.old vcpu (plain.taken (redistributor_in all.old vcpu)
        (plain.lowest (redistributor_in all.old vcpu))) }
{
    let at = vcpu as usize;
    if at < all.len() {
        all[at].take()
    } else {
        Ack::None
    }
}

/// The LPI that a virtual processor would acknowledge.
pub fn show_at(all: &[RedistLists], vcpu: u64) -> Ack
    ensures { result
        ≡ plain.ack_of (redistributor_in all.now vcpu)
        (plain.lowest (redistributor_in all.now vcpu)) }
{
    match all.get(vcpu as usize) {
        Some(redist) => redist.show(),
        None => Ack::None,
    }
}

/// The LPI that comes first by priority at a virtual processor, of those below a mask.
pub fn best_at(all: &[RedistLists], vcpu: u64, mask: u8) -> Ack
    ensures { result
        ≡ plain.ack_of (redistributor_in all.now vcpu)
        (plain.best (redistributor_in all.now vcpu) mask) }
{
    match all.get(vcpu as usize) {
        Some(redist) => redist.best(mask),
        None => Ack::None,
    }
}

/// Acknowledges this LPI at a virtual processor, if it is pending and enabled.
pub fn claim_at(all: &mut [RedistLists], vcpu: u64, intid: u32) -> Ack
    ensures ack { result
        ≡ plain.ack_of (redistributor_in all.old vcpu)
        (plain.claimed (redistributor_in all.old vcpu) intid) }
    ensures taken { all.new
        ≡ slice_set all.old vcpu (plain.taken (redistributor_in all.old vcpu)
        (plain.claimed (redistributor_in all.old vcpu) intid)) }
{
    let at = vcpu as usize;
    if at < all.len() {
        all[at].claim(intid)
    } else {
        Ack::None
    }
}

/// Whether LPIs are on at a virtual processor.
pub fn is_on_at(all: &[RedistLists], vcpu: u64) -> bool
    ensures { result ≡ (redistributor_in all.now vcpu).accepts }
{
    match all.get(vcpu as usize) {
        Some(redist) => redist.accepts(),
        None => false,
    }
}

/// Whether an LPI is pending at a virtual processor.
pub fn is_pending_at(all: &[RedistLists], vcpu: u64, intid: u32) -> bool
    ensures { result ≡ lpis.is_pending intid (redistributor_in all.now vcpu).pending }
{
    match all.get(vcpu as usize) {
        Some(redist) => redist.is_pending(intid),
        None => false,
    }
}

/// Every redistributor reads the configuration bytes of these LPIs again.
pub fn reread_each(all: &mut [RedistLists], memory: &Memory, intids: &[u32])
    ensures { all.new ≡ map (commands.all_reread_at memory.now intids.now) all.old }
{
    for redist in all.iter_mut() {
        redist.reread_all(memory, intids);
    }
}
