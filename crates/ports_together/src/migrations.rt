//! Machines that threads share, saved and migrated.
ghost use Rattle.ports_together.specs.Ready.{IsAtRest};

use crate::made::made;
use its_migrate::{migrate, pending, save};
use its_plain::{MakeError, Region, SaveError, SaveFault};
use its_turns::{Machine, Root};
use its_types::{DeviceId, Intid, Listed, Open, Placed};
use std::alloc::Global;
use std::sync::Wait;
use std::test::Fail;

// Device 16 with event 3, which collection 1 leads to processor 2, where LPI 8200 is pending.
const ONE_DEVICE: [(u64, u64); 4] = [
    (0x8001_0000, 0x8000_0000_0002_0001),
    (0x8000_0080, 0x8000_0000_1001_8004),
    (0x800c_0018, 0x0000_0000_2008_0001),
    (0x8006_0400, 0x0100),
];

// Device 17 beside it, with the same table of events.
const TWO_DEVICES: [(u64, u64); 5] = [
    (0x8001_0000, 0x8000_0000_0002_0001),
    (0x8000_0080, 0x8002_0000_1001_8004),
    (0x8000_0088, 0x8000_0000_1001_8004),
    (0x800c_0018, 0x0000_0000_2008_0001),
    (0x8006_0400, 0x0100),
];

// Whether LPI 8200 is pending at processor 2, and nothing else anywhere.
fn is_one_pending(alloc: Global, machine: &Machine, root: &mut Root) -> bool
    requires { IsAtRest machine.now root.old }
{
    match pending(alloc, machine, root) {
        Ok(lists) => is_third(lists.as_slice()),
        Err(_) => false,
    }
}

fn is_third(lists: &[Listed<Intid>]) -> bool {
    let [first, second, third, fourth] = lists else {
        return false;
    };
    let one = third.as_slice() == [Intid(8200)].as_slice();
    one && first.is_empty() && second.is_empty() && fourth.is_empty()
}

// The same of a machine that is done with.
fn is_one_left(alloc: Global, machine: Machine, mut root: Root) -> bool
    requires { IsAtRest machine root }
{
    let is_pending = is_one_pending(alloc, &machine, &mut root);
    drop((machine, root));
    is_pending
}

// Whether that LPI is pending after a migration, which is made.
fn moved(alloc: Global) -> Result<Option<bool>, MakeError> {
    let (machine, root) = made(alloc, &ONE_DEVICE)?;
    match migrate(alloc, machine, root) {
        Ok((machine, root)) => Ok(Some(is_one_left(alloc, machine, root))),
        Err(kept) => {
            drop(kept);
            Ok(None)
        }
    }
}

// Why a migration isn't made, and whether that LPI is still pending.
fn refused(alloc: Global) -> Result<Option<(SaveError, bool)>, MakeError> {
    let (machine, root) = made(alloc, &TWO_DEVICES)?;
    match migrate(alloc, machine, root) {
        Ok(next) => {
            drop(next);
            Ok(None)
        }
        Err((machine, root, error)) => Ok(Some((error, is_one_left(alloc, machine, root)))),
    }
}

// What the first save of a machine is answered.
fn saved<R: Wait>(
    rt: &R,
    alloc: Global,
) -> Result<Option<Placed<Result<(), SaveFault>>>, MakeError> {
    let (machine, mut root) = made(alloc, &ONE_DEVICE)?;
    let saved = save(rt, alloc, &machine, &mut root, &Open).ok();
    drop((machine, root));
    Ok(saved)
}

#[test]
fn saves_and_migrations(rt: HostRuntime) -> Result<(), Fail> {
    let alloc = rt.alloc();
    assert_eq!(rt; moved(alloc)?, Some(true));
    let overlap = SaveFault::Overlap(Region::Itt(0, DeviceId(16)), Region::Itt(0, DeviceId(17)));
    assert_eq!(rt; refused(alloc)?, Some((SaveError::Fault(overlap), true)));
    let placed = Placed {
        place: 0,
        reply: Ok(()),
    };
    assert_eq!(rt; saved(&rt, alloc)?, Some(placed));
    Ok(())
}
