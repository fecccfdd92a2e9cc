//! Machines of as many processors as there may be, by short runs.
use crate::runs::{MAPPED, tells};
use its_top::Status;
use std::alloc::{AllocError, Global};
use std::fmt::Write;

/// A machine whose guest programs the redistributors, with LPIs off.
const PROGRAMMED: &str = "processors 512
shards 4
gicr
window 0x80000000 0x200000
bytes 0x80030008 a1
";

/// A machine whose tables are described, with LPIs on at each processor.
fn described(alloc: Global) -> Result<String, AllocError> {
    let mut text = String::from_str(
        alloc,
        "processors 512
shards 4
ids 16 14
window 0x80000000 0x200000
config 0x80030000
bytes 0x80030008 a1
",
    )?;
    for vcpu in 0..512u64 {
        writeln!(text, "pending {vcpu} {}", vcpu * 2048 + 0x8010_0000)?;
    }
    Ok(text)
}

/// A phase that maps event 3 of device 16 to LPI 8200 of the last processor.
fn mapped(alloc: Global) -> Result<String, AllocError> {
    MAPPED.replace(alloc, "mapc 1 2", "mapc 1 511")
}

#[test]
fn lpis_go_to_the_last_processor(rt: HostRuntime) -> Result<(), AllocError> {
    let described = described(rt.alloc())?;
    let mapped = mapped(rt.alloc())?;
    let body = "signal 16 3
show 511
take 511
take 511
run mapc 2 0
signal 16 3
run movi 0x10 3 2
show 511
take 0
run movi 0x10 3 1
signal 16 3
run movall 511 0
show 511
take 0
run movall 511 512
run movall 512 0
run mapc 2 512
signal 16 3
save
migrate
phase
thread
show 0
take 511
end";
    let end = "delivered 511 8200
lpi 8200 0xa0
lpi 8200 0xa0
none
ran mapc
delivered 511 8200
ran movi
none
lpi 8200 0xa0
ran movi
delivered 511 8200
ran movall
none
lpi 8200 0xa0
refused movall target-range
refused movall target-range
refused mapc target-range
delivered 511 8200
saved
vcpu 511 pending 8200
migrated
none
lpi 8200 0xa0
done
";
    let parts = [described.as_str(), mapped.as_str(), body];
    let ended = tells(&rt, rt.alloc(), &parts, Status::Ok, end);
    assert_eq!(rt; ended, Some(true));
    Ok(())
}

#[test]
fn the_last_redistributor_is_programmed(rt: HostRuntime) -> Result<(), AllocError> {
    let mapped = mapped(rt.alloc())?;
    let body = "signal 16 3
rread 511 0x0 4
rwrite 511 0x70 8 0x8003000f
rwrite 511 0x78 8 0x80060000
rwrite 511 0x0 4 0x1
signal 16 3
migrate
phase
thread
rread 511 0x78 8
rread 510 0x0 4
take 511
end";
    let end = "dropped lpis-off
value 0x0
delivered 511 8200
vcpu 511 pending 8200
migrated
value 0x80060000
value 0x0
lpi 8200 0xa0
done
";
    let parts = [PROGRAMMED, mapped.as_str(), body];
    let ended = tells(&rt, rt.alloc(), &parts, Status::Ok, end);
    assert_eq!(rt; ended, Some(true));
    Ok(())
}
