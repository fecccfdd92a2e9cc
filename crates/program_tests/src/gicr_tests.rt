//! Redistributors whose LPI registers the guest programs, by short runs.
use crate::runs::{MAPPED, tells};
use its_top::Status;

/// A machine with four processors, whose LPIs are off.
const PROGRAMMED: &str = "vcpus 4
shards 4
gicr
window 0x80000000 0x200000
bytes 0x80030008 a1
";

/// LPIs are on at processor 2.
const ON: &str = "rwrite 2 0x70 8 0x8003000f
rwrite 2 0x78 8 0x80060000
rwrite 2 0x0 4 0x1
";

#[test]
fn lpis_are_turned_on(rt: HostRuntime) {
    for (described, body, end) in [
        (
            "",
            "signal 16 3
run int 0x10 3
rwrite 2 0x0 4 0x1
rread 2 0x0 4
rwrite 2 0x70 8 0x8003000f
rwrite 2 0x78 8 0x4000000080060000
rread 2 0x78 8
rwrite 2 0x0 4 0x1
rread 2 0x0 4
signal 16 3
take 2
end",
            "dropped lpis-off
refused int lpis-off
value 0x0
value 0x80060000
value 0x1
delivered 2 8200
lpi 8200 0xa0
done
",
        ),
        (
            "bytes 0x80060401 01",
            "rwrite 2 0x70 8 0x8003000f
rwrite 2 0x78 8 0x80060000
rwrite 2 0x0 4 0x1
take 2
end",
            "lpi 8200 0xa0
done
",
        ),
        // A write of half of PENDBASER keeps Pending Table Zero.
        (
            "bytes 0x80060401 01",
            "rwrite 2 0x70 8 0x8003000f
rwrite 2 0x78 8 0x4000000000000000
rwrite 2 0x78 4 0x80060000
rwrite 2 0x7c 4 0x0
rwrite 2 0x0 4 0x1
rread 2 0x0 4
show 2
end",
            "value 0x1
none
done
",
        ),
        // The pending table's last byte is outside; then the bases stay as LPIs are on.
        (
            "",
            "rwrite 2 0x70 8 0x8003000f
rwrite 2 0x78 8 0x80200000
rwrite 2 0x0 4 0x1
rread 2 0x0 4
rwrite 2 0x78 8 0x80060000
rwrite 2 0x0 4 0x1
rwrite 2 0x70 8 0
rwrite 2 0x0 4 0
rread 2 0x70 8
rread 2 0x0 4
end",
            "value 0x0
value 0x8003000f
value 0x1
done
",
        ),
        // For a Linux guest LPIs can be turned off.
        (
            "linux",
            "rread 2 0x0 4
rwrite 2 0x70 8 0x8003000f
rwrite 2 0x78 8 0x4000000080060000
rwrite 2 0x0 4 0x1
rread 2 0x0 4
signal 16 3
rwrite 2 0x0 4 0x0
rread 2 0x0 4
take 2
signal 16 3
best 2 255
rwrite 2 0x70 8 0x80030000
rread 2 0x70 8
rread 2 0x78 8
rwrite 2 0x0 4 0x1
signal 16 3
rwrite 2 0x0 4 0
rwrite 2 0x70 8 0x8003000e
rread 2 0x70 8
rwrite 2 0x70 8 0x8003000f
rwrite 2 0x78 8 0x80060000
rwrite 2 0x0 4 1
take 2
signal 16 3
take 2
end",
            "value 0x6
value 0x7
delivered 2 8200
value 0x6
none
dropped lpis-off
none
value 0x80030780
value 0x80060780
delivered 2 8200
value 0x8003078e
none
delivered 2 8200
lpi 8200 0xa0
done
",
        ),
        // A configuration byte is read again where a register says so.
        (
            "",
            "rwrite 2 0x70 8 0x8003000f
rwrite 2 0x78 8 0x80060000
rwrite 2 0x0 4 0x1
signal 16 3
poke 0x80030008 41
show 2
rwrite 2 0xa0 8 8200
show 2
poke 0x80030008 a1
rwrite 2 0xb0 8 0
show 2
rread 2 0xc0 4
end",
            "delivered 2 8200
lpi 8200 0xa0
lpi 8200 0x40
lpi 8200 0xa0
value 0x0
vcpu 2 pending 8200
done
",
        ),
    ] {
        let parts = [PROGRAMMED, described, MAPPED, body];
        let ended = tells(&rt, rt.alloc(), &parts, Status::Ok, end);
        assert_eq!(rt; ended, Some(true), "{body}");
    }
}

#[test]
fn lpis_stay_on_or_off(rt: HostRuntime) {
    for (body, end) in [
        (
            "signal 16 3
rwrite 1 0x78 8 0x4000000080050000
save
peek 0x80060401 1
migrate
phase
thread
rread 2 0x0 4
rread 2 0x70 8
rread 1 0x0 4
rread 1 0x78 8
run movall 2 1
take 2
end",
            "delivered 2 8200
saved
bytes 01
vcpu 2 pending 8200
migrated
value 0x1
value 0x8003000f
value 0x0
value 0x80050000
refused movall lpis-off
lpi 8200 0xa0
done
",
        ),
        (
            "phase
thread
rwrite 1 0x70 8 0x80030000
rwrite 1 0x78 8 0x80050000
rwrite 1 0x0 4 1
thread
rwrite 3 0x70 8 0x80030000
rwrite 3 0x78 8 0x80070000
rwrite 3 0x0 4 1
thread
signal 16 3
phase
thread
rread 1 0x0 4
rread 3 0x0 4
rread 0 0x0 4
run movall 2 3
take 3
end",
            "delivered 2 8200
value 0x1
value 0x1
value 0x0
ran movall
lpi 8200 0xa0
done
",
        ),
    ] {
        let parts = [PROGRAMMED, MAPPED, ON, body];
        let ended = tells(&rt, rt.alloc(), &parts, Status::Ok, end);
        assert_eq!(rt; ended, Some(true), "{body}");
    }
}

#[test]
fn redistributors_are_restored(rt: HostRuntime) {
    for (described, status, end) in [
        (
            "bytes 0x80060401 01
restore 0 0 0 0 0 0
rrestore 2 1 0x8003000f 0x4000000080060000
rrestore 1 0 0x80030000 0x80050000",
            Status::Ok,
            "value 0x1
value 0x0
value 0x80050000
none
lpi 8200 0xa0
done
",
        ),
        (
            "restore 0 0 0 0 0 0
rrestore 3 1 0x80030000 0
rrestore 1 1 0 0x80050000",
            Status::MachineRefused,
            "refused machine restore bad-redist 1
",
        ),
        (
            "restore 0 0 0 0 0 0
rrestore 2 1 0x8003000f 0x80060000
rrestore 3 1 0 0",
            Status::MachineRefused,
            "refused machine restore bad-redist 3
",
        ),
        (
            "rrestore 3 1 0x80030000 0",
            Status::ScriptRefused,
            "refused script 6 order
",
        ),
    ] {
        let body = "phase
thread
rread 2 0 4
rread 1 0 4
rread 1 0x78 8
take 1
take 2
end";
        let ended = tells(&rt, rt.alloc(), &[PROGRAMMED, described, body], status, end);
        assert_eq!(rt; ended, Some(true), "{described}");
    }
}
