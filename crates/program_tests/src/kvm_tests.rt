//! Tables as KVM writes and wants them, by short runs.
use crate::runs::{MACHINE, MAPPED, tells};
use its_top::Status;

/// A machine with four processors, whose LPIs are off.
const PROGRAMMED: &str = "vcpus 4
shards 4
gicr
window 0x80000000 0x200000
bytes 0x80030008 a1
";

#[test]
fn entries_of_collections_that_events_name(rt: HostRuntime) {
    for (described, body, end) in [
        // A save writes the entry of each collection that events name, mapped or not.
        (
            "linux",
            "run mapti 0x10 4 8201 0
run mapti 0x10 5 8202 5
run mapti 0x10 6 8203 5
save
peek 0x80010000 32
run unmapc 1
save
peek 0x80010000 32
migrate
phase
thread
signal 16 3
signal 16 5
run mapc 5 3
signal 16 5
save
peek 0x80010000 32
end",
            "saved
bytes 0000ffffffff008001000200000000800500ffffffff00800000000000000000
ran mapc
saved
bytes 0000ffffffff00800100ffffffff00800500ffffffff00800000000000000000
migrated
dropped no-collection
dropped no-collection
ran mapc
delivered 3 8202
saved
bytes 0000ffffffff00800100ffffffff008005000300000000800000000000000000
vcpu 3 pending 8202
done
",
        ),
        // Without `linux` it writes the mapped ones alone.
        (
            "",
            "run mapti 0x10 4 8201 0
save
peek 0x80010000 16
end",
            "saved
bytes 01000200000000800000000000000000
done
",
        ),
    ] {
        let parts = [MACHINE, described, MAPPED, body];
        let ended = tells(&rt, rt.alloc(), &parts, Status::Ok, end);
        assert_eq!(rt; ended, Some(true), "{body}");
    }
}

/// Tables of KVM: LPI 8210 was pending at processor 1, and goes to processor 2.
const OF_KVM: &str = "linux
word 0x80100080 0x8000000010018004
word 0x800c0028 0x20120002
word 0x80110000 0x8000000000010001
word 0x80110008 0x8000000000020002
bytes 0x80050402 04
bytes 0x80030012 a1
restore 1 0x8000000080020000 0 0 0x8107000080100000 0x8407000080110000
rrestore 1 1 0x8003000f 0x80050000
rrestore 2 1 0x8003000f 0x80060000
";

#[test]
fn bits_that_kvm_left_behind(rt: HostRuntime) {
    for (described, status, end) in [
        (
            "from-kvm",
            Status::Ok,
            "none
none
saved
bytes 00
bytes 00
delivered 2 8210
lpi 8210 0xa0
done
",
        ),
        // Where an event leads there, the bit counts.
        (
            "from-kvm
bytes 0x80060402 04",
            Status::Ok,
            "none
lpi 8210 0xa0
saved
bytes 00
bytes 04
delivered 2 8210
lpi 8210 0xa0
done
",
        ),
        (
            "",
            Status::Ok,
            "lpi 8210 0xa0
none
saved
bytes 04
bytes 00
delivered 2 8210
lpi 8210 0xa0
vcpu 1 pending 8210
done
",
        ),
        (
            "from-kvm
from-kvm",
            Status::ScriptRefused,
            "refused script 17 order
",
        ),
    ] {
        let body = "phase
thread
show 1
show 2
save
peek 0x80050402 1
peek 0x80060402 1
signal 16 5
take 2
end";
        let ended = tells(
            &rt,
            rt.alloc(),
            &[PROGRAMMED, OF_KVM, described, body],
            status,
            end,
        );
        assert_eq!(rt; ended, Some(true), "{described}");
    }
}
