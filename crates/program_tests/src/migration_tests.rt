//! Live saves, migrations and restored machines, by short runs.
use crate::runs::{MACHINE, MAPPED, tells};
use its_top::Status;

#[test]
fn tables_are_saved_and_restored(rt: HostRuntime) {
    for (described, started, body, end) in [
        (
            "",
            "",
            "migrate
phase
thread
signal 16 3
end",
            "migrated
dropped disabled
done
",
        ),
        (
            "",
            MAPPED,
            "signal 16 3
poke 0x80030008 40
show 2
save
peek 0x80060401 1
poke 0x80030008 a1
migrate
phase
thread
peek 0x80000080 8
peek 0x80010000 8
peek 0x800c0018 8
peek 0x80060401 1
take 2
take 2
signal 16 3
run inv 0x10 3
poke 0x80030008 40
show 2
migrate
phase
thread
show 2
take 2
end",
            "delivered 2 8200
lpi 8200 0xa0
saved
bytes 01
vcpu 2 pending 8200
migrated
bytes 0480011000000080
bytes 0100020000000080
bytes 0100082000000000
bytes 01
lpi 8200 0xa0
none
delivered 2 8200
ran inv
lpi 8200 0xa0
vcpu 2 pending 8200
migrated
none
none
vcpu 2 pending 8200
done
",
        ),
        (
            "",
            MAPPED,
            "run mapd 0x11 16 0x80100000
run mapti 0x11 0 8192 1
run mapti 0x11 65535 8193 1
migrate
phase
thread
peek 0x80100000 8
peek 0x8017fff8 8
signal 0x11 0
signal 0x11 1
signal 0x11 65535
signal 0x11 65534
end",
            "migrated
bytes 010000200000ffff
bytes 0100012000000000
delivered 2 8192
dropped no-event
delivered 2 8193
dropped no-event
vcpu 2 pending 8192 8193
done
",
        ),
        (
            "word 0x80010000 0x8000000000020001
word 0x80000080 0x8000000010018004
word 0x80000100 0x80000000100180ff
word 0x800c0018 0x0004000020080001
word 0x800c0028 0xffffffffffffffff
word 0x800c0038 0x0000000020090001
bytes 0x80060401 01
restore 1 0x8000000080020000 0 0 0x8107000080000200 0x8407000080010200",
            "",
            "phase
thread
take 2
signal 16 3
signal 16 5
signal 16 7
signal 32 0
peek 0x80000100 8
peek 0x800c0028 8
save
peek 0x80000100 8
peek 0x800c0018 8
peek 0x800c0028 8
end",
            "lpi 8200 0xa0
delivered 2 8200
dropped no-event
delivered 2 8201
dropped no-device
bytes ff80011000000080
bytes ffffffffffffffff
saved
bytes 0000000000000000
bytes 0100082000000400
bytes 0000000000000000
vcpu 2 pending 8200 8201
done
",
        ),
        // For a Linux guest the entry of a collection that was never mapped is passed over.
        (
            "linux
word 0x80010000 0x8000ffffffff0001
word 0x80010008 0x8000000000020001
word 0x80010010 0x8000ffffffff2000
word 0x80010018 0x8000000000030002
word 0x80000080 0x8000000010018004
word 0x800c0018 0x0001000020080001
word 0x800c0020 0x0000000020090002
restore 1 0x8000000080020000 0 0 0x8107000080000200 0x8407000080010200",
            "",
            "phase
thread
signal 16 3
signal 16 4
save
peek 0x80010008 8
peek 0x80010010 8
end",
            "delivered 2 8200
delivered 3 8201
saved
bytes 0200030000000080
bytes 0000000000000000
vcpu 2 pending 8200
vcpu 3 pending 8201
done
",
        ),
    ] {
        let parts = [MACHINE, described, started, body];
        let ended = tells(&rt, rt.alloc(), &parts, Status::Ok, end);
        assert_eq!(rt; ended, Some(true), "{body}");
    }
}

/// Level-1 entries 0 and 2.
const LEVEL1: &str = "word 0x80000000 0x8000000080080000
word 0x80000010 0x8000000080090000
";

/// Devices 0 and 16384, after a write of GITS_BASER0.
const FAR_APART: &str = "write 0x108 8 0x8407000080010200
write 0x80 8 0x8000000080020000
write 0 4 1
run mapd 0 5 0x800c0000
run mapd 16384 5 0x800c0100
";

#[test]
fn devices_that_are_far_apart(rt: HostRuntime) {
    for (described, baser0, body, status, end) in [
        (
            LEVEL1,
            "write 0x100 8 0xc107000080000200",
            "migrate
phase
thread
peek 0x80080000 8
peek 0x80090000 8
signal 0 0
signal 16384 0
signal 16383 0
word 0x80000010 0
save
signal 0 0
signal 16384 0
signal 16383 0
end",
            Status::Ok,
            "ran mapd
migrated
bytes 048001100000feff
bytes 2480011000000080
dropped no-event
dropped no-event
dropped no-device
save-fault no-place 16384
dropped no-event
dropped no-event
dropped no-device
done
",
        ),
        (
            "",
            "write 0x100 8 0x8107000080100203",
            "migrate
phase
thread
peek 0x80100000 8
peek 0x80120000 8
signal 0 0
signal 16384 0
signal 16383 0
end",
            Status::Ok,
            "ran mapd
migrated
bytes 048001100000feff
bytes 2480011000000080
dropped no-event
dropped no-event
dropped no-device
done
",
        ),
        (
            LEVEL1,
            "write 0x100 8 0xc107000080000200",
            "word 0x80000010 0
migrate
end",
            Status::MigrationRefused,
            "ran mapd
refused migration 1 no-place 16384
",
        ),
        (
            "word 0x80000000 0x8000000080080000",
            "write 0x100 8 0xc107000080000200",
            "end",
            Status::Ok,
            "ran mapd
refused mapd device-range
done
",
        ),
    ] {
        let parts = [MACHINE, described, "phase\nthread", baser0, FAR_APART, body];
        let ended = tells(&rt, rt.alloc(), &parts, status, end);
        assert_eq!(rt; ended, Some(true), "{body}");
    }
}

#[test]
fn runs_end_early(rt: HostRuntime) {
    for (described, started, body, status, end) in [
        (
            "",
            MAPPED,
            "run mapd 0x11 5 0x800c0000
signal 16 3
poke 0x80030008 40
save
peek 0x80000080 8
peek 0x800c0018 8
peek 0x80060400 8
take 2
signal 0x11 3
run mapti 0x11 3 8201 1
migrate
end",
            Status::MigrationRefused,
            "ran mapd
delivered 2 8200
save-fault overlap itt 16 itt 17
bytes 0000000000000000
bytes 0000000000000000
bytes 0000000000000000
lpi 8200 0xa0
dropped no-event
ran mapti
refused migration 1 overlap itt 16 itt 17
",
        ),
        (
            "",
            MAPPED,
            "migrate
phase
thread
signal 16 3
run mapd 0x11 5 0x90000000
migrate
migrate
end",
            Status::MigrationRefused,
            "migrated
delivered 2 8200
ran mapd
vcpu 2 pending 8200
refused migration 2 outside itt 17
",
        ),
        (
            "limits 16777215 3",
            "",
            "phase
thread
read 0x8 8
poke 0x80000000 01
migrate
phase
thread
peek 0x80000000 1
show 1
phase
thread
show 2
show 3
migrate
end",
            Status::Spent,
            "value 0x1ef71
migrated
bytes 01
none
none
refused spent 2
",
        ),
        (
            "word 0x80000000 0x8000000080080000
word 0x80000008 0x8000000080080000
word 0x80080000 0xfffe000010018004
restore 1 0x8000000080020000 0 0 0xc107000080000200 0x8407000080010200",
            "",
            "phase
thread
signal 0 0
signal 8192 0
signal 1 0
migrate
end",
            Status::MigrationRefused,
            "dropped no-event
dropped no-event
dropped no-device
refused migration 1 overlap page 0 page 1
",
        ),
    ] {
        let parts = [MACHINE, described, started, body];
        let ended = tells(&rt, rt.alloc(), &parts, status, end);
        assert_eq!(rt; ended, Some(true), "{body}");
    }
}
