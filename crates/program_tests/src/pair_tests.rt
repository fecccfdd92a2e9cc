//! Two translators over one memory and the same redistributors, by short runs.
use crate::runs::{MACHINE, MAPPED, tells};
use its_top::Status;
use std::alloc::{AllocError, Global};
use std::test::Fail;

/// The second translator is enabled, with tables and a queue of its own.
const SECOND: &str = "b write 0x100 8 0x8107000080100200
b write 0x108 8 0x8407000080110200
b write 0x80 8 0x8000000080120000
b write 0 4 1
";

/// It maps event 3 of device 16 to LPI 8200 by collection 1, which goes to processor 3.
const SECOND_MAPPED: &str = "command 0x80120000 mapd 0x10 5 0x800c0100
command 0x80120020 mapc 1 3
command 0x80120040 mapti 0x10 3 8200 1
b write 0x88 8 0x60
b step
b step
b step
";

#[test]
fn a_command_ends_the_translations_of_its_translator_alone(rt: HostRuntime) {
    for (body, end) in [
        (
            "signal 16 3
b signal 16 3
command 0x80120060 unmapd 0x10
b write 0x88 8 0x80
b step
b signal 16 3
signal 16 3
run movall 2 3
end",
            "delivered 2 8200
delivered 3 8200
ran mapd
dropped no-device
delivered 2 8200
ran movall
vcpu 3 pending 8200
done
",
        ),
        (
            "run discard 0x10 3
signal 16 3
b signal 16 3
b read 0x90 8
read 0x90 8
b read 0x100 8
end",
            "ran discard
dropped no-event
delivered 3 8200
value 0x60
value 0x80
value 0x8107000080100200
vcpu 3 pending 8200
done
",
        ),
        // Each has tables of its own, which a save writes if they lie apart.
        (
            "signal 16 3
b signal 16 3
save
peek 0x80000080 8
peek 0x80100080 8
command 0x80120060 mapd 0x11 5 0x800c0000
b write 0x88 8 0x80
b step
save
command 0x80120080 unmapd 0x10
b write 0x88 8 0xa0
b step
b signal 16 3
signal 16 3
end",
            "delivered 2 8200
delivered 3 8200
saved
bytes 0480011000000080
bytes 2480011000000080
ran mapd
save-fault overlap itt 16 b-itt 17
ran mapd
dropped no-device
delivered 2 8200
vcpu 2 pending 8200
vcpu 3 pending 8200
done
",
        ),
        // The tables of both are saved, and each is restored from its own.
        (
            "b signal 16 3
save
peek 0x800c0118 8
migrate
phase
thread
signal 16 3
b signal 16 3
run unmapd 0x10
signal 16 3
b signal 16 3
end",
            "delivered 3 8200
saved
bytes 0100082000000000
vcpu 3 pending 8200
migrated
delivered 2 8200
delivered 3 8200
ran mapd
dropped no-device
delivered 3 8200
vcpu 2 pending 8200
vcpu 3 pending 8200
done
",
        ),
    ] {
        let parts = [MACHINE, "pair", MAPPED, SECOND, SECOND_MAPPED, body];
        let ended = tells(&rt, rt.alloc(), &parts, Status::Ok, end);
        assert_eq!(rt; ended, Some(true), "{body}");
    }
}

// Two threads for each translator, which signal this often.
fn beside(alloc: Global, calls: u32) -> Result<String, AllocError> {
    let mut text = String::from_str(alloc, "phase\n")?;
    for call in ["signal 16 3\n", "b signal 16 3\n"] {
        for _ in 0..2 {
            text.push_str("thread\n")?;
            for _ in 0..calls {
                text.push_str(call)?;
            }
        }
    }
    Ok(text)
}

#[test]
fn threads_use_both_translators_beside_each_other(rt: HostRuntime) -> Result<(), Fail> {
    let alloc = rt.alloc();
    let beside = beside(alloc, 100)?;
    // Beside signals of the first translator, the second runs commands that end translations.
    let moves = "thread
command 0x80120060 mapc 1 2
command 0x80120080 mapc 1 3
b write 0x88 8 0xa0
b step
b step
phase
thread
take 2
take 2
b signal 16 3
take 3
take 3
end";
    let parts = [
        MACHINE,
        "pair",
        "limits 1 4096",
        MAPPED,
        SECOND,
        SECOND_MAPPED,
        beside.as_str(),
        moves,
    ];
    let end = "lpi 8200 0xa0
none
delivered 3 8200
lpi 8200 0xa0
none
done
";
    let ended = tells(&rt, alloc, &parts, Status::Ok, end);
    assert_eq!(rt; ended, Some(true));
    Ok(())
}

#[test]
fn tables_of_both_must_lie_apart(rt: HostRuntime) {
    for (body, end) in [
        (
            "b signal 16 3
command 0x80120000 mapd 0x10 5 0x800c0000
b write 0x88 8 0x20
b step
save
migrate
end",
            "dropped no-device
ran mapd
save-fault overlap itt 16 b-itt 16
refused migration 1 overlap itt 16 b-itt 16
",
        ),
        (
            "command 0x80120000 mapd 0x11 5 0x90000000
b write 0x88 8 0x20
b step
migrate
end",
            "ran mapd
refused migration 1 outside b-itt 17
",
        ),
    ] {
        let parts = [MACHINE, "pair", MAPPED, SECOND, body];
        let ended = tells(&rt, rt.alloc(), &parts, Status::MigrationRefused, end);
        assert_eq!(rt; ended, Some(true), "{body}");
    }
}

/// Tables of the second translator, and what it is restored with.
const SECOND_RESTORED: &str = "word 0x80110000 0x8000000000020001
word 0x80100080 0x8000000010018004
word 0x800c0018 0x0000000020080001
bytes 0x80060401 01
brestore 1 0x8000000080120000 0 0 0x8107000080100200 0x8407000080110200";

#[test]
fn a_translator_without_values_to_restore_starts_at_reset(rt: HostRuntime) {
    let body = "phase
thread
take 2
b signal 16 3
signal 16 3
end";
    let end = "lpi 8200 0xa0
delivered 2 8200
dropped disabled
vcpu 2 pending 8200
done
";
    let parts = [MACHINE, "pair", SECOND_RESTORED, body];
    let ended = tells(&rt, rt.alloc(), &parts, Status::Ok, end);
    assert_eq!(rt; ended, Some(true));
}

#[test]
fn faults_of_the_second_come_after_those_of_the_first(rt: HostRuntime) {
    let first = "restore 1 0x8000000080020000 0 0 0x8107000080000200 0x8407000080010200";
    let second = "brestore 1 0x8000000080120000 0 0 0x8107000080100200 0x8407000080110200";
    for (words, restored, text) in [
        (
            "word 0x80100000 0x8000000010018010",
            "",
            "refused machine restore b bad-size 0\n",
        ),
        (
            "word 0x80110000 0x8000000000040001",
            first,
            "refused machine restore b bad-target 1 4\n",
        ),
        (
            "word 0x80100000 0x8000000010018010\nword 0x80010000 0x8000000000040001",
            first,
            "refused machine restore bad-target 1 4\n",
        ),
    ] {
        let parts = [MACHINE, "pair", words, second, restored, "end"];
        let ended = tells(&rt, rt.alloc(), &parts, Status::MachineRefused, text);
        assert_eq!(rt; ended, Some(true), "{text}");
    }
}
