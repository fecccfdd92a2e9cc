//! A second memory, which takes the pages that were written, by short runs.
use crate::runs::{MACHINE, MAPPED, tells};
use its_top::Status;
use std::alloc::{AllocError, Global};
use std::fmt::Write;
use std::test::Fail;

#[test]
fn written_pages_are_copied(rt: HostRuntime) {
    for (body, end) in [
        (
            "copy
poke 0x80030ffe 01020304
poke 0x80030008 40
copy
copy
precopy
end",
            "copied 512
copied 2
copied 0
migrated copied 41
done
",
        ),
        // A save writes the pages of its tables.
        (
            "copy
poke 0x80030ffc 0807060504030201
poke 0x80030008 41
copy
save
copy
precopy
phase
thread
peek 0x80030ffc 8
signal 16 3
take 2
end",
            "copied 512
copied 2
saved
copied 41
migrated copied 41
bytes 0807060504030201
delivered 2 8200
lpi 8200 0x40
done
",
        ),
        // Each leg starts with an empty copy.
        (
            "copy
poke 0x80030008 40
migrate
phase
thread
copy
poke 0x80300000 40
copy
end",
            "copied 512
migrated
copied 512
outside
copied 0
done
",
        ),
        (
            "poke 0x80030008 40
precopy
phase
thread
peek 0x80030008 1
copy
precopy
phase
thread
peek 0x80000080 8
end",
            "migrated copied 512
bytes 40
copied 512
migrated copied 41
bytes 0480011000000080
done
",
        ),
    ] {
        let parts = [MACHINE, "track", MAPPED, body];
        let ended = tells(&rt, rt.alloc(), &parts, Status::Ok, end);
        assert_eq!(rt; ended, Some(true), "{body}");
    }
}

/// A page is written, a message is pending, and a command stands in the queue's page.
const CALLED: &str = "copy
signal 16 3
poke 0x800ffffe 01020304
run movi 0x10 3 1
";

/// What the next leg finds.
const FOUND: &str = "phase
thread
peek 0x800ffffe 4
peek 0x80000080 8
peek 0x80010000 8
peek 0x800c0018 8
peek 0x80060401 1
show 2
signal 16 3
end";

#[test]
fn a_machine_goes_on_alike_whichever_way_it_is_moved(rt: HostRuntime) -> Result<(), Fail> {
    let alloc = rt.alloc();
    for (way, told) in [("migrate", "migrated"), ("precopy", "migrated copied 44")] {
        let mut end = String::new(alloc);
        write!(end, "ran movi\nvcpu 2 pending 8200\n{told}\n")?;
        end.push_str(
            "bytes 01020304
bytes 0480011000000080
bytes 0100020000000080
bytes 0100082000000000
bytes 01
lpi 8200 0xa0
delivered 2 8200
vcpu 2 pending 8200
done
",
        )?;
        let parts = [MACHINE, "track", MAPPED, CALLED, way, FOUND];
        let ended = tells(&rt, alloc, &parts, Status::Ok, end.as_str());
        assert_eq!(rt; ended, Some(true), "{way}");
    }
    Ok(())
}

// A phase of threads that each write so many pages of their own, beside one that copies them.
fn writers(alloc: Global, threads: u32, pages: u32) -> Result<String, AllocError> {
    let mut text = String::from_str(alloc, "phase\n")?;
    for thread in 0..threads {
        text.push_str("thread\n")?;
        for page in 0..pages {
            let address = 0x8010_0000u64
                .wrapping_add(u64::from(thread).wrapping_mul(0x1_0000))
                .wrapping_add(u64::from(page).wrapping_mul(0x1000));
            writeln!(text, "poke {address} a5")?;
        }
    }
    text.push_str("thread\ncopy\ncopy\ncopy\nsave\n")?;
    Ok(text)
}

#[test]
fn pages_are_copied_beside_threads_that_write_them(rt: HostRuntime) -> Result<(), Fail> {
    let alloc = rt.alloc();
    let beside = writers(alloc, 8, 16)?;
    let after = "phase
thread
copy
copy
precopy
phase
thread
peek 0x80100000 1
peek 0x8013f000 1
peek 0x8017f000 1
signal 16 3
end";
    let end = "copied 0
migrated copied 41
bytes a5
bytes a5
bytes a5
delivered 2 8200
vcpu 2 pending 8200
done
";
    let parts = [MACHINE, "track", MAPPED, beside.as_str(), after];
    let ended = tells(&rt, alloc, &parts, Status::Ok, end);
    assert_eq!(rt; ended, Some(true));
    Ok(())
}

#[test]
fn a_machine_that_cannot_be_saved_stays(rt: HostRuntime) {
    let body = "copy
run mapd 0x11 5 0x800c0000
precopy
end";
    let end = "copied 512
ran mapd
refused migration 1 overlap itt 16 itt 17
";
    let parts = [MACHINE, "track", MAPPED, body];
    let ended = tells(&rt, rt.alloc(), &parts, Status::MigrationRefused, end);
    assert_eq!(rt; ended, Some(true));
}
