//! Entries of the tables.
use its_types::{Addr, Icid, Intid};
use table_entries::{Cte, Dte, Ite};

// Device 0 with 16 bits and its table at 0x800c0000, as a host writes it. Device 3 is the next.
fn is_device_word() -> bool {
    let first = Dte {
        next: 3,
        itt: Addr(0x800c_0000),
        bits: 16,
    };
    first.pack() == 0x8006_0000_1001_800f
        && Dte::unpack(0x8006_0000_1001_800f) == Some(first)
        && Dte::unpack(0x0006_0000_1001_800f).is_none()
}

fn is_collection_word() -> bool {
    let entry = Cte {
        vcpu_number: 3,
        icid: Icid(2),
    };
    entry.pack() == 0x8000_0000_0003_0002
        && Cte::unpack(0x8000_0000_0003_0002) == Some(entry)
        && Cte::unpack(0x0000_0000_0003_0002).is_none()
}

fn is_event_word() -> bool {
    let entry = Ite {
        next: 1,
        intid: Intid(8200),
        icid: Icid(3),
    };
    entry.pack() == 0x0001_0000_2008_0003
        && Ite::unpack(0x0001_0000_2008_0003) == Some(entry)
        && Ite::unpack(0x0001_0000_0000_0003).is_none()
}

#[test]
fn words(rt: HostRuntime) {
    let right = [is_device_word(), is_collection_word(), is_event_word()];
    assert_eq!(rt; right, [true; 3]);
}
