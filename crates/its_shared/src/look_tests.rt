//! What a pass sees of the machine's state: none of it is a call of the history.
use crate::look_calls::{
    its_pass_event, its_pass_list_collections, its_pass_list_devices, its_pass_list_events,
    its_pass_needs, its_pass_pending, its_pass_stored_lpi_registers, its_pass_written,
};
use crate::making::its_pass_free;
use crate::pass::Pass;
use crate::register_calls::its_pass_write_register;
use crate::step_calls::its_pass_write_memory;
use crate::tests::{drive, shared, signalled};
use its_numbers::{
    CollectionOut, DONE, DeviceOut, EventOut, HANDLE, MappingOut, RANGE, RedistributorIn,
    StretchOut,
};

// The code, the place, the cause, the INTID and the virtual processor.
fn led(pass: &mut Pass, device: u32, event: u32) -> (u32, u64, u32, u32, u32) {
    let mut out = EventOut {
        cause: 9,
        intid: 9,
        collection: 9,
        vcpu: 9,
    };
    let mut place = 99;
    let code = its_pass_event(pass, 0, device, event, &mut place, &mut out);
    (code, place, out.cause, out.intid, out.vcpu)
}

#[test]
fn events_and_what_is_pending(rt: HostRuntime) {
    let alloc = rt.alloc();
    let mut root = Pass::empty(alloc);
    assert_eq!(rt; led(&mut root, 7, 2), (HANDLE, 99, 9, 9, 9));
    assert_eq!(rt; shared(alloc, &mut root), DONE);
    assert_eq!(rt; drive(&mut root), (3, 20));
    assert_eq!(rt; led(&mut root, 7, 2), (DONE, 21, 0, 8192, 1));
    assert_eq!(rt; led(&mut root, 7, 3), (DONE, 21, 3, 0, 0));
    assert_eq!(rt; led(&mut root, 8, 2), (DONE, 21, 2, 0, 0));
    assert_eq!(rt; signalled(&mut root), (DONE, 0, 8192));
    let (mut list, mut count, mut place) = ([9, 9], 9, 99);
    assert_eq!(rt;
        its_pass_pending(&mut root, alloc, 1, &mut place, &mut list, &mut count),
        DONE
    );
    assert_eq!(rt; (place, count, list), (22, 1, [8192, 9]));
    let mut stored = RedistributorIn {
        ctlr: 9,
        propbaser: 9,
        pendbaser: 9,
    };
    assert_eq!(rt;
        its_pass_stored_lpi_registers(&mut root, 1, &mut place, &mut stored),
        DONE
    );
    assert_eq!(rt; (place, stored.ctlr, stored.propbaser), (22, 0, 0));
    assert_eq!(rt;
        its_pass_pending(&mut root, alloc, 2, &mut place, &mut list, &mut count),
        RANGE
    );
    assert_eq!(rt; its_pass_free(&mut root, alloc), DONE);
}

// An INV of event 2 of device 7 reads the LPI's byte, which both processors have in one table.
#[test]
fn what_the_next_step_reads(rt: HostRuntime) {
    let alloc = rt.alloc();
    let mut root = Pass::empty(alloc);
    assert_eq!(rt; shared(alloc, &mut root), DONE);
    assert_eq!(rt; drive(&mut root), (3, 20));
    let (mut place, mut count) = (99, 99);
    let mut list = [StretchOut {
        address: 9,
        length: 9,
    }; 3];
    assert_eq!(rt;
        its_pass_needs(&mut root, alloc, 0, &mut place, &mut list, &mut count),
        DONE
    );
    assert_eq!(rt; (place, count, list[0].length), (21, 0, 9));
    for (address, word) in [(0x8002_0060, 0x7_0000_000c), (0x8002_0068, 2)] {
        let word: u64 = word;
        its_pass_write_memory(&mut root, address, &word.to_le_bytes(), &mut place);
    }
    its_pass_write_register(&mut root, 0, 0x88, 8, 0x80, &mut place);
    assert_eq!(rt;
        its_pass_needs(&mut root, alloc, 0, &mut place, &mut list, &mut count),
        DONE
    );
    assert_eq!(rt; (place, count, list[2].length), (24, 2, 9));
    assert_eq!(rt; (list[0].address, list[0].length), (0x8002_0060, 32));
    assert_eq!(rt; (list[1].address, list[1].length), (0x8003_0000, 1));
    assert_eq!(rt; its_pass_free(&mut root, alloc), DONE);
}

#[test]
fn tables_and_what_is_mapped(rt: HostRuntime) {
    let alloc = rt.alloc();
    let mut root = Pass::empty(alloc);
    assert_eq!(rt; shared(alloc, &mut root), DONE);
    assert_eq!(rt; drive(&mut root), (3, 20));
    let mut place = 99;
    let mut count = 99;
    let mut tables = [StretchOut {
        address: 0,
        length: 0,
    }; 3];
    assert_eq!(rt;
        its_pass_written(&mut root, alloc, &mut place, &mut tables, &mut count),
        DONE
    );
    assert_eq!(rt;
        (place, count, tables[0].address, tables[2].address),
        (21, 5, 0x8000_0000, 0x800c_0000)
    );
    let mut devices = [DeviceOut {
        device: 0,
        event_bits: 0,
        itt: 0,
    }; 2];
    assert_eq!(rt;
        its_pass_list_devices(&mut root, 0, 0, &mut place, &mut devices, &mut count),
        DONE
    );
    assert_eq!(rt;
        (
            count,
            devices[0].device,
            devices[0].event_bits,
            devices[0].itt
        ),
        (1, 7, 4, 0x800c_0000)
    );
    let mut events = [MappingOut {
        event: 0,
        intid: 0,
        collection: 9,
    }; 2];
    assert_eq!(rt;
        its_pass_list_events(&mut root, 0, 7, 0, &mut place, &mut events, &mut count),
        DONE
    );
    assert_eq!(rt;
        (
            count,
            events[0].event,
            events[0].intid,
            events[0].collection
        ),
        (1, 2, 8192, 0)
    );
    let mut collections = [CollectionOut {
        collection: 9,
        vcpu: 9,
    }; 2];
    assert_eq!(rt;
        its_pass_list_collections(&mut root, 0, 0, &mut place, &mut collections, &mut count),
        DONE
    );
    assert_eq!(rt;
        (place, count, collections[0].collection, collections[0].vcpu),
        (21, 1, 0, 1)
    );
    assert_eq!(rt; its_pass_free(&mut root, alloc), DONE);
}
