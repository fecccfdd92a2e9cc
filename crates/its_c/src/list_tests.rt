//! What is mapped, told in lists.
use crate::handle::Handle;
use crate::list_calls::{its_list_collections, its_list_devices, its_list_events};
use crate::making::its_free;
use crate::tests::{drive, made};
use its_numbers::{CollectionOut, DONE, DeviceOut, HANDLE, MappingOut};

// The code, how many are told, and the first place of a list of `most`.
fn devices(handle: &mut Handle, from: u32, most: usize) -> (u32, u64, u32, u32, u64) {
    let none = DeviceOut {
        device: 99,
        event_bits: 99,
        itt: 99,
    };
    let mut list = [none; 2];
    let mut count = 99;
    let code = its_list_devices(handle, 0, from, &mut list[..most.min(2)], &mut count);
    (code, count, list[0].device, list[0].event_bits, list[0].itt)
}

fn events(handle: &mut Handle, device: u32, from: u32) -> (u32, u64, u32, u32, u32) {
    let mut list = [MappingOut {
        event: 99,
        intid: 99,
        collection: 99,
    }; 2];
    let mut count = 99;
    let code = its_list_events(handle, 0, device, from, &mut list, &mut count);
    (
        code,
        count,
        list[0].event,
        list[0].intid,
        list[0].collection,
    )
}

fn collections(handle: &mut Handle, from: u32) -> (u32, u64, u32, u32) {
    let mut list = [CollectionOut {
        collection: 99,
        vcpu: 99,
    }; 2];
    let mut count = 99;
    let code = its_list_collections(handle, 0, from, &mut list, &mut count);
    (code, count, list[0].collection, list[0].vcpu)
}

#[test]
fn lists_of_what_is_mapped(rt: HostRuntime) {
    let alloc = rt.alloc();
    let mut handle = Handle::empty(alloc);
    assert_eq!(rt; devices(&mut handle, 0, 2), (HANDLE, 99, 99, 99, 99));
    assert_eq!(rt; made(alloc, &mut handle), DONE);
    assert_eq!(rt; devices(&mut handle, 0, 2), (DONE, 0, 99, 99, 99));
    assert_eq!(rt; drive(alloc, &mut handle), 3);
    assert_eq!(rt; devices(&mut handle, 0, 2), (DONE, 1, 7, 4, 0x800c_0000));
    assert_eq!(rt; devices(&mut handle, 7, 1), (DONE, 1, 7, 4, 0x800c_0000));
    assert_eq!(rt; devices(&mut handle, 8, 2), (DONE, 0, 99, 99, 99));
    assert_eq!(rt; devices(&mut handle, 0, 0), (DONE, 0, 99, 99, 99));
    assert_eq!(rt; events(&mut handle, 7, 0), (DONE, 1, 2, 8192, 0));
    assert_eq!(rt; events(&mut handle, 7, 3), (DONE, 0, 99, 99, 99));
    assert_eq!(rt; events(&mut handle, 8, 0), (DONE, 0, 99, 99, 99));
    assert_eq!(rt; collections(&mut handle, 0), (DONE, 1, 0, 1));
    assert_eq!(rt; collections(&mut handle, 1), (DONE, 0, 99, 99));
    assert_eq!(rt; its_free(&mut handle, alloc), DONE);
}
