//! Commands and their bytes.
use its_command::{Command, EventIdBits, IttAddr, decode, encode};
use its_types::DeviceId;

// MAPD of device 16, 5 EventID bits, table at 0x800C0000, with zeros at its free bits and with
// ones
const PLAIN: [u8; 32] = [
    0x08, 0, 0, 0, 0x10, 0, 0, 0, 0x04, 0, 0, 0, 0, 0, 0, 0, 0, 0, 0x0C, 0x80, 0, 0, 0, 0x80, 0, 0,
    0, 0, 0, 0, 0, 0,
];

const FULL: [u8; 32] = [
    0x08, 0xFF, 0xFF, 0xFF, 0x10, 0, 0, 0, 0xE4, 0xFF, 0xFF, 0xFF, 0xFF, 0xFF, 0xFF, 0xFF, 0xFF, 0,
    0x0C, 0x80, 0, 0, 0xF0, 0xFF, 0xFF, 0xFF, 0xFF, 0xFF, 0xFF, 0xFF, 0xFF, 0xFF,
];

#[test]
fn reserved_bits_are_free(rt: HostRuntime) {
    let mapd = Command::Mapd {
        dev: DeviceId(16),
        bits: EventIdBits::new(5),
        itt: IttAddr::new(0x800C_0000),
        valid: true,
    };
    assert_eq!(rt; [decode(&PLAIN), decode(&FULL)], [mapd; 2]);
    assert_eq!(rt; encode(&mapd), PLAIN);
}
