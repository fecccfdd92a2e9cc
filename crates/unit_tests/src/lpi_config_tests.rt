//! LPI configurations.
use guest_windows::Memory;
use its_types::{Addr, Intid, has_bit, put_bit};
use lpi_config::Config;
use std::test::Fail;

const BASE: Addr = Addr(0x8003_0000);

// What a configuration is told, and what it then has.
enum Act {
    // An LPI's byte that was read again.
    Reload(u32, u8),
    // The table that stands at an address.
    ReadTable(u64),
    Byte(u32, u8),
    // The enable bits of 64 LPIs, those from INTID 8192 + 64 * this on.
    Enabled(usize, u64),
}

fn reload(config: &mut Config, lpi: u32, byte: u8) -> bool {
    let intid = Intid(lpi);
    if !intid.in_range(config.lpi_bits()) {
        return false;
    }
    config.reload(intid, byte);
    true
}

fn read_table(config: &mut Config, memory: &Memory, addr: u64) -> bool {
    config.read_table(memory, Addr(addr));
    true
}

fn byte(config: &Config, lpi: u32) -> Option<u8> {
    let intid = Intid(lpi);
    if !intid.in_range(config.lpi_bits()) {
        return None;
    }
    Some(config.byte(intid))
}

fn enabled(config: &Config, at: usize) -> Option<u64> {
    if config.lpi_bits() != 14 || at >= 128 {
        return None;
    }
    Some(config.enabled_word(at))
}

fn does(config: &mut Config, memory: &Memory, act: &Act) -> bool {
    match act {
        Act::Reload(lpi, byte) => reload(config, *lpi, *byte),
        Act::ReadTable(addr) => read_table(config, memory, *addr),
        Act::Byte(lpi, want) => byte(config, *lpi) == Some(*want),
        Act::Enabled(at, want) => enabled(config, *at) == Some(*want),
    }
}

// How many of the acts are done as they say, up to the first that isn't.
fn play(config: &mut Config, memory: &Memory, acts: &[Act]) -> usize {
    for (at, act) in acts.iter().enumerate() {
        if !does(config, memory, act) {
            return at;
        }
    }
    acts.len()
}

const ACTS: [Act; 11] = [
    Act::Byte(8200, 0xa1),
    Act::Byte(8201, 0xa2),
    Act::Enabled(0, 0x500),
    Act::Enabled(127, 1 << 63),
    Act::Reload(8200, 0xa0),
    Act::Reload(8255, 0x05),
    Act::ReadTable(0x8003_0001),
    Act::Byte(8255, 0x05),
    Act::Enabled(0, 0x8000_0000_0000_0400),
    Act::ReadTable(0x8003_0000),
    Act::Enabled(0, 0x500),
];

#[test]
fn bytes_and_enable_bits_of_a_table(rt: HostRuntime) -> Result<(), Fail> {
    let mut memory = Memory::new(rt.alloc(), &[(BASE, 8192)])?;
    let front = memory.write(Addr(0x8003_0008), &[0xa1, 0xa2, 0x03]).is_ok();
    let end = memory.write(Addr(0x8003_1fff), &[0x01]).is_ok();
    assert!(rt; front && end && memory.inside(BASE, 8192));
    let mut config = Config::load(rt.alloc(), &memory, BASE, 14)?;
    assert_eq!(rt; play(&mut config, &memory, &ACTS), 11);
    Ok(())
}

#[test]
fn off_is_all_zeros(rt: HostRuntime) -> Result<(), Fail> {
    let config = Config::zeros(rt.alloc(), 16)?;
    let byte = config.byte(Intid(65535));
    let enabled = config.enabled_word(895);
    assert!(rt; config.lpi_bits() == 16 && byte == 0 && enabled == 0);
    Ok(())
}

#[test]
fn bits_in_words(rt: HostRuntime) {
    let mut words = [0, 0];
    put_bit(&mut words, 64, true);
    put_bit(&mut words, 127, true);
    put_bit(&mut words, 127, false);
    let has = [
        has_bit(&words, 0),
        has_bit(&words, 64),
        has_bit(&words, 127),
    ];
    assert_eq!(rt; (words, has), ([0, 1], [false, true, false]));
}
