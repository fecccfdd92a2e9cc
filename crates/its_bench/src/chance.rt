//! Numbers without a pattern, and calls that are made of them.
ghost use Rattle.std.specs.Prelude.{◌<◌};

use crate::asks::Ask;
use crate::guest::{mapc, mapti};
use crate::signals::DEVICES;
use its_command::Command;
use its_types::{DeviceId, EventId, Icid, Intid, Vcpu};
use std::alloc::{AllocError, Global};

/// Numbers without a pattern.
#[derive(Drop)]
pub struct Chance {
    state: u64,
}

impl Chance {
    /// Those that begin with this one.
    pub fn new(state: u64) -> Chance {
        Chance { state }
    }

    /// The next one, below a number.
    pub fn below(&mut self, count: u32) -> u32
        requires { 0 < count }
        ensures { result < count }
    {
        self.state = self
            .state
            .wrapping_mul(6_364_136_223_846_793_005)
            .wrapping_add(1_442_695_040_888_963_407);
        ((self.state >> 33) % u64::from(count)) as u32
    }

    // One of the first two devices, and one of its events.
    fn pair(&mut self) -> (DeviceId, EventId) {
        let dev = DEVICES[self.below(2) as usize];
        (dev, EventId(self.below(16)))
    }

    /// A virtual processor.
    pub fn vcpu(&mut self) -> Vcpu {
        Vcpu(self.below(4) as u16)
    }

    fn icid(&mut self) -> u16 {
        self.below(4) as u16
    }

    /// A command of the first two devices.
    pub fn command(&mut self) -> Command {
        let (dev, ev) = self.pair();
        let icid = self.icid();
        match self.below(10) {
            0 | 1 => mapti(dev, ev, Intid(8192 + self.below(200)), icid),
            2 | 3 | 4 => Command::Movi {
                dev,
                ev,
                icid: Icid(icid),
            },
            5 => Command::Discard { dev, ev },
            6 => mapc(icid, self.vcpu()),
            7 => Command::Clear { dev, ev },
            _ => Command::Int { dev, ev },
        }
    }

    /// So many signals of the first two devices to a translator.
    pub fn signals(&mut self, alloc: Global, its: u8, count: u32) -> Result<Vec<Ask>, AllocError> {
        let mut asks = Vec::new(alloc);
        for _ in 0..count {
            let (dev, ev) = self.pair();
            asks.push(Ask::Signal { its, dev, ev })?;
        }
        Ok(asks)
    }
}
