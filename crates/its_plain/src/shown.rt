//! How stretches of guest memory and tables are shown to people.
use crate::fault::{Region, Table};
use std::fmt;

impl fmt::Display for Region {
    fn fmt<W: fmt::Write>(&self, f: &mut fmt::Formatter<W>) -> fmt::Result {
        match self {
            Region::Devices(its) => write!(f, "the device table of translator {}", its),
            Region::Level1(its) => write!(f, "the level-1 device table of translator {}", its),
            Region::Page(its, entry) => {
                write!(
                    f,
                    "the page of level-1 entry {} of translator {}",
                    entry, its
                )
            }
            Region::Collections(its) => write!(f, "the collection table of translator {}", its),
            Region::Itt(its, dev) => {
                write!(
                    f,
                    "the interrupt table of device {} of translator {}",
                    dev, its
                )
            }
            Region::Pending(vcpu) => write!(f, "the pending table of processor {}", vcpu),
            Region::Config => write!(f, "the configuration table"),
            Region::ConfigOf(vcpu) => write!(f, "the configuration table of processor {}", vcpu),
            Region::Queue(its) => write!(f, "the command queue of translator {}", its),
        }
    }
}

impl fmt::Display for Table {
    fn fmt<W: fmt::Write>(&self, f: &mut fmt::Formatter<W>) -> fmt::Result {
        match self {
            Table::Devices => write!(f, "the device table"),
            Table::Itt(dev) => write!(f, "the interrupt table of device {}", dev),
        }
    }
}
