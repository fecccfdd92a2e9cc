//! Descriptions as a caller in another language gives them.

/// What a machine is made from, but for its lists.
#[repr(C)]
#[derive(Clone, Copy)]
pub struct DescriptionIn {
    /// How many virtual processors there are: 1 to 512.
    pub vcpus: u32,
    /// How many bits a DeviceID has: 16 to 20.
    pub device_bits: u32,
    /// How many bits the INTID of an LPI has: 14 to 20.
    pub lpi_bits: u32,
    /// What a MAPC of a mapped collection does with pending LPIs: 1 they stay, 2 they move.
    pub profile: u32,
    /// 0: LPIs are on at the configuration table and the pending tables given. 1: the guest
    /// programs the LPI registers of the redistributors.
    pub programmed: u32,
    /// 0: all translators are at reset. 1: all are restored from guest memory and their registers.
    /// 2: so, and KVM saved the tables: a pending bit counts only where an event leads its LPI to
    /// that virtual processor, since KVM leaves bits behind where LPIs were before they moved.
    pub restored: u32,
    /// 1: the machine has what a Linux guest counts on. 0: it hasn't.
    pub linux_guest: u32,
    /// Where the configuration table is, if the guest doesn't program it.
    pub config: u64,
    /// How many events each translator may map; 2^64 - 1: as many as there are.
    pub event_limit: u64,
    /// How many devices each translator may map; 2^64 - 1: as many as there are.
    pub device_limit: u64,
    /// How many bytes of guest memory may be held; 2^64 - 1: as many as are written.
    pub memory_limit: u64,
}

/// A translator of a machine, of which there are one or two.
#[repr(C)]
#[derive(Clone, Copy)]
pub struct TranslatorIn {
    /// 1: devices write to it by address, and `frames` says where. 0: they don't.
    pub has_frames: u32,
    /// Where its two frames of 64 KiB are, if devices write by address.
    pub frames: u64,
    /// The registers to restore: GITS_CTLR, of which bit 0 counts.
    pub ctlr: u64,
    /// GITS_CBASER.
    pub cbaser: u64,
    /// GITS_CREADR, a byte offset in the queue.
    pub creadr: u64,
    /// GITS_CWRITER, a byte offset in the queue.
    pub cwriter: u64,
    /// GITS_BASER0, of the device table.
    pub baser0: u64,
    /// GITS_BASER1, of the collection table.
    pub baser1: u64,
}

/// A window of guest memory, which is all zeros at first.
#[repr(C)]
#[derive(Clone, Copy)]
pub struct WindowIn {
    /// A guest physical address.
    pub base: u64,
    /// In bytes.
    pub length: u64,
}

/// Bytes that guest memory has at first, which are the next in the list of all bytes.
#[repr(C)]
#[derive(Clone, Copy)]
pub struct FillIn {
    /// A guest physical address.
    pub address: u64,
    /// How many bytes.
    pub length: u64,
}

/// The LPI registers of a redistributor, as they are restored.
#[repr(C)]
#[derive(Clone, Copy)]
pub struct RedistributorIn {
    /// GICR_CTLR, of which bit 0 counts.
    pub ctlr: u64,
    /// GICR_PROPBASER.
    pub propbaser: u64,
    /// GICR_PENDBASER. Bit 62, Pending Table Zero, is taken as it is given.
    pub pendbaser: u64,
}

/// Which devices some requesters are.
#[repr(C)]
#[derive(Clone, Copy)]
pub struct RequestersIn {
    /// The first of them.
    pub first: u32,
    /// The last of them.
    pub last: u32,
    /// The device that the first is. Those after it are the devices after that.
    pub device: u32,
}
