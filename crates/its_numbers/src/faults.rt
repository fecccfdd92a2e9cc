//! Faults with all their numbers.
ghost use Rattle.std.specs.Prelude.{◌≡◌};
ghost use Rattle.its_numbers.specs.Faults as spec;

use gits_regs::{Register, offsets};
use its_plain::{DescFault, Region, RestoreFault, SaveFault, Table};

/// Why the state can't be saved. Numbers that a kind doesn't name are 0.
#[repr(C)]
#[derive(Clone, Copy)]
pub struct SaveFaultOut {
    /// 1: the level-1 entry of `device` isn't valid. 2: `region` doesn't lie in one window. 3:
    /// `region` and `other_region` share a byte, and one of them is written.
    pub kind: u32,
    /// The translator, of kind 1 and of a region that is a translator's.
    pub translator: u32,
    /// A DeviceID, of kind 1.
    pub device: u32,
    /// 1 the flat device table, 2 the first level of a device table, 3 a page of its second level,
    /// 4 the collection table, 5 a device's interrupt translation table, 6 a pending table, 7 the
    /// configuration table of all, 8 a virtual processor's own, 9 the command queue.
    pub region: u32,
    /// Of region 3 the level-1 entry, of 5 the device, of 6 and 8 the virtual processor.
    pub number: u32,
    /// The second region of kind 3, numbered as `region` is.
    pub other_region: u32,
    /// Its number, as `number` is that of `region`.
    pub other_number: u32,
    /// The translator that it is of, if it is a translator's.
    pub other_translator: u32,
}

/// Why a description makes no machine: the first that applies. Numbers that a kind doesn't name are
/// 0.
#[repr(C)]
#[derive(Clone, Copy)]
pub struct MakeFaultOut {
    /// Of the description: 1 no memory can have the windows; 2 the configuration table doesn't lie
    /// in one window; 3 the pending table of `vcpu` doesn't; 4 the fill `number`, from 0, doesn't.
    ///
    /// Of what is restored: 5 the entry at `address` doesn't lie in one window; 6 `device` has more
    /// than 16 EventID bits; 7 the interrupt `intid` of `device` and `event` is no LPI; 8 entry
    /// `entry` of `table` leads `distance` entries on, past its end; 9 `collection` goes to
    /// `number`, which is no virtual processor; 10 `collection` has two entries; 11 the value for
    /// the register at `register_offset` can't stand beside the others; 12 `collection` has no
    /// place in the table; 13 a table of the redistributor of `vcpu` doesn't lie in one window.
    ///
    /// 14 the frames of `translator` end past 2^52, or share a byte with a window or with the other
    /// frames; 15 element `number` of the requesters is out of range or meets another.
    pub kind: u32,
    /// The translator whose restore failed, or whose frames lie where they cannot.
    pub translator: u32,
    /// The number of a virtual processor.
    pub vcpu: u32,
    /// A DeviceID.
    pub device: u32,
    /// An EventID.
    pub event: u32,
    /// An INTID that is no LPI's.
    pub intid: u32,
    /// An ICID.
    pub collection: u32,
    /// 1 the device table, 2 the interrupt translation table of `device`.
    pub table: u32,
    /// Counted from 0, in the table.
    pub entry: u32,
    /// In entries.
    pub distance: u32,
    /// In bytes, from the beginning of the translator's control frame.
    pub register_offset: u32,
    /// Of kind 4 a fill, and of 15 an element, counted from 0; of kind 9 a processor's number as
    /// the entry has it.
    pub number: u64,
    /// A guest physical address.
    pub address: u64,
}

// A region's kind, and its number among those of the kind.
fn region_numbers(region: Region) -> (u32, u32)
    ensures { result ≡ spec.region_numbers region }
{
    match region {
        Region::Devices(_) => (1, 0),
        Region::Level1(_) => (2, 0),
        Region::Page(_, entry) => (3, entry),
        Region::Collections(_) => (4, 0),
        Region::Itt(_, device) => (5, device.0),
        Region::Pending(vcpu) => (6, u32::from(vcpu.0)),
        Region::Config => (7, 0),
        Region::ConfigOf(vcpu) => (8, u32::from(vcpu.0)),
        Region::Queue(_) => (9, 0),
    }
}

// The translator that a region is of, or 0.
fn translator_of(region: Region) -> u32
    ensures { result ≡ spec.translator_of region }
{
    match region {
        Region::Devices(its) => u32::from(its),
        Region::Level1(its) => u32::from(its),
        Region::Page(its, _) => u32::from(its),
        Region::Collections(its) => u32::from(its),
        Region::Itt(its, _) => u32::from(its),
        Region::Queue(its) => u32::from(its),
        Region::Pending(_) | Region::Config | Region::ConfigOf(_) => 0,
    }
}

/// Why a state can't be saved.
pub fn save_fault_out(fault: SaveFault) -> SaveFaultOut
    ensures { result ≡ spec.save_fault_out fault }
{
    let mut out = SaveFaultOut {
        kind: 1,
        translator: 0,
        device: 0,
        region: 0,
        number: 0,
        other_region: 0,
        other_number: 0,
        other_translator: 0,
    };
    match fault {
        SaveFault::NoPlace(its, device) => {
            out.translator = u32::from(its);
            out.device = device.0;
        }
        SaveFault::Outside(region) => {
            out.kind = 2;
            out.translator = translator_of(region);
            (out.region, out.number) = region_numbers(region);
        }
        SaveFault::Overlap(region, other) => {
            out.kind = 3;
            out.translator = translator_of(region);
            (out.region, out.number) = region_numbers(region);
            (out.other_region, out.other_number) = region_numbers(other);
            out.other_translator = translator_of(other);
        }
    }
    out
}

/// What no fault tells.
pub const NO_FAULT: MakeFaultOut = MakeFaultOut {
    kind: 0,
    translator: 0,
    vcpu: 0,
    device: 0,
    event: 0,
    intid: 0,
    collection: 0,
    table: 0,
    entry: 0,
    distance: 0,
    register_offset: 0,
    number: 0,
    address: 0,
};

/// Why a description makes no machine.
pub fn make_fault_out(fault: DescFault) -> MakeFaultOut
    ensures { result ≡ spec.make_fault_out fault }
{
    match fault {
        DescFault::Windows => MakeFaultOut {
            kind: 1,
            ..NO_FAULT
        },
        DescFault::Config => MakeFaultOut {
            kind: 2,
            ..NO_FAULT
        },
        DescFault::Pending(vcpu) => MakeFaultOut {
            kind: 3,
            vcpu: u32::from(vcpu.0),
            ..NO_FAULT
        },
        DescFault::Bytes(number) => MakeFaultOut {
            kind: 4,
            number,
            ..NO_FAULT
        },
        DescFault::Frames(its) => MakeFaultOut {
            kind: 14,
            translator: u32::from(its),
            ..NO_FAULT
        },
        DescFault::Requesters(number) => MakeFaultOut {
            kind: 15,
            number,
            ..NO_FAULT
        },
        DescFault::Restore(its, offence) => MakeFaultOut {
            translator: u32::from(its),
            ..restore_fault_out(offence)
        },
    }
}

// Why what was given to be restored can't be.
fn restore_fault_out(fault: RestoreFault) -> MakeFaultOut
    ensures { result ≡ spec.restore_fault_out fault }
{
    match fault {
        RestoreFault::OutsideTable(address) => MakeFaultOut {
            kind: 5,
            address: address.0,
            ..NO_FAULT
        },
        RestoreFault::BadSize(device) => MakeFaultOut {
            kind: 6,
            device: device.0,
            ..NO_FAULT
        },
        RestoreFault::BadIntid(device, event, intid) => MakeFaultOut {
            kind: 7,
            device: device.0,
            event: event.0,
            intid: intid.0,
            ..NO_FAULT
        },
        RestoreFault::PastEnd(table, entry, distance) => past_end_out(table, entry, distance),
        RestoreFault::NotValid(register) => MakeFaultOut {
            kind: 11,
            register_offset: offset_of(register),
            ..NO_FAULT
        },
        RestoreFault::BadRedist(vcpu) => MakeFaultOut {
            kind: 13,
            vcpu: u32::from(vcpu.0),
            ..NO_FAULT
        },
        RestoreFault::BadTarget(collection, number) => MakeFaultOut {
            kind: 9,
            collection: u32::from(collection.0),
            number,
            ..NO_FAULT
        },
        RestoreFault::DoubleCollection(collection) => MakeFaultOut {
            kind: 10,
            collection: u32::from(collection.0),
            ..NO_FAULT
        },
        RestoreFault::BadCollection(collection) => MakeFaultOut {
            kind: 12,
            collection: u32::from(collection.0),
            ..NO_FAULT
        },
    }
}

// An entry that leads past the end of its table.
fn past_end_out(table: Table, entry: u32, distance: u32) -> MakeFaultOut
    ensures { result ≡ spec.past_end_out table entry distance }
{
    let (table, device) = match table {
        Table::Devices => (1, 0),
        Table::Itt(device) => (2, device.0),
    };
    MakeFaultOut {
        kind: 8,
        device,
        table,
        entry,
        distance,
        ..NO_FAULT
    }
}

// Where a register is in the control frame (IHI 0069, section 12.19).
fn offset_of(register: Register) -> u32
    ensures { result ≡ spec.offset_of register }
{
    match register {
        Register::Cbaser => offsets::CBASER,
        Register::Creadr => offsets::CREADR,
        Register::Cwriter => offsets::CWRITER,
        Register::Baser0 => offsets::BASER0,
        Register::Baser1 => offsets::BASER1,
    }
}
