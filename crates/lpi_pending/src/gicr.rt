//! The LPI registers of a redistributor, and what their writes make it read (IHI 0069, section
//! 12.11).
ghost use Rattle.std.specs.Prelude.{◌≡◌, true, false, List, IfOk, IfErr, if◌then◌else◌};
ghost use Rattle.gicr_regs.specs.Registers.{AreLow, Sets};
ghost use Rattle.gicr_regs.specs.Registers as spec;
ghost use Rattle.guest_windows.specs.Windows.{Window};
ghost use Rattle.its_types.specs.declared.machine.Shape.{Shape};
ghost use Rattle.lpi_config.specs.Conf.{conf_state};
ghost use Rattle.lpi_pending.specs.InHand.{redistributor_of, HasLpisOfConf, HasLpisOfPend};
ghost use Rattle.lpi_pending.specs.Rooms.{IsRoom, HasRoomFor, is_enable};

use crate::pend::Pend;
use crate::pending::Pending;
use gicr_regs::{GicrWrite, asked_by, read_gicr};
use guest_windows::Memory;
use its_types::{Addr, Bases, FIRST_LPI, Intid, Shape};
use lpi_config::{Conf, Config};
use std::alloc::AllocError;

/// A read of `size` bytes at an offset of a redistributor's LPI registers: of 8 bytes a base, of 4
/// GICR_CTLR or half of a base. Everything else reads zero, as Pending Table Zero does.
pub fn gicr_read(linux: bool, conf: &Conf, off: u32, size: u8) -> u64
    requires { AreLow conf.now.bases }
    ensures { result ≡ spec.read_gicr linux conf.now.bases off size }
{
    read_gicr(linux, conf.bases(), off, size)
}

// What a write asks for. Bases that it gives are of LPIs that are on or off as before.
fn asked(conf: &Conf, off: u32, size: u8, value: u64) -> GicrWrite
    requires { AreLow conf.now.bases }
    ensures asked { result ≡ spec.asked_by conf.now.bases off size value }
    ensures low { Sets AreLow result }
    ensures same { Sets (λ b. b.on ≡ conf.now.bases.on) result }
{
    asked_by(conf.bases(), off, size, value)
}

/// Whether a write of `size` bytes at an offset asks to turn LPIs on or off, so that it changes
/// what is pending too.
pub fn changes_pending(conf: &Conf, off: u32, size: u8, value: u64) -> bool
    requires { AreLow conf.now.bases }
    ensures { result ≡ spec.changes_pending (spec.asked_by conf.now.bases off size value) }
{
    match asked(conf, off, size, value) {
        GicrWrite::Enable | GicrWrite::Disable => true,
        GicrWrite::Ignored | GicrWrite::SetBases(_) | GicrWrite::Reread(_) | GicrWrite::RereadAll =>
            false,
    }
}

/// Whether it asks to read the redistributor's tables, so that it needs guest memory.
pub fn reads_tables(conf: &Conf, off: u32, size: u8, value: u64) -> bool
    requires { AreLow conf.now.bases }
    ensures { result ≡ spec.reads_tables (spec.asked_by conf.now.bases off size value) }
{
    match asked(conf, off, size, value) {
        GicrWrite::Enable | GicrWrite::Reread(_) | GicrWrite::RereadAll => true,
        GicrWrite::Ignored | GicrWrite::SetBases(_) | GicrWrite::Disable => false,
    }
}

/// Memory for the configuration and the pending set of a redistributor whose LPIs are turned on.
#[derive(Drop)]
pub struct LpiRoom {
    config: Config,
    pending: Pending,
}

/// The memory that a write of `size` bytes at an offset takes: some where it asks to turn LPIs on.
pub fn room_for(
    conf: &Conf,
    pend: &Pend,
    off: u32,
    size: u8,
    value: u64,
) -> Result<Option<LpiRoom>, AllocError>
    requires low { AreLow conf.now.bases }
    requires same { pend.now.pending.lpi_bits ≡ conf.now.config.lpi_bits }
    ensures room { IfOk result (HasRoomFor conf.now.config.lpi_bits
        (spec.asked_by conf.now.bases off size value)) }
    ensures rare { IfErr result (λ _.
        is_enable (spec.asked_by conf.now.bases off size value) ≡ true) }
{
    match asked(conf, off, size, value) {
        GicrWrite::Enable => Ok(Some(LpiRoom {
            config: conf.room()?,
            pending: pend.room()?,
        })),
        GicrWrite::Ignored
        | GicrWrite::SetBases(_)
        | GicrWrite::Disable
        | GicrWrite::Reread(_)
        | GicrWrite::RereadAll => Ok(None),
    }
}

/// A write of `size` bytes at an offset of a redistributor's LPI registers: what it asks for
/// (`asked_by`) is done. Where LPIs are turned on, the configuration is read, and the pending bits
/// unless Pending Table Zero is set; the room is what `room_for` gave for the same write.
#[tactic(auto, unfolding(gicr_regs::specs::Registers::written_gicr, gicr_regs::specs::Registers::done_by))]
pub fn gicr_write(
    conf: &mut Conf,
    pend: &mut Pend,
    memory: &Memory,
    shape: &Shape,
    off: u32,
    size: u8,
    value: u64,
    room: Option<LpiRoom>,
)
    requires low { AreLow conf.old.bases }
    requires conf_lpis { HasLpisOfConf shape.now conf.old }
    requires pend_lpis { HasLpisOfPend shape.now pend.old }
    requires room { HasRoomFor shape.now.lpi_bits (spec.asked_by conf.old.bases off size value)
        room }
    ensures written { redistributor_of conf.new pend.new ≡ spec.written_gicr shape.now memory.now
        (redistributor_of conf.old pend.old) off size value }
    ensures low { AreLow conf.new.bases }
    ensures conf_lpis { HasLpisOfConf shape.now conf.new }
    ensures pend_lpis { HasLpisOfPend shape.now pend.new }
{
    match asked(conf, off, size, value) {
        GicrWrite::Ignored => {}
        GicrWrite::SetBases(bases) => conf.set_bases(bases),
        GicrWrite::Enable => match room {
            Some(room) => turn_on(conf, pend, memory, shape, room),
            None => unreachable!(),
        },
        GicrWrite::Disable => turn_off(conf, pend, shape),
        GicrWrite::Reread(intid) => reread(conf, memory, shape, intid),
        GicrWrite::RereadAll => reload(conf, memory, shape),
    }
}

/// The same, where the write doesn't ask to read a table: it needs no memory.
#[tactic(auto, unfolding(gicr_regs::specs::Registers::written_gicr, gicr_regs::specs::Registers::done_by))]
pub fn turn_off_write(
    conf: &mut Conf,
    pend: &mut Pend,
    shape: &Shape,
    off: u32,
    size: u8,
    value: u64,
)
    requires low { AreLow conf.old.bases }
    requires conf_lpis { HasLpisOfConf shape.now conf.old }
    requires pend_lpis { HasLpisOfPend shape.now pend.old }
    requires no_table { spec.reads_tables (spec.asked_by conf.old.bases off size value) ≡ false }
    ensures written { (memory : List Window)
        → redistributor_of conf.new pend.new ≡ spec.written_gicr shape.now memory
        (redistributor_of conf.old pend.old) off size value }
    ensures low { AreLow conf.new.bases }
    ensures conf_lpis { HasLpisOfConf shape.now conf.new }
    ensures pend_lpis { HasLpisOfPend shape.now pend.new }
{
    match asked(conf, off, size, value) {
        GicrWrite::Ignored => {}
        GicrWrite::SetBases(bases) => conf.set_bases(bases),
        GicrWrite::Disable => turn_off(conf, pend, shape),
        GicrWrite::Enable | GicrWrite::Reread(_) | GicrWrite::RereadAll => unreachable!(),
    }
}

/// The same, where the write asks to turn LPIs neither on nor off: it needs nothing of what is
/// pending.
#[tactic(auto, unfolding(gicr_regs::specs::Registers::conf_done_by))]
pub fn conf_write(conf: &mut Conf, memory: &Memory, shape: &Shape, off: u32, size: u8, value: u64)
    requires low { AreLow conf.old.bases }
    requires lpis { HasLpisOfConf shape.now conf.old }
    requires not_pending { spec.changes_pending (spec.asked_by conf.old.bases off size value) ≡ false }
    ensures written { conf_state conf.new ≡ spec.conf_done_by shape.now memory.now
        (spec.asked_by conf.old.bases off size value) (conf_state conf.old) }
    ensures low { AreLow conf.new.bases }
    ensures lpis { HasLpisOfConf shape.now conf.new }
{
    match asked(conf, off, size, value) {
        GicrWrite::Ignored => {}
        GicrWrite::SetBases(bases) => conf.set_bases(bases),
        GicrWrite::Reread(intid) => reread(conf, memory, shape, intid),
        GicrWrite::RereadAll => reload(conf, memory, shape),
        GicrWrite::Enable | GicrWrite::Disable => unreachable!(),
    }
}

/// The same, where it doesn't ask to read a table either: it needs no memory.
#[tactic(auto, unfolding(gicr_regs::specs::Registers::conf_done_by))]
pub fn conf_set(conf: &mut Conf, off: u32, size: u8, value: u64)
    requires low { AreLow conf.old.bases }
    requires not_pending { spec.changes_pending (spec.asked_by conf.old.bases off size value) ≡ false }
    requires no_table { spec.reads_tables (spec.asked_by conf.old.bases off size value) ≡ false }
    ensures written { (shape : Shape) (memory : List Window)
        → conf_state conf.new ≡ spec.conf_done_by shape memory
        (spec.asked_by conf.old.bases off size value) (conf_state conf.old) }
    ensures low { AreLow conf.new.bases }
    ensures config { conf.new.config ≡ conf.old.config }
{
    match asked(conf, off, size, value) {
        GicrWrite::Ignored => {}
        GicrWrite::SetBases(bases) => conf.set_bases(bases),
        GicrWrite::Enable | GicrWrite::Disable | GicrWrite::Reread(_) | GicrWrite::RereadAll =>
            unreachable!(),
    }
}

// LPIs are on from now on, where both tables lie in memory.
#[tactic(auto, unfolding(gicr_regs::specs::Registers::done_by, gicr_regs::specs::Registers::turned_on))]
fn turn_on(conf: &mut Conf, pend: &mut Pend, memory: &Memory, shape: &Shape, room: LpiRoom)
    requires conf_lpis { HasLpisOfConf shape.now conf.old }
    requires pend_lpis { HasLpisOfPend shape.now pend.old }
    requires room { IsRoom shape.now.lpi_bits room }
    ensures done { redistributor_of conf.new pend.new ≡ spec.done_by shape.now memory.now
        GicrWrite.Enable (redistributor_of conf.old pend.old) }
    ensures low { AreLow conf.old.bases → AreLow conf.new.bases }
    ensures conf_lpis { HasLpisOfConf shape.now conf.new }
    ensures pend_lpis { HasLpisOfPend shape.now pend.new }
{
    let Bases {
        prop,
        pend: table,
        ..
    } = *conf.bases();
    let lpi_bits = pend.lpi_bits();
    prove!(lpi_bits == shape.lpi_bits);
    if memory.inside(prop.table, shape.lpi_count())
        && memory.inside(table.table, shape.pending_bytes())
    {
        conf.turn_on(memory, room.config);
        pend.turn_on(memory, table, room.pending);
    }
}

// LPIs are off from now on, where the machine lets them.
fn turn_off(conf: &mut Conf, pend: &mut Pend, shape: &Shape)
    requires conf_lpis { HasLpisOfConf shape.now conf.old }
    requires pend_lpis { HasLpisOfPend shape.now pend.old }
    ensures done { redistributor_of conf.new pend.new ≡ (if shape.now.linux
        then spec.turned_off shape.now (redistributor_of conf.old pend.old)
        else redistributor_of conf.old pend.old) }
    ensures low { AreLow conf.old.bases → AreLow conf.new.bases }
    ensures conf_lpis { HasLpisOfConf shape.now conf.new }
    ensures pend_lpis { HasLpisOfPend shape.now pend.new }
{
    if shape.linux {
        conf.turn_off();
        pend.turn_off();
    }
}

// Reads the configuration of an LPI again, where LPIs are on.
#[tactic(auto, unfolding(gicr_regs::specs::Registers::conf_done_by, gicr_regs::specs::Redistributors::conf_reread_at))]
fn reread(conf: &mut Conf, memory: &Memory, shape: &Shape, intid: Intid)
    requires low { AreLow conf.old.bases }
    requires lpis { HasLpisOfConf shape.now conf.old }
    ensures done { conf_state conf.new ≡ spec.conf_done_by shape.now memory.now
        (GicrWrite.Reread intid) (conf_state conf.old) }
    ensures bases { conf.new.bases ≡ conf.old.bases }
    ensures lpis { HasLpisOfConf shape.now conf.new }
{
    if !intid.in_range(shape.lpi_bits) || !conf.bases().on {
        return;
    }
    let place = u64::from(intid.0 - FIRST_LPI);
    if let Ok(byte) = memory.read_u8(Addr(conf.bases().prop.table.0 + place)) {
        conf.reload(intid, byte);
    }
}

// Reads that of all LPIs again.
#[tactic(auto, unfolding(gicr_regs::specs::Registers::conf_done_by))]
fn reload(conf: &mut Conf, memory: &Memory, shape: &Shape)
    requires { HasLpisOfConf shape.now conf.old }
    ensures done { conf_state conf.new ≡ spec.conf_done_by shape.now memory.now GicrWrite.RereadAll
        (conf_state conf.old) }
    ensures bases { conf.new.bases ≡ conf.old.bases }
    ensures lpis { HasLpisOfConf shape.now conf.new }
{
    let _ = shape;
    conf.reread(memory);
}
