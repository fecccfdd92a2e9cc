//! Configuration bytes of some LPIs, read again by all virtual processors.
ghost use Rattle.std.specs.Prelude.{◌≡◌, ◌+◌, ◌-◌, ◌≤◌, true, Some, None, All, length, take};
ghost use Rattle.guest_windows.specs.Windows.{byte_at};
ghost use Rattle.its_types.specs.Ranges.{is_lpi};
ghost use Rattle.its_plain.specs.Commands.{conf_all_reread_at};
ghost use Rattle.lpi_config.specs.Conf.{conf_state};
ghost use Rattle.cmd_exec.specs.InHand.{conf_as, conf_by, confs_changed, CanRereadAll};
ghost use Rattle.cmd_exec.specs.Ready.{CanEachReread};
ghost use Rattle.cmd_exec.specs.Reloaded.{numbers, bytes_of, reloaded, with_read, CanRead};
ghost use Rattle.cmd_exec.specs.LastRead.{IsReadOf};

use guest_windows::Memory;
use its_types::{Addr, Intid, Vcpu};
use lpi_config::Conf;
use lpi_pending::Redists;

/// Each of the first virtual processors reads these LPIs again, at most 64. The bytes of a table
/// that several have one after another are read once.
#[tactic(auto, unfolding(crate::specs::InHand::confs_changed))]
pub fn reread_batch(redists: &mut Redists, vcpus: u16, memory: &Memory, intids: &[Intid])
    requires each { CanEachReread vcpus redists.old (numbers intids.now) }
    requires most { length intids.now ≤ 64 }
    ensures { redists.new
        ≡ confs_changed vcpus (conf_all_reread_at memory.now (numbers intids.now)) redists.old }
{
    let mut last = LastRead::nothing();
    for vcpu in 0..vcpus {
        let conf = redists.conf_mut(Vcpu(vcpu));
        reread_all(conf, memory, intids, &mut last);
    }
}

// One reads them again, if its LPIs are on.
fn reread_all(conf: &mut Conf, memory: &Memory, intids: &[Intid], last: &mut LastRead)
    requires can { CanRereadAll conf.old (numbers intids.now) }
    requires most { length intids.now ≤ 64 }
    requires last { IsReadOf memory.now intids.now last.old }
    ensures conf { conf.new
        ≡ conf_by (conf_all_reread_at memory.now (numbers intids.now)) conf.old }
    ensures last { IsReadOf memory.now intids.now last.new }
{
    if !conf.bases().on {
        return;
    }
    let table = conf.bases().prop.table;
    last.read(memory, table, intids);
    reload_each(conf, intids, &last.bytes[..intids.len()]);
}

// What was read last: the bytes of some LPIs, each if a window has it, and of which table.
#[derive(Drop)]
struct LastRead {
    table: Option<Addr>,
    bytes: [Option<u8>; 64],
}

impl LastRead {
    fn nothing() -> LastRead
        ensures { result.table ≡ None }
    {
        LastRead {
            table: None,
            bytes: [None; 64],
        }
    }

    // Those of the table that begins at an address. They are there already where it is the same.
    fn read(&mut self, memory: &Memory, table: Addr, intids: &[Intid])
        requires can { All (CanRead table.0) intids.now }
        requires most { length intids.now ≤ 64 }
        requires last { IsReadOf memory.now intids.now self.old }
        ensures table { self.new.table ≡ Some table }
        ensures last { IsReadOf memory.now intids.now self.new }
    {
        if self.table == Some(table) {
            return;
        }
        read_bytes(memory, table, intids, &mut self.bytes);
        self.table = Some(table);
    }
}

// The byte of each in the table that begins at an address, if a window has it.
fn read_bytes(memory: &Memory, table: Addr, intids: &[Intid], bytes: &mut [Option<u8>; 64])
    requires can { All (CanRead table.0) intids.now }
    requires most { length intids.now ≤ 64 }
    ensures { take (length intids.now) bytes.new ≡ bytes_of memory.now table.0 intids.now }
{
    for at in 0..intids.len() {
        bytes[at] = table_byte(memory, table, intids[at]);
    }
}

// An LPI's byte in the table that begins at an address, if a window has it.
fn table_byte(memory: &Memory, table: Addr, intid: Intid) -> Option<u8>
    requires { CanRead table.0 intid }
    ensures { result ≡ byte_at memory.now (table.0 + (intid.0 - 8192)) }
{
    let place = u64::from(intid.0 - 8192);
    memory.read_u8(Addr(table.0 + place)).ok()
}

// Replaces the byte of each by one that was read, if it was.
fn reload_each(conf: &mut Conf, intids: &[Intid], bytes: &[Option<u8>])
    requires on { conf.old.bases.on ≡ true }
    requires lpis { All (λ x. is_lpi conf.old.config.lpi_bits x.0 ≡ true) intids.now }
    requires size { length bytes.now ≡ length intids.now }
    ensures { conf.new ≡ conf_by (reloaded intids.now bytes.now) conf.old }
{
    for at in 0..intids.len() {
        reload_one(conf, intids[at], bytes[at]);
    }
}

// That of one. Mostly it is the same.
fn reload_one(conf: &mut Conf, intid: Intid, byte: Option<u8>)
    requires on { conf.old.bases.on ≡ true }
    requires lpi { is_lpi conf.old.config.lpi_bits intid.0 ≡ true }
    ensures { conf.new ≡ conf_as conf.old (with_read intid.0 (conf_state conf.old) byte) }
{
    let Some(byte) = byte else {
        return;
    };
    if conf.byte(intid) != byte {
        conf.reload(intid, byte);
    }
}
