//! Lists that a caller lends: the first of what there is is told, as much as a list takes.
ghost use Rattle.std.specs.Prelude.{◌≡◌, length, map};
ghost use Rattle.guest_windows.specs.Fields.{pairs};
ghost use Rattle.its_numbers.specs.Lists.{HasFirst, HasFirstOf, SameFrom, SameRest, stretch_out};

use its_types::{Addr, Intid};

/// A stretch of guest memory.
#[repr(C)]
#[derive(Clone, Copy)]
pub struct StretchOut {
    /// A guest physical address.
    pub address: u64,
    /// In bytes.
    pub length: u64,
}

/// As many of the LPIs as the list takes, whose rest stays.
pub fn put_lpis(lpis: &[Intid], list: &mut [u32])
    ensures told { HasFirst (map (λ i. i.0) lpis.now) list.new }
    ensures rest { SameFrom (length lpis.now) list.old list.new }
    ensures length { length list.new ≡ length list.old }
{
    let mut at = 0;
    while at < lpis.len() && at < list.len() {
        list[at] = lpis[at].0;
        at += 1;
    }
}

/// As many of the tables as the list takes, each by its address and its length in bytes. The list's
/// rest stays.
pub fn put_tables(tables: &[(Addr, u64)], list: &mut [StretchOut])
    ensures told { HasFirstOf (map stretch_out (pairs tables.now)) list.new }
    ensures rest { SameRest (length tables.now) list.old list.new }
    ensures length { length list.new ≡ length list.old }
{
    let mut at = 0;
    while at < tables.len() && at < list.len() {
        list[at] = StretchOut {
            address: tables[at].0.0,
            length: tables[at].1,
        };
        at += 1;
    }
}
