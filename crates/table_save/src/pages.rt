//! The pages of a device table of two levels.

ghost use Rattle.std.specs.Prelude.{◌≡◌, ◌<◌, ◌^◌, true, take, IfSome};
ghost use Rattle.std.specs.Option.{option_map};
ghost use Rattle.gits_regs.specs.Registers.{is_indirect};
ghost use Rattle.baser_place.specs.Places as places;
ghost use Rattle.table_save.specs.Tables.{ArePages, address_of};

use baser_place::{Level1, level1, level1_entries};
use gits_regs::Regs;
use guest_windows::Memory;
use its_types::Addr;

/// The first level has no more entries.
pub const MOST: usize = 128;

/// Where the page of each level-1 entry stands, if the entry is valid; of a flat table none.
pub fn read_pages(regs: &Regs, memory: &Memory) -> [Option<Addr>; MOST]
    ensures { is_indirect regs.now.baser0 ≡ true → ArePages regs.now memory.now
        (take (places.level1_entries regs.now.dev_bits) result) }
{
    let mut pages = [None; MOST];
    if regs.indirect() {
        for k in 0..level1_entries(regs) {
            pages[k as usize] = page_of(level1(regs, memory, k));
        }
    }
    pages
}

fn page_of(entry: Level1) -> Option<Addr>
    requires { places.HasLowPage entry }
    ensures page { option_map address_of result ≡ places.page_of entry }
    ensures low { IfSome result (λ a. a.0 < 2 ^ 52) }
{
    match entry {
        Level1::Page(page) => Some(page),
        Level1::Empty | Level1::Outside(_) => None,
    }
}
