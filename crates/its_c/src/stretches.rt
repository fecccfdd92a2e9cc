//! Stretches of guest memory, told in lists: what the next step reads, and what a save writes.
ghost use Rattle.std.specs.Prelude.{◌≡◌, ◌≢◌, ◌⊎◌, ◌≤◌, ◌+◌, true, false, length, map, slice_set};
ghost use Rattle.its_types.specs.Ranges.{most_vcpus};
ghost use Rattle.its_numbers.specs.Codes as codes;
ghost use Rattle.its_numbers.specs.Lists.{HasFirstOf, SameRest, stretch_out};
ghost use Rattle.its_c.specs.Stretches.{needed, needed_by, has_command, written_tables as tables};
ghost use Rattle.its_numbers.specs.Translators.{has_translator as has};
ghost use Rattle.step_views.specs.Pairs.{pair_of};

use crate::kept::Kept;
use crate::ranges::is_translator;
use its_numbers::{DONE, NO_MEMORY, RANGE, StretchOut, put_tables};
use std::alloc::Global;
use step_views::{Needs, Stretch, needs, needs_by};
use table_save::written_tables;

/// The stretches that the next step of a translator reads, as many as the list takes, whose rest
/// stays; and how many there are.
pub fn needed(kept: &Kept, translator: u32, list: &mut [StretchOut], count: &mut u64) -> u32
    ensures code { result ≡ codes.if_in_range (has kept.now.machine translator) }
    ensures told { has kept.now.machine translator ≡ true
        → HasFirstOf (needed kept.now.machine translator) list.new }
    ensures rest { has kept.now.machine translator ≡ true
        → SameRest (length (needed kept.now.machine translator)) list.old list.new }
    ensures length { length list.new ≡ length list.old }
    ensures count { has kept.now.machine translator ≡ true
        → count.new ≡ length (needed kept.now.machine translator) }
    ensures refused { has kept.now.machine translator ≡ false
        → (list.new ≡ list.old) × (count.new ≡ count.old) }
{
    if !is_translator(kept.machine(), translator) {
        return RANGE;
    }
    *count = put_needs(needs(kept.machine().parts(), translator as u8), list);
    DONE
}

/// So the stretches that the next step reads where the bytes of its command are these.
pub fn needed_by(
    kept: &Kept,
    translator: u32,
    command: &[u8],
    list: &mut [StretchOut],
    count: &mut u64,
) -> u32
    ensures code { result
        ≡ codes.if_in_range (has_command kept.now.machine translator command.now) }
    ensures told { result ≡ codes.done
        → HasFirstOf (needed_by kept.now.machine translator command.now) list.new }
    ensures rest { result ≡ codes.done
        → SameRest (length (needed_by kept.now.machine translator command.now)) list.old list.new }
    ensures length { length list.new ≡ length list.old }
    ensures count { result ≡ codes.done
        → count.new ≡ length (needed_by kept.now.machine translator command.now) }
    ensures only { result ≢ codes.done → (list.new ≡ list.old) × (count.new ≡ count.old) }
{
    if !(is_translator(kept.machine(), translator) && command.len() == 32) {
        return RANGE;
    }
    let mut bytes = [0; 32];
    bytes.copy_from_slice(command);
    *count = put_needs(
        needs_by(kept.machine().parts(), translator as u8, &bytes),
        list,
    );
    DONE
}

// As many of the stretches as the list takes. How many there are.
fn put_needs(needs: Needs<'_>, list: &mut [StretchOut]) -> u64
    requires few { length needs ≤ most_vcpus + 1 }
    ensures told { HasFirstOf (map stretch_out needs.entry) list.new }
    ensures rest { SameRest (length needs.entry) list.old list.new }
    ensures length { length list.new ≡ length list.old }
    ensures count { result ≡ length needs.entry }
{
    let mut at = 0;
    for stretch in needs {
        put(list, at, stretch);
        at += 1;
    }
    at as u64
}

// Puts a stretch into its place, if the list has it.
fn put(list: &mut [StretchOut], at: usize, stretch: Stretch)
    ensures { list.new ≡ slice_set list.old at (stretch_out (pair_of stretch)) }
{
    if at < list.len() {
        list[at] = StretchOut {
            address: stretch.address.0,
            length: stretch.length,
        };
    }
}

/// The tables that a save writes, as many as the list takes, whose rest stays; and how many there
/// are.
pub fn written(kept: &Kept, alloc: Global, list: &mut [StretchOut], count: &mut u64) -> u32
    ensures codes { (result ≡ codes.done) ⊎ (result ≡ codes.no_memory) }
    ensures told { result ≡ codes.done → HasFirstOf (tables kept.now.machine) list.new }
    ensures rest { result ≡ codes.done
        → SameRest (length (tables kept.now.machine)) list.old list.new }
    ensures length { length list.new ≡ length list.old }
    ensures count { result ≡ codes.done → count.new ≡ length (tables kept.now.machine) }
    ensures only { result ≢ codes.done → (list.new ≡ list.old) × (count.new ≡ count.old) }
{
    let parts = kept.machine().parts();
    let Ok(tables) = written_tables(alloc, &parts.in_place()) else {
        return NO_MEMORY;
    };
    put_tables(&tables, list);
    *count = tables.len() as u64;
    DONE
}
