//! The first virtual processor of each configuration table, by the sorted tables.
ghost use Rattle.std.specs.Prelude.{◌≡◌, ◌<◌, ◌≤◌, ◌&&◌, ◌||◌, ℕ, Bool, not, Some, length};
ghost use Rattle.std.specs.List.{Contains};
ghost use Rattle.std.specs.List.Sorted.{IsNonDecreasing};
ghost use Rattle.its_types.specs.Ranges.{most_vcpus};
ghost use Rattle.step_views.specs.Firsts as spec;

use its_types::{MOST_VCPUS, Vcpu, has_bit, put_bit};
use lpi_config::Conf;
use lpi_pending::Redists;

/// Of the first so many virtual processors those whose LPIs are on with a table that no earlier one
/// of them has.
pub fn sorted_firsts(redists: &Redists, vcpus: u16) -> [u64; 8]
    requires few { vcpus ≤ most_vcpus }
    requires there { spec.HaveConfs vcpus redists.now }
    ensures { spec.AreFirsts vcpus redists.now result }
{
    let mut all = [0; MOST_VCPUS as usize];
    let tables = &mut all[..usize::from(vcpus)];
    put_tables(redists, vcpus, tables);
    tables.sort_unstable();
    firsts_among(redists, vcpus, tables)
}

// Puts the table of each of them into the list.
fn put_tables(redists: &Redists, vcpus: u16, list: &mut [u64])
    requires room { length list.old ≡ vcpus }
    requires there { spec.HaveConfs vcpus redists.now }
    ensures length { length list.new ≡ length list.old }
    ensures all { spec.HaveTablesIn vcpus redists.now list.new }
{
    for vcpu in 0..vcpus {
        list[usize::from(vcpu)] = redists.conf(Vcpu(vcpu)).bases().prop.table.0;
    }
}

// The first of each of these tables, which are all that there are.
fn firsts_among(redists: &Redists, vcpus: u16, tables: &[u64]) -> [u64; 8]
    requires few { vcpus ≤ most_vcpus }
    requires room { length tables.now ≤ most_vcpus }
    requires there { spec.HaveConfs vcpus redists.now }
    requires sorted { IsNonDecreasing tables.now }
    requires all { spec.HaveTablesIn vcpus redists.now tables.now }
    ensures { spec.AreFirsts vcpus redists.now result }
{
    let mut seen = [0; 8];
    let mut firsts = [0; 8];
    for vcpu in 0..vcpus {
        let is_first = is_first(redists.conf(Vcpu(vcpu)), tables, &mut seen);
        put_bit(&mut firsts, usize::from(vcpu), is_first);
    }
    firsts
}

// Whether LPIs are on with a table that wasn't seen, which is seen then. Its bit says so, by its
// place.
fn is_first(conf: &Conf, tables: &[u64], seen: &mut [u64; 8]) -> bool
    requires room { length tables.now ≤ most_vcpus }
    requires size { length seen.old ≡ 8 }
    requires sorted { IsNonDecreasing tables.now }
    requires there { Contains tables.now conf.now.bases.prop.table.0 }
    ensures size { length seen.new ≡ 8 }
    ensures first { (used : ℕ → Bool) → spec.AreSeen tables.now used seen.old
        → result ≡ (conf.now.bases.on && not (used conf.now.bases.prop.table.0)) }
    ensures seen { (used : ℕ → Bool) → spec.AreSeen tables.now used seen.old
        → spec.AreSeen tables.now (λ t. used t || spec.has_table (Some conf.now) t) seen.new }
{
    let bases = conf.bases();
    if !bases.on {
        return false;
    }
    let place = place_of(tables, bases.prop.table.0);
    let is_first = !has_bit(seen, place);
    put_bit(seen, place, true);
    is_first
}

// The first place of a table.
fn place_of(tables: &[u64], table: u64) -> usize
    requires sorted { IsNonDecreasing tables.now }
    requires there { Contains tables.now table }
    ensures { spec.IsPlace tables.now table result }
{
    tables.partition_point(|other| *other < table)
}
