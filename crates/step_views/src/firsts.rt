//! Of the virtual processors whose LPIs are on, the first of each configuration table.
ghost use Rattle.std.specs.Prelude.{◌≡◌, ◌<◌, ◌≤◌, ◌&&◌, ◌||◌, ℕ, not, Some, IfSome};
ghost use Rattle.its_types.specs.Bitmap.{word_bit};
ghost use Rattle.its_types.specs.Ranges.{most_vcpus};
ghost use Rattle.step_views.specs.Firsts as spec;

use crate::sorted_tables::sorted_firsts;
use its_types::{Addr, Vcpu, put_bit};
use lpi_config::Conf;
use lpi_pending::Redists;

/// Of the first so many virtual processors those whose LPIs are on with a table that no earlier one
/// of them has. Where all have one table, each is looked at once; else the tables are sorted.
pub fn firsts(redists: &Redists, vcpus: u16) -> [u64; 8]
    requires few { vcpus ≤ most_vcpus }
    requires there { spec.HaveConfs vcpus redists.now }
    ensures { spec.AreFirsts vcpus redists.now result }
{
    match shared_first(redists, vcpus) {
        Some(firsts) => firsts,
        None => sorted_firsts(redists, vcpus),
    }
}

// The same, unless they have several tables.
fn shared_first(redists: &Redists, vcpus: u16) -> Option<[u64; 8]>
    requires few { vcpus ≤ most_vcpus }
    requires there { spec.HaveConfs vcpus redists.now }
    ensures { IfSome result (spec.AreFirsts vcpus redists.now) }
{
    let mut firsts = [0; 8];
    let mut table = None;
    for vcpu in 0..vcpus {
        let is_first = is_first(redists.conf(Vcpu(vcpu)), &mut table)?;
        put_bit(&mut firsts, usize::from(vcpu), is_first);
    }
    Some(firsts)
}

// Whether LPIs are on, and no table was known, which is known then; none where it is another.
fn is_first(conf: &Conf, table: &mut Option<Addr>) -> Option<bool>
    ensures first { IfSome result (λ first. first
        ≡ (conf.now.bases.on && not (spec.is_known table.old conf.now.bases.prop.table.0))) }
    ensures known { IfSome result (λ first. (t : ℕ) → spec.is_known table.new t
        ≡ (spec.is_known table.old t || spec.has_table (Some conf.now) t)) }
{
    let bases = conf.bases();
    if !bases.on {
        return Some(false);
    }
    let known = *table;
    match known {
        None => {
            *table = Some(bases.prop.table);
            Some(true)
        }
        Some(known) if known == bases.prop.table => Some(false),
        Some(_) => None,
    }
}
