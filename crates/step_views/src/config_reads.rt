//! What a command reads of configurations.
ghost use Rattle.std.specs.Iterator.{YieldsFirstBy, item_count};
ghost use Rattle.step_views.specs.Pairs.{pair_of};

use crate::firsts::firsts;
use crate::stretch::Stretch;
use its_types::{Addr, Vcpu, has_bit};
use lpi_pending::Redists;
use std::marker::Model;

/// What a command reads of the configuration tables of the redistributors whose LPIs are on, of
/// each table once: where in the table it begins, and how long it is. It is seen as the list of the
/// stretches that are left, by their addresses and lengths.
#[derive(Drop)]
pub struct ConfigReads<'a> {
    redists: &'a Redists,
    offset: u64,
    length: u64,
    firsts: [u64; 8],
    next: u16,
    end: u16,
}

impl<'a> Model for ConfigReads<'a> {
    ghost use Rattle.std.specs.Prelude.{ℕ, List};
    ghost use Rattle.step_views.specs.ConfigReads.{left_of, AreReadable};

    ghost Value = { List (ℕ × ℕ) };

    ghost view = { λ r. left_of r.redists.now r.offset r.length r.next r.end };

    ghost invariant = { λ r. AreReadable r.redists.now r.offset r.firsts r.next r.end };
}

impl<'a> ConfigReads<'a> {
    ghost use Rattle.std.specs.Prelude.{◌≡◌, ◌<◌, ◌≤◌, ◌^◌};
    ghost use Rattle.its_types.specs.Ranges.{most_vcpus};
    ghost use Rattle.step_views.specs.ConfigReads.{left_of};
    ghost use Rattle.step_views.specs.Firsts.{HaveConfs};

    /// So many bytes of each table from an offset on, of the first so many virtual processors.
    pub fn new(redists: &'a Redists, vcpus: u16, offset: u64, length: u64) -> ConfigReads<'a>
        requires few { vcpus ≤ most_vcpus }
        requires there { HaveConfs vcpus redists.now }
        requires near { offset < 2 ^ 32 }
        ensures { result ≡ left_of redists.now offset length 0 vcpus }
    {
        ConfigReads {
            redists,
            offset,
            length,
            firsts: firsts(redists, vcpus),
            next: 0,
            end: vcpus,
        }
    }

    /// The next stretch.
    pub fn next(&mut self) -> Option<Stretch>
        ensures { YieldsFirstBy pair_of (λ r. r) self.old result self.new }
    {
        while self.next < self.end {
            let vcpu = self.next;
            self.next += 1;
            if has_bit(&self.firsts, usize::from(vcpu)) {
                let table = self.redists.conf(Vcpu(vcpu)).bases().prop.table;
                return Some(Stretch {
                    address: Addr(table.0 + self.offset),
                    length: self.length,
                });
            }
        }
        None
    }
}
