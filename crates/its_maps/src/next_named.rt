//! The next collection that an event names.

ghost use Rattle.std.specs.Prelude.{◌≡◌, ◌&&◌, ℕ, length, nat_lt, nat_le, slice_index_or};
ghost use Rattle.std.specs.List.{sum_by};
ghost use Rattle.its_maps.specs.Counting.{named, is_named, IsTally};
ghost use Rattle.its_maps.specs.NextNamed.{IsNext, end_of};

use crate::tally::Tally;
use its_types::Icid;

impl Tally {
    /// The first collection from an ICID on that an event names.
    pub fn next(&self, from: u32) -> Option<Icid>
        requires { IsTally self.now }
        ensures { IsNext (named self.now) from result }
    {
        match self {
            Tally::Few(icids) => least_from(icids, from),
            Tally::Many(counts) => first_counted(counts, from),
        }
    }
}

// The least ICID of a list from one on.
fn least_from(icids: &[Icid], from: u32) -> Option<Icid>
    ensures { IsNext (λ n. sum_by (λ i. is_named i.0 n) icids.now) from result }
{
    let mut least = None;
    for icid in icids {
        if is_between(*icid, from, least) {
            least = Some(*icid);
        }
    }
    least
}

// Whether an ICID is at least one, and less than another, if there is another.
fn is_between(icid: Icid, from: u32, least: Option<Icid>) -> bool
    ensures { result ≡ (nat_le from icid.0 && nat_lt icid.0 (end_of least)) }
{
    let below = match least {
        Some(least) => icid.0 < least.0,
        None => true,
    };
    from <= u32::from(icid.0) && below
}

// The first ICID from one on whose count isn't zero.
fn first_counted(counts: &[u64], from: u32) -> Option<Icid>
    requires { length counts.now ≡ 65536 }
    ensures { IsNext (λ n. slice_index_or counts.now n 0) from result }
{
    for number in from..65_536 {
        if counts[number as usize] != 0 {
            return Some(Icid(number as u16));
        }
    }
    None
}
