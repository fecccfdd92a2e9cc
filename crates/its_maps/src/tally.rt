//! How many mapped events name each collection.

ghost use Rattle.std.specs.Prelude.{◌≡◌, ◌+◌, ◌-◌, ◌^◌, ◌<◌, ◌≤◌, ℕ, true, false, length, nat_lt};
ghost use Rattle.std.specs.Prelude.{slice_index_or, IfOk, IfSome, OnOk, OnErr};
ghost use Rattle.std.specs.List.{sum_by};
ghost use Rattle.its_maps.specs.Counting.{named, is_named, IsTally, takes_another};

use its_types::Icid;
use std::alloc::{AllocError, Global};

// How many events have their ICIDs in a list at most.
const FEW: usize = 128;

// How many ICIDs there are.
const ICIDS: usize = 1 << 16;

/// How many events name each collection: a list of few, and a table of more. A list's memory is
/// made with an event's, so an event finds a place in either whichever collection it names.
#[derive(Drop)]
pub enum Tally {
    /// The ICID of each event, in no order.
    Few(Vec<Icid>),
    /// How many events name each ICID.
    Many(Vec<u64>),
}

impl Tally {
    /// No event, and no memory.
    pub fn new(alloc: Global) -> Self
        ensures tally { IsTally result }
        ensures none { (icid : ℕ) → named result icid ≡ 0 }
    {
        Tally::Few(Vec::new(alloc))
    }

    /// Makes room for one event more.
    pub fn make_room(&mut self, alloc: Global) -> Result<(), AllocError>
        requires { IsTally self.old }
        ensures tally { IsTally self.new }
        ensures named { (icid : ℕ) → icid < 65536 → named self.new icid ≡ named self.old icid }
        ensures ok { OnOk result (takes_another self.new ≡ true) }
        ensures err { OnErr result (takes_another self.new ≡ false) }
        ensures lacking { OnErr result (takes_another self.old ≡ false) }
    {
        match self {
            Tally::Many(_) => Ok(()),
            Tally::Few(icids) if icids.len() < icids.capacity() => Ok(()),
            Tally::Few(icids) if icids.len() < FEW => icids.reserve(1),
            Tally::Few(icids) => {
                let counts = counted(alloc, icids)?;
                *self = Tally::Many(counts);
                Ok(())
            }
        }
    }

    /// Whether an event names a collection.
    pub fn has(&self, icid: Icid) -> bool
        requires { IsTally self.now }
        ensures { result ≡ nat_lt 0 (named self.now icid.0) }
    {
        match self {
            Tally::Few(icids) => icids.iter().any(|named| *named == icid),
            Tally::Many(counts) => counts[usize::from(icid.0)] != 0,
        }
    }

    /// One event more names a collection.
    pub fn add(&mut self, icid: Icid)
        requires tally { IsTally self.old }
        requires room { takes_another self.old ≡ true }
        requires fits { named self.old icid.0 < 2 ^ 64 - 1 }
        ensures tally { IsTally self.new }
        ensures named { (n : ℕ) → named self.new n ≡ named self.old n + is_named icid.0 n }
    {
        match self {
            Tally::Few(icids) => icids.push_reserved(icid),
            Tally::Many(counts) => counts[usize::from(icid.0)] += 1,
        }
    }

    /// One event that named a collection is gone.
    pub fn take(&mut self, icid: Icid)
        requires tally { IsTally self.old }
        requires some { 1 ≤ named self.old icid.0 }
        ensures tally { IsTally self.new }
        ensures named { (n : ℕ) → named self.new n + is_named icid.0 n ≡ named self.old n }
        ensures room { takes_another self.new ≡ true }
    {
        match self {
            Tally::Few(icids) => {
                let at = place(icids, icid);
                icids.remove(at);
            }
            Tally::Many(counts) => counts[usize::from(icid.0)] -= 1,
        }
    }
}

// Where an ICID that is in a list stands first.
fn place(icids: &[Icid], icid: Icid) -> usize
    requires { 1 ≤ sum_by (λ i. is_named i.0 icid.0) icids.now }
    ensures there { result < length icids.now }
    ensures icid { (d : Icid) → (slice_index_or icids.now result d).0 ≡ icid.0 }
{
    icids.iter().position(|named| *named == icid).unwrap()
}

// How often each ICID is in a list.
fn counted(alloc: Global, icids: &[Icid]) -> Result<Vec<u64>, AllocError>
    ensures table { IfOk result (λ counts. length counts.items ≡ 65536) }
    ensures counts { IfOk result (λ counts. (n : ℕ) → n < 65536
        → slice_index_or counts.items n 0 ≡ sum_by (λ i. is_named i.0 n) icids.now) }
{
    let mut counts = zeros(alloc, ICIDS)?;
    for Icid(number) in icids {
        counts[usize::from(*number)] += 1;
    }
    Ok(counts)
}

// So many counts of nothing.
fn zeros(alloc: Global, count: usize) -> Result<Vec<u64>, AllocError>
    ensures count { IfOk result (λ counts. length counts.items ≡ count) }
    ensures zeros { IfOk result (λ counts. (n : ℕ) → slice_index_or counts.items n 0 ≡ 0) }
{
    vec![in alloc; 0; count]
}
