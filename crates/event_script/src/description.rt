//! The lines of a description.
ghost use Rattle.std.specs.Prelude.{◌≡◌, ◌≤◌, map};
ghost use Rattle.its_types.specs.Ranges.{most_vcpus};
ghost use Rattle.event_script.specs.Outcome.{Gives};
ghost use Rattle.event_script.specs.Description as spec;

use crate::described::most_stamp;
use crate::draft::{Draft, FEW_VCPUS, IdBits, Stage};
use crate::fault::{Kind, LineError, ensure};
use crate::fields::{address, any_number, arg, number_within, processor};
use crate::places::Places;
use its_types::{Limits, MOST_VCPUS, Profile};
use std::alloc::Global;

impl Draft {
    /// Whether the description is open.
    pub fn describes(&self) -> bool
        ensures { result ≡ spec.in_description self.now.stage }
    {
        self.stage == Stage::Description
    }

    /// The first line of a script, which says how many processors there are.
    #[tactic(auto, unfolding(crate::specs::Description::count_line))]
    fn count_line(
        &mut self,
        alloc: Global,
        least: u64,
        most: u64,
        fields: &[&[u8]],
    ) -> Result<(), LineError>
        requires { most ≤ most_vcpus }
        ensures { Gives (λ _. self.new) result
            (spec.count_line least most self.old (map (λ f. f.now) fields.now)) }
    {
        ensure(self.stage == Stage::Start, Kind::Order)?;
        ensure(fields.len() == 2, Kind::Fields)?;
        let count = number_within(least, most, arg(fields, 1))? as u16;
        self.pending = Places::of(alloc, count)?;
        self.registers = Places::of(alloc, count)?;
        self.stage = Stage::Description;
        Ok(())
    }

    /// `vcpus COUNT`, 1 to 16: the first line of a script.
    pub fn vcpus_line(&mut self, alloc: Global, fields: &[&[u8]]) -> Result<(), LineError>
        ensures { Gives (λ _. self.new) result
            (spec.vcpus_line self.old (map (λ f. f.now) fields.now)) }
    {
        self.count_line(alloc, 1, FEW_VCPUS, fields)
    }

    /// `processors COUNT`, 17 to 512: the first line of a script, in place of `vcpus`.
    pub fn processors_line(&mut self, alloc: Global, fields: &[&[u8]]) -> Result<(), LineError>
        ensures { Gives (λ _. self.new) result
            (spec.processors_line self.old (map (λ f. f.now) fields.now)) }
    {
        self.count_line(alloc, FEW_VCPUS + 1, u64::from(MOST_VCPUS), fields)
    }

    /// `shards COUNT`, a power of two from 1 to 64; at most once.
    #[tactic(auto, unfolding(crate::specs::Description::shards_line))]
    pub fn shards_line(&mut self, fields: &[&[u8]]) -> Result<(), LineError>
        ensures { Gives (λ _. self.new) result
            (spec.shards_line self.old (map (λ f. f.now) fields.now)) }
    {
        let first = self.describes() && self.shards.is_none();
        ensure(first, Kind::Order)?;
        ensure(fields.len() == 2, Kind::Fields)?;
        let count = number_within(1, 64, arg(fields, 1))?;
        ensure(is_shard_count(count), Kind::Number)?;
        self.shards = Some(count as u32);
        Ok(())
    }

    /// `limits STAMP PLACE`, at most once. Stamps of two translators are below 4096.
    #[tactic(auto, unfolding(crate::specs::Description::limits_line))]
    pub fn limits_line(&mut self, fields: &[&[u8]]) -> Result<(), LineError>
        ensures { Gives (λ _. self.new) result
            (spec.limits_line self.old (map (λ f. f.now) fields.now)) }
    {
        let first = self.describes() && self.limits.is_none();
        ensure(first, Kind::Order)?;
        ensure(fields.len() == 3, Kind::Fields)?;
        let stamp = number_within(1, most_stamp(self.pair), arg(fields, 1))?;
        let place = number_within(1, (1 << 40) - 1, arg(fields, 2))?;
        self.limits = Some(Limits {
            stamp_last: stamp as u32,
            place_last: place,
        });
        Ok(())
    }

    /// `ids DEVICE LPI`, the bits of a DeviceID and of an LPI's INTID; at most once.
    #[tactic(auto, unfolding(crate::specs::Description::ids_line))]
    pub fn ids_line(&mut self, fields: &[&[u8]]) -> Result<(), LineError>
        ensures { Gives (λ _. self.new) result
            (spec.ids_line self.old (map (λ f. f.now) fields.now)) }
    {
        let first = self.describes() && self.ids.is_none();
        ensure(first, Kind::Order)?;
        ensure(fields.len() == 3, Kind::Fields)?;
        let dev = number_within(16, 20, arg(fields, 1))?;
        let lpi = number_within(14, 20, arg(fields, 2))?;
        self.ids = Some(IdBits {
            dev: dev as u8,
            lpi: lpi as u8,
        });
        Ok(())
    }

    /// `profile NUMBER`, 1 or 2; at most once.
    #[tactic(auto, unfolding(crate::specs::Description::profile_line))]
    pub fn profile_line(&mut self, fields: &[&[u8]]) -> Result<(), LineError>
        ensures { Gives (λ _. self.new) result
            (spec.profile_line self.old (map (λ f. f.now) fields.now)) }
    {
        let first = self.describes() && self.profile.is_none();
        ensure(first, Kind::Order)?;
        ensure(fields.len() == 2, Kind::Fields)?;
        let number = number_within(1, 2, arg(fields, 1))?;
        self.profile = Some(profile_of(number));
        Ok(())
    }

    /// `window BASE LENGTH`, at most 16 times. Whether memory can have the windows is found later.
    #[tactic(auto, unfolding(crate::specs::Description::window_line))]
    pub fn window_line(&mut self, fields: &[&[u8]]) -> Result<(), LineError>
        ensures { Gives (λ _. self.new) result
            (spec.window_line self.old (map (λ f. f.now) fields.now)) }
    {
        ensure(self.describes(), Kind::Order)?;
        ensure(fields.len() == 3, Kind::Fields)?;
        let base = address(arg(fields, 1))?;
        let len = any_number(arg(fields, 2))?;
        ensure(self.windows.len() < 16, Kind::Many)?;
        self.windows.push((base, len))?;
        Ok(())
    }

    /// Whether the tables of the redistributors may be described.
    fn describes_tables(&self) -> bool
        ensures { result ≡ spec.describes_tables self.now }
    {
        self.describes() && !self.gicr
    }

    /// `config ADDRESS`, once, unless the guest programs the tables.
    #[tactic(auto, unfolding(crate::specs::Description::config_line))]
    pub fn config_line(&mut self, fields: &[&[u8]]) -> Result<(), LineError>
        ensures { Gives (λ _. self.new) result
            (spec.config_line self.old (map (λ f. f.now) fields.now)) }
    {
        let first = self.describes_tables() && self.config.is_none();
        ensure(first, Kind::Order)?;
        ensure(fields.len() == 2, Kind::Fields)?;
        self.config = Some(address(arg(fields, 1))?);
        Ok(())
    }

    /// `pending VCPU ADDRESS`, once for each processor, unless the guest programs the tables.
    #[tactic(auto, unfolding(crate::specs::Description::pending_line))]
    pub fn pending_line(&mut self, fields: &[&[u8]]) -> Result<(), LineError>
        ensures { Gives (λ _. self.new) result
            (spec.pending_line self.old (map (λ f. f.now) fields.now)) }
    {
        let again = self.pending.is_given_at(arg(fields, 1));
        ensure(self.describes_tables() && !again, Kind::Order)?;
        ensure(fields.len() == 3, Kind::Fields)?;
        let vcpu = processor(self.pending.count(), arg(fields, 1))?;
        let table = address(arg(fields, 2))?;
        self.pending.give(vcpu, table);
        Ok(())
    }

    /// `gicr`: the guest programs the tables.
    #[tactic(auto, unfolding(crate::specs::Description::gicr_line))]
    pub fn gicr_line(&mut self, fields: &[&[u8]]) -> Result<(), LineError>
        ensures { Gives (λ _. self.new) result
            (spec.gicr_line self.old (map (λ f. f.now) fields.now)) }
    {
        let described = self.config.is_some() || !self.pending.none_given();
        ensure(self.describes_tables() && !described, Kind::Order)?;
        ensure(fields.len() == 1, Kind::Fields)?;
        self.gicr = true;
        Ok(())
    }

    /// `linux`: the machine has what a Linux guest counts on; at most once.
    #[tactic(auto, unfolding(crate::specs::Description::linux_line))]
    pub fn linux_line(&mut self, fields: &[&[u8]]) -> Result<(), LineError>
        ensures { Gives (λ _. self.new) result
            (spec.linux_line self.old (map (λ f. f.now) fields.now)) }
    {
        ensure(self.describes() && !self.linux, Kind::Order)?;
        ensure(fields.len() == 1, Kind::Fields)?;
        self.linux = true;
        Ok(())
    }

    /// `track`: the machine has a second memory; at most once.
    #[tactic(auto, unfolding(crate::specs::Description::track_line))]
    pub fn track_line(&mut self, fields: &[&[u8]]) -> Result<(), LineError>
        ensures { Gives (λ _. self.new) result
            (spec.track_line self.old (map (λ f. f.now) fields.now)) }
    {
        ensure(self.describes() && !self.track, Kind::Order)?;
        ensure(fields.len() == 1, Kind::Fields)?;
        self.track = true;
        Ok(())
    }

    /// `pair`: the machine has a second translator; at most once.
    #[tactic(auto, unfolding(crate::specs::Description::pair_line))]
    pub fn pair_line(&mut self, fields: &[&[u8]]) -> Result<(), LineError>
        ensures { Gives (λ _. self.new) result
            (spec.pair_line self.old (map (λ f. f.now) fields.now)) }
    {
        ensure(self.describes() && !self.pair, Kind::Order)?;
        ensure(fields.len() == 1, Kind::Fields)?;
        ensure(allow_pair(self.limits), Kind::Number)?;
        self.pair = true;
        Ok(())
    }
}

/// The profile with a number, which is 1 or 2.
fn profile_of(number: u64) -> Profile
    ensures { result ≡ spec.profile_of number }
{
    if number == 1 {
        Profile::One
    } else {
        Profile::Two
    }
}

fn is_shard_count(count: u64) -> bool
    ensures { result ≡ spec.is_shard_count count }
{
    count == 1
        || count == 2
        || count == 4
        || count == 8
        || count == 16
        || count == 32
        || count == 64
}

/// Whether limits that were given leave room for the stamp of a second translator.
fn allow_pair(limits: Option<Limits>) -> bool
    ensures { result ≡ spec.allow_pair limits }
{
    match limits {
        Some(limits) => u64::from(limits.stamp_last) <= most_stamp(true),
        None => true,
    }
}
