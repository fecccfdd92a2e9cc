//! Devices that write by address: where the frames of translators stand, and which device a
//! requester is.
ghost use Rattle.std.specs.Prelude.{◌≡◌, map};
ghost use Rattle.event_script.specs.Outcome.{Gives};
ghost use Rattle.event_script.specs.Description as spec;

use crate::draft::{Draft, MOST_REQUESTERS};
use crate::fault::{Kind, LineError, ensure};
use crate::fields::{address, arg, device, number_within};
use its_plain::Requesters;
use its_types::Addr;

impl Draft {
    /// `its-base ADDRESS`, a multiple of 64 KiB; at most once.
    #[tactic(auto, unfolding(crate::specs::Description::its_base_line))]
    pub fn its_base_line(&mut self, fields: &[&[u8]]) -> Result<(), LineError>
        ensures { Gives (λ _. self.new) result
            (spec.its_base_line self.old (map (λ f. f.now) fields.now)) }
    {
        let first = self.describes() && self.first.frames.is_none();
        ensure(first, Kind::Order)?;
        ensure(fields.len() == 2, Kind::Fields)?;
        self.first.frames = Some(frames_base(arg(fields, 1))?);
        Ok(())
    }

    /// `b-base ADDRESS`, for the second translator; at most once.
    #[tactic(auto, unfolding(crate::specs::Description::b_base_line))]
    pub fn b_base_line(&mut self, fields: &[&[u8]]) -> Result<(), LineError>
        ensures { Gives (λ _. self.new) result
            (spec.b_base_line self.old (map (λ f. f.now) fields.now)) }
    {
        let first = self.describes() && self.pair && self.second.frames.is_none();
        ensure(first, Kind::Order)?;
        ensure(fields.len() == 2, Kind::Fields)?;
        self.second.frames = Some(frames_base(arg(fields, 1))?);
        Ok(())
    }

    /// `requester FIRST LAST DEVICE`, at most 64 times. Whether they can be devices is found later.
    #[tactic(auto, unfolding(crate::specs::Description::requester_line))]
    pub fn requester_line(&mut self, number: u64, fields: &[&[u8]]) -> Result<(), LineError>
        ensures { Gives (λ _. self.new) result
            (spec.requester_line self.old number (map (λ f. f.now) fields.now)) }
    {
        ensure(self.describes(), Kind::Order)?;
        ensure(fields.len() == 4, Kind::Fields)?;
        let first = number_within(0, u64::from(u32::MAX), arg(fields, 1))?;
        let last = number_within(0, u64::from(u32::MAX), arg(fields, 2))?;
        let dev = device(arg(fields, 3))?;
        ensure(self.requesters.len() < MOST_REQUESTERS, Kind::Many)?;
        self.requesters.push(Requesters {
            first: first as u32,
            last: last as u32,
            dev,
        })?;
        self.requester_lines.push(number)?;
        Ok(())
    }
}

/// Where two frames of 64 KiB may stand.
#[tactic(auto, unfolding(crate::specs::Description::frames_base))]
fn frames_base(field: &[u8]) -> Result<Addr, Kind>
    ensures { result ≡ spec.frames_base field.now }
{
    let base = address(field)?;
    ensure(base.0 % 65536 == 0, Kind::Number)?;
    Ok(base)
}
