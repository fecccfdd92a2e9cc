//! The lines of a description that put bytes into memory.
ghost use Rattle.std.specs.Prelude.{◌≡◌, Ok, map};
ghost use Rattle.event_script.specs.Outcome.{Gives};
ghost use Rattle.event_script.specs.Description as spec;

use crate::draft::Draft;
use crate::fault::{Kind, LineError, ensure};
use crate::fields::{address, any_number, arg, bytes_within};
use its_plain::Fill;
use its_types::Listed;
use std::alloc::Global;

impl Draft {
    /// Adds bytes for the memory, from the line with a number.
    fn add_fill(&mut self, number: u64, fill: Fill) -> Result<(), LineError>
        ensures { Gives (λ _. self.new) result
            (Ok (spec.with_fill self.old number fill.addr fill.bytes)) }
    {
        self.fills.push(fill)?;
        self.fill_lines.push(number)?;
        Ok(())
    }

    /// `bytes ADDRESS BYTES`, of 1 to 4096 bytes.
    #[tactic(auto, unfolding(crate::specs::Description::bytes_line))]
    pub fn bytes_line(
        &mut self,
        alloc: Global,
        number: u64,
        fields: &[&[u8]],
    ) -> Result<(), LineError>
        ensures { Gives (λ _. self.new) result
            (spec.bytes_line self.old number (map (λ f. f.now) fields.now)) }
    {
        ensure(self.describes(), Kind::Order)?;
        ensure(fields.len() == 3, Kind::Fields)?;
        let addr = address(arg(fields, 1))?;
        let bytes = bytes_within(alloc, 4096, arg(fields, 2))?;
        self.add_fill(number, Fill { addr, bytes })
    }

    /// `word ADDRESS VALUE` of the description: 8 bytes, least significant byte first.
    #[tactic(auto, unfolding(crate::specs::Description::word_fill_line))]
    pub fn word_fill_line(
        &mut self,
        alloc: Global,
        number: u64,
        fields: &[&[u8]],
    ) -> Result<(), LineError>
        ensures { Gives (λ _. self.new) result
            (spec.word_fill_line self.old number (map (λ f. f.now) fields.now)) }
    {
        ensure(fields.len() == 3, Kind::Fields)?;
        let addr = address(arg(fields, 1))?;
        let value = any_number(arg(fields, 2))?;
        let bytes = Listed::from_vec(value.to_le_bytes().to_vec(alloc)?);
        self.add_fill(number, Fill { addr, bytes })
    }
}
