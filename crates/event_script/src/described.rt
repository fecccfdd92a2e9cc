//! What a draft says of the machine, and of what is done with it.
ghost use Rattle.std.specs.Prelude.{◌≡◌, IfOk};
ghost use Rattle.event_script.specs.Outcome.{Gives};
ghost use Rattle.event_script.specs.Described as spec;
ghost use Rattle.event_script.specs.Description as description;
ghost use Rattle.event_script.specs.Script as script;

use crate::call_list::Calls;
use crate::draft::{Draft, IdBits, Stage};
use crate::fault::{Kind, LineError};
use crate::places::Places;
use crate::script::Script;
use gicr_regs::{GicrRegisters, GicrValues};
use its_plain::{Desc, Its, LpiTables, RequesterRanges};
use its_types::{Limits, Listed, Profile, Shape};
use std::alloc::{AllocError, Global};
use std::mem;

/// How many bytes the windows of a script may have together.
const MEMORY_LIMIT: u64 = 67_108_864;

/// The numbers of bits where no line gives others.
const DEFAULT_IDS: IdBits = IdBits { dev: 16, lpi: 16 };

/// The registers of a redistributor that no line gives.
const NO_REGISTERS: GicrRegisters = GicrRegisters {
    ctlr: 0,
    propbaser: 0,
    pendbaser: 0,
};

/// A translator of which no line says anything.
const NO_ITS: Its = Its {
    restore: None,
    frames: None,
};

/// The last stamp that there may be: those of two translators share a word with a place.
pub fn most_stamp(pair: bool) -> u64
    ensures { result ≡ spec.most_stamp pair }
{
    if pair { 4095 } else { 16_777_215 }
}

/// The limits where no line gives others.
fn default_limits(pair: bool) -> Limits
    ensures { result ≡ spec.default_limits pair }
{
    Limits {
        stamp_last: most_stamp(pair) as u32,
        place_last: 1_099_511_627_775,
    }
}

impl Draft {
    /// Of no line.
    pub fn new(alloc: Global) -> Draft
        ensures { result ≡ description.empty }
    {
        Draft {
            stage: Stage::Start,
            shards: None,
            limits: None,
            ids: None,
            profile: None,
            windows: Listed::new(alloc),
            config: None,
            pending: Places::none(alloc),
            gicr: false,
            linux: false,
            track: false,
            pair: false,
            first: NO_ITS,
            second: NO_ITS,
            requesters: Listed::new(alloc),
            requester_lines: Listed::new(alloc),
            from_kvm: false,
            registers: Places::none(alloc),
            fills: Listed::new(alloc),
            fill_lines: Listed::new(alloc),
            legs: Listed::new(alloc),
            moves: Listed::new(alloc),
            phases: Listed::new(alloc),
            threads: Listed::new(alloc),
            calls: Calls::new(alloc),
        }
    }

    fn shape(&self) -> Shape
        ensures { result ≡ spec.shape_of self.now }
    {
        let ids = self.ids.unwrap_or(DEFAULT_IDS);
        Shape {
            vcpus: self.pending.count(),
            dev_bits: ids.dev,
            lpi_bits: ids.lpi,
            profile: self.profile.unwrap_or(Profile::One),
            linux: self.linux,
        }
    }

    #[tactic(auto, unfolding(crate::specs::Described::described_tables))]
    fn described_tables(&self, alloc: Global) -> Result<LpiTables, LineError>
        ensures { Gives (λ tables. tables) result (spec.described_tables self.now) }
    {
        let config = self.config.ok_or(Kind::Missing)?;
        let pending = self.pending.given(alloc)?;
        Ok(LpiTables::Described { config, pending })
    }

    /// Where the LPI tables of the redistributors are.
    fn tables(&self, alloc: Global) -> Result<LpiTables, LineError>
        ensures { Gives (λ tables. tables) result (spec.tables_of self.now) }
    {
        if self.gicr {
            let registers = self.registers.filled(alloc, NO_REGISTERS)?;
            Ok(LpiTables::Registers(GicrValues { registers }))
        } else {
            self.described_tables(alloc)
        }
    }

    fn translators(&self, alloc: Global) -> Result<Listed<Its>, AllocError>
        ensures { IfOk result (λ translators. translators ≡ spec.translators_of self.now) }
    {
        let mut translators = Listed::new(alloc);
        translators.push(self.first)?;
        if self.pair {
            translators.push(self.second)?;
        }
        Ok(translators)
    }

    /// Takes the script of a draft that ended.
    #[tactic(auto, unfolding(crate::specs::Script::said, crate::specs::Described::desc_of))]
    pub fn script(&mut self, alloc: Global) -> Result<Script, LineError>
        ensures { Gives (λ script. script) result (script.said self.old) }
    {
        let shards = self.shards.ok_or(Kind::Missing)?;
        let translators = self.translators(alloc)?;
        let requesters = RequesterRanges::from_slice(alloc, self.requesters.as_slice())?;
        let tables = self.tables(alloc)?;
        let desc = Desc {
            shape: self.shape(),
            shards,
            limits: self.limits.unwrap_or(default_limits(self.pair)),
            windows: taken(alloc, &mut self.windows),
            memory_limit: MEMORY_LIMIT,
            tables,
            fills: taken(alloc, &mut self.fills),
            translators,
            requesters,
            from_kvm: self.from_kvm,
            track: self.track,
        };
        Ok(Script {
            desc,
            fill_lines: taken(alloc, &mut self.fill_lines),
            requester_lines: taken(alloc, &mut self.requester_lines),
            legs: taken(alloc, &mut self.legs),
            moves: taken(alloc, &mut self.moves),
        })
    }
}

/// Takes a list out of its place, where none of it is left.
fn taken<T: Drop>(alloc: Global, list: &mut Listed<T>) -> Listed<T>
    ensures { result ≡ list.old }
{
    mem::replace(list, Listed::new(alloc))
}
