//! A report's picture: its legs one after another.
ghost use Rattle.std.specs.Prelude.{◌≡◌, ◌++◌, ◌+◌, ◌<◌, [], IfOk, OnOk, length, slice_index_or};
ghost use Rattle.its_plain.specs.Saved.{IsSavable, moved};
ghost use Rattle.owned_machine.specs.Migrations.{Migrates};
ghost use Rattle.its_draw.specs.Replays as spec;
ghost use Rattle.its_draw.specs.Replays.{ShowsRun, ShowsRuns, all_lines, told};

use crate::drawing::{Drawing, Pending, Shown, Wall};
use crate::events::Rows;
use crate::places::{Frame, MOST_LANES};
use crate::replay::show_entries;
use event_script::{Move, Phase, Script};
use its_history::{EntryLine, Leg, Trace, pending_text};
use its_plain::SaveError;
use its_types::{Listed, Vcpu};
use owned_machine::Machine;
use std::alloc::{AllocError, Global};

/// What all legs show so far.
#[derive(Drop)]
pub struct Scene {
    alloc: Global,
    machine: Machine,
    rows: Rows,
    column: u32,
    threads: u32,
    walls: Vec<Wall>,
    calls: Vec<Shown>,
    pending: Vec<Pending>,
}

impl Scene {
    /// Before the first leg. The machine stands in its first state.
    pub fn new(alloc: Global, machine: Machine) -> Result<Scene, AllocError>
        ensures calls { IfOk result (λ s. s.calls.items ≡ []) }
        ensures machine { IfOk result (λ s. s.machine ≡ machine) }
    {
        let mut rows = Rows::new(alloc);
        for its in 0..2 {
            let parts = machine.parts().in_place();
            if let Some(translator) = parts.translator(its) {
                rows.begin_all(its, translator.maps)?;
            }
        }
        Ok(Scene {
            alloc,
            machine,
            rows,
            column: 0,
            threads: 1,
            walls: Vec::new(alloc),
            calls: Vec::new(alloc),
            pending: Vec::new(alloc),
        })
    }

    /// Shows the legs of a report, and how the machine goes from each to the next.
    pub fn show(&mut self, script: &Script, trace: &Trace) -> Result<(), AllocError>
        ensures told { OnOk result (told self.new.calls.items
            ≡ told self.old.calls.items ++ all_lines trace.now.legs) }
        ensures run { OnOk result (ShowsRuns self.old.machine script.now trace.now.legs
            self.old.calls.items self.new.calls.items) }
    {
        for (index, lines) in trace.legs.as_slice().iter().enumerate() {
            let leg = leg_at(script, index);
            self.show_leg(leg, lines, index)?;
            self.move_on(script, index)?;
        }
        Ok(())
    }

    /// Shows a leg, of which the first is 0.
    fn show_leg(&mut self, leg: &[Phase], lines: &Leg, index: usize) -> Result<(), AllocError>
        ensures told { OnOk result (told self.new.calls.items
            ≡ told self.old.calls.items ++ spec.lines lines.now.entries) }
        ensures run { OnOk result (ShowsRun self.old.machine leg.now lines.now.entries
            self.old.calls.items self.new.calls.items self.new.machine) }
    {
        let entries = lines.entries.as_slice();
        self.add_walls(entries, index)?;
        let (alloc, column) = (self.alloc, self.column);
        let rows = &mut self.rows;
        let shown = show_entries(alloc, &mut self.machine, rows, leg, entries, column)?;
        self.add_calls(shown)?;
        self.add_pending()
    }

    fn add_calls(&mut self, shown: Vec<Shown>) -> Result<(), AllocError>
        ensures calls { OnOk result
            (self.new.calls.items ≡ self.old.calls.items ++ shown.items) }
        ensures machine { self.new.machine ≡ self.old.machine }
    {
        let mut shown = shown;
        for one in &shown {
            self.threads = self.threads.max(one.thread);
            self.column = self.column.saturating_add(1);
        }
        self.calls.append(&mut shown)
    }

    /// Walls before the leg, if it isn't the first, and before each phase.
    fn add_walls(&mut self, entries: &[EntryLine], index: usize) -> Result<(), AllocError>
        ensures calls { self.new.calls.items ≡ self.old.calls.items }
        ensures machine { self.new.machine ≡ self.old.machine }
    {
        let mut column = self.column;
        if index > 0 {
            let number = u32::try_from(index).unwrap_or(u32::MAX).saturating_add(1);
            self.walls.push(Wall {
                column,
                is_leg: true,
                number,
            })?;
        }
        let mut phase = 0;
        for line in entries {
            if line.phase != phase {
                phase = line.phase;
                self.walls.push(Wall {
                    column,
                    is_leg: false,
                    number: phase,
                })?;
            }
            column = column.saturating_add(1);
        }
        Ok(())
    }

    /// What is pending at the virtual processors that have a lane, in columns of its own.
    fn add_pending(&mut self) -> Result<(), AllocError>
        ensures calls { self.new.calls.items ≡ self.old.calls.items }
        ensures machine { self.new.machine ≡ self.old.machine }
    {
        let column = self.column;
        for vcpu in 0..MOST_LANES {
            if usize::from(vcpu) < self.machine.vcpus() {
                let lpis = self.machine.pending(self.alloc, usize::from(vcpu))?;
                let text = pending_text(self.alloc, &lpis)?;
                self.pending.push(Pending {
                    column,
                    vcpu: Vcpu(vcpu),
                    count: lpis.len() as u64,
                    text,
                })?;
            }
        }
        self.column = self.column.saturating_add(4);
        Ok(())
    }

    /// Goes on after a leg, of which the first is 0: to the next one, if there is one and the state
    /// can be saved.
    fn move_on(&mut self, script: &Script, index: usize) -> Result<(), AllocError>
        ensures calls { self.new.calls.items ≡ self.old.calls.items }
        ensures moved { OnOk result (index + 1 < length script.now.legs
            → IsSavable self.old.machine → self.new.machine ≡ moved self.old.machine) }
    {
        if script.legs.len().saturating_sub(index) < 2 {
            return Ok(());
        }
        match self.migrate(script.moves.as_slice().get(index).copied()) {
            Ok(()) | Err(SaveError::Fault(_)) => Ok(()),
            Err(SaveError::NoMemory) => Err(AllocError),
        }
    }

    /// Migrates the machine, with its pages copied before or not.
    fn migrate(&mut self, way: Option<Move>) -> Result<(), SaveError>
        ensures calls { self.new.calls.items ≡ self.old.calls.items }
        ensures moved { Migrates result self.old.machine self.new.machine }
    {
        match way {
            Some(Move::Precopy) => {
                self.machine.precopy(self.alloc)?;
                Ok(())
            }
            Some(Move::Migrate) | None => self.machine.migrate(self.alloc),
        }
    }

    /// The picture.
    pub fn into_drawing(self) -> Drawing
        ensures { result.calls ≡ self.calls.items }
    {
        let lanes = self.machine.vcpus().min(usize::from(MOST_LANES)) as u16;
        let followed = self.rows.into_followed();
        let rows = u32::try_from(followed.rows.len()).unwrap_or(u32::MAX);
        Drawing {
            frame: Frame {
                columns: self.column,
                threads: self.threads,
                rows,
                lanes,
            },
            rows: followed.rows,
            bars: followed.bars,
            moves: followed.moves,
            walls: Listed::from_vec(self.walls),
            calls: Listed::from_vec(self.calls),
            pending: Listed::from_vec(self.pending),
        }
    }
}

/// The calls of a leg, of which the first is 0.
fn leg_at(script: &Script, index: usize) -> &[Phase]
    ensures { result.now ≡ slice_index_or script.now.legs index [] }
{
    match script.legs.as_slice().get(index) {
        Some(leg) => leg.as_slice(),
        None => &[],
    }
}
