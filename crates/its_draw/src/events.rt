//! The rows of events: where each is mapped, where it goes to another collection, and which command
//! ended it.
use call_facts::pair_state;
use its_command::{Command, Op};
use its_maps::Maps;
use its_types::{DeviceId, Event, EventId, Listed};
use std::alloc::{AllocError, Global};

/// How many events have a row at most.
pub const MOST_ROWS: u32 = 32;

/// An event of a device of a translator.
#[derive(Clone, Copy, Debug, PartialEq, Eq)]
pub struct EventKey {
    /// The number of the translator.
    pub its: u8,
    /// The device.
    pub dev: DeviceId,
    /// Its event.
    pub ev: EventId,
}

/// A row, and whose it is.
#[derive(Clone, Copy, Debug, PartialEq, Eq)]
pub struct Row {
    /// Counted from 0.
    pub number: u32,
    /// The event.
    pub key: EventKey,
}

/// What ended that an event was mapped.
#[derive(Clone, Copy, Debug, PartialEq, Eq)]
pub struct BarEnd {
    /// The column of the call.
    pub column: u32,
    /// The command that it took, if it took one.
    pub by: Option<Op>,
}

/// An event as long as it is mapped.
#[derive(Clone, Copy, Debug, PartialEq, Eq)]
pub struct Bar {
    /// The event's.
    pub row: u32,
    /// The event's name.
    pub key: EventKey,
    /// What it was mapped to last.
    pub event: Event,
    /// The column of the call that mapped it; none where it was mapped from the start.
    pub from: Option<u32>,
    /// None where it is mapped to the end.
    pub to: Option<BarEnd>,
}

/// Where an event went to another collection.
#[derive(Clone, Copy, Debug, PartialEq, Eq)]
pub struct Moved {
    /// The event's row.
    pub row: u32,
    /// The column of the command.
    pub column: u32,
}

/// The rows so far.
#[derive(Drop)]
pub struct Rows {
    alloc: Global,
    rows: Vec<Row>,
    bars: Vec<Bar>,
    moves: Vec<Moved>,
}

/// The rows, their bars, and the moves.
#[derive(Drop)]
pub struct Followed {
    /// By their numbers.
    pub rows: Listed<Row>,
    /// By their beginning.
    pub bars: Listed<Bar>,
    /// By their columns.
    pub moves: Listed<Moved>,
}

impl Rows {
    /// No event has a row.
    pub fn new(alloc: Global) -> Rows {
        Rows {
            alloc,
            rows: Vec::new(alloc),
            bars: Vec::new(alloc),
            moves: Vec::new(alloc),
        }
    }

    /// What was followed.
    pub fn into_followed(self) -> Followed {
        Followed {
            rows: Listed::from_vec(self.rows),
            bars: Listed::from_vec(self.bars),
            moves: Listed::from_vec(self.moves),
        }
    }

    /// The row of an event, if it has one.
    pub fn row_of(&self, key: EventKey) -> Option<u32> {
        for row in &self.rows {
            if row.key == key {
                return Some(row.number);
            }
        }
        None
    }

    /// The events that are mapped before the first call, as long as there are rows.
    pub fn begin_all(&mut self, its: u8, maps: &Maps) -> Result<(), AllocError> {
        for (dev, _) in maps.devices() {
            for (ev, event) in maps.events(dev) {
                self.begin(EventKey { its, dev, ev }, event, None)?;
            }
        }
        Ok(())
    }

    /// What a translator maps after a call in this column, that may have taken a command.
    pub fn follow(
        &mut self,
        its: u8,
        maps: &Maps,
        column: u32,
        taken: Option<&Command>,
    ) -> Result<(), AllocError> {
        let by = match taken {
            Some(command) => Some(command.op()),
            None => None,
        };
        self.settle(its, maps, BarEnd { column, by })?;
        let Some((dev, ev)) = mapped_by(taken) else {
            return Ok(());
        };
        let key = EventKey { its, dev, ev };
        match pair_state(maps, dev, ev).event {
            Some(event) if !self.is_open(key) => self.begin(key, event, Some(column)),
            _ => Ok(()),
        }
    }

    fn is_open(&self, key: EventKey) -> bool {
        self.bars
            .iter()
            .any(|bar| bar.key == key && bar.to.is_none())
    }

    /// Ends the bars of events that aren't mapped any more, and notes what moved.
    fn settle(&mut self, its: u8, maps: &Maps, end: BarEnd) -> Result<(), AllocError> {
        let bars: &mut [Bar] = &mut self.bars;
        for bar in bars.iter_mut() {
            if bar.key.its == its && bar.to.is_none() {
                match pair_state(maps, bar.key.dev, bar.key.ev).event {
                    None => bar.to = Some(end),
                    Some(event) => {
                        if event.icid != bar.event.icid {
                            let (row, column) = (bar.row, end.column);
                            self.moves.push(Moved { row, column })?;
                        }
                        bar.event = event;
                    }
                }
            }
        }
        Ok(())
    }

    fn begin(&mut self, key: EventKey, event: Event, from: Option<u32>) -> Result<(), AllocError> {
        let Some(row) = self.row_for(key)? else {
            return Ok(());
        };
        let to = None;
        self.bars.push(Bar {
            row,
            key,
            event,
            from,
            to,
        })?;
        Ok(())
    }

    /// The row of an event, a new one if there is room.
    fn row_for(&mut self, key: EventKey) -> Result<Option<u32>, AllocError> {
        if let Some(row) = self.row_of(key) {
            return Ok(Some(row));
        }
        let number = u32::try_from(self.rows.len()).unwrap_or(u32::MAX);
        if number >= MOST_ROWS {
            return Ok(None);
        }
        self.rows.push(Row { number, key })?;
        Ok(Some(number))
    }
}

/// The event that a command maps, if it maps one.
fn mapped_by(taken: Option<&Command>) -> Option<(DeviceId, EventId)> {
    match *taken? {
        Command::Mapti { dev, ev, .. } | Command::Mapi { dev, ev, .. } => Some((dev, ev)),
        _ => None,
    }
}
