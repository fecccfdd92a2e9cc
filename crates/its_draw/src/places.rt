//! Where things stand in a picture, in pixels from the left and from the top.
ghost use Rattle.std.specs.Prelude.{◌≡◌};
ghost use Rattle.its_draw.specs.Places as spec;

use its_types::Vcpu;

/// How many virtual processors have a lane of their own; the others share the last one.
pub const MOST_LANES: u16 = 16;

/// A point of a picture.
#[derive(Clone, Copy, Debug, PartialEq, Eq)]
pub struct Point {
    /// From the left.
    pub x: u64,
    /// From the top.
    pub y: u64,
}

/// How many columns, lanes and rows a picture has.
#[derive(Clone, Copy, Debug, PartialEq, Eq)]
pub struct Frame {
    /// Calls, one after another.
    pub columns: u32,
    /// Lanes of threads.
    pub threads: u32,
    /// Rows of events.
    pub rows: u32,
    /// Lanes of virtual processors.
    pub lanes: u16,
}

/// The middle of a column.
pub fn column_x(column: u32) -> u64
    ensures { result ≡ spec.column_x column }
{
    124 + 24 * u64::from(column)
}

/// The lane of a thread, of which the first is 1.
pub fn thread_y(thread: u32) -> u64
    ensures { result ≡ spec.thread_y thread }
{
    40 + 28 * u64::from(thread)
}

impl Frame {
    /// The middle of an event's row.
    pub fn event_y(&self, row: u32) -> u64
        ensures { result ≡ spec.event_y self.now row }
    {
        78 + 28 * u64::from(self.threads) + 20 * u64::from(row)
    }

    /// The lane of a virtual processor.
    pub fn vcpu_y(&self, vcpu: Vcpu) -> u64
        ensures { result ≡ spec.vcpu_y self.now vcpu.0 }
    {
        86 + 28 * u64::from(self.threads)
            + 20 * u64::from(self.rows)
            + 20 * u64::from(lane_of(vcpu))
    }

    /// The height.
    pub fn height(&self) -> u64
        ensures { result ≡ spec.height self.now }
    {
        88 + 28 * u64::from(self.threads) + 20 * u64::from(self.rows) + 20 * u64::from(self.lanes)
    }

    /// The width.
    pub fn width(&self) -> u64
        ensures { result ≡ spec.width self.now }
    {
        286 + 24 * u64::from(self.columns)
    }
}

/// The lane of a virtual processor, of which the first is 0.
fn lane_of(vcpu: Vcpu) -> u16
    ensures { result ≡ spec.lane_of vcpu.0 }
{
    if vcpu.0 < MOST_LANES {
        vcpu.0
    } else {
        MOST_LANES - 1
    }
}
