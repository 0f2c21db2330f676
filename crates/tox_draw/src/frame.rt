//! The frame of a picture: where its plot is, and its axes.
ghost use Rattle.std.specs.Prelude.{◌≡◌, ◌≤◌};
ghost use Rattle.tox_draw.specs.Frames.{IsFrame, column_of, frame_of, x_of, y_of};

use crate::axis::{Axis, part_of};
use crate::path::LEFT;
use tox_time::{HORIZON, MAX_BYTES, Micros};

/// The last column. Its x is that of the plot's right side.
pub(crate) const LAST_COLUMN: usize = 750;

/// How high the plot is.
const HEIGHT: u64 = 320;

/// Where the plot is, and its axes.
#[derive(Clone, Copy)]
pub(crate) struct Frame {
    pub(crate) top: u64,
    pub(crate) base: u64,
    pub(crate) time: Axis,
    pub(crate) bytes: Axis,
}

impl Frame {
    /// The frame below so many lines of heading, for a greatest instant and a greatest count.
    pub(crate) fn new(lines: u64, latest: &Micros, arrived: u64) -> Frame
        requires few { lines ≤ 3 }
        requires bytes { arrived ≤ 1_099_511_627_776 }
        ensures value { result ≡ frame_of lines latest.now arrived }
        ensures frame { IsFrame result }
    {
        let top = 56 + 20 * lines;
        Frame {
            top,
            base: top + HEIGHT,
            time: Axis::of(latest.get()),
            bytes: Axis::of(arrived),
        }
    }

    /// A frame for any instants and counts.
    pub(crate) fn widest() -> Frame
        ensures { IsFrame result }
    {
        Frame {
            top: 76,
            base: 396,
            time: Axis::of(HORIZON),
            bytes: Axis::of(MAX_BYTES),
        }
    }

    /// The column of an instant. What has none, and what is past the axis, has the last one.
    pub(crate) fn column_of(&self, instant: &Option<Micros>) -> usize
        requires { IsFrame self.now }
        ensures value { result ≡ column_of self.now instant.now }
        ensures within { result ≤ 750 }
    {
        match instant {
            Some(instant) => part_of(instant.get(), self.time.end, LAST_COLUMN as u64).min(
                LAST_COLUMN as u64,
            ) as usize,
            None => LAST_COLUMN,
        }
    }

    /// The x of an instant's column.
    pub(crate) fn x_of(&self, instant: &Option<Micros>) -> u64
        requires { IsFrame self.now }
        ensures value { result ≡ x_of self.now instant.now }
        ensures within { result ≤ 814 }
    {
        LEFT + self.column_of(instant) as u64
    }

    /// The y of a count.
    pub(crate) fn y_of(&self, count: u64) -> u64
        requires frame { IsFrame self.now }
        requires few { count ≤ 1_099_511_627_776 }
        ensures value { result ≡ y_of self.now count }
        ensures within { result ≤ self.now.base }
    {
        self.base
            .saturating_sub(part_of(count, self.bytes.end, HEIGHT))
    }
}
